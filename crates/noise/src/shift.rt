// How far noises are shifted.
ghost use Rattle.std.specs.Prelude.{◌≡◌, ◌-◌, ◌<◌, ◌≤◌};

// By fewer bits than an i16 has.
#[derive(Clone, Copy)]
pub struct Shift {
    pub bits: u32,
    ghost small: { bits < 16 },
}

// From noise of samples of this depth to 8-bit steps. (Not of the type: no method of a public type asks anything of its caller.)
pub fn depth_shift(depth: u8) -> Shift
    requires { (8 ≤ depth) × (depth ≤ 12) }
    ensures { result.bits ≡ depth - 8 }
{
    Shift {
        bits: u32::from(depth - 8),
    }
}
