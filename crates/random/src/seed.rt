// The seed of a frame's grain, from its order hint.
ghost use Rattle.std.specs.Prelude.{◌≡◌};
ghost use Rattle.random.specs.Seed.{seed};

// The low 16 bits of hint × 0x9e37 + 0x51ed, wrapping.
pub fn grain_seed_for(order_hint: u32) -> u16
    ensures { result ≡ seed order_hint }
{
    (order_hint.wrapping_mul(0x9e37).wrapping_add(0x51ed) & 0xffff) as u16
}
