// Rust's `as` from a float, with a result for every float, and `clamp`.
ghost use Rattle.std.specs.Prelude.{◌≡◌};
ghost use Rattle.std.specs.Float.Ieee as Ieee;
ghost use Rattle.float.specs.Clamp.{clamp_of};

// x without its fraction, held to 0..2^64 - 1; NaN gives 0. Rust's `x as u64`.
pub fn as_u64(x: f64) -> u64
    ensures { result ≡ Ieee.to_unsigned 64 x }
{
    std::num::saturating_f64_to_u64(x)
}

// x without its fraction, held to -2^31..2^31 - 1; NaN gives 0. Rust's `x as i32`.
pub fn as_i32(x: f64) -> i32
    ensures { result ≡ Ieee.to_signed 31 x }
{
    std::num::saturating_f64_to_i32(x)
}

// x held to low..high. Rust's `x.clamp(low, high)`, which panics at low > high; there this is low or high.
// `i32::clamp` requires low <= high, and this has a result for every argument.
#[tactic(auto, unfolding(crate::specs::Clamp::clamp_of))]
pub fn clamp(x: i32, low: i32, high: i32) -> i32
    ensures { result ≡ clamp_of x low high }
{
    if x < low {
        low
    } else if high < x {
        high
    } else {
        x
    }
}
