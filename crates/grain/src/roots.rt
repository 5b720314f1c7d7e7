// The root with its digits.
ghost use Rattle.std.specs.Prelude.{◌≡◌};
ghost use Rattle.float.specs.WorkedDigits.{worked_root};

use float::Root;

#[unsafe(no_mangle)]
pub extern "C" fn grain_sqrt_digits(x: f64) -> Root
    ensures { result ≡ worked_root x }
{
    float::sqrt_digits(x)
}
