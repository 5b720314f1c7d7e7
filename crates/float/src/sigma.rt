// Sigma16 of a sum of squares and a count.
ghost use Rattle.std.specs.Prelude.{◌≡◌};
ghost use Rattle.float.specs.Steps.{sigma16_of};

use crate::cast::as_u64;
use crate::root::sqrt;
use crate::rounding::round;

// round(16 * root(sq / count)), each step rounded to f64; 0 where nothing is counted.
#[tactic(auto, unfolding(crate::specs::Steps::sigma16_of))]
pub fn sigma16(sq: u64, count: u64) -> u64
    ensures { result ≡ sigma16_of sq count }
{
    if count == 0 {
        return 0;
    }
    let a = std::num::nearest_u64_to_f64(sq);
    let b = std::num::nearest_u64_to_f64(count);
    as_u64(round(sqrt(a / b) * 16.0))
}
