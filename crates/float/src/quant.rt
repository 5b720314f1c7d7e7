// The quantiser of coefficients, and what it says of each.
ghost use Rattle.std.specs.Prelude.{◌≡◌};
ghost use Rattle.float.specs.Steps.{rounded64};
ghost use Rattle.float.specs.Mark.{mark, number};
ghost use Rattle.float.specs.Reading.{quantise};

use crate::cast::{as_i32, clamp};
use crate::rounding::round;

// What became of a value that was quantised.
#[repr(u8)]
#[derive(Clone, Copy, Debug, PartialEq, Eq)]
pub enum Mark {
    Inside,
    HeldLow,
    HeldHigh,
    NotANumber,
}

// As a byte of an answer: 0 to 3.
impl From<Mark> for u8 {
    ghost from_gives = { λ mark byte. byte ≡ number mark };

    fn from(mark: Mark) -> u8 {
        mark as u8
    }
}

// A coefficient, and its mark.
#[derive(Clone, Copy, Debug, PartialEq, Eq)]
pub struct Quantised {
    pub coefficient: i32,
    pub mark: Mark,
}

// A coefficient that is set to zero without quantising.
pub const UNQUANTISED: Quantised = Quantised {
    coefficient: 0,
    mark: Mark::Inside,
};

// The mark of c, told by 64c as a whole number that is not yet held to the coefficients' range. As an i32 a NaN is 0, so c is asked.
fn mark_of(c: f64, whole: i32) -> Mark
    requires { whole ≡ rounded64 c }
    ensures { result ≡ mark c }
{
    if c.is_nan() {
        Mark::NotANumber
    } else if whole < -128 {
        Mark::HeldLow
    } else if whole > 127 {
        Mark::HeldHigh
    } else {
        Mark::Inside
    }
}

// The whole number nearest to 64c, halves away from zero, held to -128..127.
pub fn quant_ar(c: f64) -> Quantised
    ensures { result ≡ quantise c }
{
    let whole = as_i32(round(c * 64.0));
    Quantised {
        coefficient: clamp(whole, -128, 127),
        mark: mark_of(c, whole),
    }
}
