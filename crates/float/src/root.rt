// The correctly rounded root of an f64, digit by digit.
ghost use Rattle.std.specs.Prelude.{◌≡◌, ◌-◌, ◌*◌, ◌^◌, ◌<◌, ◌≤◌, T};
ghost use Rattle.std.specs.Float.Ieee.Positive.{positive};
ghost use Rattle.float.specs.Root.{whole_root, root};
ghost use Rattle.float.specs.WorkedDigits.{digits_of, worked_root};

use crate::scaled::{DIGITS, LEAD, Scaled};

// A root cut to a whole number; the rest, what the number under the root has above its square; and
// how many digits were worked.
#[derive(Clone, Copy)]
struct Digits {
    root: u64,
    rest: u64,
    worked: u32,
}

// The root of m * 2^52: its 53 binary digits one at a time, the highest first. It ends as soon as
// nothing remains, and the other digits are zeros. By number, since the turn at which it ends is the
// count of the digits worked.
fn root_digits(m: u64) -> Digits
    requires { (2 ^ 52 ≤ m) × (m < 2 ^ 54) }
    ensures { (result.root ≡ whole_root (m * 2 ^ 52)) × (result.rest ≡ m * 2 ^ 52 - result.root * result.root) × (result.worked ≡ digits_of (m * 2 ^ 52)) }
{
    let mut root = 0;
    let mut rest = 0;
    let mut left = m;
    for i in 0..DIGITS {
        if rest + left == 0 {
            return Digits {
                root: root << (DIGITS - i),
                rest: 0,
                worked: i,
            };
        }
        rest = rest * 4 + left / LEAD;
        left = left % LEAD * 4;
        let step = root * 4 + 1;
        root *= 2;
        if step <= rest {
            rest -= step;
            root += 1;
        }
    }
    Digits {
        root,
        rest,
        worked: DIGITS,
    }
}

// A root, and how many of its binary digits were worked.
#[repr(C)]
#[derive(Clone, Copy)]
pub struct Root {
    pub value: f64,
    pub digits: u32,
}

impl Root {
    // A root of which no digit is worked.
    fn unworked(value: f64) -> Self
        ensures { result ≡ record { value = value; digits = 0 } }
    {
        Root { value, digits: 0 }
    }
}

// The root of x, finite and above zero: 53 digits, rounded up where the rest is above them.
fn positive_root(x: f64) -> Root
    requires { T (positive x) }
    ensures { result ≡ worked_root x }
{
    let under = Scaled::unpacked(x).even();
    let digits = root_digits(under.m);
    let root = if digits.root < digits.rest {
        digits.root + 1
    } else {
        digits.root
    };
    Root {
        value: f64::from_bits((under.s - 26) * LEAD + root),
        digits: digits.worked,
    }
}

// The root of x, correctly rounded, and how many of its digits were worked: from the first 1 to the
// last if the root is exact, else 53; none where x is not a finite number above 0.
pub fn sqrt_digits(x: f64) -> Root
    ensures { result ≡ worked_root x }
{
    if x > 0.0 && x < f64::INFINITY {
        positive_root(x)
    } else if x == 0.0 || x == f64::INFINITY {
        Root::unworked(x)
    } else {
        Root::unworked(f64::NAN)
    }
}

// The root of x, correctly rounded. Rust's `sqrt`; not by the machine's instruction, so that one
// loop and one proof work this root and the one with its digits.
pub fn sqrt(x: f64) -> f64
    ensures { result ≡ root x }
{
    sqrt_digits(x).value
}
