// A finite f64 above zero as a whole number times a power of two, or of four.
ghost use Rattle.std.specs.Prelude.{◌≡◌, ◌*◌, ◌^◌, ◌<◌, false, T};
ghost use Rattle.std.specs.Float.Ieee.Exact.{HasValue};
ghost use Rattle.std.specs.Float.Ieee.Positive.{positive};
ghost use Rattle.float.specs.Digits.{FullDigits, EvenDigits};

// The binary digits of an f64, and 2^52, which has that many.
pub const DIGITS: u32 = f64::MANTISSA_DIGITS;

pub const LEAD: u64 = 1 << (DIGITS - 1);

// The number m * 2^s.
#[derive(Clone, Copy)]
pub struct Scaled {
    pub m: u64,
    pub s: u64,
    pub ghost full: { FullDigits m s },
}

// The number m * 4^s.
#[derive(Clone, Copy)]
pub struct Even {
    pub m: u64,
    pub s: u64,
    pub ghost even: { EvenDigits m s },
}

impl Scaled {
    // m * 2^1074.
    fn leading(m: u64) -> Self
        requires { (0 < m) × (m < 2 ^ 52) }
        ensures { result.m * 2 ^ result.s ≡ m * 2 ^ 1074 }
    {
        let h = m.leading_zeros() - (u64::BITS - DIGITS);
        Scaled {
            m: m << h,
            s: 1074 - u64::from(h),
        }
    }

    // x * 2^2148, from the fields of its bit pattern.
    pub fn unpacked(x: f64) -> Self
        requires { T (positive x) }
        ensures { HasValue x false (result.m * 2 ^ result.s) (2 ^ 1074 * 2 ^ 1074) }
    {
        let bits = x.to_bits();
        let exponent = bits / LEAD;
        let fraction = bits % LEAD;
        if exponent == 0 {
            Self::leading(fraction)
        } else {
            Scaled {
                m: fraction + LEAD,
                s: exponent + 1073,
            }
        }
    }

    // The same number, times a power of four.
    pub fn even(self) -> Even
        ensures { result.m * (2 ^ result.s * 2 ^ result.s) ≡ self.m * 2 ^ self.s }
    {
        let m = if self.s % 2 == 0 { self.m } else { self.m * 2 };
        Even { m, s: self.s / 2 }
    }
}
