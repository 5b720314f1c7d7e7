// Many values as one number.
use std::num::f64_to_bits_with_nan;

// A value as 64 bits.
pub trait Word: Copy {
    fn word(self) -> u64;
}

impl Word for u8 {
    fn word(self) -> u64 {
        u64::from(self)
    }
}

impl Word for u16 {
    fn word(self) -> u64 {
        u64::from(self)
    }
}

impl Word for u64 {
    fn word(self) -> u64 {
        self
    }
}

impl Word for usize {
    // The library has no `From` here.
    fn word(self) -> u64 {
        self as u64
    }
}

impl Word for bool {
    fn word(self) -> u64 {
        u64::from(self)
    }
}

// A coefficient, as the float that it is.
impl Word for i32 {
    fn word(self) -> u64 {
        f64::from(self).word()
    }
}

// Every NaN as the same one.
impl Word for f64 {
    fn word(self) -> u64 {
        f64_to_bits_with_nan(self)
    }
}

// The values so far. Zeros alone leave it 0.
#[derive(Clone, Copy, Default)]
pub struct Digest(u64);

impl Digest {
    // One more value.
    pub fn with(self, value: impl Word) -> Self {
        let x = self.0 ^ value.word();
        let a = x ^ (x << 13);
        let b = a ^ (a >> 7);
        Digest(b ^ (b << 17))
    }

    // Each of more values, in order. Never inlined: the lists of an answer have a known length, and would be written out value by value, 11 KB of program.
    #[inline(never)]
    pub fn with_all<W: Word>(self, values: &[W]) -> Self {
        values
            .iter()
            .fold(self, |digest, value| digest.with(*value))
    }

    pub fn finish(self) -> u64 {
        self.0
    }
}
