// The whole numbers of a line, with spaces between.
ghost use Rattle.std.specs.Prelude.{◌≡◌, ◌+◌, ◌*◌, ◌%◌, ◌^◌, fold};

use crate::bytes::split_once;

// A number's low bits, as many as a type has: `as` is for numbers that fit, and the library has no conversion that cuts.
pub trait Low: Copy {
    fn low(number: u64) -> Self;
}

impl Low for u8 {
    fn low(number: u64) -> Self {
        (number % 0x100) as u8
    }
}

impl Low for u16 {
    fn low(number: u64) -> Self {
        (number % 0x1_0000) as u16
    }
}

impl Low for u32 {
    fn low(number: u64) -> Self {
        (number % 0x1_0000_0000) as u32
    }
}

impl Low for u64 {
    fn low(number: u64) -> Self {
        number
    }
}

impl Low for usize {
    fn low(number: u64) -> Self {
        number as usize
    }
}

// Any bytes write a number: each is a digit, by its remainder of 48, and the number has 64 bits.
fn written(word: &[u8]) -> u64
    ensures { result ≡ fold (λ number byte. (10 * number + byte % 48) % 2 ^ 64) 0 word.now }
{
    word.iter().fold(0, |number: u64, byte| {
        number.wrapping_mul(10).wrapping_add(u64::from(byte % 48))
    })
}

#[derive(Clone, Copy)]
pub struct Numbers<'a>(&'a [u8]);

impl<'a> Numbers<'a> {
    pub fn of(line: &'a [u8]) -> Self {
        Numbers(line)
    }

    // The next one; 0 past the last.
    pub fn read<T: Low>(&mut self) -> T {
        let (word, rest) = split_once(self.0, b' ');
        self.0 = rest;
        T::low(written(word))
    }
}
