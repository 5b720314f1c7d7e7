// Bytes in parts. A list is not always text.
ghost use Rattle.std.specs.Prelude.{◌≡◌, ◌+◌, ◌<◌, ◌≤◌, length, MatchOption};
ghost use Rattle.std.specs.Iterator.{at_most};

// The bytes before the first stop, and those behind it; where there is none, all of them and none.
pub fn split_once(bytes: &[u8], stop: u8) -> (&[u8], &[u8])
    ensures shorter { 0 < length bytes.now → length result.1.now < length bytes.now }
    ensures apart { length result.0.now + length result.1.now ≤ length bytes.now }
{
    for (at, byte) in bytes.iter().enumerate() {
        if *byte == stop {
            return (&bytes[..at], &bytes[at + 1..]);
        }
    }
    (bytes, &[])
}

// The lines of a text, of which the last needs no end.
#[derive(Clone, Copy)]
pub struct Lines<'a>(&'a [u8]);

impl<'a> Lines<'a> {
    pub fn of(text: &'a [u8]) -> Self
        ensures { result.0.now ≡ text.now }
    {
        Lines(text)
    }
}

impl<'a> Iterator for Lines<'a> {
    type Item = &'a [u8];

    ghost next_gives = { λ lines line rest. MatchOption line (rest ≡ lines) (λ bytes. (length rest.0.now < length lines.0.now) × (length bytes.now + length rest.0.now ≤ length lines.0.now)) };

    ghost remaining = { λ lines. at_most (length lines.0.now) };

    fn next(&mut self) -> Option<&'a [u8]> {
        if self.0.is_empty() {
            return None;
        }
        let (line, rest) = split_once(self.0, b'\n');
        self.0 = rest;
        Some(line)
    }
}
