// Numbers that look random, by shifts and exclusive ors alone: the recorder draws the same ones.
ghost use Rattle.std.specs.Prelude.{◌≡◌, IsSome};

// The number after x; 0 stays 0.
fn next(x: u32) -> u32
    ensures { x ≡ 0 → result ≡ 0 }
{
    let a = x ^ (x << 13);
    let b = a ^ (a >> 17);
    b ^ (b << 5)
}

// The numbers of a stream, without end.
#[derive(Clone, Copy)]
pub struct Draws(u32);

impl Draws {
    // Each stream of a seed begins elsewhere.
    pub fn new(seed: u32, stream: u32) -> Self {
        let x = 0x9e37_79b9 ^ (seed << 8) ^ (stream << 4);
        Draws(next(next(next(next(x)))))
    }
}

impl Iterator for Draws {
    type Item = u32;

    ghost next_gives = { λ _ r _. IsSome r };

    fn next(&mut self) -> Option<u32> {
        self.0 = next(self.0);
        Some(self.0)
    }
}
