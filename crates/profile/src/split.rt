// How samples are split into bins.
ghost use Rattle.std.specs.Prelude.{◌≡◌, ◌^◌, ◌≤◌};

// By their highest bits, into 2^bits bins.
#[derive(Clone, Copy)]
pub struct Split<const BINS: usize> {
    pub bits: u32,
    ghost narrow: { bits ≤ 8 },
    ghost number: { BINS ≡ 2 ^ bits },
}
