// The planes of a recorded call.
ghost use Rattle.std.specs.Prelude.{◌≡◌, ◌↔◌, ◌<◌, IsSome};
ghost use Rattle.cases.specs.Planes.{pair_of, size_of};

// Which pair of a source and its denoised copy.
#[derive(Clone, Copy, PartialEq, Eq)]
pub enum PairNumber {
    First = 1,
    Second,
    Third,
}

#[derive(Clone, Copy, PartialEq, Eq)]
pub enum Plane {
    Source(PairNumber),
    Denoised(PairNumber),
}

// Whether a plane has luma's size or chroma's.
#[derive(Clone, Copy, PartialEq, Eq)]
pub enum Size {
    Luma,
    Chroma,
}

// What the pairs are: the planes of a frame, or luma of two frames, or chroma. Of two frames the third pair is chroma's, and is not lent.
#[derive(Clone, Copy, PartialEq, Eq)]
pub enum Layout {
    Frame,
    Lumas,
    Chromas,
}

impl Layout {
    pub fn size(self, pair: PairNumber) -> Size
        ensures { result ≡ size_of self pair }
    {
        match (self, pair) {
            (Layout::Frame, PairNumber::First) => Size::Luma,
            (Layout::Lumas, PairNumber::First | PairNumber::Second) => Size::Luma,
            _ => Size::Chroma,
        }
    }
}

impl Plane {
    pub const ALL: [Plane; 6] = [
        Plane::Source(PairNumber::First),
        Plane::Source(PairNumber::Second),
        Plane::Source(PairNumber::Third),
        Plane::Denoised(PairNumber::First),
        Plane::Denoised(PairNumber::Second),
        Plane::Denoised(PairNumber::Third),
    ];

    // Where it stands among all.
    pub fn place(self) -> usize
        ensures { result < 6 }
    {
        match self {
            Plane::Source(pair) => pair as usize - 1,
            Plane::Denoised(pair) => pair as usize + 2,
        }
    }

    // As faults number them. No `TryFrom`: with another number nothing is wrong, and it is no error.
    pub fn numbered(number: u64) -> Option<Plane>
        ensures { IsSome result ↔ ((0 < number) × (number < 7)) }
    {
        Some(match number {
            1 => Plane::Source(PairNumber::First),
            2 => Plane::Source(PairNumber::Second),
            3 => Plane::Source(PairNumber::Third),
            4 => Plane::Denoised(PairNumber::First),
            5 => Plane::Denoised(PairNumber::Second),
            6 => Plane::Denoised(PairNumber::Third),
            _ => return None,
        })
    }

    pub fn pair(self) -> PairNumber
        ensures { result ≡ pair_of self }
    {
        match self {
            Plane::Source(pair) | Plane::Denoised(pair) => pair,
        }
    }
}
