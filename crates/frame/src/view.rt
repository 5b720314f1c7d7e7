// How a plane is looked at.
ghost use Rattle.std.specs.Prelude.{◌≡◌};
ghost use Rattle.frame.specs.View.{whole};

// Row r begins at start + r × step, and column c stands c × stride further on.
#[derive(Clone, Copy)]
pub struct View {
    pub start: usize,
    pub step: usize,
    pub stride: usize,
    pub width: usize,
    pub height: usize,
}

impl View {
    // The whole of a plane in row order.
    pub fn whole(width: usize, height: usize) -> View
        ensures { result ≡ whole width height }
    {
        View {
            start: 0,
            step: width,
            stride: 1,
            width,
            height,
        }
    }
}

// Luma, or one of the two chroma planes, which are of one size.
#[derive(Clone, Copy)]
pub enum Component {
    Y,
    CbCr,
}

// A chroma sample lies over 2^across columns and 2^down rows of luma: each is 1 where the format halves that direction, else 0. Amounts and no flags, as the specification's subX and subY, by which sizes are shifted: luma's row r × (down + 1) is the first under chroma's row r.
#[derive(Clone, Copy)]
pub struct Sampling {
    pub across: usize,
    pub down: usize,
}

// What a call sees of a frame: of luma, and of either chroma plane.
#[derive(Clone, Copy)]
pub struct Geometry {
    pub luma: View,
    pub chroma: View,
    pub sampling: Sampling,
}
