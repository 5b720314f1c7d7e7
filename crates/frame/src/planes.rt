// Planes as they are lent. Before the questions nothing holds of them and of the shape, or a lone plane's size, that comes beside them, so no struct joins these.

// A plane and its denoised copy.
#[derive(Clone, Copy)]
pub struct Pair<'a> {
    pub source: &'a [u16],
    pub denoised: &'a [u16],
}

// The planes of a frame.
#[derive(Clone, Copy)]
pub struct Planes<'a> {
    pub y: &'a [u16],
    pub cb: &'a [u16],
    pub cr: &'a [u16],
}

// The planes of a frame and those of its denoised copy.
#[derive(Clone, Copy)]
pub struct FramePair<'a> {
    pub source: Planes<'a>,
    pub denoised: Planes<'a>,
}
