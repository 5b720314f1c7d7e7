// One plane of two frames, each with its denoised copy.
ghost use Rattle.noise.specs.PlanePair.{SameSize};

use crate::plane_pair::PlanePair;

// Both are of one size where they are shown.
#[derive(Clone, Copy)]
pub struct TwoFrames<'a> {
    pub first: PlanePair<'a>,
    pub second: PlanePair<'a>,
    ghost alike: { SameSize first.view second.view },
}
