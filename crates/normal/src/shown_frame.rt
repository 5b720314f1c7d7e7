// A frame and its denoised copy, as a geometry shows them.
ghost use Rattle.std.specs.Prelude.{◌≡◌};
ghost use Rattle.noise.specs.Seen.{Over};

use frame::Sampling;
use noise::PlanePair;

// Both chroma planes are looked at in one way, and lie over luma as the sampling says.
#[derive(Clone, Copy)]
pub struct ShownFrame<'a> {
    pub luma: PlanePair<'a>,
    pub cb: PlanePair<'a>,
    pub cr: PlanePair<'a>,
    pub sampling: Sampling,
    ghost alike: { cr.view ≡ cb.view },
    ghost over: { Over (record { luma = luma.view; chroma = cb.view; sampling = sampling }) },
}
