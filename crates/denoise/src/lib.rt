// The denoised plane and the denoised frame.
#![tactic(auto)]

ghost use Rattle.std.specs.Prelude.{◌≡◌};
ghost use Rattle.frame.specs.Refusal.{number_of};
ghost use Rattle.denoise.specs.Calls.{plane_outcome, planes, left, frame_outcome};

use frame::{Component, Planes, Refusal, Shape};

mod line;
mod plane;

use plane::Plane;

// Each sample of `dst`: (1 2 1 / 2 4 2 / 1 2 1 over the 3×3 neighbours in `src` + 8) >> 4.
// Samples and size come apart, since the questions ask whether they fit.
#[tactic(auto, unfolding(crate::specs::Calls::plane_outcome, frame::specs::Calls::plane_refusal, frame::specs::Calls::plane_numbers, frame::specs::Questions::each))]
pub fn denoise_plane(
    src: &[u16],
    dst: &mut [u16],
    width: usize,
    height: usize,
) -> Result<(), Refusal>
    ensures { (number_of result, dst.new) ≡ plane_outcome src.now dst.old width height }
{
    frame::ask_plane(width, height, src.len(), dst.len())?;
    Plane::new(src, width, height).smooth(dst);
    Ok(())
}

// The planes of a frame that are written.
#[derive(Drop)]
pub struct PlanesMut<'a> {
    pub y: &'a mut [u16],
    pub cb: &'a mut [u16],
    pub cr: &'a mut [u16],
}

// Each plane of a frame denoised, at its own size.
#[tactic(auto, using(crate::proofs::Calls::accepted_number), unfolding(crate::specs::Calls::frame_outcome, crate::specs::Calls::denoised_frame))]
pub fn denoise_frame(s: Shape, source: &Planes<'_>, into: PlanesMut<'_>) -> Result<(), Refusal>
    ensures { (number_of result, left into.exit) ≡ frame_outcome s (planes source.now.y.now source.now.cb.now source.now.cr.now) (planes into.entry.y.now into.entry.cb.now into.entry.cr.now) }
{
    let PlanesMut { y, cb, cr } = into;
    frame::ask_denoise_frame(s, source, y.len(), cb.len(), cr.len())?;
    let width = s.width_of(Component::CbCr);
    let height = s.height_of(Component::CbCr);
    Plane::new(source.y, s.width, s.height).smooth(y);
    Plane::new(source.cb, width, height).smooth(cb);
    Plane::new(source.cr, width, height).smooth(cr);
    Ok(())
}
