// How a geometry shows a frame and its denoised copy.
ghost use Rattle.std.specs.Prelude.{◌≡◌};
ghost use Rattle.noise.specs.PlanePair.{shown};
ghost use Rattle.noise.specs.Seen.{seen, SeenFrame};
ghost use Rattle.noise.specs.Average.{luma_seen};
ghost use Rattle.normal.specs.ShownFrame.{luma_in};

use crate::shown_frame::ShownFrame;
use frame::{FramePair, Geometry};
use noise::PlanePair;

pub fn show_frame<'a>(planes: &FramePair<'a>, geometry: Geometry) -> ShownFrame<'a>
    requires { SeenFrame geometry planes.now.source.y.now planes.now.denoised.y.now planes.now.source.cb.now planes.now.denoised.cb.now planes.now.source.cr.now planes.now.denoised.cr.now }
    ensures luma { luma_in result ≡ luma_seen geometry planes.now.source.y.now planes.now.denoised.y.now }
    ensures cb { shown result.cb ≡ seen geometry.chroma planes.now.source.cb.now planes.now.denoised.cb.now }
    ensures cr { shown result.cr ≡ seen geometry.chroma planes.now.source.cr.now planes.now.denoised.cr.now }
{
    let source = planes.source;
    let denoised = planes.denoised;
    ShownFrame {
        luma: PlanePair {
            source: source.y,
            denoised: denoised.y,
            view: geometry.luma,
        },
        cb: PlanePair {
            source: source.cb,
            denoised: denoised.cb,
            view: geometry.chroma,
        },
        cr: PlanePair {
            source: source.cr,
            denoised: denoised.cr,
            view: geometry.chroma,
        },
        sampling: geometry.sampling,
    }
}
