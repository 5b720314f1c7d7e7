// Calls on a whole frame. Alike calls stand one by one, since no exported function is generic.
ghost use Rattle.std.specs.Prelude.{◌≡◌};
ghost use Rattle.denoise.specs.Calls.{planes, frame_outcome};
ghost use Rattle.profile.specs.Answers.{estimate_answer};
ghost use Rattle.chroma_correlation.specs.Answer.{corr_answer};

use crate::frame_pair;
use chroma_correlation::ChromaCorr;
use denoise::PlanesMut;
use frame::{Planes, Shape};
use profile::NoiseEstimate;

// C lends each plane by itself, and is given a refusal's number: an exported function returns no enum.
#[unsafe(no_mangle)]
pub extern "C" fn grain_denoise_frame(
    s: Shape,
    y: &[u16],
    cb: &[u16],
    cr: &[u16],
    yout: &mut [u16],
    cbout: &mut [u16],
    crout: &mut [u16],
) -> u32
    ensures { (result, planes yout.new cbout.new crout.new) ≡ frame_outcome s (planes y.now cb.now cr.now) (planes yout.old cbout.old crout.old) }
{
    let source = Planes { y, cb, cr };
    let into = PlanesMut {
        y: yout,
        cb: cbout,
        cr: crout,
    };
    frame::number_of(&denoise::denoise_frame(s, &source, into))
}

// C lends each plane by itself.
#[unsafe(no_mangle)]
pub extern "C" fn grain_noise_estimate(
    s: Shape,
    y: &[u16],
    cb: &[u16],
    cr: &[u16],
    yden: &[u16],
    cbden: &[u16],
    crden: &[u16],
) -> NoiseEstimate
    ensures { result ≡ estimate_answer s y.now cb.now cr.now yden.now cbden.now crden.now }
{
    profile::noise_estimate(s, &frame_pair(y, cb, cr, yden, cbden, crden)).into()
}

// C lends each plane by itself.
#[unsafe(no_mangle)]
pub extern "C" fn grain_fit_chroma_corr(
    s: Shape,
    y: &[u16],
    cb: &[u16],
    cr: &[u16],
    yden: &[u16],
    cbden: &[u16],
    crden: &[u16],
) -> ChromaCorr
    ensures { result ≡ corr_answer s y.now cb.now cr.now yden.now cbden.now crden.now }
{
    chroma_correlation::fit_chroma_corr(s, &frame_pair(y, cb, cr, yden, cbden, crden)).into()
}
