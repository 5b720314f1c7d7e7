// The profiles of a frame.
ghost use Rattle.std.specs.Prelude.{◌≡◌, replicate};
ghost use Rattle.profile.specs.Answers.{estimate_answer};
ghost use Rattle.profile.specs.Record.{luma_record, chroma_record, estimate_record};

use crate::low_pair::LowPair;
use crate::profiles::{Profile, profile_of};
use crate::split::Split;
use crate::{ChromaProfile, LumaProfile, NoiseEstimate};
use frame::{Component, FramePair, Refusal, Shape};

// The profiles of a frame's planes.
#[derive(Clone, Copy)]
pub struct Estimate {
    pub luma: Profile<8>,
    pub cb: Profile<4>,
    pub cr: Profile<4>,
}

impl From<Profile<8>> for LumaProfile {
    ghost from_gives = { λ profile r. r ≡ luma_record profile };

    fn from(profile: Profile<8>) -> LumaProfile {
        let Profile {
            sigma16,
            bin_sigma16,
            bin_count,
            bin_squares,
        } = profile;
        LumaProfile {
            sigma16,
            bin_sigma16,
            bin_count,
            bin_squares,
        }
    }
}

impl From<Profile<4>> for ChromaProfile {
    ghost from_gives = { λ profile r. r ≡ chroma_record profile };

    fn from(profile: Profile<4>) -> ChromaProfile {
        let Profile {
            sigma16,
            bin_sigma16,
            bin_count,
            bin_squares,
        } = profile;
        ChromaProfile {
            sigma16,
            bin_sigma16,
            bin_count,
            bin_squares,
        }
    }
}

impl From<Result<Estimate, Refusal>> for NoiseEstimate {
    ghost from_gives = { λ answer r. r ≡ estimate_record answer };

    fn from(answer: Result<Estimate, Refusal>) -> NoiseEstimate {
        match answer {
            Ok(estimate) => NoiseEstimate {
                refusal: 0,
                luma: estimate.luma.into(),
                cb: estimate.cb.into(),
                cr: estimate.cr.into(),
            },
            Err(refusal) => NoiseEstimate {
                refusal: refusal.into(),
                luma: blank::<8>().into(),
                cb: blank::<4>().into(),
                cr: blank::<4>().into(),
            },
        }
    }
}

// A profile of zeros.
fn blank<const BINS: usize>() -> Profile<BINS>
    ensures { result ≡ record { sigma16 = 0; bin_sigma16 = replicate BINS 0; bin_count = replicate BINS 0; bin_squares = replicate BINS 0 } }
{
    Profile {
        sigma16: 0,
        bin_sigma16: [0; BINS],
        bin_count: [0; BINS],
        bin_squares: [0; BINS],
    }
}

// The profiles of a frame's planes: eight bins of luma, with 64 samples at least, and four of chroma, with 32.
pub fn noise_estimate(s: Shape, frame: &FramePair<'_>) -> Result<Estimate, Refusal>
    ensures { estimate_record result ≡ estimate_answer s frame.now.source.y.now frame.now.source.cb.now frame.now.source.cr.now frame.now.denoised.y.now frame.now.denoised.cb.now frame.now.denoised.cr.now }
{
    frame::ask_frame(s, frame)?;
    let source = frame.source;
    let denoised = frame.denoised;
    let chroma = frame::view_of(s, Component::CbCr);
    let y = LowPair {
        source: source.y,
        denoised: denoised.y,
        view: frame::view_of(s, Component::Y),
        depth: s.depth,
    };
    let cb = LowPair {
        source: source.cb,
        denoised: denoised.cb,
        view: chroma,
        depth: s.depth,
    };
    let cr = LowPair {
        source: source.cr,
        denoised: denoised.cr,
        view: chroma,
        depth: s.depth,
    };
    Ok(Estimate {
        luma: profile_of(&y, Split { bits: 3 }, 64),
        cb: profile_of(&cb, Split { bits: 2 }, 32),
        cr: profile_of(&cr, Split { bits: 2 }, 32),
    })
}
