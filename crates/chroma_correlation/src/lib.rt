// The correlation of a chroma plane's noise with luma's, as a coefficient with its mark.
#![tactic(auto)]

ghost use Rattle.std.specs.Prelude.{◌≡◌, ◌^◌, ◌≤◌, unsigned_abs};
ghost use Rattle.float.specs.Reading.{both};
ghost use Rattle.noise.specs.PlanePair.{shown};
ghost use Rattle.normal.specs.ShownFrame.{luma_in};
ghost use Rattle.chroma_correlation.specs.Exact.{tap_of};
ghost use Rattle.chroma_correlation.specs.Steps.{corr};
ghost use Rattle.chroma_correlation.specs.Answer.{corr_answer};
ghost use Rattle.chroma_correlation.specs.Record.{record_of};

use float::{Mark, Quantised, UNQUANTISED};
use frame::{FramePair, Refusal, Shape};
use normal::{ShownFrame, WindowedFrame};
use positions::Lag;

// The luma tap of each chroma plane, at lag 0, with its mark.
#[derive(Clone, Copy)]
pub struct Correlations {
    pub cb: Quantised,
    pub cr: Quantised,
}

// The answer as C has it: a refusal's number; the coefficients, and their marks. Numbers, since an exported record holds no enum.
#[repr(C)]
#[derive(Clone, Copy)]
pub struct ChromaCorr {
    pub refusal: u32,
    pub cb: i32,
    pub cr: i32,
    pub cb_mark: u8,
    pub cr_mark: u8,
}

impl From<Result<Correlations, Refusal>> for ChromaCorr {
    ghost from_gives = { λ outcome answer. answer ≡ record_of outcome };

    fn from(outcome: Result<Correlations, Refusal>) -> Self {
        match outcome {
            Ok(Correlations { cb, cr }) => ChromaCorr {
                refusal: 0,
                cb: cb.coefficient,
                cr: cr.coefficient,
                cb_mark: cb.mark.into(),
                cr_mark: cr.mark.into(),
            },
            Err(refusal) => ChromaCorr {
                refusal: refusal.into(),
                cb: 0,
                cr: 0,
                cb_mark: Mark::Inside.into(),
                cr_mark: Mark::Inside.into(),
            },
        }
    }
}

// Σ average × noise / Σ average², quantised: from the exact sums in quarters and in sixteenths, each turned into an f64 once.
fn tap(products: i64, squares: i64) -> Quantised
    requires { (unsigned_abs products ≤ 2 ^ 53) × (unsigned_abs squares ≤ 2 ^ 53) }
    ensures { result ≡ tap_of both products squares }
{
    let energy = std::num::nearest_i64_to_f64(squares) / 16.0;
    if energy <= 1e-9 {
        return UNQUANTISED;
    }
    let cross = std::num::nearest_i64_to_f64(products) / 4.0;
    float::quant_ar(cross / energy)
}

// The luma taps of Cb and Cr: at lag 0 the only factor is the sample, and the window is the plane.
fn correlate(frame: &ShownFrame<'_>) -> Correlations
    ensures cb { result.cb ≡ corr both (luma_in frame.now) (shown frame.now.cb) }
    ensures cr { result.cr ≡ corr both (luma_in frame.now) (shown frame.now.cr) }
{
    let mut cbtaps = [0; 1];
    let mut crtaps = [0; 1];
    let windowed = WindowedFrame {
        shown: *frame,
        lag: Lag { reach: 0 },
    };
    let squares = normal::tap_sums(&windowed, &mut cbtaps, &mut crtaps);
    Correlations {
        cb: tap(cbtaps[0], squares),
        cr: tap(crtaps[0], squares),
    }
}

// The luma taps of Cb and Cr at lag 0, where there are no luma coefficients.
pub fn fit_chroma_corr(s: Shape, frame: &FramePair<'_>) -> Result<Correlations, Refusal>
    ensures { record_of result ≡ corr_answer s frame.now.source.y.now frame.now.source.cb.now frame.now.source.cr.now frame.now.denoised.y.now frame.now.denoised.cb.now frame.now.denoised.cr.now }
{
    frame::ask_frame(s, frame)?;
    let shown = normal::show_frame(frame, frame::geometry_of(s));
    Ok(correlate(&shown))
}
