// The auto-regressive coefficients of a frame's noise, by least squares.
#![tactic(auto)]

mod equations; // the normal equations in f64, from exact sums
mod coefficients; // solved and quantised
mod planes; // the fit of a plane

ghost use Rattle.std.specs.Prelude.{◌≡◌, ◌≤◌, length};
ghost use Rattle.float.specs.Reading.{both};
ghost use Rattle.fit.specs.Answer.{all_zero, first_of, unfit, fit_answer};
ghost use Rattle.fit.specs.Record.{coefficients_in, marks_in, record_of};

use float::Quantised;
use frame::{FramePair, Refusal, Shape};
use planes::{Chroma, chroma_fit, luma_fit};
use positions::{Lag, NEIGHBOUR_LIMIT};
use solve::ORDER_LIMIT;

// The coefficients, each times 64, with their marks, in the order of neighbours: `count` of luma, and of chroma one more, the luma tap. The unused ones are 0: arrays of the most, since there is no heap.
#[derive(Clone, Copy, Debug, PartialEq, Eq)]
pub struct Fitted {
    pub count: usize,
    pub luma: [Quantised; NEIGHBOUR_LIMIT],
    pub cb: [Quantised; ORDER_LIMIT],
    pub cr: [Quantised; ORDER_LIMIT],
}

// The answer as C has it: a refusal's number; whether there is a fit; the coefficients, and then the mark of each. Numbers and a flag, since
// an exported record holds no enum; an array of each field, as include/grain.h has them.
#[repr(C)]
#[derive(Clone, Copy)]
pub struct Fit {
    pub refusal: u32,
    pub found: bool,
    pub count: usize,
    pub luma: [i32; NEIGHBOUR_LIMIT],
    pub cb: [i32; ORDER_LIMIT],
    pub cr: [i32; ORDER_LIMIT],
    pub luma_marks: [u8; NEIGHBOUR_LIMIT],
    pub cb_marks: [u8; ORDER_LIMIT],
    pub cr_marks: [u8; ORDER_LIMIT],
}

// As C has them: coefficients, and marks as bytes.
fn coefficients_of<const N: usize>(x: [Quantised; N]) -> [i32; N]
    requires { N ≤ 25 }
    ensures { result ≡ coefficients_in x.entry }
{
    x.map(|q| q.coefficient)
}

fn marks_of<const N: usize>(x: [Quantised; N]) -> [u8; N]
    requires { N ≤ 25 }
    ensures { result ≡ marks_in x.entry }
{
    x.map(|q| q.mark.into())
}

// Refused, or with 0 no fit.
fn unfitted(refusal: u32) -> Fit
    ensures { result ≡ unfit refusal }
{
    Fit {
        refusal,
        found: false,
        count: 0,
        luma: [0; NEIGHBOUR_LIMIT],
        cb: [0; ORDER_LIMIT],
        cr: [0; ORDER_LIMIT],
        luma_marks: [0; NEIGHBOUR_LIMIT],
        cb_marks: [0; ORDER_LIMIT],
        cr_marks: [0; ORDER_LIMIT],
    }
}

impl From<Result<Option<Fitted>, Refusal>> for Fit {
    ghost from_gives = { λ outcome answer. answer ≡ record_of outcome };

    fn from(outcome: Result<Option<Fitted>, Refusal>) -> Self {
        match outcome {
            Ok(Some(fitted)) => Fit {
                refusal: 0,
                found: true,
                count: fitted.count,
                luma: coefficients_of(fitted.luma),
                cb: coefficients_of(fitted.cb),
                cr: coefficients_of(fitted.cr),
                luma_marks: marks_of(fitted.luma),
                cb_marks: marks_of(fitted.cb),
                cr_marks: marks_of(fitted.cr),
            },
            Ok(None) => unfitted(0),
            Err(refusal) => unfitted(refusal.into()),
        }
    }
}

// Luma's, which has no luma tap.
fn without_tap(x: [Quantised; ORDER_LIMIT]) -> [Quantised; NEIGHBOUR_LIMIT]
    ensures { result ≡ first_of both x }
{
    std::array::from_fn(|i| x[i])
}

// Are all 0?
fn all_zero(x: &[Quantised]) -> bool
    ensures { result ≡ all_zero (coefficients_in x.now) (length x.now) }
{
    x.iter().all(|q| q.coefficient == 0)
}

// The fit of a frame's noise at one lag; none where luma's coefficients are all 0.
pub fn fit_ar_lag(s: Shape, frame: &FramePair<'_>, lag: usize) -> Result<Option<Fitted>, Refusal>
    ensures { record_of result ≡ fit_answer s frame.now.source.y.now frame.now.source.cb.now frame.now.source.cr.now frame.now.denoised.y.now frame.now.denoised.cb.now frame.now.denoised.cr.now lag }
{
    frame::ask_fit(s, frame, lag)?;
    // The last question lets through what a Lag asks.
    let lag = Lag { reach: lag };
    let shown = normal::show_frame(frame, frame::geometry_of(s));
    let count = lag.neighbours();
    let luma = without_tap(luma_fit(&shown.luma, lag));
    if all_zero(&luma[..count]) {
        return Ok(None);
    }
    let Chroma { cb, cr } = chroma_fit(&shown, lag);
    Ok(Some(Fitted {
        count,
        luma,
        cb,
        cr,
    }))
}
