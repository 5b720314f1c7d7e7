// Row correlation, and the gates of luma and of chroma.
#![tactic(auto)]

mod finding;
mod row_correlation;
mod sums;

ghost use Rattle.std.specs.Prelude.{◌≡◌};
ghost use Rattle.frame.specs.Refusal.{numbered};
ghost use Rattle.noise.specs.PlanePair.{shown};
ghost use Rattle.noise.specs.Seen.{seen, Seen};
ghost use Rattle.gate.specs.Answers.{rho_answer, luma_answer, chroma_answer};
ghost use Rattle.gate.specs.Record.{record_of};

use frame::{Component, Pair, Refusal, Shape, View};
use noise::{PlanePair, TwoFrames};

// What a gate answers, as C has it: a refusal's number, and the answer beside it, since an exported record holds no enum.
#[repr(C)]
#[derive(Clone, Copy)]
pub struct Gate {
    pub refusal: u32,
    pub yes: bool,
}

impl From<Result<bool, Refusal>> for Gate {
    ghost from_gives = { λ answer r. r ≡ record_of answer };

    fn from(answer: Result<bool, Refusal>) -> Gate {
        match answer {
            Ok(yes) => Gate { refusal: 0, yes },
            Err(refusal) => Gate {
                refusal: refusal.into(),
                yes: false,
            },
        }
    }
}

// A plane and its copy, as a view shows them.
fn seen(pair: Pair<'_>, view: View) -> PlanePair<'_>
    requires { Seen view pair.source.now pair.denoised.now }
    ensures shows { shown result ≡ seen view pair.entry.source.now pair.entry.denoised.now }
    ensures view { result.view ≡ view }
{
    PlanePair {
        source: pair.source,
        denoised: pair.denoised,
        view,
    }
}

// A plane of two frames, as a view shows it.
fn two_frames<'a>(first: Pair<'a>, second: Pair<'a>, view: View) -> TwoFrames<'a>
    requires first { Seen view first.source.now first.denoised.now }
    requires second { Seen view second.source.now second.denoised.now }
    ensures first { shown result.first ≡ seen view first.entry.source.now first.entry.denoised.now }
    ensures second { shown result.second ≡ seen view second.entry.source.now second.entry.denoised.now }
    ensures view { result.first.view ≡ view }
{
    TwoFrames {
        first: seen(first, view),
        second: seen(second, view),
    }
}

// Σ n(r, c) × n(r, c + lag) / Σ n(r, c)², n the noise: from -1 to 1; 0.0 where there is nothing to divide. (The size stands beside the plane and in no struct: nothing holds of them before the questions.)
pub fn lag_h_rho(
    pair: Pair<'_>,
    width: usize,
    height: usize,
    lag: usize,
    depth: u8,
) -> Result<f64, Refusal>
    ensures { numbered result ≡ rho_answer pair.entry.source.now pair.entry.denoised.now width height lag depth }
{
    frame::ask_pair(pair, width, height, depth)?;
    let plane = seen(pair, View::whole(width, height));
    Ok(row_correlation::row_correlation(&plane, lag))
}

// Whether the luma of two frames carries grain: the tests of the luma gate, in their order. (Two pairs and no `TwoFrames`: nothing holds of them before the questions.)
pub fn film_grain_probe(s: Shape, first: Pair<'_>, second: Pair<'_>) -> Result<bool, Refusal>
    ensures { record_of result ≡ luma_answer s first.entry.source.now first.entry.denoised.now second.entry.source.now second.entry.denoised.now }
{
    frame::ask_gate(s, Component::Y, first, second)?;
    let view = frame::view_of(s, Component::Y);
    let shift = noise::depth_shift(s.depth);
    Ok(finding::luma_finding(&two_frames(first, second, view), shift).is_ok())
}

// Whether one chroma component of two frames carries grain: the tests of the chroma gate, in their order. (Two pairs, likewise.)
pub fn chroma_noise_gate(
    s: Shape,
    first: Pair<'_>,
    second: Pair<'_>,
    sigma16: u64,
) -> Result<bool, Refusal>
    ensures { record_of result ≡ chroma_answer s first.entry.source.now first.entry.denoised.now second.entry.source.now second.entry.denoised.now sigma16 }
{
    frame::ask_gate(s, Component::CbCr, first, second)?;
    let view = frame::view_of(s, Component::CbCr);
    Ok(finding::chroma_finding(sigma16, &two_frames(first, second, view)).is_ok())
}
