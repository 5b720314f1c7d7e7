// The tests of the gates, in their order: each gate ends at the first that fails.
ghost use Rattle.std.specs.Prelude.{◌≡◌};
ghost use Rattle.noise.specs.PlanePair.{shown};
ghost use Rattle.noise.specs.Steps.{dot_f};
ghost use Rattle.gate.specs.Tests.{time_test, second_finding, luma_of, chroma_finding};

use crate::row_correlation::correlation_of;
use crate::sums;
use noise::{Shift, TwoFrames};

// The first test that a gate fails.
#[derive(Clone, Copy, Debug, PartialEq, Eq)]
pub enum Failure {
    LowSigma,
    EmptyPlane,
    NoEnergyFirst,
    RowCorrelated,
    NoEnergySecond,
    TimeCorrelated,
}

// |cross / √(e₀ e₁)| < 0.4
fn time_test(cross: f64, e0: f64, e1: f64) -> bool
    ensures { result ≡ time_test cross e0 e1 }
{
    float::magnitude(cross / float::sqrt(e0 * e1)) < 0.4
}

// The second's energy, then the temporal test, from the first's energy.
fn second_finding(frames: &TwoFrames, e0: f64) -> Result<(), Failure>
    requires { e0 ≡ dot_f (shown frames.now.first) (shown frames.now.first) }
    ensures { result ≡ second_finding (shown frames.now.first) (shown frames.now.second) }
{
    let sums = sums::of_pair(frames);
    if sums.second <= 0.0 {
        Err(Failure::NoEnergySecond)
    } else if time_test(sums.cross, e0, sums.second) {
        Ok(())
    } else {
        Err(Failure::TimeCorrelated)
    }
}

// The luma gate's tests; sigma16 is worked from the first's noise, shifted.
pub fn luma_finding(frames: &TwoFrames, shift: Shift) -> Result<(), Failure>
    ensures { result ≡ luma_of shift.bits (shown frames.now.first) (shown frames.now.second) }
{
    let sums = sums::of_plane(&frames.first, 1, shift);
    let e0 = sums.energy;
    let sigma16 = float::sigma16(sums.squares, frames.first.samples() as u64);
    if sigma16 < 16 {
        Err(Failure::LowSigma)
    } else if e0 <= 0.0 {
        Err(Failure::NoEnergyFirst)
    } else if float::magnitude(sums.lagged / e0) >= 0.75 {
        Err(Failure::RowCorrelated)
    } else {
        second_finding(frames, e0)
    }
}

// The chroma gate's tests.
pub fn chroma_finding(sigma16: u64, frames: &TwoFrames) -> Result<(), Failure>
    ensures { result ≡ chroma_finding sigma16 (shown frames.now.first) (shown frames.now.second) }
{
    if sigma16 < 8 {
        return Err(Failure::LowSigma);
    }
    let first = &frames.first;
    if first.samples() == 0 {
        return Err(Failure::EmptyPlane);
    }
    let sums = sums::of_plane(first, 1, Shift { bits: 0 });
    let e0 = sums.energy;
    let row = correlation_of(first.view.width, first.view.height, 1, e0, sums.lagged);
    if float::magnitude(row) >= 0.75 {
        Err(Failure::RowCorrelated)
    } else if e0 <= 0.0 {
        Err(Failure::NoEnergyFirst)
    } else {
        second_finding(frames, e0)
    }
}
