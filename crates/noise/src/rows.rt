// Sums over two planes of noise: of the second's squares, and of products of both.
ghost use Rattle.std.specs.Prelude.{◌≡◌, ◌<◌};
ghost use Rattle.noise.specs.Noise.{noise_of};
ghost use Rattle.noise.specs.PlanePair.{shown, noise_in};
ghost use Rattle.noise.specs.Seen.{RowCross, CrossOf};
ghost use Rattle.noise.specs.Rows.{pair_plus, PairHeld};

use crate::blocks::{NOISE_BLOCK, dot};
use crate::line::{Line, blank_line, noise_row};
use crate::two_frames::TwoFrames;

// Of two noises n₀ and n₁: Σ n₁² and Σ n₀ × n₁.
#[derive(Clone, Copy, Default)]
pub struct PairSums {
    pub second: i64,
    pub cross: i64,
}

// The sums of row r of both. Its noises are at the heads of p and q, whole lines that are cut here: there is no heap.
fn row_pair(frames: &TwoFrames, r: usize, p: &mut Line, q: &mut Line) -> PairSums
    requires { r < frames.now.first.view.height }
    ensures { RowCross (noise_in frames.now.first r) (noise_in frames.now.second r) frames.now.first.view.width result }
{
    let w = frames.first.view.width;
    let p = &mut p[..w];
    let q = &mut q[..w];
    noise_row(&frames.first, r, p);
    noise_row(&frames.second, r, q);
    let line = &q[..];
    let second = dot::<NOISE_BLOCK>(line, line);
    let cross = dot::<NOISE_BLOCK>(p, line);
    PairSums { second, cross }
}

// a + b, sum by sum. (Not an `impl Add`, which would ask that the sums fit: no method of a public type asks anything of its caller.)
fn pair_plus(a: PairSums, b: PairSums) -> PairSums
    requires { PairHeld (pair_plus a b) }
    ensures { result ≡ pair_plus a b }
{
    PairSums {
        second: a.second + b.second,
        cross: a.cross + b.cross,
    }
}

// The sums over what is shown of both, row by row.
pub fn pair_sums(frames: &TwoFrames) -> PairSums
    ensures { CrossOf (noise_of (shown frames.now.first)) (noise_of (shown frames.now.second)) frames.now.first.view.height frames.now.first.view.width result }
{
    let mut p = blank_line();
    let mut q = blank_line();
    let mut total = PairSums::default();
    // By row number, of which each view makes the places. A `fold` was tried: its closure must say in clauses what the invariant says of the rows passed.
    for r in 0..frames.first.view.height {
        total = pair_plus(total, row_pair(frames, r, &mut p, &mut q));
    }
    total
}
