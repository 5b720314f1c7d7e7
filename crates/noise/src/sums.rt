// Sums over one plane of noise: of its squares, shifted and not, and of its products along a row.
ghost use Rattle.std.specs.Prelude.{◌≡◌, ◌+◌, ◌-◌, ◌≤◌, ◌<◌, ◌*ℤ◌, length};
ghost use Rattle.laws.specs.Sums.{sum_to};
ghost use Rattle.noise.specs.Noise.{noise_of};
ghost use Rattle.noise.specs.Lines.{at, product, NoiseLine};
ghost use Rattle.noise.specs.PlanePair.{shown, noise_in};
ghost use Rattle.noise.specs.Seen.{squared, RowSums, SumsOf};
ghost use Rattle.noise.specs.Rows.{plane_plus, PlaneHeld};

use crate::blocks::{NOISE_BLOCK, dot};
use crate::line::{Line, blank_line, noise_row, shifted_line};
use crate::plane_pair::PlanePair;
use crate::shift::Shift;

// Of a noise n: Σ (n >> shift)², Σ n² and Σ n × the noise `lag` columns on.
#[derive(Clone, Copy, Default)]
pub struct PlaneSums {
    pub squares: i64,
    pub energy: i64,
    pub lagged: i64,
}

// line[0] × line[lag] + line[1] × line[lag + 1] + .., none where the lag is past the line's end.
fn lagged_dot(line: &[i16], lag: usize) -> i64
    requires { NoiseLine line.now }
    ensures { result ≡ sum_to (λ i. at line.now i *ℤ at line.now (i + lag)) (length line.now - lag) }
{
    if line.len() < lag {
        return 0;
    }
    let n = line.len() - lag;
    dot::<NOISE_BLOCK>(&line[..n], &line[lag..])
}

// (line[0] >> shift)² + (line[1] >> shift)² + .., which is the energy where nothing is shifted. The shifted line is at the head of out.
fn shifted_energy(line: &[i16], shift: Shift, energy: i64, out: &mut Line) -> i64
    requires noise { NoiseLine line.now }
    requires energy { energy ≡ sum_to (product line.now line.now) (length line.now) }
    ensures { result ≡ sum_to (λ i. squared shift.bits (at line.now i)) (length line.now) }
{
    if shift.bits == 0 {
        return energy;
    }
    let out = &mut out[..line.len()];
    shifted_line(line, shift, out);
    let shifted = &out[..];
    dot::<NOISE_BLOCK>(shifted, shifted)
}

// The sums of row r. Its noise is at the head of p, shifted at that of q, whole lines that are cut here: there is no heap.
fn row_sums(
    pair: &PlanePair,
    r: usize,
    lag: usize,
    shift: Shift,
    p: &mut Line,
    q: &mut Line,
) -> PlaneSums
    requires { r < pair.now.view.height }
    ensures { RowSums (noise_in pair.now r) pair.now.view.width lag shift.bits result }
{
    let w = pair.view.width;
    let p = &mut p[..w];
    noise_row(pair, r, p);
    let line = &p[..];
    let energy = dot::<NOISE_BLOCK>(line, line);
    let lagged = lagged_dot(line, lag);
    let squares = shifted_energy(line, shift, energy, q);
    PlaneSums {
        squares,
        energy,
        lagged,
    }
}

// a + b, sum by sum. (Not an `impl Add`, which would ask that the sums fit: no method of a public type asks anything of its caller.)
fn plane_plus(a: PlaneSums, b: PlaneSums) -> PlaneSums
    requires { PlaneHeld (plane_plus a b) }
    ensures { result ≡ plane_plus a b }
{
    PlaneSums {
        squares: a.squares + b.squares,
        energy: a.energy + b.energy,
        lagged: a.lagged + b.lagged,
    }
}

// The sums over what is shown of a plane, row by row.
pub fn plane_sums(pair: &PlanePair, lag: usize, shift: Shift) -> PlaneSums
    ensures { SumsOf (noise_of (shown pair.now)) pair.now.view.height pair.now.view.width lag shift.bits result }
{
    let mut p = blank_line();
    let mut q = blank_line();
    let mut total = PlaneSums::default();
    // By row number, of which the view makes the places. A `fold` was tried: its closure must say in clauses what the invariant says of the rows passed.
    for r in 0..pair.view.height {
        total = plane_plus(total, row_sums(pair, r, lag, shift, &mut p, &mut q));
    }
    total
}
