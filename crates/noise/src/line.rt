// Lines of noise, worked out from two planes of samples.
ghost use Rattle.std.specs.Prelude.{◌≡◌, ℕ, ◌+◌, ◌*◌, ◌^◌, ◌<◌, ◌≤◌, pos, length};
ghost use Rattle.laws.specs.Table.{tabulate};
ghost use Rattle.noise.specs.Noise.{noise};
ghost use Rattle.noise.specs.Shift.{shifted};
ghost use Rattle.noise.specs.Lines.{at, LowAt, row_noise, Places};
ghost use Rattle.noise.specs.PlanePair.{noise_in};

use crate::plane_pair::PlanePair;
use crate::shift::Shift;
use frame::SIDE_LIMIT;

// src[place] − den[place], of two planes as they are lent, as in `noise_line`.
pub fn noise_at(src: &[u16], den: &[u16], place: usize) -> i16
    requires { LowAt (2 ^ 15) src.now den.now place }
    ensures { result ≡ noise src.now den.now place }
{
    let a = src[place] as i16;
    let b = den[place] as i16;
    a - b
}

// line[i] = the noise at start + i × stride, of two planes as they are lent, as in `noise_line`.
fn noise_places(src: &[u16], den: &[u16], start: usize, stride: usize, line: &mut [i16])
    requires { Places (2 ^ 15) src.now den.now start stride (length line.old) }
    ensures { line.new ≡ tabulate (length line.old) (row_noise src.now den.now start stride) }
{
    for (i, noise) in line.iter_mut().enumerate() {
        *noise = noise_at(src, den, start + i * stride);
    }
}

// A line of noise, of two planes as they are lent, since a part of a lone plane has no view. With a stride of 1 written out, the back end makes packed loads and differences of the loop.
pub fn noise_line(src: &[u16], den: &[u16], start: usize, stride: usize, line: &mut [i16])
    requires { Places (2 ^ 15) src.now den.now start stride (length line.old) }
    ensures { line.new ≡ tabulate (length line.old) (row_noise src.now den.now start stride) }
{
    if stride == 1 {
        noise_places(src, den, start, 1, line);
    } else {
        noise_places(src, den, start, stride, line);
    }
}

// line[c] = the noise at row r and column c of what is shown. (No method: one of a public type may ask nothing of its caller. No struct of a pair and a row's number: where rows are taken together, clauses would say that they belong together.)
pub fn noise_row(pair: &PlanePair, r: usize, line: &mut [i16])
    requires shown { r < pair.now.view.height }
    requires fits { length line.old ≤ pair.now.view.width }
    ensures { line.new ≡ tabulate (length line.old) (noise_in pair.now r) }
{
    let view = pair.view;
    noise_line(
        pair.source,
        pair.denoised,
        view.start + r * view.step,
        view.stride,
        line,
    );
}

// out[i] = line[i] >> shift, rounded down.
pub fn shifted_line(line: &[i16], shift: Shift, out: &mut [i16])
    requires { length line.now ≡ length out.old }
    ensures { out.new ≡ tabulate (length out.old) (λ i. shifted shift.bits (at line.now i)) }
{
    for (i, shifted) in out.iter_mut().enumerate() {
        *shifted = line[i] >> shift.bits;
    }
}

// A line to work in: long enough for every row, whole, so that a row takes what its width needs of it. Fixed memory, since there is no heap.
pub type Line = [i16; SIDE_LIMIT];

// A line of zeros.
pub fn blank_line() -> Line
    ensures { (i : ℕ) → at result i ≡ pos 0 }
{
    [0; SIDE_LIMIT]
}
