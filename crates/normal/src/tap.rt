// Sums of chroma noise and luma averages: what the luma tap adds to the normal equations of a chroma plane.
ghost use Rattle.std.specs.Prelude.{◌≡◌, ℕ, ◌-◌, ◌*◌, ◌<◌, length};
ghost use Rattle.laws.specs.Table.{tabulate};
ghost use Rattle.noise.specs.Lines.{at};
ghost use Rattle.noise.specs.PlanePair.{shown, noise_in};
ghost use Rattle.positions.specs.Counts.{factors};
ghost use Rattle.normal.specs.Calls.{TapSums};
ghost use Rattle.normal.specs.ShownFrame.{geometry_in, luma_in};
ghost use Rattle.normal.specs.Starts.{start_sum, Noisy};
ghost use Rattle.normal.specs.Taps.{row_tap, TapRow, TapAdd, plus_taps, AverageRoom, AverageSquares};

use crate::blocks::add_to;
use crate::starts::start_sum;
use crate::windowed::{Windowed, WindowedFrame};
use noise::{AVERAGE_BLOCK, Line, average_line, blank_line, dot, noise_row};

// The most sums that a row has with the luma averages: at lag 3, of 24 neighbours and the sample.
const FACTORS: usize = 25;

// out[c] = line[c] × averages[lag] + line[c + 1] × averages[lag + 1] + .., n products. (It has starts of its own, as `start_sum`.)
fn start_line(line: &[i16], averages: &[i16], n: usize, lag: usize, out: &mut [i64])
    requires { (c : ℕ) → c < length out.old → Noisy line.now averages.now n c lag }
    ensures { out.new ≡ tabulate (length out.old) (λ c. start_sum (at line.now) (at averages.now) n c lag) }
{
    for (c, sum) in out.iter_mut().enumerate() {
        *sum = start_sum(line, averages, n, c, lag);
    }
}

// row[i] = neighbour i × luma average along row y + lag: neighbour i is i / (2 × lag + 1) rows below row y. By index. Tried: `row.chunks_mut(side).enumerate()`, after which a proof knows no number that was written.
fn tap_row(plane: &Windowed, y: usize, averages: &[i16], line: &mut Line, row: &mut [i64])
    requires { TapRow plane.now.pair.view y plane.now.lag.reach averages.now (length row.old) }
    ensures { row.new ≡ tabulate (factors plane.now.lag.reach) (row_tap (noise_in plane.now.pair) (at averages.now) plane.now.pair.view.width plane.now.lag.reach y) }
{
    let side = plane.lag.side();
    let n = plane.columns();
    let lag = plane.lag.reach;
    let count = row.len();
    let line = &mut line[..plane.pair.view.width];
    for u in 0..lag + 1 {
        let first = u * side;
        let end = first + side.min(count - first);
        noise_row(&plane.pair, y + u, line);
        start_line(line, averages, n, lag, &mut row[first..end]);
    }
}

// taps[i] = taps[i] + neighbour i × luma average along row y + lag.
fn add_taps(plane: &Windowed, y: usize, averages: &[i16], line: &mut Line, taps: &mut [i64])
    requires { TapAdd plane.now.pair y plane.now.lag.reach averages.now taps.old }
    ensures { taps.new ≡ plus_taps (noise_in plane.now.pair) (at averages.now) plane.now.pair.view.width plane.now.lag.reach y taps.old }
{
    let mut sums = [0; FACTORS];
    let count = taps.len();
    // As many as the lag has: fixed memory, since there is no heap.
    let row = &mut sums[..count];
    tap_row(plane, y, averages, line, row);
    add_to(taps, row);
}

// The luma averages of chroma row r, in quarters, and the sum of their squares in the window's columns. (`sums` is a whole line, cut here: there is no heap.)
fn average_squares(frame: &WindowedFrame, r: usize, sums: &mut Line, averages: &mut [i16]) -> i64
    requires { AverageRoom (geometry_in frame.now.shown) r (length averages.old) }
    ensures { AverageSquares (luma_in frame.now.shown) frame.now.shown.cb.view.width r (frame.now.shown.cb.view.width - 2 * frame.now.lag.reach) frame.now.lag.reach result averages.new }
{
    let lag = frame.lag.reach;
    let luma = frame.shown.luma;
    let w = luma.view.width;
    average_line(&luma, frame.shown.sampling, r, &mut sums[..w], averages);
    let end = averages.len() - lag;
    let part = &averages[lag..end];
    dot::<AVERAGE_BLOCK>(part, part)
}

// taps[i] = Σ neighbour i × luma average over the window, in quarters, for each component; the result is Σ average², in sixteenths.
pub fn tap_sums(frame: &WindowedFrame, cbtaps: &mut [i64], crtaps: &mut [i64]) -> i64
    requires cb_sized { length cbtaps.old ≡ factors frame.now.lag.reach }
    requires cr_sized { length crtaps.old ≡ factors frame.now.lag.reach }
    ensures { TapSums (luma_in frame.now.shown) (shown frame.now.shown.cb) (shown frame.now.shown.cr) frame.now.lag.reach result cbtaps.new crtaps.new }
{
    let mut sums = blank_line();
    let mut averages = blank_line();
    let mut line = blank_line();
    // As many as the planes have columns: fixed memory, since there is no heap.
    let averages = &mut averages[..frame.shown.cb.view.width];
    cbtaps.fill(0);
    crtaps.fill(0);
    let cb = frame.cb();
    let cr = frame.cr();
    let lag = frame.lag.reach;
    let mut squares = 0;
    // By number, which a row's neighbours and averages are worked out from. The averages of a row serve both components.
    for r in 0..cb.rows() {
        squares += average_squares(frame, r + lag, &mut sums, averages);
        add_taps(&cb, r, averages, &mut line, cbtaps);
        add_taps(&cr, r, averages, &mut line, crtaps);
    }
    squares
}
