// The exact sums of two neighbours' products over the window of a plane.
ghost use Rattle.std.specs.Prelude.{◌≡◌, ◌<◌, length};
ghost use Rattle.noise.specs.PlanePair.{shown};
ghost use Rattle.positions.specs.Counts.{factors};
ghost use Rattle.normal.specs.Layout.{sums_size, sum_at};
ghost use Rattle.normal.specs.Calls.{NeighbourSums};

use crate::blocks::{add_row, blank_tables};
use crate::rows::row_tables;
use crate::windowed::Windowed;
use noise::blank_line;

// The sum for neighbours i and j, in either order. (Of any lag: a `Lag` is at most 3, and nothing here asks for that.)
pub fn neighbour_sum(sums: &[i64], lag: usize, i: usize, j: usize) -> i64
    requires { (length sums.now ≡ sums_size lag) × (i < factors lag) × (j < factors lag) }
    ensures { result ≡ sum_at sums.now lag i j }
{
    let side = 2 * lag + 1;
    let first = i.min(j);
    let last = i.max(j);
    let above = first / side;
    let apart = last / side - above;
    sums[(apart * (lag + 1) + above) * (side * side) + (first % side * side + last % side)]
}

// Σ neighbour i × neighbour j over the window, for the neighbours of a sample with itself as the last, each where `neighbour_sum` finds it.
pub fn neighbour_sums(plane: &Windowed, sums: &mut [i64])
    requires { length sums.old ≡ sums_size plane.now.lag.reach }
    ensures { NeighbourSums (shown plane.now.pair) plane.now.lag.reach sums.new }
{
    let mut up = blank_line();
    let mut lo = blank_line();
    let mut tables = blank_tables();
    let starts = plane.lag.reach + 1;
    let side = plane.lag.side();
    let size = side * side;
    // As many as the lag has: fixed memory, since there is no heap.
    let tables = &mut tables[..starts * size];
    sums.fill(0);
    // By number, which each row's tables and their places are worked out from.
    for r in 0..plane.pair.view.height {
        row_tables(plane, r, &mut up, &mut lo, tables);
        add_row(sums, tables, starts, plane.rows(), r, size);
    }
}
