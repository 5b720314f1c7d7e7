// The sums of the products of two lines, for every two places at which they may start.
ghost use Rattle.std.specs.Prelude.{◌≡◌, ◌-◌, ◌*◌, length, is_none};
ghost use Rattle.noise.specs.Lines.{at};
ghost use Rattle.positions.specs.Counts.{side};
ghost use Rattle.normal.specs.Starts.{start_sum, by_rows, upper, Strip, Next};

use crate::starts::{slid_sum, start_sum};
use positions::Lag;

// The sum at starts a and b, from those before it in the table: one place on from starts a − 1 and b − 1. Where no upper line is given it is the lower one, and the starts may change places.
fn next_sum(up: Option<&[i16]>, lo: &[i16], lag: Lag, a: usize, b: usize, table: &[i64]) -> i64
    requires { Next (upper up lo.now) lo.now (is_none up) (length lo.now - 2 * lag.reach) (side lag.reach) a b table.now }
    ensures { result ≡ start_sum (at (upper up.entry lo.now)) (at lo.now) (length lo.now - 2 * lag.reach) a b }
{
    let side = lag.side();
    let n = lo.len() - 2 * lag.reach;
    if a > 0 {
        if b > 0 {
            let before = table[(a - 1) * side + (b - 1)];
            return slid_sum(up.unwrap_or(lo), lo, n, a - 1, b - 1, before);
        }
        if up.is_none() {
            return table[a];
        }
    }
    start_sum(up.unwrap_or(lo), lo, n, a, b)
}

// table[a × side + b] = up[a] × lo[b] + up[a + 1] × lo[b + 1] + .., as many products as fit from every start; of the lower line with itself where no upper one is given. By index, since a sum is made from those before it.
pub fn line_table(up: Option<&[i16]>, lo: &[i16], lag: Lag, table: &mut [i64])
    requires strip { Strip (upper up lo.now) lo.now (length lo.now - 2 * lag.reach) (side lag.reach) }
    requires fits { length table.old ≡ side lag.reach * side lag.reach }
    ensures { table.new ≡ by_rows (side lag.reach) (start_sum (at (upper up.entry lo.now)) (at lo.now) (length lo.now - 2 * lag.reach)) }
{
    let side = lag.side();
    for a in 0..side {
        for b in 0..side {
            table[a * side + b] = next_sum(up, lo, lag, a, b, table);
        }
    }
}
