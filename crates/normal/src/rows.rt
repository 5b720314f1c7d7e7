// The tables of a view's rows.
ghost use Rattle.std.specs.Prelude.{◌≡◌, ◌+◌, ◌-◌, ◌*◌, ◌≤◌, ◌<◌, length};
ghost use Rattle.laws.specs.Table.{tabulate};
ghost use Rattle.noise.specs.PlanePair.{noise_in};
ghost use Rattle.positions.specs.Counts.{side};
ghost use Rattle.normal.specs.Starts.{start_sum, by_rows};
ghost use Rattle.normal.specs.Rows.{RowTables};

use crate::table::line_table;
use crate::windowed::Windowed;
use noise::{Line, noise_row};

// The table of rows r − d and r, the lower of which is at hand. (No struct of a plane and a row's number: for two rows, clauses would say that they are of one plane.)
fn pair_table(plane: &Windowed, r: usize, d: usize, up: &mut Line, lo: &[i16], table: &mut [i64])
    requires shown { r < plane.now.pair.view.height }
    requires above { d ≤ r }
    requires lo_is { lo.now ≡ tabulate plane.now.pair.view.width (noise_in plane.now.pair r) }
    requires table_fits { length table.old ≡ side plane.now.lag.reach * side plane.now.lag.reach }
    ensures { table.new ≡ by_rows (side plane.now.lag.reach) (start_sum (noise_in plane.now.pair (r - d)) (noise_in plane.now.pair r) (plane.now.pair.view.width - 2 * plane.now.lag.reach)) }
{
    if d == 0 {
        line_table(None, lo, plane.lag, table);
    } else {
        let up = &mut up[..plane.pair.view.width];
        noise_row(&plane.pair, r - d, up);
        line_table(Some(up), lo, plane.lag, table);
    }
}

// Row r's tables, for each of lag + 1 distances that has a row above. (Row r by its number, which a loop counts and each row uses at once: a struct with it would be no plainer.)
pub fn row_tables(plane: &Windowed, r: usize, up: &mut Line, lo: &mut Line, tables: &mut [i64])
    requires shown { r < plane.now.pair.view.height }
    requires tables_fit { length tables.old ≡ (plane.now.lag.reach + 1) * (side plane.now.lag.reach * side plane.now.lag.reach) }
    ensures { RowTables (noise_in plane.now.pair) (plane.now.pair.view.width - 2 * plane.now.lag.reach) (side plane.now.lag.reach) (plane.now.lag.reach + 1) r tables.new }
{
    let side = plane.lag.side();
    let k = side * side;
    let lo = &mut lo[..plane.pair.view.width];
    noise_row(&plane.pair, r, lo);
    let end = (plane.lag.reach + 1).min(r + 1);
    // By index. Tried: `tables.chunks_mut(k).enumerate().take(end)`, after which a proof knows no number that was written.
    for d in 0..end {
        let from = d * k;
        let to = from + k;
        pair_table(plane, r, d, up, lo, &mut tables[from..to]);
    }
}
