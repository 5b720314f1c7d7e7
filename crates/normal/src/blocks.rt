// Sums in blocks, to which the tables of a row are added.
ghost use Rattle.std.specs.Prelude.{◌≡◌, ◌≤◌, ◌+ℤ◌, length};
ghost use Rattle.laws.specs.Table.{tabulate};
ghost use Rattle.noise.specs.Lines.{at};
ghost use Rattle.normal.specs.Blocks.{Addable, if_passed, Room, Added};

// At lag 3, which has the most: how many distances in rows two lines may have, 0 among them.
const STARTS: usize = 4;

// And at how many columns a line may start.
const SIDE: usize = 7;

// The most numbers that a row's tables have.
const TABLES: usize = STARTS * SIDE * SIDE;

// The most sums that a lag has.
pub const SUM_LIMIT: usize = STARTS * TABLES;

// Numbers to work in, as many as any row has.
pub fn blank_tables() -> [i64; TABLES] {
    [0; TABLES]
}

// sums[i] = sums[i] + more[i]
pub fn add_to(sums: &mut [i64], more: &[i64])
    requires { Addable sums.old more.now }
    ensures { sums.new ≡ tabulate (length sums.old) (λ i. at sums.old i +ℤ at more.now i) }
{
    for (i, sum) in sums.iter_mut().enumerate() {
        *sum += more[i];
    }
}

// Adds a table to a block where row r is one of `rows` rows from row `low` on.
fn add_passed(block: &mut [i64], table: &[i64], rows: usize, r: usize, low: usize)
    requires { (length block.old ≡ length table.now) × (low ≤ r → Addable block.old table.now) }
    ensures { block.new ≡ tabulate (length block.old) (λ i. at block.old i +ℤ if_passed rows r low (at table.now i)) }
{
    if low <= r && r - low < rows {
        add_to(block, table);
    }
}

// Adds row r's tables to the sums of those pairs of start rows that have row r as their lower row. By index. Tried: `sums.chunks_mut(k).enumerate()`, after which a proof knows no number that was written.
pub fn add_row(sums: &mut [i64], tables: &[i64], starts: usize, rows: usize, r: usize, k: usize)
    requires { Room sums.old tables.now starts r k }
    ensures { Added sums.old sums.new tables.now starts rows r k }
{
    for apart in 0..starts {
        for above in 0..starts {
            let first = apart * k;
            let last = first + k;
            let from = (apart * starts + above) * k;
            let to = from + k;
            add_passed(
                &mut sums[from..to],
                &tables[first..last],
                rows,
                r,
                apart + above,
            );
        }
    }
}
