// Equations, and what an elimination does to them.
ghost use Rattle.std.specs.Prelude.{◌≡◌, [], ◌<◌, ◌≤◌, get_or};
ghost use Rattle.laws.specs.Limits.{order_limit};
ghost use Rattle.laws.specs.Loop.{loop};
ghost use Rattle.solve.specs.Elimination.{value, cell, known_less, pivot_of, pivoted, cleared, unknown_of, substituted};
ghost use Rattle.solve.specs.Rows.{less_row};

use crate::ORDER_LIMIT;

// A row of the matrix, or one number for each equation.
pub type Row = [f64; ORDER_LIMIT];

// A matrix and a right side, of which the first `order` rows and columns are used. (Two arrays, as C lends them and as the definitions have them: an array of equations would be joined first, and parted again in each contract.)
#[derive(Drop)]
pub struct Equations {
    pub matrix: [Row; ORDER_LIMIT],
    pub right: Row,
    pub order: usize,
    ghost few: { order ≤ order_limit },
}

// A row less f × the pivot's row, in these columns.
fn less_row(row: &mut Row, pivot: &Row, from: usize, to: usize, f: f64)
    requires { (from ≤ to) × (to ≤ ORDER_LIMIT) }
    ensures { row.new ≡ less_row to from f pivot.now row.old }
{
    let pivot = &pivot[from..to];
    let part = &mut row[from..to];
    for (c, x) in part.iter_mut().enumerate() {
        *x -= f * pivot[c];
    }
}

// v less each coefficient × its unknown, in these columns.
fn less_known(row: &Row, x: &Row, from: usize, to: usize, v: f64) -> f64
    requires { (from ≤ to) × (to ≤ ORDER_LIMIT) }
    ensures { result ≡ loop from to (known_less row.now x.now) v }
{
    let known = row[from..to].iter().zip(&x[from..to]);
    known.fold(v, |v, (a, x)| v - a * x)
}

impl Equations {
    ghost use Rattle.solve.specs.Parts.{system_of};

    // The first row from i on with the largest magnitude in column i brought to row i; its pivot.
    pub fn pivot(&mut self, i: usize) -> f64
        requires { i < self.old.order }
        ensures pivot { result ≡ cell self.new.matrix i i }
        ensures system { system_of self.new ≡ pivoted self.old.order i (system_of self.old) }
        ensures order { self.new.order ≡ self.old.order }
    {
        let mut pivot = i;
        // (the number of the row is what is looked for)
        for r in i + 1..self.order {
            if float::magnitude(self.matrix[r][i]) > float::magnitude(self.matrix[pivot][i]) {
                pivot = r;
            }
        }
        self.matrix.swap(i, pivot);
        self.right.swap(i, pivot);
        self.matrix[i][i]
    }

    // Row i, times a[r][i] / a[i][i], taken from each row r below it.
    pub fn eliminate_below(&mut self, i: usize)
        requires { i < self.old.order }
        ensures system { system_of self.new ≡ cleared self.old.order i (system_of self.old) }
        ensures order { self.new.order ≡ self.old.order }
    {
        let pivot = self.matrix[i];
        // By index: a turn writes a row and its right side, which are two arrays.
        for r in i + 1..self.order {
            let f = self.matrix[r][i] / pivot[i];
            less_row(&mut self.matrix[r], &pivot, i, self.order, f);
            self.right[r] -= f * self.right[i];
        }
    }

    // The unknowns, the last first: x[i] = (right[i] - Σ row[j] × x[j], over j above i) / row[i].
    pub fn back_substitute(&self) -> Row
        ensures { result ≡ substituted self.now.order (system_of self.now) }
    {
        let mut x = [0.0; ORDER_LIMIT];
        // (by number: an unknown is worked from those above it)
        for i in (0..self.order).rev() {
            let row = &self.matrix[i];
            x[i] = less_known(row, &x, i + 1, self.order, self.right[i]) / row[i];
        }
        x
    }
}
