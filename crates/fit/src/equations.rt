// The normal equations in f64, from exact sums of products of a lag's neighbours, the sample and the luma average.
ghost use Rattle.std.specs.Prelude.{◌≡◌, ◌≤◌};
ghost use Rattle.positions.specs.Counts.{neighbours, factors};
ghost use Rattle.fit.specs.Steps.{cell_of, row_of, matrix_of, value_of, right_of};
ghost use Rattle.fit.specs.Sums.{Room};

use positions::Lag;
use solve::ORDER_LIMIT;

// The sums of every two of a lag's neighbours and the sample; of each of them with the luma average; and of the average's squares. The first factors are unknowns.
#[derive(Clone, Copy)]
pub struct ExactSums<'a> {
    pub sums: &'a [i64],
    pub taps: &'a [i64],
    pub squares: f64,
    pub lag: Lag,
    pub unknowns: usize,
    ghost room: { Room sums.now taps.now lag.reach },
    ghost few: { unknowns ≤ factors lag.reach },
}

impl ExactSums<'_> {
    ghost use Rattle.fit.specs.ExactSums.{cell_in, right_in};

    // Σ factor i × factor j, from a whole number, or from quarters with one average; `squares` with two.
    fn cell_sum(&self, i: usize, j: usize) -> f64
        requires { (i ≤ neighbours self.now.lag.reach) × (j ≤ neighbours self.now.lag.reach) }
        ensures { result ≡ cell_in self.now i j }
    {
        let n = self.lag.neighbours();
        if j < n {
            let whole = normal::neighbour_sum(self.sums, self.lag.reach, i, j);
            std::num::nearest_i64_to_f64(whole)
        } else if i < n {
            std::num::nearest_i64_to_f64(self.taps[i]) / 4.0
        } else {
            self.squares
        }
    }

    // Σ factor i × sample.
    fn right_sum(&self, i: usize) -> f64
        requires { i ≤ neighbours self.now.lag.reach }
        ensures { result ≡ right_in self.now i }
    {
        let n = self.lag.neighbours();
        if i < n {
            let whole = normal::neighbour_sum(self.sums, self.lag.reach, i, n);
            std::num::nearest_i64_to_f64(whole)
        } else {
            std::num::nearest_i64_to_f64(self.taps[n]) / 4.0
        }
    }

    // Row i, column j of the matrix; the lower half is the upper's.
    fn cell(&self, i: usize, j: usize) -> f64
        ensures { result ≡ cell_of (cell_in self.now) self.now.unknowns i j }
    {
        if i.max(j) < self.unknowns {
            self.cell_sum(i.min(j), i.max(j))
        } else {
            0.0
        }
    }

    fn matrix_row(&self, i: usize) -> [f64; ORDER_LIMIT]
        ensures { result ≡ row_of (cell_in self.now) self.now.unknowns i }
    {
        std::array::from_fn(|j| self.cell(i, j))
    }

    // The closure states what a row is: of a call that gives an array none is read from its body.
    pub fn matrix(&self) -> [[f64; ORDER_LIMIT]; ORDER_LIMIT]
        ensures { result ≡ matrix_of (cell_in self.now) self.now.unknowns }
    {
        std::array::from_fn(
            |i: usize| -> [f64; ORDER_LIMIT]
                ensures { result ≡ row_of (cell_in self.entry.now) self.entry.now.unknowns i }
            { self.matrix_row(i) },
        )
    }

    // Value i of the right side.
    fn right_value(&self, i: usize) -> f64
        ensures { result ≡ value_of (right_in self.now) self.now.unknowns i }
    {
        if i < self.unknowns {
            self.right_sum(i)
        } else {
            0.0
        }
    }

    pub fn right_side(&self) -> [f64; ORDER_LIMIT]
        ensures { result ≡ right_of (right_in self.now) self.now.unknowns }
    {
        std::array::from_fn(|i| self.right_value(i))
    }
}
