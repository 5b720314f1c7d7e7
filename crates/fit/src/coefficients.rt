// The coefficients of the unknowns, from exact sums.
ghost use Rattle.std.specs.Prelude.{◌≡◌};
ghost use Rattle.float.specs.Reading.{both};
ghost use Rattle.noise.specs.Lines.{at};
ghost use Rattle.normal.specs.Layout.{sum_at};
ghost use Rattle.fit.specs.Steps.{quantised};
ghost use Rattle.fit.specs.Sums.{exact_fit};

use crate::equations::ExactSums;
use float::{Quantised, UNQUANTISED};
use solve::ORDER_LIMIT;

// Each value quantised. By a closure: another crate's function has no contract here as a value.
fn quantise(values: [f64; ORDER_LIMIT]) -> [Quantised; ORDER_LIMIT]
    ensures { result ≡ quantised both values }
{
    values.map(|c| float::quant_ar(c))
}

impl ExactSums<'_> {
    // The equations solved, and quantised; zeros where there is no solution.
    pub fn coefficients(&self) -> [Quantised; ORDER_LIMIT]
        ensures { result ≡ exact_fit both (sum_at self.now.sums.now self.now.lag.reach) (at self.now.taps.now) self.now.squares self.now.lag.reach self.now.unknowns }
    {
        let solved = solve::solve_normal(self.matrix(), self.right_side(), self.unknowns);
        match solved.unwrap_or(None) {
            Some(solution) => quantise(solution.values),
            None => [UNQUANTISED; ORDER_LIMIT],
        }
    }
}
