// The correlation of noise along a row.
ghost use Rattle.std.specs.Prelude.{◌≡◌};
ghost use Rattle.noise.specs.PlanePair.{shown};
ghost use Rattle.gate.specs.RowCorrelation.{correlation_of, row_correlation};

use crate::sums;
use noise::{PlanePair, Shift};

// The quotient of the two sums; 0.0 where there is nothing to divide.
pub fn correlation_of(width: usize, height: usize, lag: usize, energy: f64, lagged: f64) -> f64
    ensures { result ≡ correlation_of width height lag energy lagged }
{
    if lag == 0 || width <= lag || height == 0 || energy <= 0.0 {
        0.0
    } else {
        lagged / energy
    }
}

// Σ n(r, c) × n(r, c + lag) / Σ n(r, c)².
pub fn row_correlation(pair: &PlanePair, lag: usize) -> f64
    ensures { result ≡ row_correlation (shown pair.now) lag }
{
    let view = pair.view;
    if lag == 0 || view.width <= lag {
        return 0.0;
    }
    let sums = sums::of_plane(pair, lag, Shift { bits: 0 });
    correlation_of(view.width, view.height, lag, sums.energy, sums.lagged)
}
