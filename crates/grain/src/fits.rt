// The quantiser, the solver, and the fit with its neighbours. Alike calls stand one by one, since no exported function is generic.
ghost use Rattle.std.specs.Prelude.{◌≡◌};
ghost use Rattle.float.specs.Reading.{quantise};
ghost use Rattle.solve.specs.Answer.{solved_of};
ghost use Rattle.positions.specs.Positions.{positions_of};
ghost use Rattle.fit.specs.Answer.{fit_answer};
ghost use Rattle.grain.specs.Records.{of_quantised};

use crate::frame_pair;
use fit::Fit;
use float::Quantised;
use frame::Shape;
use positions::Positions;
use solve::Solved;

// `Quantised`, as C has it: the mark is a number, since an exported record holds no enum.
#[repr(C)]
#[derive(Clone, Copy)]
pub struct QuantisedRecord {
    pub coefficient: i32,
    pub mark: u8,
}

impl From<Quantised> for QuantisedRecord {
    ghost from_gives = { λ quantised to. to ≡ of_quantised quantised };

    fn from(quantised: Quantised) -> Self {
        QuantisedRecord {
            coefficient: quantised.coefficient,
            mark: quantised.mark.into(),
        }
    }
}

#[unsafe(no_mangle)]
pub extern "C" fn grain_quant_ar(x: f64) -> QuantisedRecord
    ensures { result ≡ of_quantised (quantise x) }
{
    float::quant_ar(x).into()
}

#[unsafe(no_mangle)]
pub extern "C" fn grain_solve_normal(a: &[[f64; 25]; 25], b: &[f64; 25], order: usize) -> Solved
    ensures { result ≡ solved_of a.now b.now order }
{
    solve::solve_normal(*a, *b, order).into()
}

#[unsafe(no_mangle)]
pub extern "C" fn grain_ar_positions(lag: usize) -> Positions
    ensures { result ≡ positions_of lag }
{
    positions::ar_positions(lag).into()
}

// C lends each plane by itself.
#[unsafe(no_mangle)]
pub extern "C" fn grain_fit_ar_lag(
    s: Shape,
    y: &[u16],
    cb: &[u16],
    cr: &[u16],
    yden: &[u16],
    cbden: &[u16],
    crden: &[u16],
    lag: usize,
) -> Fit
    ensures { result ≡ fit_answer s y.now cb.now cr.now yden.now cbden.now crden.now lag }
{
    fit::fit_ar_lag(s, &frame_pair(y, cb, cr, yden, cbden, crden), lag).into()
}
