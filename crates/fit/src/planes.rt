// The fit of a luma plane, and of both chroma planes.
ghost use Rattle.std.specs.Prelude.{◌≡◌, length};
ghost use Rattle.float.specs.Reading.{both};
ghost use Rattle.noise.specs.Lines.{at};
ghost use Rattle.noise.specs.Noise.{noise_of};
ghost use Rattle.noise.specs.PlanePair.{shown};
ghost use Rattle.positions.specs.Counts.{factors};
ghost use Rattle.normal.specs.Layout.{sums_size};
ghost use Rattle.normal.specs.Normal.{entry};
ghost use Rattle.normal.specs.ShownFrame.{luma_in};
ghost use Rattle.fit.specs.Steps.{too_small, luma_fit, chroma_fit};
ghost use Rattle.fit.specs.Sums.{exact_fit};

use crate::equations::ExactSums;
use float::{Quantised, UNQUANTISED};
use noise::PlanePair;
use normal::{SUM_LIMIT, ShownFrame, Windowed, WindowedFrame};
use positions::Lag;
use solve::ORDER_LIMIT;

// The coefficients of Cb and Cr.
#[derive(Clone, Copy)]
pub struct Chroma {
    pub cb: [Quantised; ORDER_LIMIT],
    pub cr: [Quantised; ORDER_LIMIT],
}

// The places for a sum for every two neighbours, the sample among them.
fn sums_size(lag: Lag) -> usize
    ensures { result ≡ sums_size lag.reach }
{
    let starts = lag.reach + 1;
    let side = lag.side();
    starts * starts * (side * side)
}

// Has a plane no window of this lag?
fn too_small(plane: &PlanePair, lag: Lag) -> bool
    ensures { result ≡ too_small (shown plane.now) lag.reach }
{
    plane.view.width <= 2 * lag.reach || plane.view.height <= lag.reach
}

// Luma: zeros where the lag is 0, the plane is too small or its energy is 0.
pub fn luma_fit(plane: &PlanePair, lag: Lag) -> [Quantised; ORDER_LIMIT]
    ensures { result ≡ luma_fit both (shown plane.now) lag.reach }
{
    if lag.reach == 0 || too_small(plane, lag) {
        return [UNQUANTISED; ORDER_LIMIT];
    }
    let unknowns = lag.neighbours();
    // As many as the lag has: fixed memory, since there is no heap.
    let size = sums_size(lag);
    let mut room = [0; SUM_LIMIT];
    let sums = &mut room[..size];
    normal::neighbour_sums(&Windowed { pair: *plane, lag }, sums);
    let energy = normal::neighbour_sum(sums, lag.reach, unknowns, unknowns);
    if std::num::nearest_i64_to_f64(energy) <= 0.0 {
        return [UNQUANTISED; ORDER_LIMIT];
    }
    // No factor of luma is an average.
    let taps = [0; ORDER_LIMIT];
    let exact = ExactSums {
        sums,
        taps: &taps[..unknowns + 1],
        squares: 0.0,
        lag,
        unknowns,
    };
    exact.coefficients()
}

// One chroma plane, with its sums with the luma average.
fn component(plane: &Windowed, taps: &[i64], squares: f64) -> [Quantised; ORDER_LIMIT]
    requires { length taps.now ≡ factors plane.now.lag.reach }
    ensures { result ≡ exact_fit both (entry (noise_of (shown plane.now.pair)) plane.now.pair.view.width plane.now.pair.view.height plane.now.lag.reach) (at taps.now) squares plane.now.lag.reach (factors plane.now.lag.reach) }
{
    let lag = plane.lag;
    // As many as the lag has: fixed memory, since there is no heap.
    let size = sums_size(lag);
    let mut room = [0; SUM_LIMIT];
    let sums = &mut room[..size];
    normal::neighbour_sums(plane, sums);
    let exact = ExactSums {
        sums,
        taps,
        squares,
        lag,
        unknowns: lag.neighbours() + 1,
    };
    exact.coefficients()
}

// Chroma: zeros where the planes are empty or too small.
pub fn chroma_fit(frame: &ShownFrame, lag: Lag) -> Chroma
    ensures cb { result.cb ≡ chroma_fit both (luma_in frame.now) (shown frame.now.cb) lag.reach }
    ensures cr { result.cr ≡ chroma_fit both (luma_in frame.now) (shown frame.now.cr) lag.reach }
{
    if too_small(&frame.cb, lag) {
        return Chroma {
            cb: [UNQUANTISED; ORDER_LIMIT],
            cr: [UNQUANTISED; ORDER_LIMIT],
        };
    }
    let windowed = WindowedFrame { shown: *frame, lag };
    // As many as the lag has: fixed memory, since there is no heap.
    let factors = lag.neighbours() + 1;
    let mut cb_room = [0; ORDER_LIMIT];
    let mut cr_room = [0; ORDER_LIMIT];
    let cb_taps = &mut cb_room[..factors];
    let cr_taps = &mut cr_room[..factors];
    let sixteenths = normal::tap_sums(&windowed, cb_taps, cr_taps);
    let squares = std::num::nearest_i64_to_f64(sixteenths) / 16.0;
    let cb = component(&windowed.cb(), cb_taps, squares);
    let cr = component(&windowed.cr(), cr_taps, squares);
    Chroma { cb, cr }
}
