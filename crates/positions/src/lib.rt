// The neighbours that a fit takes, in coefficient order.
#![tactic(auto)]

mod lag; // how far they lie

ghost use Rattle.std.specs.Prelude.{◌≡◌, ◌<◌, ◌/◌, ◌%◌, pos, ◌-ℤ◌};
ghost use Rattle.positions.specs.Counts.{side};
ghost use Rattle.positions.specs.Positions.{positions_of};
ghost use Rattle.positions.specs.Record.{record_of};

use frame::Refusal;
pub use lag::Lag;
use std::array;

// The most neighbours.
pub const NEIGHBOUR_LIMIT: usize = 24;

// How far a neighbour lies from the sample.
#[derive(Clone, Copy, Debug, PartialEq, Eq, Default)]
pub struct Offset {
    pub row: i32,
    pub column: i32,
}

// How many neighbours there are, and where each lies, without a heap. Unused places are zero.
#[derive(Clone, Copy, Debug, PartialEq, Eq)]
pub struct Neighbourhood {
    pub count: usize,
    pub places: [Offset; NEIGHBOUR_LIMIT],
}

// The answer as C has it: a refusal's number; the count, and the row and the column of each neighbour. A number, since an exported record
// holds no enum; an array of each field, as include/grain.h has them.
#[repr(C)]
#[derive(Clone, Copy)]
pub struct Positions {
    pub refusal: u32,
    pub count: usize,
    pub rows: [i32; NEIGHBOUR_LIMIT],
    pub columns: [i32; NEIGHBOUR_LIMIT],
}

impl From<Result<Neighbourhood, Refusal>> for Positions {
    ghost from_gives = { λ outcome answer. answer ≡ record_of outcome };

    fn from(outcome: Result<Neighbourhood, Refusal>) -> Self {
        match outcome {
            Ok(around) => Positions {
                refusal: 0,
                count: around.count,
                rows: array::from_fn(|i| around.places[i].row),
                columns: array::from_fn(|i| around.places[i].column),
            },
            Err(refusal) => Positions {
                refusal: refusal.into(),
                count: 0,
                rows: [0; NEIGHBOUR_LIMIT],
                columns: [0; NEIGHBOUR_LIMIT],
            },
        }
    }
}

// Neighbour i stands in row i / (2 × lag + 1) − lag and column i % (2 × lag + 1) − lag.
fn offset_of(i: usize, lag: Lag) -> Offset
    requires { i < NEIGHBOUR_LIMIT }
    ensures row { result.row ≡ pos (i / side lag.reach) -ℤ pos lag.reach }
    ensures column { result.column ≡ pos (i % side lag.reach) -ℤ pos lag.reach }
{
    let (i, side, reach) = (i as i32, lag.side() as i32, lag.reach as i32);
    Offset {
        row: i / side - reach,
        column: i % side - reach,
    }
}

// The neighbours of a fit of this lag.
pub fn ar_positions(lag: usize) -> Result<Neighbourhood, Refusal>
    ensures { record_of result ≡ positions_of lag }
{
    let lag = Lag::try_from(lag)?;
    let count = lag.neighbours();
    let mut places = [Offset::default(); NEIGHBOUR_LIMIT];
    for (i, place) in places[..count].iter_mut().enumerate() {
        *place = offset_of(i, lag);
    }
    Ok(Neighbourhood { count, places })
}
