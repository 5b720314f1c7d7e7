// The normal equations of a fit, solved by Gaussian elimination with partial pivoting.
#![tactic(auto)]

mod equations; // a system, and what an elimination does to it

ghost use Rattle.std.specs.Prelude.{◌≡◌};
ghost use Rattle.solve.specs.Answer.{record_of, solved_of};

use equations::Equations;
use frame::Refusal;

// The most unknowns.
pub const ORDER_LIMIT: usize = 25;

// A pivot's magnitude must not be below this.
const PIVOT_LIMIT: f64 = 1e-9;

// A count with 25 values, as C has it and without a heap; the unused ones are plus zero.
#[repr(C)]
#[derive(Clone, Copy, Debug, PartialEq)]
pub struct Solution {
    pub order: usize,
    pub values: [f64; ORDER_LIMIT],
}

// The answer as C has it: a refusal's number; whether there is a solution, and the solution. A number and a flag, since an exported record
// holds no enum.
#[repr(C)]
#[derive(Clone, Copy)]
pub struct Solved {
    pub refusal: u32,
    pub found: bool,
    pub solution: Solution,
}

impl From<Result<Option<Solution>, Refusal>> for Solved {
    ghost from_gives = { λ outcome answer. answer ≡ record_of outcome };

    fn from(outcome: Result<Option<Solution>, Refusal>) -> Self {
        let nothing = Solution {
            order: 0,
            values: [0.0; ORDER_LIMIT],
        };
        match outcome {
            Ok(Some(solution)) => Solved {
                refusal: 0,
                found: true,
                solution,
            },
            Ok(None) => Solved {
                refusal: 0,
                found: false,
                solution: nothing,
            },
            Err(refusal) => Solved {
                refusal: refusal.into(),
                found: false,
                solution: nothing,
            },
        }
    }
}

// x with a × x = b, of the first `order` equations; none where a pivot is too small. (Matrix and right side apart, as C lends them.)
pub fn solve_normal(
    a: [[f64; ORDER_LIMIT]; ORDER_LIMIT],
    b: [f64; ORDER_LIMIT],
    order: usize,
) -> Result<Option<Solution>, Refusal>
    ensures { record_of result ≡ solved_of a b order }
{
    frame::ask_order(order)?;
    let mut equations = Equations {
        matrix: a,
        right: b,
        order,
    };
    // (by number: column i is cleared below row i)
    for i in 0..order {
        if float::magnitude(equations.pivot(i)) < PIVOT_LIMIT {
            return Ok(None);
        }
        equations.eliminate_below(i);
    }
    let values = equations.back_substitute();
    Ok(Some(Solution { order, values }))
}
