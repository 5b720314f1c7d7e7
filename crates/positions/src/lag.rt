// How far the neighbours of a fit lie.
ghost use Rattle.std.specs.Prelude.{◌≡◌, ◌≤◌, IfOk};
ghost use Rattle.frame.specs.Refusal.{number_of};
ghost use Rattle.frame.specs.Calls.{lag_refusal};
ghost use Rattle.positions.specs.Counts.{side, neighbours};

use frame::Refusal;

// How many rows above the sample and columns beside it have neighbours: what question 7 lets through.
#[derive(Clone, Copy)]
pub struct Lag {
    pub reach: usize,
    ghost few: { reach ≤ 3 },
}

impl TryFrom<usize> for Lag {
    type Error = Refusal;

    ghost try_from_gives = { λ reach outcome. (number_of outcome ≡ lag_refusal reach) × IfOk outcome (λ lag. lag.reach ≡ reach) };

    fn try_from(reach: usize) -> Result<Lag, Refusal> {
        frame::ask_lag(reach)?;
        Ok(Lag { reach })
    }
}

impl Lag {
    // The places of a row: 2 × lag + 1.
    pub fn side(self) -> usize
        ensures { result ≡ side self.reach }
    {
        2 * self.reach + 1
    }

    // How many neighbours there are: 2 × lag × (lag + 1).
    pub fn neighbours(self) -> usize
        ensures { result ≡ neighbours self.reach }
    {
        2 * self.reach * (self.reach + 1)
    }
}
