// What a call answers.
ghost use Rattle.std.specs.Prelude.{◌≡◌};
ghost use Rattle.frame.specs.Refusal.{number_of};

use crate::digest::Word;
use crate::numbers::Numbers;
use frame::Refusal;
use std::fmt;

// A refusal's number, 0 for none, and the rest as one number: 64 bits each, as a line has them. No enum of refusals, since a line may have
// any number.
#[derive(Clone, Copy, PartialEq, Eq)]
pub struct Outcome {
    pub refusal: u64,
    pub value: u64,
}

// An outcome, and the figure of it that a worked case shows, 0 where none does.
#[derive(Clone, Copy)]
pub struct Answer {
    pub outcome: Outcome,
    pub figure: u64,
}

impl Outcome {
    pub fn read(numbers: &mut Numbers<'_>) -> Self {
        Outcome {
            refusal: numbers.read(),
            value: numbers.read(),
        }
    }
}

impl Answer {
    pub fn new(refusal: u32, value: u64) -> Self
        ensures refusal { result.outcome.refusal ≡ refusal }
        ensures value { result.outcome.value ≡ value }
    {
        Answer {
            outcome: Outcome {
                refusal: u64::from(refusal),
                value,
            },
            figure: 0,
        }
    }

    // A value, 0 where it is refused.
    pub fn of<T: Word>(outcome: Result<T, Refusal>) -> Self
        ensures { result.outcome.refusal ≡ number_of outcome }
    {
        let refusal = frame::number_of(&outcome);
        Answer::new(refusal, outcome.map_or(0, |value| value.word()))
    }

    pub fn with_figure(self, figure: u64) -> Self {
        Answer { figure, ..self }
    }
}

impl fmt::Display for Outcome {
    fn fmt<W: fmt::Write>(&self, f: &mut fmt::Formatter<W>) -> fmt::Result {
        write!(f, "refusal {} answer {}", self.refusal, self.value)
    }
}
