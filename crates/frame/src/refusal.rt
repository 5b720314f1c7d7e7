// Why a call is refused.
ghost use Rattle.std.specs.Prelude.{◌≡◌, Some};
ghost use Rattle.frame.specs.Refusal.{number, number_of, words};

use std::error::Error;
use std::fmt;

// The first question whose answer is no, by the number that C is given.
#[derive(Clone, Copy, Debug, PartialEq, Eq)]
pub enum Refusal {
    SideAbove4096 = 1,
    EmptyFrame = 2,
    Depth = 3,
    Format = 4,
    PlaneLength = 5,
    SampleAboveDepth = 6,
    LagAbove3 = 7,
    SolverOrder = 8,
    RegisterBits = 9,
    HeaderField = 10,
    HeaderRoom = 11,
    ActiveRectangle = 12,
}

impl From<Refusal> for u32 {
    ghost from_gives = { λ refusal n. n ≡ number refusal };

    fn from(refusal: Refusal) -> u32 {
        refusal as u32
    }
}

// The number of a call's outcome: a refusal's, 0 for none. (No `From`: both types are std's.)
pub fn number_of<T>(outcome: &Result<T, Refusal>) -> u32
    ensures { result ≡ number_of outcome.now }
{
    match outcome {
        Ok(_) => 0,
        Err(refusal) => u32::from(*refusal),
    }
}

impl fmt::Display for Refusal {
    ghost output = { λ refusal. Some (words refusal) };

    fn fmt<W: fmt::Write>(&self, f: &mut fmt::Formatter<W>) -> fmt::Result {
        let words = match self {
            Refusal::SideAbove4096 => "width and height must each be at most 4,096",
            Refusal::EmptyFrame => "width and height must each be at least 1",
            Refusal::Depth => "the depth must be 8, 10 or 12 bits",
            Refusal::Format => "the format must be monochrome, 4:2:0, 4:2:2 or 4:4:4",
            Refusal::PlaneLength => "every plane must have as many samples as its size says",
            Refusal::SampleAboveDepth => "every sample must be below 2^depth",
            Refusal::LagAbove3 => "the lag must be at most 3",
            Refusal::SolverOrder => "the order must be 1 to 25",
            Refusal::RegisterBits => "the register gives at most 16 bits at once",
            Refusal::HeaderField => "every field of the record must keep its limits",
            Refusal::HeaderRoom => "the destination must have a byte for every eight bits begun",
            Refusal::ActiveRectangle =>
                "the active rectangle must hold a sample and lie in the frame",
        };
        f.write_str(words)
    }
}

impl Error for Refusal {}
