// What is wrong with a plane of a recorded call.
ghost use Rattle.std.specs.Prelude.{◌↔◌, ◌/◌, ◌%◌, ◌≤◌, IsSome};

use crate::plane::Plane;

// A plane that is a sample short, or a sample long, or has one too high.
#[derive(Clone, Copy, PartialEq, Eq)]
pub enum Fault {
    Short(Plane),
    Long(Plane),
    TooHigh(Plane),
}

impl Fault {
    // 8, 16 or 24 and the plane. No `TryFrom`: with any other number nothing is wrong, and it is no error.
    pub fn numbered(number: u64) -> Option<Fault>
        ensures { IsSome result
            ↔ ((1 ≤ number / 8) × (number / 8 ≤ 3) × (1 ≤ number % 8) × (number % 8 ≤ 6)) }
    {
        let plane = Plane::numbered(number % 8)?;
        match number / 8 {
            1 => Some(Fault::Short(plane)),
            2 => Some(Fault::Long(plane)),
            3 => Some(Fault::TooHigh(plane)),
            _ => None,
        }
    }
}
