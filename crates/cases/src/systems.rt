// The equations of a recorded solver call, made from a kind and a seed; the recorder makes the same ones.
ghost use Rattle.std.specs.Prelude.{◌≡◌, ◌<◌, ◌≤◌, Some, slice_get};
ghost use Rattle.cases.specs.declared.systems.TheConstants.System.{ALL};
ghost use Rattle.cases.specs.declared.systems.System.TheVariants.{Whole};

use crate::draws::Draws;

// What the numbers of a system are.
#[derive(Clone, Copy, PartialEq, Eq)]
pub enum System {
    Whole,
    LargeDiagonal,
    NearlyOneRow,
    OneRow,
    SomeInfinite,
    HalfZeros,
    UnevenRows,
    SomeNan,
    // Zeros but for the diagonal, whose pivots are about 1e-9.
    SmallPivots,
    PivotsAtLimit,
    // In a worked case: pivots of 9e-10.
    PivotsBelowLimit,
}

impl System {
    // In the order in which lines number them.
    const ALL: [System; 11] = [
        System::Whole,
        System::LargeDiagonal,
        System::NearlyOneRow,
        System::OneRow,
        System::SomeInfinite,
        System::HalfZeros,
        System::UnevenRows,
        System::SomeNan,
        System::SmallPivots,
        System::PivotsAtLimit,
        System::PivotsBelowLimit,
    ];

    // The number in row r, column c.
    fn entry(self, r: u32, c: u32, draw: u32) -> f64 {
        // A whole number from -128 to 127.
        let x = f64::from(draw / 256 % 256) - 128.0;
        let is_diagonal = r == c;
        let is_rare = draw / 65536 % 16 == 0;
        match self {
            System::LargeDiagonal if is_diagonal => 4096.0 + x,
            System::NearlyOneRow => {
                (f64::from(r) + 1.0) * (f64::from(c) + 1.0) + x / 8589934592.0
            }
            System::OneRow => f64::from(c % 5) + 1.0,
            System::SomeInfinite if is_rare => f64::INFINITY,
            System::HalfZeros if r % 2 == c % 2 => 0.0,
            System::UnevenRows if r % 2 == 0 => x * 1e306,
            System::UnevenRows => x / 1048576.0,
            System::SomeNan if is_rare => f64::NAN,
            System::SmallPivots if is_diagonal => x * 1e-10,
            System::PivotsAtLimit if is_diagonal => 1e-9,
            System::PivotsBelowLimit if is_diagonal => 9e-10,
            System::SmallPivots | System::PivotsAtLimit | System::PivotsBelowLimit => 0.0,
            System::Whole
            | System::LargeDiagonal
            | System::SomeInfinite
            | System::HalfZeros
            | System::SomeNan => x,
        }
    }

    // Row 25 of whole numbers is the right side.
    pub fn row(self, r: u32, seed: u32) -> [f64; 25] {
        let mut values = [0.0; 25];
        for (value, (c, draw)) in values.iter_mut().zip((0..).zip(Draws::new(seed, r))) {
            *value = self.entry(r, c, draw);
        }
        values
    }

    pub fn matrix(self, seed: u32) -> [[f64; 25]; 25] {
        std::array::from_fn(
            |r: usize| -> [f64; 25]
                requires { r < 25 }
            { self.row(r as u32, seed) },
        )
    }
}

// Any number past the last is a system of whole numbers. As `Call` and `Level` are numbered, by the library's methods: a function for all
// three would be no more than a name for them.
impl From<u64> for System {
    ghost from_gives = { λ number system.
        (number < 11 → slice_get ALL number ≡ Some system) × (11 ≤ number → system ≡ Whole) };

    fn from(number: u64) -> Self {
        System::ALL
            .get(number as usize)
            .copied()
            .unwrap_or(System::Whole)
    }
}
