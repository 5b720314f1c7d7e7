// How the samples of a recorded call are made: a level, and noise on it.
ghost use Rattle.std.specs.Prelude.{◌≡◌, ◌/◌, ◌%◌, ◌<◌, ◌≤◌, Some, slice_get};
ghost use Rattle.cases.specs.declared.kind.TheConstants.Noise.{ALL as noises};
ghost use Rattle.cases.specs.declared.kind.TheConstants.Level.{ALL as levels};
ghost use Rattle.cases.specs.declared.kind.Level.TheVariants.{Low};

#[derive(Clone, Copy, PartialEq, Eq)]
pub enum Noise {
    Small,
    Any,
    Zero,
    Extremes,
    Ones,
    SignedOnes,
    Stripes,
    StripesOf8,
    StripesOf16,
    RareOnes,
    OneExtreme,
    // Stripes but for rare places.
    BrokenStripes,
    EqualRows,
    Ramp,
    // Of worked cases alone: ones whose signs are the bits of the share, in the second pair of the seed.
    GivenSigns,
    // Of worked cases alone: ones in the first columns, as many as the share.
    FirstColumns,
}

#[derive(Clone, Copy, PartialEq, Eq)]
pub enum Level {
    Any,
    Middle,
    Low,
    // Low, with less noise in the first pair.
    LowLessNoise,
    // Of worked cases alone: the share.
    Share,
    // Of worked cases alone: 0 in the first columns, as many as the share, and 128 in the others, of a plane that is a single row.
    FirstColumns,
}

#[derive(Clone, Copy)]
pub struct Kind {
    pub noise: Noise,
    pub level: Level,
}

impl Noise {
    // In the order in which lines number them.
    const ALL: [Noise; 16] = [
        Noise::Small,
        Noise::Any,
        Noise::Zero,
        Noise::Extremes,
        Noise::Ones,
        Noise::SignedOnes,
        Noise::Stripes,
        Noise::StripesOf8,
        Noise::StripesOf16,
        Noise::RareOnes,
        Noise::OneExtreme,
        Noise::BrokenStripes,
        Noise::EqualRows,
        Noise::Ramp,
        Noise::GivenSigns,
        Noise::FirstColumns,
    ];
}

impl Level {
    // In the order in which lines number them.
    const ALL: [Level; 6] = [
        Level::Any,
        Level::Middle,
        Level::Low,
        Level::LowLessNoise,
        Level::Share,
        Level::FirstColumns,
    ];
}

// A noise, and 16 times a level; any past the last level is low.
impl From<u64> for Kind {
    ghost from_gives = { λ number kind.
        (slice_get noises (number % 16) ≡ Some kind.noise)
        × (number / 16 < 6 → slice_get levels (number / 16) ≡ Some kind.level)
        × (6 ≤ number / 16 → kind.level ≡ Low) };

    fn from(number: u64) -> Self {
        Kind {
            noise: Noise::ALL[(number % 16) as usize],
            level: Level::ALL
                .get((number / 16) as usize)
                .copied()
                .unwrap_or(Level::Low),
        }
    }
}
