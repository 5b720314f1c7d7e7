// The samples of a recorded call.
ghost use Rattle.std.specs.Prelude.{◌≡◌, ◌≢◌, ◌+◌, ◌^◌, ◌<◌, ◌≤◌, IsTrue, false};
ghost use Rattle.cases.specs.Planes.{IsDepth};

use crate::case::Case;
use crate::kind::{Level, Noise};
use crate::plane::{PairNumber, Plane};

// The highest sample of a depth; all u16 where a call takes no depth, recorded as 16.
pub fn top_of(depth: u8) -> u16
    ensures known { IsDepth depth → result + 1 ≡ 2 ^ depth }
    ensures least { 2 ^ 8 ≤ result + 1 }
{
    match depth {
        16 => u16::MAX,
        12 => 4095,
        10 => 1023,
        _ => 255,
    }
}

// A level, up by a size or down by it, held to 0 and top. `rises` is the sign of the noise: a fact about the sample and no step.
fn moved(level: u16, rises: bool, size: u16, top: u16) -> u16
    ensures held { level ≤ top → result ≤ top }
    ensures risen { IsTrue rises → level ≤ result }
    ensures fallen { rises ≡ false → result ≤ level }
    ensures near { (result ≤ level + size) × (level ≤ result + size) }
{
    if rises {
        level.saturating_add(size).min(top).max(level)
    } else {
        level.saturating_sub(size)
    }
}

impl Case {
    // The sample of a plane at a column: the level, or the level with its noise.
    pub fn sample(&self, plane: Plane, column: u64, common: u32, own: u32) -> u16
        ensures { IsDepth self.now.depth → self.now.kind.level ≢ Level.Share → result < 2 ^ self.now.depth }
    {
        let pair = plane.pair();
        let top = top_of(self.depth);
        let draw = self.draw(pair, common, own);
        let rises = self.rises(pair, column, draw);
        let level = self.level(top, column, rises, own);
        match plane {
            Plane::Source(_) => moved(level, rises, self.noise_size(pair, top, column, draw), top),
            Plane::Denoised(_) => level,
        }
    }

    // Of 16 noises, as many as the share are those of the first pair.
    fn draw(&self, pair: PairNumber, common: u32, own: u32) -> u32 {
        if pair == PairNumber::First || u64::from(own % 16) < self.share {
            common
        } else {
            own
        }
    }

    // Whether the sign of a column is positive.
    fn sign(&self, pair: PairNumber, column: u64) -> bool {
        let signs = match pair {
            PairNumber::First => self.share,
            PairNumber::Second | PairNumber::Third => u64::from(self.seed),
        };
        (signs >> (column % 64)) % 2 == 1
    }

    // Whether a noise is positive.
    fn rises(&self, pair: PairNumber, column: u64, draw: u32) -> bool {
        match self.kind.noise {
            Noise::Ones | Noise::OneExtreme | Noise::Ramp | Noise::FirstColumns => true,
            Noise::Stripes | Noise::BrokenStripes => column % 2 == 0,
            Noise::StripesOf8 => column / 8 % 2 == 0,
            Noise::StripesOf16 => column / 16 % 2 == 0,
            Noise::EqualRows => 0x5a3c_96e1 / (1 + column % 31) % 2 == 0,
            Noise::GivenSigns => self.sign(pair, column),
            Noise::Small
            | Noise::Any
            | Noise::Zero
            | Noise::Extremes
            | Noise::SignedOnes
            | Noise::RareOnes => draw < 0x8000_0000,
        }
    }

    // The size of a noise.
    fn noise_size(&self, pair: PairNumber, top: u16, column: u64, draw: u32) -> u16 {
        let drawn = (draw / 256 % 65536) as u16;
        let is_rare = draw / 256 % 64 == 0;
        let size = match self.kind.noise {
            Noise::Small => drawn & (top >> 5),
            Noise::Any => drawn & top,
            Noise::Zero => 0,
            Noise::Extremes | Noise::OneExtreme => top,
            Noise::Ones | Noise::SignedOnes | Noise::GivenSigns => 1,
            Noise::Stripes | Noise::StripesOf8 | Noise::StripesOf16 => 2,
            Noise::RareOnes => u16::from(is_rare),
            Noise::BrokenStripes => 2 - u16::from(is_rare),
            Noise::EqualRows => 5,
            Noise::Ramp => (column % 8) as u16,
            Noise::FirstColumns => u16::from(column < self.share),
        };
        if pair == PairNumber::First && self.kind.level == Level::LowLessNoise {
            size / 8
        } else {
            size
        }
    }

    // The denoised sample.
    fn level(&self, top: u16, column: u64, rises: bool, own: u32) -> u16
        ensures { self.now.kind.level ≢ Level.Share → 2 ^ 8 ≤ top + 1 → result ≤ top }
    {
        let drawn = (own / 65536) as u16;
        match (self.kind.noise, self.kind.level) {
            (Noise::Extremes | Noise::OneExtreme, _) => if rises { 0 } else { top },
            (_, Level::Any) => drawn & top,
            (_, Level::Middle) => top / 2,
            (_, Level::Low | Level::LowLessNoise) => drawn & (top >> 4),
            (_, Level::Share) => (self.share % 65536) as u16,
            (_, Level::FirstColumns) => if column < self.share { 0 } else { 128 },
        }
    }
}
