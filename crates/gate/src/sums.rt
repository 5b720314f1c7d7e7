// The sums of a gate: each is worked exactly in whole numbers, and turned into an f64 once where the Rust has an f64.
ghost use Rattle.noise.specs.PlanePair.{shown};
ghost use Rattle.gate.specs.FrameSums.{FirstSumsOf, SecondSumsOf};

use noise::{PlanePair, Shift, TwoFrames};

// Of a noise n: Σ (n >> shift)², Σ n² and Σ n(r, c) × n(r, c + lag).
#[derive(Clone, Copy)]
pub struct FirstSums {
    pub squares: u64,
    pub energy: f64,
    pub lagged: f64,
}

// Of two noises n₀ and n₁: Σ n₁² and Σ n₀ × n₁.
#[derive(Clone, Copy)]
pub struct SecondSums {
    pub second: f64,
    pub cross: f64,
}

// The sums of the first frame's plane.
pub fn of_plane(pair: &PlanePair, lag: usize, shift: Shift) -> FirstSums
    ensures { FirstSumsOf (shown pair.now) lag shift.bits result }
{
    let sums = noise::plane_sums(pair, lag, shift);
    FirstSums {
        squares: sums.squares as u64,
        energy: std::num::nearest_i64_to_f64(sums.energy),
        lagged: std::num::nearest_i64_to_f64(sums.lagged),
    }
}

// The sums of the second frame's plane, and of both.
pub fn of_pair(frames: &TwoFrames) -> SecondSums
    ensures { SecondSumsOf (shown frames.now.first) (shown frames.now.second) result }
{
    let sums = noise::pair_sums(frames);
    SecondSums {
        second: std::num::nearest_i64_to_f64(sums.second),
        cross: std::num::nearest_i64_to_f64(sums.cross),
    }
}
