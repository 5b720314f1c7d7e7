// The seed of a frame's grain, and the random register that grain is drawn from.
#![tactic(auto)]

mod register;
mod seed;

pub use register::{RandomRegister, Stepped, draw_from};
pub use seed::grain_seed_for;
