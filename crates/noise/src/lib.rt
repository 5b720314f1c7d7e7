// Lines of noise and of luma averages, and sums of products of two lines.
#![tactic(auto)]

mod average;
mod blocks;
mod column_sums;
mod line;
mod plane_pair;
mod rows;
mod shift;
mod sums;
mod two_frames;

pub use average::average_line;
pub use blocks::{AVERAGE_BLOCK, NOISE_BLOCK, dot};
pub use line::{Line, blank_line, noise_line, noise_row, shifted_line};
pub use plane_pair::PlanePair;
pub use rows::{PairSums, pair_sums};
pub use shift::{Shift, depth_shift};
pub use sums::{PlaneSums, plane_sums};
pub use two_frames::TwoFrames;
