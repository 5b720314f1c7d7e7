// The exact normal equations of a fit: sums of noise products over its window.
#![tactic(auto)]

mod blocks;
mod neighbours;
mod rows;
mod shown;
mod shown_frame;
mod starts;
mod table;
mod tap;
mod windowed;

pub use blocks::SUM_LIMIT;
pub use neighbours::{neighbour_sum, neighbour_sums};
pub use shown::show_frame;
pub use shown_frame::ShownFrame;
pub use tap::tap_sums;
pub use windowed::{Windowed, WindowedFrame};
