// What the Rust takes from f64 and i32, each function equal to its definition at every argument;
// and by these the quantiser and sigma16.
// `magnitude`, `round`, `as_u64` and `as_i32` only call std's: their contracts say it in the
// definitions that those of the quantiser, sigma16 and the solver are made of.
#![tactic(auto)]

mod cast;
mod quant;
mod root;
mod rounding;
mod scaled;
mod sigma;
mod sign;

pub use cast::{as_i32, as_u64, clamp};
pub use quant::{Mark, Quantised, UNQUANTISED, quant_ar};
pub use root::{Root, sqrt, sqrt_digits};
pub use rounding::round;
pub use sigma::sigma16;
pub use sign::magnitude;
