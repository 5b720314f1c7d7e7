// The noise of a plane and of a frame, as sigma16: for a plane, and for bins of its samples.
#![tactic(auto)]

mod low_pair; // a plane and its copy, of a known depth
mod lines; // the lines of a part, and its bins
mod split; // how samples are split into bins
mod bins; // the bins of a part
mod profiles; // the profile of a plane
mod parts; // a part of a lone plane
mod planes; // sigma16 of a plane
mod estimate; // the profiles of a frame

pub use estimate::{Estimate, noise_estimate};
pub use planes::plane_sigma16;
pub use profiles::Profile;

// Answers, as C has them. A refusal is a number, since an exported record holds no enum; an array of each figure, as include/grain.h has
// them. Luma and chroma have a profile each, since an exported record can't be generic.

#[repr(C)]
#[derive(Clone, Copy)]
pub struct Sigma {
    pub refusal: u32,
    pub sigma16: u64,
}

#[repr(C)]
#[derive(Clone, Copy)]
pub struct LumaProfile {
    pub sigma16: u64,
    pub bin_sigma16: [u64; 8],
    pub bin_count: [u64; 8],
    pub bin_squares: [u64; 8],
}

#[repr(C)]
#[derive(Clone, Copy)]
pub struct ChromaProfile {
    pub sigma16: u64,
    pub bin_sigma16: [u64; 4],
    pub bin_count: [u64; 4],
    pub bin_squares: [u64; 4],
}

#[repr(C)]
#[derive(Clone, Copy)]
pub struct NoiseEstimate {
    pub refusal: u32,
    pub luma: LumaProfile,
    pub cb: ChromaProfile,
    pub cr: ChromaProfile,
}
