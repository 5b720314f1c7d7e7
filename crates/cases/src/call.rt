// The calls that are recorded.
ghost use Rattle.std.specs.Prelude.{◌≡◌, ◌<◌, ◌≤◌, Some, slice_get};
ghost use Rattle.cases.specs.declared.call.TheConstants.Call.{ALL};
ghost use Rattle.cases.specs.declared.call.Call.TheVariants.{FitArLag};

use std::fmt;

#[derive(Clone, Copy, PartialEq, Eq)]
pub enum Call {
    DenoisePlane,
    PlaneSigma16,
    LagHRho,
    FilmGrainProbe,
    ChromaNoiseGate,
    DenoiseFrame,
    NoiseEstimate,
    FitChromaCorr,
    FitArLag,
    ArPositions,
    SolveNormal,
    QuantAr,
    GrainSeedFor,
    RandomRegister,
}

impl Call {
    // In the order of the report, in which worked cases number them.
    pub const ALL: [Call; 14] = [
        Call::DenoisePlane,
        Call::PlaneSigma16,
        Call::LagHRho,
        Call::FilmGrainProbe,
        Call::ChromaNoiseGate,
        Call::DenoiseFrame,
        Call::NoiseEstimate,
        Call::FitChromaCorr,
        Call::FitArLag,
        Call::ArPositions,
        Call::SolveNormal,
        Call::QuantAr,
        Call::GrainSeedFor,
        Call::RandomRegister,
    ];

    // The name of its recorded list.
    pub fn name(self) -> &'static str {
        match self {
            Call::DenoisePlane => "denoise_plane",
            Call::PlaneSigma16 => "plane_sigma16",
            Call::LagHRho => "lag_h_rho",
            Call::FilmGrainProbe => "film_grain_probe",
            Call::ChromaNoiseGate => "chroma_noise_gate",
            Call::DenoiseFrame => "denoise_frame",
            Call::NoiseEstimate => "noise_estimate",
            Call::FitChromaCorr => "fit_chroma_corr",
            Call::FitArLag => "fit_ar_lag",
            Call::ArPositions => "ar_positions",
            Call::SolveNormal => "solve_normal",
            Call::QuantAr => "quant_ar",
            Call::GrainSeedFor => "grain_seed_for",
            Call::RandomRegister => "random_register",
        }
    }
}

// Any number past the last is a fit.
impl From<u64> for Call {
    ghost from_gives = { λ number call.
        (number < 14 → slice_get ALL number ≡ Some call) × (14 ≤ number → call ≡ FitArLag) };

    fn from(number: u64) -> Self {
        Call::ALL
            .get(number as usize)
            .copied()
            .unwrap_or(Call::FitArLag)
    }
}

impl fmt::Display for Call {
    fn fmt<W: fmt::Write>(&self, f: &mut fmt::Formatter<W>) -> fmt::Result {
        f.write_str(self.name())
    }
}
