// What each call answers to the numbers of a line, which each reads in its own way: no switch of steps, but the list of the calls.
use crate::answer::Answer;
use crate::call::Call;
use crate::case::Case;
use crate::numbers::Numbers;
use crate::plane::Layout;
use crate::planes::{Planes, ROW};
use crate::systems::System;
use crate::{frame_calls, gate_calls, number_calls, plane_calls};

// A call on the planes that its numbers make.
fn on_planes<F: Fn(&Planes<'_>) -> Answer>(
    numbers: &mut Numbers<'_>,
    layout: Layout,
    call: F,
) -> Answer
    requires { F.IsAlwaysCallable call }
{
    let case = Case::read(numbers);
    let mut row = [0; ROW];
    call(&case.planes(layout, &mut row))
}

pub fn answer(call: Call, numbers: &mut Numbers<'_>) -> Answer {
    match call {
        Call::DenoisePlane => on_planes(numbers, Layout::Frame, plane_calls::denoise_plane),
        Call::PlaneSigma16 => on_planes(numbers, Layout::Frame, plane_calls::plane_sigma16),
        Call::LagHRho => on_planes(numbers, Layout::Frame, plane_calls::lag_h_rho),
        Call::FilmGrainProbe => on_planes(numbers, Layout::Lumas, gate_calls::film_grain_probe),
        Call::ChromaNoiseGate => on_planes(numbers, Layout::Chromas, gate_calls::chroma_noise_gate),
        Call::DenoiseFrame => on_planes(numbers, Layout::Frame, frame_calls::denoise_frame),
        Call::NoiseEstimate => on_planes(numbers, Layout::Frame, frame_calls::noise_estimate),
        Call::FitChromaCorr => on_planes(numbers, Layout::Frame, frame_calls::fit_chroma_corr),
        Call::FitArLag => on_planes(numbers, Layout::Frame, frame_calls::fit_ar_lag),
        Call::ArPositions => number_calls::ar_positions(numbers.read()),
        Call::SolveNormal => {
            let system = System::from(numbers.read::<u64>());
            number_calls::solve_normal(system, numbers.read(), numbers.read())
        }
        Call::QuantAr => number_calls::quant_ar(numbers.read()),
        Call::GrainSeedFor => number_calls::grain_seed_for(numbers.read()),
        Call::RandomRegister => number_calls::random_register(numbers.read(), numbers.read()),
    }
}
