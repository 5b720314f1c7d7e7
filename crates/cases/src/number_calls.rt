// What the calls on numbers answer.
use crate::answer::Answer;
use crate::digest::Digest;
use crate::systems::System;
use positions::Positions;
use solve::Solved;
use std::num::f64_from_bits_with_nan;

// Whether there is a solution, its order and its values as a digest; the figure is whether there is one.
pub fn solve_normal(system: System, order: usize, seed: u32) -> Answer {
    let right = System::Whole.row(25, seed);
    let solved = Solved::from(solve::solve_normal(system.matrix(seed), right, order));
    let solution = solved.solution;
    let digest = Digest::default()
        .with(solved.found)
        .with(solution.order)
        .with_all(&solution.values);
    Answer::new(solved.refusal, digest.finish()).with_figure(u64::from(solved.found))
}

// The count, the rows and the columns as a digest.
pub fn ar_positions(lag: usize) -> Answer {
    let positions = Positions::from(positions::ar_positions(lag));
    let digest = Digest::default()
        .with(positions.count)
        .with_all(&positions.rows)
        .with_all(&positions.columns);
    Answer::new(positions.refusal, digest.finish())
}

// The coefficient and its mark as a digest.
pub fn quant_ar(bits: u64) -> Answer {
    let quantised = float::quant_ar(f64_from_bits_with_nan(bits));
    let digest = Digest::default()
        .with(quantised.coefficient)
        .with(u8::from(quantised.mark));
    Answer::new(0, digest.finish())
}

pub fn grain_seed_for(order_hint: u32) -> Answer {
    Answer::new(0, u64::from(random::grain_seed_for(order_hint)))
}

// The bits drawn, above the 16 bits of the state afterwards.
pub fn random_register(state: u16, bits: u32) -> Answer {
    let stepped = random::draw_from(state, bits);
    let state = u64::from(stepped.register.state);
    let bits = u64::from(stepped.draw.unwrap_or(0));
    Answer::new(frame::number_of(&stepped.draw), bits << 16 | state)
}
