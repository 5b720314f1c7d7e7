// What the gates answer, on one plane of two frames: the first two pairs.
use crate::answer::Answer;
use crate::plane::PairNumber;
use crate::planes::Planes;

pub fn film_grain_probe(planes: &Planes<'_>) -> Answer {
    let case = &planes.case;
    let first = planes.pair(PairNumber::First);
    let second = planes.pair(PairNumber::Second);
    Answer::of(gate::film_grain_probe(case.shape(), first, second))
}

pub fn chroma_noise_gate(planes: &Planes<'_>) -> Answer {
    let case = &planes.case;
    let first = planes.pair(PairNumber::First);
    let second = planes.pair(PairNumber::Second);
    Answer::of(gate::chroma_noise_gate(case.shape(), first, second, case.argument))
}
