// What the calls on a lone plane answer: the first plane and its copy.
use crate::answer::Answer;
use crate::digest::Digest;
use crate::plane::{PairNumber, Plane, Size};
use crate::planes::{Planes, ROOM};

// The destination as a digest, after a refusal too.
pub fn denoise_plane(planes: &Planes<'_>) -> Answer {
    let case = &planes.case;
    let mut copy = [0; ROOM];
    let count = case.copy(Plane::Denoised(PairNumber::First), Size::Luma, &mut copy);
    let outcome = denoise::denoise_plane(
        planes.pair(PairNumber::First).source,
        &mut copy[..count],
        case.width,
        case.height,
    );
    let digest = Digest::default().with_all(&copy[..count]);
    Answer::new(frame::number_of(&outcome), digest.finish())
}

pub fn plane_sigma16(planes: &Planes<'_>) -> Answer {
    let case = &planes.case;
    let lent = planes.pair(PairNumber::First);
    Answer::of(profile::plane_sigma16(lent, case.width, case.height, case.depth))
}

// The correlation as its bits.
pub fn lag_h_rho(planes: &Planes<'_>) -> Answer {
    let case = &planes.case;
    let lent = planes.pair(PairNumber::First);
    let lag = case.argument as usize;
    Answer::of(gate::lag_h_rho(lent, case.width, case.height, lag, case.depth))
}
