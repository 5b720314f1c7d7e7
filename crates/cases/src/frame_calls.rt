// What the calls on a frame answer.
use crate::answer::Answer;
use crate::digest::Digest;
use crate::plane::{PairNumber, Plane, Size};
use crate::planes::{Planes, ROOM};
use chroma_correlation::ChromaCorr;
use denoise::PlanesMut;
use fit::Fit;
use profile::{ChromaProfile, LumaProfile, NoiseEstimate};

// The destinations as a digest, after a refusal too.
pub fn denoise_frame(planes: &Planes<'_>) -> Answer {
    let case = &planes.case;
    let mut y = [0; ROOM];
    let mut cb = [0; ROOM];
    let mut cr = [0; ROOM];
    let of_y = case.copy(Plane::Denoised(PairNumber::First), Size::Luma, &mut y);
    let of_cb = case.copy(Plane::Denoised(PairNumber::Second), Size::Chroma, &mut cb);
    let of_cr = case.copy(Plane::Denoised(PairNumber::Third), Size::Chroma, &mut cr);
    let into = PlanesMut {
        y: &mut y[..of_y],
        cb: &mut cb[..of_cb],
        cr: &mut cr[..of_cr],
    };
    let outcome = denoise::denoise_frame(case.shape(), &planes.source(), into);
    let digest = Digest::default()
        .with_all(&y[..of_y])
        .with_all(&cb[..of_cb])
        .with_all(&cr[..of_cr]);
    Answer::new(frame::number_of(&outcome), digest.finish())
}

// Every sigma16 of a profile as a digest: of each plane, then of its bins.
pub fn noise_estimate(planes: &Planes<'_>) -> Answer {
    let case = &planes.case;
    let estimate = NoiseEstimate::from(profile::noise_estimate(case.shape(), &planes.frame_pair()));
    let luma = estimate.luma;
    let cb = estimate.cb;
    let cr = estimate.cr;
    let digest = Digest::default()
        .with(luma.sigma16)
        .with_all(&luma.bin_sigma16)
        .with(cb.sigma16)
        .with_all(&cb.bin_sigma16)
        .with(cr.sigma16)
        .with_all(&cr.bin_sigma16);
    Answer::new(estimate.refusal, digest.finish()).with_figure(estimate_figure(
        &luma,
        &cb,
        case.argument as usize,
    ))
}

// A figure of a profile: 0 to 7 that bin of luma, where it counts one sample; 8 to 11 a bin of Cb; 16 to 23 the sigma16 of a bin of luma,
// which is that of its samples where they are enough, else the plane's. No enum: an index needs the bound that the remainder gives.
fn estimate_figure(luma: &LumaProfile, cb: &ChromaProfile, figure: usize) -> u64 {
    let bin = figure % 8;
    match figure / 8 {
        0 => bin_of_one(bin, luma.bin_count[bin]),
        1 => bin_of_one(bin, cb.bin_count[bin % 4]),
        _ => luma.bin_sigma16[bin],
    }
}

// A bin, where it counts one sample; else 8.
fn bin_of_one(bin: usize, count: u64) -> u64 {
    if count == 1 { bin as u64 } else { 8 }
}

// Both coefficients and both marks in a digest.
pub fn fit_chroma_corr(planes: &Planes<'_>) -> Answer {
    let case = &planes.case;
    let lent = planes.frame_pair();
    let correlation = ChromaCorr::from(chroma_correlation::fit_chroma_corr(case.shape(), &lent));
    let digest = Digest::default()
        .with(correlation.cb)
        .with(correlation.cr)
        .with(correlation.cb_mark)
        .with(correlation.cr_mark);
    Answer::new(correlation.refusal, digest.finish())
}

// Whether there is a fit, the count, the coefficients and their marks as a digest; the figure is whether there is one.
pub fn fit_ar_lag(planes: &Planes<'_>) -> Answer {
    let case = &planes.case;
    let lag = case.argument as usize;
    let fit = Fit::from(fit::fit_ar_lag(case.shape(), &planes.frame_pair(), lag));
    let digest = Digest::default()
        .with(fit.found)
        .with(fit.count)
        .with_all(&fit.luma)
        .with_all(&fit.cb)
        .with_all(&fit.cr)
        .with_all(&fit.luma_marks)
        .with_all(&fit.cb_marks)
        .with_all(&fit.cr_marks);
    Answer::new(fit.refusal, digest.finish()).with_figure(u64::from(fit.found))
}
