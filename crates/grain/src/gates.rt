// Row correlation, and the gates on two frames.
ghost use Rattle.std.specs.Prelude.{◌≡◌};
ghost use Rattle.frame.specs.Refusal.{numbered};
ghost use Rattle.gate.specs.Answers.{rho_answer, luma_answer, chroma_answer};
ghost use Rattle.grain.specs.Records.{of_rho};

use frame::{Pair, Refusal, Shape};
use gate::Gate;

// The row correlation, as C has it: a refusal's number, and the value beside it, since an exported record holds no enum.
#[repr(C)]
#[derive(Clone, Copy)]
pub struct RhoRecord {
    pub refusal: u32,
    pub value: f64,
}

impl From<Result<f64, Refusal>> for RhoRecord {
    ghost from_gives = { λ answer r. r ≡ of_rho (numbered answer) };

    fn from(answer: Result<f64, Refusal>) -> RhoRecord {
        match answer {
            Ok(value) => RhoRecord { refusal: 0, value },
            Err(refusal) => RhoRecord {
                refusal: refusal.into(),
                value: 0.0,
            },
        }
    }
}

// C lends each plane by itself.
#[unsafe(no_mangle)]
pub extern "C" fn grain_lag_h_rho(
    src: &[u16],
    den: &[u16],
    width: usize,
    height: usize,
    lag: usize,
    depth: u8,
) -> RhoRecord
    ensures { result ≡ of_rho (rho_answer src.now den.now width height lag depth) }
{
    let pair = Pair {
        source: src,
        denoised: den,
    };
    gate::lag_h_rho(pair, width, height, lag, depth).into()
}

// C lends each plane by itself.
#[unsafe(no_mangle)]
pub extern "C" fn grain_film_grain_probe(
    s: Shape,
    src0: &[u16],
    den0: &[u16],
    src1: &[u16],
    den1: &[u16],
) -> Gate
    ensures { result ≡ luma_answer s src0.now den0.now src1.now den1.now }
{
    let first = Pair {
        source: src0,
        denoised: den0,
    };
    let second = Pair {
        source: src1,
        denoised: den1,
    };
    gate::film_grain_probe(s, first, second).into()
}

// C lends each plane by itself.
#[unsafe(no_mangle)]
pub extern "C" fn grain_chroma_noise_gate(
    s: Shape,
    src0: &[u16],
    den0: &[u16],
    src1: &[u16],
    den1: &[u16],
    sigma16: u64,
) -> Gate
    ensures { result ≡ chroma_answer s src0.now den0.now src1.now den1.now sigma16 }
{
    let first = Pair {
        source: src0,
        denoised: den0,
    };
    let second = Pair {
        source: src1,
        denoised: den1,
    };
    gate::chroma_noise_gate(s, first, second, sigma16).into()
}
