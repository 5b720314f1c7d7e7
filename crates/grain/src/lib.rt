// The C interface: each call of the library under a name of its own, as include/grain.h declares it.
// Calls that are handed on alike stand one by one, since no exported function is generic.
#![tactic(auto)]

pub mod planes; // denoise and sigma16 of a plane
pub mod frames; // denoise, profile and chroma correlation of a frame
pub mod gates; // row correlation and gates
pub mod fits; // quantiser, solver and fit
pub mod roots; // the root with its digits
pub mod draws; // seed and random register
pub mod headers; // a frame header's grain part

ghost use Rattle.std.specs.Prelude.{◌≡◌};

use frame::{FramePair, Planes};

// The planes of a frame and of its denoised copy, of which C lends each by itself.
fn frame_pair<'a>(
    y: &'a [u16],
    cb: &'a [u16],
    cr: &'a [u16],
    yden: &'a [u16],
    cbden: &'a [u16],
    crden: &'a [u16],
) -> FramePair<'a>
    ensures { result ≡ record { source = record { y = y.entry; cb = cb.entry; cr = cr.entry }; denoised = record { y = yden.entry; cb = cbden.entry; cr = crden.entry } } }
{
    FramePair {
        source: Planes { y, cb, cr },
        denoised: Planes {
            y: yden,
            cb: cbden,
            cr: crden,
        },
    }
}
