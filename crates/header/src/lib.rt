// The film grain part of a frame header, 5.9.30, written.
#![tactic(auto)]

mod format; // a frame's format
mod stored; // a record where it stands in memory
mod counts; // how many places of each list the syntax has
mod header; // a header to be written
mod limits; // question 10, field by field
mod size; // how many bits there are
mod bits; // bits put one after another into bytes
mod writer; // the fields' bits in stream order

ghost use Rattle.std.specs.Prelude.{◌≡◌};
ghost use Rattle.header.specs.Stored.{stored};
ghost use Rattle.header.specs.Calls.{written_of, write_outcome};

use format::Format;
use frame::{Refusal, ask};
use header::Header;

// A refusal's number, and how many bits were written. The number is C's: an exported record holds no enum.
#[repr(C)]
#[derive(Clone, Copy)]
pub struct Written {
    pub refusal: u32,
    pub bits: usize,
}

impl From<Result<usize, Refusal>> for Written {
    ghost from_gives = { λ answer w. w ≡ written_of answer };

    fn from(answer: Result<usize, Refusal>) -> Written {
        match answer {
            Ok(bits) => Written { refusal: 0, bits },
            Err(refusal) => Written {
                refusal: refusal.into(),
                bits: 0,
            },
        }
    }
}

// The bits of 5.9.30 into `dst`, the highest of a byte first, of a record that is lent as its bytes: how many they are, or the first question whose answer is no. The format is a number, since C lends any, and question 4 asks it.
pub fn write_film_grain_params(
    p: &[u8; 168],
    inter: bool,
    format: u8,
    dst: &mut [u8],
) -> Result<usize, Refusal>
    ensures { (written_of result, dst.new) ≡ write_outcome (stored p.now) inter format dst.old }
{
    let header = Header::new(p, inter, Format::try_from(format)?);
    ask(header.is_allowed(), Refusal::HeaderField)?;
    let bits = header.size();
    ask(bits.div_ceil(8) <= dst.len(), Refusal::HeaderRoom)?;
    header.put(dst);
    Ok(bits)
}
