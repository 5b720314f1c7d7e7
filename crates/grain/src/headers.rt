// The grain part of a frame header.
ghost use Rattle.std.specs.Prelude.{◌≡◌};
ghost use Rattle.header.specs.Stored.{stored};
ghost use Rattle.header.specs.Calls.{write_outcome};

use header::Written;

// The record as its bytes, which is what a pointer to it lends. The format is a number, since C lends any, and question 4 asks it.
#[unsafe(no_mangle)]
pub extern "C" fn grain_write_film_grain_params(
    p: &[u8; 168],
    inter: bool,
    format: u8,
    dst: &mut [u8],
) -> Written
    ensures { (result, dst.new) ≡ write_outcome (stored p.now) inter format dst.old }
{
    header::write_film_grain_params(p, inter, format, dst).into()
}
