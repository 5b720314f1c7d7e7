// How many places of each list the syntax has.
ghost use Rattle.std.specs.Prelude.{◌≡◌, cond, ◌^◌, ◌<◌, ◌≤◌};
ghost use Rattle.positions.specs.Text.{num_pos_luma};
ghost use Rattle.header.specs.Scalars.{scalars};
ghost use Rattle.header.specs.Text.{counts_of};
ghost use Rattle.header.specs.Format.{format_number};

use crate::format::Format;
use crate::stored::Fields;

// Two conditions of the table's rows, and how many points and coefficients each plane has in the header.
#[derive(Clone, Copy, Default)]
pub struct Counts {
    // Whether the parameters themselves are coded. Where a part of the header asks it again it is true; tried: a type of header that has the parameters, so that no part asks. It proves, but the largest header takes 291 ns by it for 268.
    pub coded: bool,
    // Whether chroma has points of its own: the condition of two rows, the counts of Cb's points and of Cr's.
    pub chroma: bool,
    pub y_points: usize,
    pub cb_points: usize,
    pub cr_points: usize,
    pub y_coeffs: usize,
    pub cb_coeffs: usize,
    pub cr_coeffs: usize,
}

// n if it is present, else 0: `present` is the table's condition of rows, a fact about the header and no step.
pub fn kept(present: bool, n: usize) -> usize
    ensures { (result ≡ cond present n 0) × (result ≤ n) }
{
    if present { n } else { 0 }
}

// The specification's NumPosLuma, 2 × lag × (lag + 1), of whatever lag is stored: places are counted before question 10 looks at the lag, so that `Lag` of `positions`, at most 3, won't do.
fn num_pos_luma(lag: u8) -> usize
    ensures { (result ≡ num_pos_luma lag) × (result < 2 ^ 18) }
{
    let n = usize::from(lag);
    2 * n * (n + 1)
}

pub fn counts_of(f: Fields, format: Format) -> Counts
    ensures { result ≡ counts_of (scalars f) (format_number format) }
{
    if !(f.apply_grain & f.update_grain) {
        return Counts::default();
    }
    let y_points = usize::from(f.num_y_points);
    let chroma = (format != Format::Monochrome)
        & (!f.chroma_scaling_from_luma & !((format == Format::Yuv420) & (y_points == 0)));
    let cb_points = kept(chroma, usize::from(f.num_cb_points));
    let cr_points = kept(chroma, usize::from(f.num_cr_points));
    let luma = num_pos_luma(f.ar_coeff_lag);
    let with_tap = luma + usize::from(0 < y_points);
    let from_luma = f.chroma_scaling_from_luma;
    Counts {
        coded: true,
        chroma,
        y_points,
        cb_points,
        cr_points,
        y_coeffs: kept(0 < y_points, luma),
        cb_coeffs: kept(from_luma | (0 < cb_points), with_tap),
        cr_coeffs: kept(from_luma | (0 < cr_points), with_tap),
    }
}
