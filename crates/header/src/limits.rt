// Question 10: every field, and every place of an array, is as the syntax and its semantics let it be.
ghost use Rattle.std.specs.Prelude.{◌≡◌, ◌&&◌, ℕ, ◌↔◌, IsTrue, cond, eqb, length};
ghost use Rattle.std.specs.List.{All};
ghost use Rattle.header.specs.Row.{allowed};
ghost use Rattle.header.specs.Text.{points, coeffs, yuv420, chroma_point_limit, opening, luma_part, chroma_part, filter_part, closing, rest, uncoded, rows};
ghost use Rattle.header.specs.Bits.{all_allowed};
ghost use Rattle.header.specs.Stored.{stored};
ghost use Rattle.header.specs.Scalars.{scalars};
ghost use Rattle.header.specs.Format.{format_number};
ghost use Rattle.header.specs.Semantics.{Rising};

use crate::format::Format;
use crate::header::Header;
use crate::stored::{
    CB_COEFFS, CB_POINTS, CR_COEFFS, CR_POINTS, Points, Y_COEFFS, Y_POINTS, parted,
};

// Within its limits where it is present, 0 where it is skipped: `present` is the table's condition of the row, here and in a plane's mix, a fact about the header and no step.
fn is_allowed(present: bool, least: u32, most: u32, stored: u32) -> bool
    ensures { result ≡ allowed present least most stored }
{
    if present {
        (least..=most).contains(&stored)
    } else {
        stored == 0
    }
}

fn is_rising(values: &[u8]) -> bool
    ensures { IsTrue result ↔ Rising (length values.now) values.now }
{
    values.is_sorted_by(|a, b| a < b)
}

fn are_zero(bytes: &[u8]) -> bool
    ensures { IsTrue result ↔ All (λ b. b ≡ 0) bytes.now }
{
    bytes.iter().fold(0, |any, byte| any | byte) == 0
}

// A plane's multipliers and offset. A struct of the three would be no plainer: the record has them as fields, and so has the table, a row for each.
fn is_mix_allowed(present: bool, mult: u8, luma_mult: u8, offset: u16) -> bool
    ensures { result ≡ (allowed present 0 255 mult && (allowed present 0 255 luma_mult && allowed present 0 511 offset)) }
{
    is_allowed(present, 0, 255, u32::from(mult))
        & is_allowed(present, 0, 255, u32::from(luma_mult))
        & is_allowed(present, 0, 511, u32::from(offset))
}

// A plane's coefficients: zeros after the first n.
fn are_coeffs_allowed(n: usize, values: &[u8]) -> bool
    ensures { result ≡ all_allowed (coeffs (length values.now) n values.now) }
{
    let (_, past) = parted(values, n);
    are_zero(past)
}

impl Points<'_> {
    // n rising values, and zeros after them.
    fn are_allowed(&self, n: usize) -> bool
        ensures { result ≡ all_allowed (points (length self.now.values.now) n self.now.values.now self.now.scalings.now) }
    {
        let (values, past) = parted(self.values, n);
        let (_, past_scalings) = parted(self.scalings, n);
        is_rising(values) & are_zero(past) & are_zero(past_scalings)
    }
}

impl Header<'_> {
    ghost use Rattle.header.specs.Params.{params};

    fn is_opening_allowed(&self) -> bool
        ensures { result ≡ all_allowed (opening (scalars self.now.fields) self.now.inter) }
    {
        let f = self.fields;
        is_allowed(true, 0, 1, u32::from(f.apply_grain))
            & is_allowed(f.apply_grain, 0, 65535, u32::from(f.grain_seed))
            & is_allowed(
                f.apply_grain,
                u32::from(!self.inter),
                1,
                u32::from(f.update_grain),
            )
            & is_allowed(
                f.apply_grain & !f.update_grain,
                0,
                7,
                u32::from(f.film_grain_params_ref_idx),
            )
    }

    fn is_luma_allowed(&self) -> bool
        ensures { result ≡ all_allowed (luma_part (params self.now) self.now.counts) }
    {
        let c = self.counts;
        is_allowed(c.coded, 0, 14, u32::from(self.fields.num_y_points))
            & self.points(Y_POINTS).are_allowed(c.y_points)
    }

    // In 4:2:0 Cr has no points where Cb has none.
    fn most_cr_points(&self) -> u32
        ensures { result ≡ cond (yuv420 (format_number self.now.format) && eqb self.now.counts.cb_points 0) 0 chroma_point_limit }
    {
        if (self.format == Format::Yuv420) & (self.counts.cb_points == 0) {
            0
        } else {
            10
        }
    }

    fn is_chroma_allowed(&self) -> bool
        ensures { result ≡ all_allowed (chroma_part (params self.now) (format_number self.now.format) self.now.counts) }
    {
        let f = self.fields;
        let c = self.counts;
        let least = u32::from((self.format == Format::Yuv420) & (0 < c.cb_points));
        let most = self.most_cr_points();
        is_allowed(
            c.coded & (self.format != Format::Monochrome),
            0,
            1,
            u32::from(f.chroma_scaling_from_luma),
        ) & is_allowed(c.chroma, 0, 10, u32::from(f.num_cb_points))
            & self.points(CB_POINTS).are_allowed(c.cb_points)
            & is_allowed(c.chroma, least, most, u32::from(f.num_cr_points))
            & self.points(CR_POINTS).are_allowed(c.cr_points)
    }

    fn is_filter_allowed(&self) -> bool
        ensures { result ≡ all_allowed (filter_part (params self.now) self.now.counts) }
    {
        let f = self.fields;
        let c = self.counts;
        is_allowed(c.coded, 8, 11, u32::from(f.grain_scaling))
            & is_allowed(c.coded, 0, 3, u32::from(f.ar_coeff_lag))
            & are_coeffs_allowed(c.y_coeffs, self.coeffs(Y_COEFFS))
            & are_coeffs_allowed(c.cb_coeffs, self.coeffs(CB_COEFFS))
            & are_coeffs_allowed(c.cr_coeffs, self.coeffs(CR_COEFFS))
    }

    fn is_closing_allowed(&self) -> bool
        ensures { result ≡ all_allowed (closing (scalars self.now.fields) self.now.counts) }
    {
        let f = self.fields;
        let c = self.counts;
        is_allowed(c.coded, 6, 9, u32::from(f.ar_coeff_shift))
            & is_allowed(c.coded, 0, 3, u32::from(f.grain_scale_shift))
            & is_mix_allowed(0 < c.cb_points, f.cb_mult, f.cb_luma_mult, f.cb_offset)
            & is_mix_allowed(0 < c.cr_points, f.cr_mult, f.cr_luma_mult, f.cr_offset)
            & is_allowed(c.coded, 0, 1, u32::from(f.overlap_flag))
            & is_allowed(c.coded, 0, 1, u32::from(f.clip_to_restricted_range))
    }

    // Where the parameters aren't coded, every field after the slot is 0: bytes 6 to 165.
    fn is_rest_skipped(&self) -> bool
        ensures { (format : ℕ) → result ≡ all_allowed (rest (stored self.now.bytes.now) format uncoded) }
    {
        let bytes = self.bytes;
        are_zero(&bytes[6..166])
    }

    // All after the slot.
    fn is_rest_allowed(&self) -> bool
        ensures { result ≡ all_allowed (rest (params self.now) (format_number self.now.format) self.now.counts) }
    {
        if !self.counts.coded {
            return self.is_rest_skipped();
        }
        self.is_luma_allowed()
            & self.is_chroma_allowed()
            & self.is_filter_allowed()
            & self.is_closing_allowed()
    }

    pub fn is_allowed(&self) -> bool
        ensures { result ≡ all_allowed (rows (stored self.now.bytes.now) self.now.inter (format_number self.now.format)) }
    {
        self.is_opening_allowed() & self.is_rest_allowed()
    }
}
