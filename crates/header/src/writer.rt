// The fields' bits in stream order.
ghost use Rattle.std.specs.Prelude.{◌≡◌, length};
ghost use Rattle.header.specs.Text.{points, coeffs, opening, luma_part, chroma_part, filter_part, closing, rest, rows};
ghost use Rattle.header.specs.Stored.{stored};
ghost use Rattle.header.specs.Scalars.{scalars};
ghost use Rattle.header.specs.Format.{format_number};
ghost use Rattle.header.specs.Bits.{bits_of, packed};

use crate::bits::BitWriter;
use crate::format::Format;
use crate::header::Header;
use crate::stored::{
    CB_COEFFS, CB_POINTS, CR_COEFFS, CR_POINTS, Points, Y_COEFFS, Y_POINTS, parted,
};

impl BitWriter<'_> {
    ghost use Rattle.header.specs.Held.{Puts, mix_bits};

    // A plane's points, value and scaling in turn.
    fn put_points(&mut self, n: usize, list: &Points<'_>)
        ensures { Puts (bits_of (points (length list.now.values.now) n list.now.values.now list.now.scalings.now)) self.old self.new }
    {
        let (values, _) = parted(list.values, n);
        let (scalings, _) = parted(list.scalings, n);
        for (value, scaling) in values.iter().zip(scalings) {
            self.put(8, u32::from(*value));
            self.put(8, u32::from(*scaling));
        }
    }

    // A plane's coefficients.
    fn put_coeffs(&mut self, n: usize, values: &[u8])
        ensures { Puts (bits_of (coeffs (length values.now) n values.now)) self.old self.new }
    {
        let (first, _) = parted(values, n);
        for value in first {
            self.put(8, u32::from(*value));
        }
    }

    // A plane's multipliers and offset. `present` is the table's condition of their rows, a fact about the header and no step.
    fn put_mix(&mut self, present: bool, mult: u8, luma_mult: u8, offset: u16)
        ensures { Puts (mix_bits present mult luma_mult offset) self.old self.new }
    {
        self.put_field(present, 8, u32::from(mult));
        self.put_field(present, 8, u32::from(luma_mult));
        self.put_field(present, 9, u32::from(offset));
    }
}

impl Header<'_> {
    ghost use Rattle.header.specs.Params.{params};
    ghost use Rattle.header.specs.Held.{Puts};

    fn put_opening(&self, w: &mut BitWriter<'_>)
        ensures { Puts (bits_of (opening (scalars self.now.fields) self.now.inter)) w.old w.new }
    {
        let f = self.fields;
        w.put(1, u32::from(f.apply_grain));
        w.put_field(f.apply_grain, 16, u32::from(f.grain_seed));
        w.put_field(f.apply_grain & self.inter, 1, u32::from(f.update_grain));
        w.put_field(
            f.apply_grain & !f.update_grain,
            3,
            u32::from(f.film_grain_params_ref_idx),
        );
    }

    fn put_luma(&self, w: &mut BitWriter<'_>)
        ensures { Puts (bits_of (luma_part (params self.now) self.now.counts)) w.old w.new }
    {
        let c = self.counts;
        w.put_field(c.coded, 4, u32::from(self.fields.num_y_points));
        w.put_points(c.y_points, &self.points(Y_POINTS));
    }

    fn put_chroma(&self, w: &mut BitWriter<'_>)
        ensures { Puts (bits_of (chroma_part (params self.now) (format_number self.now.format) self.now.counts)) w.old w.new }
    {
        let f = self.fields;
        let c = self.counts;
        w.put_field(
            c.coded & (self.format != Format::Monochrome),
            1,
            u32::from(f.chroma_scaling_from_luma),
        );
        w.put_field(c.chroma, 4, u32::from(f.num_cb_points));
        w.put_points(c.cb_points, &self.points(CB_POINTS));
        w.put_field(c.chroma, 4, u32::from(f.num_cr_points));
        w.put_points(c.cr_points, &self.points(CR_POINTS));
    }

    fn put_filter(&self, w: &mut BitWriter<'_>)
        ensures { Puts (bits_of (filter_part (params self.now) self.now.counts)) w.old w.new }
    {
        let f = self.fields;
        let c = self.counts;
        w.put_field(c.coded, 2, u32::from(f.grain_scaling.saturating_sub(8)));
        w.put_field(c.coded, 2, u32::from(f.ar_coeff_lag));
        w.put_coeffs(c.y_coeffs, self.coeffs(Y_COEFFS));
        w.put_coeffs(c.cb_coeffs, self.coeffs(CB_COEFFS));
        w.put_coeffs(c.cr_coeffs, self.coeffs(CR_COEFFS));
    }

    fn put_closing(&self, w: &mut BitWriter<'_>)
        ensures { Puts (bits_of (closing (scalars self.now.fields) self.now.counts)) w.old w.new }
    {
        let f = self.fields;
        let c = self.counts;
        w.put_field(c.coded, 2, u32::from(f.ar_coeff_shift.saturating_sub(6)));
        w.put_field(c.coded, 2, u32::from(f.grain_scale_shift));
        w.put_mix(0 < c.cb_points, f.cb_mult, f.cb_luma_mult, f.cb_offset);
        w.put_mix(0 < c.cr_points, f.cr_mult, f.cr_luma_mult, f.cr_offset);
        w.put_field(c.coded, 1, u32::from(f.overlap_flag));
        w.put_field(c.coded, 1, u32::from(f.clip_to_restricted_range));
    }

    // All after the slot.
    fn put_rest(&self, w: &mut BitWriter<'_>)
        ensures { Puts (bits_of (rest (params self.now) (format_number self.now.format) self.now.counts)) w.old w.new }
    {
        if !self.counts.coded {
            return;
        }
        self.put_luma(w);
        self.put_chroma(w);
        self.put_filter(w);
        self.put_closing(w);
    }

    // All bits, and zeros to the end of the last byte.
    pub fn put(&self, bytes: &mut [u8])
        ensures { bytes.new ≡ packed (bits_of (rows (stored self.now.bytes.now) self.now.inter (format_number self.now.format))) bytes.old }
    {
        let mut w = BitWriter::new(bytes);
        self.put_opening(&mut w);
        self.put_rest(&mut w);
        let fill = (8 - w.cursor.count) % 8;
        w.put(fill, 0);
    }
}
