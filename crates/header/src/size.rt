// How many bits a header has.
ghost use Rattle.std.specs.Prelude.{◌≡◌, ◌<◌};
ghost use Rattle.header.specs.Scalars.{scalars};
ghost use Rattle.header.specs.Format.{format_number};
ghost use Rattle.header.specs.Size.{opening_size, size_of};

use crate::counts::kept;
use crate::format::Format;
use crate::header::Header;

impl Header<'_> {
    // apply_grain to the slot
    fn opening_size(&self) -> usize
        ensures { (result ≡ opening_size (scalars self.now.fields) self.now.inter) × (result < 22) }
    {
        let f = self.fields;
        1 + kept(f.apply_grain, 16)
            + kept(f.apply_grain & self.inter, 1)
            + kept(f.apply_grain & !f.update_grain, 3)
    }

    pub fn size(&self) -> usize
        ensures { (result ≡ size_of (scalars self.now.fields) self.now.inter (format_number self.now.format) self.now.counts) × (result < 2000) }
    {
        let opening = self.opening_size();
        if !self.counts.coded {
            return opening;
        }
        let c = self.counts;
        let fields = 14 + kept(self.format != Format::Monochrome, 1) + kept(c.chroma, 8);
        let points = c.y_points.min(14) + c.cb_points.min(10) + c.cr_points.min(10);
        let coeffs = c.y_coeffs.min(24) + c.cb_coeffs.min(25) + c.cr_coeffs.min(25);
        let mixes = kept(0 < c.cb_points, 25) + kept(0 < c.cr_points, 25);
        opening + fields + 16 * points + 8 * coeffs + mixes
    }
}
