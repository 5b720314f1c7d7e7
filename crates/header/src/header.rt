// A header to be written: the record with what is read from it once, and what the call says of the frame.
ghost use Rattle.std.specs.Prelude.{◌≡◌};
ghost use Rattle.header.specs.Text.{counts_of};
ghost use Rattle.header.specs.Format.{format_number};
ghost use Rattle.header.specs.Scalars.{fields_of, scalars};

use crate::counts::{Counts, counts_of};
use crate::format::Format;
use crate::stored::{Fields, List, Points};

#[derive(Clone, Copy)]
pub struct Header<'a> {
    pub bytes: &'a [u8; 168],
    pub fields: Fields,
    pub inter: bool,
    pub format: Format,
    pub counts: Counts,
    ghost read: { fields ≡ fields_of bytes.now },
    ghost counted: { counts ≡ counts_of (scalars fields) (format_number format) },
}

impl<'a> Header<'a> {
    ghost use Rattle.std.specs.Prelude.{◌+◌, ◌*◌, ◌≤◌, length};
    ghost use Rattle.header.specs.Stored.{items_from};

    // Here `inter` and `format` become one value with the record; before, each is as it is lent.
    pub fn new(bytes: &'a [u8; 168], inter: bool, format: Format) -> Header<'a>
        ensures { (result.bytes.now ≡ bytes.now) × (result.inter ≡ inter) × (result.format ≡ format) }
    {
        let fields = Fields::from(bytes);
        Header {
            bytes,
            fields,
            inter,
            format,
            counts: counts_of(fields, format),
        }
    }

    // A plane's points: the values from `list.at` on, and as many scalings after them.
    pub fn points(&self, list: List) -> Points<'a>
        requires { list.at + 2 * list.places ≤ 168 }
        ensures values { result.values.now ≡ items_from self.now.bytes.now list.at list.places }
        ensures scalings { result.scalings.now ≡ items_from self.now.bytes.now (list.at + list.places) list.places }
        ensures places { length result.values.now ≡ list.places }
    {
        let bytes = self.bytes;
        let middle = list.at + list.places;
        Points {
            values: &bytes[list.at..middle],
            scalings: &bytes[middle..middle + list.places],
        }
    }

    // A plane's coefficients.
    pub fn coeffs(&self, list: List) -> &'a [u8]
        requires { list.at + list.places ≤ 168 }
        ensures values { result.now ≡ items_from self.now.bytes.now list.at list.places }
        ensures places { length result.now ≡ list.places }
    {
        let bytes = self.bytes;
        &bytes[list.at..list.at + list.places]
    }
}
