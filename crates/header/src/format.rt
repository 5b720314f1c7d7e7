// A frame's format, of the number that a call of C gives. It is header's own: `Shape` of `frame` holds the number, since C lends any and the functions there answer for each, so that no other crate would use the enum.
use frame::Refusal;

#[derive(Clone, Copy, PartialEq, Eq)]
pub enum Format {
    Monochrome,
    Yuv420,
    Yuv422,
    Yuv444,
}

impl TryFrom<u8> for Format {
    type Error = Refusal;

    ghost use Rattle.header.specs.Format.{TellsFormat};

    ghost try_from_gives = { TellsFormat };

    fn try_from(format: u8) -> Result<Format, Refusal> {
        match format {
            0 => Ok(Format::Monochrome),
            1 => Ok(Format::Yuv420),
            2 => Ok(Format::Yuv422),
            3 => Ok(Format::Yuv444),
            _ => Err(Refusal::Format),
        }
    }
}
