// The planes of a recorded call, made from its numbers; the recorder makes the same ones.
ghost use Rattle.std.specs.Prelude.{◌≡◌, ◌≢◌, ◌^◌, ◌≤◌, IsNone, length};
ghost use Rattle.cases.specs.Planes.{IsDepth, IsWithinOne, samples_of, room_of, pair_of, size_of};

use crate::case::Case;
use crate::draws::Draws;
use crate::fault::Fault;
use crate::kind::Level;
use crate::plane::{Layout, PairNumber, Plane, Size};
use crate::sample::top_of;

// Room for the largest recorded plane, and a sample more.
pub const ROOM: usize = 8256;

// Room for all planes.
pub const ROW: usize = 6 * ROOM;

// All planes of a call in a row, each with a room of its own. Samples that are more than a room holds go on into the rooms behind, until
// the planes of those are written; more than are left to the end of the row, and the plane isn't written. In fixed memory that is lent, so
// that no call runs out of it.
#[derive(Clone, Copy)]
pub struct Planes<'a> {
    pub case: Case,
    layout: Layout,
    row: &'a [u16; ROW],
}

impl Planes<'_> {
    pub fn pair(&self, pair: PairNumber) -> frame::Pair<'_> {
        frame::Pair {
            source: self.plane(Plane::Source(pair)),
            denoised: self.plane(Plane::Denoised(pair)),
        }
    }

    pub fn source(&self) -> frame::Planes<'_> {
        frame::Planes {
            y: self.plane(Plane::Source(PairNumber::First)),
            cb: self.plane(Plane::Source(PairNumber::Second)),
            cr: self.plane(Plane::Source(PairNumber::Third)),
        }
    }

    // The source, and its denoised copy.
    pub fn frame_pair(&self) -> frame::FramePair<'_> {
        frame::FramePair {
            source: self.source(),
            denoised: frame::Planes {
                y: self.plane(Plane::Denoised(PairNumber::First)),
                cb: self.plane(Plane::Denoised(PairNumber::Second)),
                cr: self.plane(Plane::Denoised(PairNumber::Third)),
            },
        }
    }

    // What is lent of a plane.
    fn plane(&self, plane: Plane) -> &[u16]
        ensures sound { IsNone self.now.case.fault → length result.now ≡ room_of self.now.case (size_of self.now.layout (pair_of plane)) }
        ensures near { IsWithinOne (room_of self.now.case (size_of self.now.layout (pair_of plane))) (length result.now) }
        ensures room { length result.now ≤ 8256 }
    {
        let start = plane.place() * ROOM;
        let count = self.case.lent(plane, self.layout.size(plane.pair()));
        let row = self.row;
        &row[start..start + count]
    }
}

// The first sample that is too high; where none is, one that is lent all the same.
fn above_top(depth: u8) -> u16
    ensures { IsDepth depth → depth ≢ 16 → result ≡ 2 ^ depth }
{
    top_of(depth).checked_add(1).unwrap_or(256)
}

impl Case {
    // All planes, in a row of zeros.
    pub fn planes<'a>(&self, layout: Layout, row: &'a mut [u16; ROW]) -> Planes<'a> {
        for plane in Plane::ALL {
            self.write(
                plane,
                layout.size(plane.pair()),
                &mut row[plane.place() * ROOM..],
            );
        }
        Planes {
            case: *self,
            layout,
            row,
        }
    }

    // A plane by itself, for a call to write over, into a room of zeros: how many samples of it are lent. Plane and size stay apart: faults, draws and noises ask the plane alone, `samples` and `columns` the size alone, so that a struct of both would only be taken apart.
    pub fn copy(&self, plane: Plane, size: Size, room: &mut [u16; ROOM]) -> usize
        ensures sound { IsNone self.now.fault → result ≡ room_of self.now size }
        ensures near { IsWithinOne (room_of self.now size) result }
        ensures room { result ≤ 8256 }
    {
        self.write(plane, size, room);
        self.lent(plane, size)
    }

    // Writes the samples of a plane, and one more, where there is room for them; the middle one is too high where the fault asks for it.
    fn write(&self, plane: Plane, size: Size, room: &mut [u16]) {
        let samples = self.samples(size);
        let columns = self.columns(size);
        let is_too_high = self.fault == Some(Fault::TooHigh(plane));
        let common = Draws::new(self.seed, 0);
        let own = Draws::new(self.seed, plane.pair() as u32);
        if samples < room.len() {
            let draws = common.zip(own);
            for (sample, (i, (common, own))) in room[..=samples].iter_mut().zip((0..).zip(draws)) {
                *sample = if is_too_high && i == samples / 2 {
                    above_top(self.depth)
                } else {
                    let column = i.checked_rem(columns).unwrap_or(0);
                    self.sample(plane, column as u64, common, own)
                };
            }
        }
    }

    // How many samples of a plane are lent.
    fn lent(&self, plane: Plane, size: Size) -> usize
        ensures sound { IsNone self.now.fault → result ≡ room_of self.now size }
        ensures near { IsWithinOne (room_of self.now size) result }
        ensures room { result ≤ 8256 }
    {
        let samples = self.samples(size);
        if samples >= ROOM {
            return ROOM;
        }
        match self.fault {
            Some(Fault::Short(short)) if short == plane => samples.saturating_sub(1),
            Some(Fault::Long(long)) if long == plane => samples + 1,
            _ => samples,
        }
    }

    // The samples that the shape asks for.
    fn samples(&self, size: Size) -> usize
        ensures { result ≡ samples_of self.now size }
    {
        match size {
            Size::Luma => self.luma,
            Size::Chroma => self.chroma,
        }
    }

    // The columns of a plane.
    fn columns(&self, size: Size) -> usize {
        match (self.kind.level, size, self.format) {
            (Level::FirstColumns, _, _) => ROOM,
            (_, Size::Chroma, 1 | 2) => self.width.div_ceil(2),
            _ => self.width,
        }
    }
}
