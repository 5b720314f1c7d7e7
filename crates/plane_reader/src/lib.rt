// A reader of a plane: its rows, its columns and its samples, which are lent. A call asks its questions of them: any numbers may stand beside any samples.
#![tactic(auto)]

ghost use Rattle.std.specs.Prelude.{◌≡◌};
ghost use Rattle.frame.specs.Refusal.{number_of, numbered};
ghost use Rattle.denoise.specs.Calls.{plane_outcome};
ghost use Rattle.profile.specs.Answers.{sigma_answer};
ghost use Rattle.profile.specs.Record.{sigma_record};
ghost use Rattle.plane_reader.specs.Read.{held_at, sample_of};

use frame::{Pair, Refusal};

#[derive(Clone, Copy)]
pub struct PlaneReader<'a> {
    pub rows: usize,
    pub cols: usize,
    pub samples: &'a [u16],
}

// The place that is nearest, of n.
fn held_at(n: usize, place: i32) -> usize
    ensures { result ≡ held_at n place }
{
    usize::try_from(place).unwrap_or(0).min(n.saturating_sub(1))
}

impl<'a> PlaneReader<'a> {
    pub fn new(rows: usize, cols: usize, samples: &'a [u16]) -> PlaneReader<'a>
        ensures { result ≡ record { rows = rows; cols = cols; samples = samples.entry } }
    {
        PlaneReader {
            rows,
            cols,
            samples,
        }
    }

    // The sample at a row and a column, each held at the plane's edge; nothing where the plane is empty.
    pub fn get(self, row: i32, col: i32) -> Result<Option<u16>, Refusal>
        ensures { numbered result ≡ sample_of self.entry.samples.now self.entry.rows self.entry.cols row col }
    {
        let samples = self.samples;
        frame::ask_plane(self.cols, self.rows, samples.len(), samples.len())?;
        let r = held_at(self.rows, row);
        let c = held_at(self.cols, col);
        let i = r * self.cols + c;
        Ok(samples.get(i).copied())
    }

    // The plane, denoised.
    pub fn denoise_into(self, dst: &mut [u16]) -> Result<(), Refusal>
        ensures { (number_of result, dst.new) ≡ plane_outcome self.entry.samples.now dst.old self.entry.cols self.entry.rows }
    {
        denoise::denoise_plane(self.samples, dst, self.cols, self.rows)
    }

    // Sigma16 of the plane and its denoised copy.
    pub fn sigma16(self, denoised: &[u16], depth: u8) -> Result<u64, Refusal>
        ensures { sigma_record result ≡ sigma_answer self.entry.cols self.entry.rows depth self.entry.samples.now denoised.now }
    {
        let plane = Pair {
            source: self.samples,
            denoised,
        };
        profile::plane_sigma16(plane, self.cols, self.rows, depth)
    }
}

// A read of a lent plane, by a reader of it.
pub fn sample_of(
    samples: &[u16],
    rows: usize,
    cols: usize,
    row: i32,
    col: i32,
) -> Result<Option<u16>, Refusal>
    ensures { numbered result ≡ sample_of samples.now rows cols row col }
{
    PlaneReader::new(rows, cols, samples).get(row, col)
}
