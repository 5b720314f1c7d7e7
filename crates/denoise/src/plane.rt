// A plane, row by row.
ghost use Rattle.std.specs.Prelude.{◌≡◌, ◌+◌, ◌*◌, ◌<◌, ◌≤◌, length};
ghost use Rattle.laws.specs.Limits.{side_limit};
ghost use Rattle.laws.specs.Table.{tabulate};
ghost use Rattle.denoise.specs.Line.{row_of};
ghost use Rattle.denoise.specs.Denoise.{smoothed, denoised};

use crate::line::{Rows, line_means};
use frame::SIDE_LIMIT;

// A plane: its samples in row order, and its size.
#[derive(Clone, Copy)]
pub struct Plane<'a> {
    samples: &'a [u16],
    width: usize,
    height: usize,
    ghost narrow: { width ≤ side_limit },
    ghost filled: { length samples.now ≡ width * height },
}

impl<'a> Plane<'a> {
    pub fn new(samples: &'a [u16], width: usize, height: usize) -> Plane<'a>
        requires narrow { width ≤ side_limit }
        requires filled { length samples.now ≡ width * height }
        ensures { (result.samples.now ≡ samples.now) × (result.width ≡ width) × (result.height ≡ height) }
    {
        Plane {
            samples,
            width,
            height,
        }
    }

    // The samples of a row.
    fn row(&self, row: usize) -> &'a [u16]
        requires { row * self.now.width + self.now.width ≤ length self.now.samples.now }
        ensures { (result.now ≡ row_of self.now.samples.now self.now.width row) × (length result.now ≡ self.now.width) }
    {
        let a = row * self.width;
        let e = a + self.width;
        &self.samples[a..e]
    }

    // A row of the result, with a line to work in.
    fn smooth_row(&self, row: usize, line: &mut [u32], out: &mut [u16])
        requires { (row < self.now.height) × (0 < self.now.width) × (length line.old ≡ self.now.width + 2) × (length out.old ≡ self.now.width) }
        ensures { out.new ≡ tabulate self.now.width (smoothed self.now.samples.now self.now.width self.now.height row) }
    {
        let rows = Rows {
            up: self.row(row.saturating_sub(1)),
            mid: self.row(row),
            down: self.row((row + 1).min(self.height - 1)),
        };
        rows.column_sums(line);
        line_means(line, out);
    }

    // Every row of the result, with a line to work in.
    fn smooth_rows(&self, line: &mut [u32], dst: &mut [u16])
        requires { (0 < self.now.width) × (length line.old ≡ self.now.width + 2) × (length dst.old ≡ self.now.width * self.now.height) }
        ensures { dst.new ≡ denoised self.now.samples.now self.now.width self.now.height }
    {
        // By index. Tried: `dst.chunks_exact_mut(self.width).enumerate()`, after which a proof knows no sample that was written.
        for row in 0..self.height {
            let a = row * self.width;
            let e = a + self.width;
            self.smooth_row(row, line, &mut dst[a..e]);
        }
    }

    // The denoised plane.
    #[tactic(auto, using(crate::proofs::Rows::rows_none))]
    pub fn smooth(&self, dst: &mut [u16])
        requires { length dst.old ≡ self.now.width * self.now.height }
        ensures { dst.new ≡ denoised self.now.samples.now self.now.width self.now.height }
    {
        if self.width == 0 {
            return;
        }
        let mut line = [0; LINE];
        let n = self.width + 2;
        self.smooth_rows(&mut line[..n], dst);
    }
}

// A line for the widest row, with one column more at each end; there is no heap to take one of a row's own width from.
const LINE: usize = SIDE_LIMIT + 2;
