// The bins of a part: how many samples lie in each, and the sum of their squares.
ghost use Rattle.std.specs.Prelude.{◌≡◌, cond, ◌≤◌, eqb, pos, length, get_or};
ghost use Rattle.laws.specs.Table.{tabulate};
ghost use Rattle.laws.specs.Sums.{sum_n};
ghost use Rattle.noise.specs.Lines.{at};
ghost use Rattle.profile.specs.Shifted.{square_of};
ghost use Rattle.profile.specs.Parts.{part_limit, ShiftedLine, Binned, Between, line_count, line_squares};
ghost use Rattle.profile.specs.LowPair.{RunOf, Room, Added, RunAdded};

use crate::lines::{PartLines, bin_line};
use crate::low_pair::LowPair;
use crate::split::Split;
use noise::Shift;

// How many samples lie in each bin, and the sum of their squares. (Two tables, as the definitions have them: contracts name each by itself, so that an array of bins would be parted again in each.)
#[derive(Clone, Copy)]
pub struct Bins<const BINS: usize> {
    pub split: Split<BINS>,
    pub count: [u64; BINS],
    pub squares: [u64; BINS],
}

// The bins between which all of a part lie.
#[derive(Clone, Copy)]
pub struct Range {
    pub least: u16,
    pub greatest: u16,
}

// What a part has in one bin.
#[derive(Clone, Copy)]
pub struct Bin {
    pub count: u64,
    pub squares: u64,
}

// The least and the greatest bin.
fn range_of(bins: &[u16]) -> Range
    ensures { Between bins.now result.least result.greatest }
{
    let mut least = u16::MAX;
    let mut greatest = 0;
    for &bin in bins {
        least = bin.min(least);
        greatest = bin.max(greatest);
    }
    Range { least, greatest }
}

// How many are in bin j; own[i] = line[i] where bins[i] is j, else 0. (The lines apart, as in `bin_of`.)
fn keep_bin(line: &[i16], bins: &[u16], j: u16, own: &mut [i16]) -> u16
    requires line { length line.now ≡ length own.old }
    requires bins { length bins.now ≡ length own.old }
    requires few { length own.old ≤ part_limit }
    ensures count { result ≡ line_count bins.now j }
    ensures kept { own.new ≡ tabulate (length own.old) (λ i. cond (eqb (get_or bins.now i 0) j) (at line.now i) (pos 0)) }
{
    let mut count = 0;
    for (i, kept) in own.iter_mut().enumerate() {
        let hit = bins[i] == j;
        count += u16::from(hit);
        *kept = if hit { line[i] } else { 0 };
    }
    count
}

// line[0]² + line[1]² + ..
pub fn line_squares(line: &[i16]) -> u64
    requires { ShiftedLine line.now }
    ensures { result ≡ sum_n (λ i. square_of (at line.now i)) (length line.now) }
{
    noise::dot::<{ noise::NOISE_BLOCK }>(line, line) as u64
}

// Bin j. Bins outside the range are empty, and one that is the whole range has all samples: neither is gone through. (The line and its bins are read from here on, and `own` is written, where a `PartLines` lends all three to be written.)
fn bin_of(line: &[i16], bins: &[u16], range: Range, j: u16, own: &mut [i16]) -> Bin
    requires binned { Binned line.now bins.now }
    requires range { Between bins.now range.least range.greatest }
    requires own_fits { length own.old ≡ length bins.now }
    ensures count { result.count ≡ line_count bins.now j }
    ensures squares { result.squares ≡ line_squares line.now bins.now j }
{
    if j < range.least || range.greatest < j {
        Bin {
            count: 0,
            squares: 0,
        }
    } else if range.least == range.greatest {
        let count = bins.len() as u64;
        let squares = line_squares(line);
        Bin { count, squares }
    } else {
        let count = u64::from(keep_bin(line, bins, j, own));
        let squares = line_squares(own);
        Bin { count, squares }
    }
}

impl<const BINS: usize> Bins<BINS> {
    // A line of shifted noise and its bins, added. By index: a turn adds to two arrays. (How much room they need is the call's: what it adds. The lines apart, as in `bin_of`.)
    fn add_line(&mut self, line: &[i16], bins: &[u16], own: &mut [i16])
        requires binned { Binned line.now bins.now }
        requires own_fits { length own.old ≡ length bins.now }
        requires room { Room self.old (length bins.now) }
        ensures { Added (line_count bins.now) (line_squares line.now bins.now) self.old self.new }
    {
        let range = range_of(bins);
        for j in 0..BINS {
            let bin = bin_of(line, bins, range, j as u16, own);
            self.count[j] += bin.count;
            self.squares[j] += bin.squares;
        }
    }

    // A part of a row, from a start on, added.
    pub fn add_part(&mut self, low: &LowPair<'_>, start: usize, lines: PartLines<'_>)
        requires run { RunOf low.now start (length lines.line.now) }
        requires room { Room self.old (length lines.line.now) }
        ensures { RunAdded low.now start (length lines.entry.line.now) self.old self.new }
    {
        let PartLines { line, bins, own } = lines;
        let src = low.source;
        let den = low.denoised;
        let stride = low.view.stride;
        let coarse = Shift {
            bits: u32::from(low.depth) - self.split.bits,
        };
        noise::noise_line(src, den, start, stride, own);
        noise::shifted_line(own, noise::depth_shift(low.depth), line);
        bin_line(src, start, stride, coarse, bins);
        self.add_line(line, bins, own);
    }
}
