// The profile of a plane, for any number of bins.
ghost use Rattle.std.specs.Prelude.{◌≡◌, ◌+◌, ◌-◌, ◌*◌, ◌^◌, ◌<◌};
ghost use Rattle.laws.specs.Table.{tabulate};
ghost use Rattle.frame.specs.View.{viewed};
ghost use Rattle.profile.specs.Bins.{count_of_bin, squares_of_bin};
ghost use Rattle.profile.specs.Steps.{profile, sigma_of_bin};
ghost use Rattle.profile.specs.Runs.{Profiled};
ghost use Rattle.profile.specs.LowPair.{Room, RunAdded};

use crate::bins::Bins;
use crate::lines::{PART_LIMIT, PartLines};
use crate::low_pair::LowPair;
use crate::split::Split;

// The noise of a plane, and of each of its bins: as sigma16, and how many samples lie in a bin with the sum of their squares. (A table of each figure, as the definitions and C have them: an array of bins would be parted again in contracts, and for C.)
#[derive(Clone, Copy)]
pub struct Profile<const BINS: usize> {
    pub sigma16: u64,
    pub bin_sigma16: [u64; BINS],
    pub bin_count: [u64; BINS],
    pub bin_squares: [u64; BINS],
}

// The bins of row r, added part by part. (A row's number is counted by the loop and used at once, as in `noise_row`: a struct would be made there, to be opened here.)
fn add_row<const BINS: usize>(low: &LowPair<'_>, r: usize, bins: &mut Bins<BINS>)
    requires shown { r < low.now.view.height }
    requires room { Room bins.old low.now.view.width }
    ensures { RunAdded low.now (low.now.view.start + r * low.now.view.step) low.now.view.width bins.old bins.new }
{
    // (arrays that hold every part, cut to each: the library has no heap)
    let mut line = [0; PART_LIMIT];
    let mut numbers = [0; PART_LIMIT];
    let mut own = [0; PART_LIMIT];
    let view = low.view;
    let start = view.start + r * view.step;
    // (not `chunks`: where a stride leaves samples out, a part of a row is no slice of the plane)
    for from in (0..view.width).step_by(PART_LIMIT) {
        let n = PART_LIMIT.min(view.width - from);
        let lines = PartLines {
            line: &mut line[..n],
            bins: &mut numbers[..n],
            own: &mut own[..n],
        };
        bins.add_part(low, start + from * view.stride, lines);
    }
}

// The bins of what a view shows, row by row.
fn view_bins<const BINS: usize>(low: &LowPair<'_>, split: Split<BINS>) -> Bins<BINS>
    ensures count { result.count ≡ tabulate (2 ^ split.entry.bits) (count_of_bin split.entry.bits (low.now.depth - 8) (viewed low.now.view low.now.source.now)) }
    ensures squares { result.squares ≡ tabulate (2 ^ split.entry.bits) (squares_of_bin split.entry.bits (low.now.depth - 8) (viewed low.now.view low.now.source.now) (viewed low.now.view low.now.denoised.now)) }
{
    let mut bins = Bins {
        split,
        count: [0; BINS],
        squares: [0; BINS],
    };
    // (row numbers are what a view computes its places from)
    for r in 0..low.view.height {
        add_row(low, r, &mut bins);
    }
    bins
}

// A bin's own sigma16 where enough samples are in it, else the plane's.
#[tactic(auto, unfolding(crate::specs::Steps::sigma_of_bin))]
fn bin_sigma16(enough: u64, plane: u64, squares: u64, count: u64) -> u64
    ensures { result ≡ sigma_of_bin enough plane squares count }
{
    if count >= enough {
        float::sigma16(squares, count)
    } else {
        plane
    }
}

// The profile of what a view shows, with 2^bits bins, and for a bin of its own max(n / 100, least) samples of n. The plane's squares are those of its bins, added up.
pub fn profile_of<const BINS: usize>(
    low: &LowPair<'_>,
    split: Split<BINS>,
    least: u64,
) -> Profile<BINS>
    ensures { Profiled (profile split.entry.bits least (low.now.depth - 8) (viewed low.now.view low.now.source.now) (viewed low.now.view low.now.denoised.now)) result.sigma16 result.bin_sigma16 result.bin_count result.bin_squares }
{
    let bins = view_bins(low, split);
    let view = low.view;
    let n = (view.width * view.height) as u64;
    let sigma16 = float::sigma16(bins.squares.iter().sum(), n);
    let enough = (n / 100).max(least);
    let mut figures = [0; BINS];
    for (j, figure) in figures.iter_mut().enumerate() {
        *figure = bin_sigma16(enough, sigma16, bins.squares[j], bins.count[j]);
    }
    Profile {
        sigma16,
        bin_sigma16: figures,
        bin_count: bins.count,
        bin_squares: bins.squares,
    }
}
