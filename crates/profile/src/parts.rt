// Parts of a lone plane: question 6 about its samples, and the squares of its shifted noise, while they are in the cache.
ghost use Rattle.std.specs.Prelude.{◌-◌, length};
ghost use Rattle.laws.specs.Sums.{sum_n};
ghost use Rattle.profile.specs.Shifted.{square};
ghost use Rattle.profile.specs.Parts.{part_limit};
ghost use Rattle.profile.specs.LowParts.{Copied, LowThen};

use crate::bins::line_squares;
use crate::lines::PART_LIMIT;
use frame::Pair;

// The sum of a part's d²; nothing where a sample is not below 2^depth.
pub fn part_squares(part: Pair<'_>, depth: u8) -> Option<u64>
    requires { Copied part_limit depth part.source.now part.denoised.now }
    ensures { LowThen result depth part.entry.source.now part.entry.denoised.now (sum_n (square (depth - 8) part.entry.source.now part.entry.denoised.now) (length part.entry.source.now)) }
{
    // Both are gone through, with no branch between them.
    let low = frame::samples_low(part.source, depth) & frame::samples_low(part.denoised, depth);
    if !low {
        return None;
    }
    // (arrays that hold every part, cut to this one: the library has no heap)
    let n = part.source.len();
    let mut plain = [0; PART_LIMIT];
    let mut shifted = [0; PART_LIMIT];
    let plain = &mut plain[..n];
    let shifted = &mut shifted[..n];
    noise::noise_line(part.source, part.denoised, 0, 1, plain);
    noise::shifted_line(plain, noise::depth_shift(depth), shifted);
    Some(line_squares(shifted))
}
