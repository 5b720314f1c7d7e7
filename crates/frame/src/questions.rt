// The questions put to a call, each a plain yes or no.
ghost use Rattle.std.specs.Prelude.{◌≡◌};
ghost use Rattle.frame.specs.Questions.{small, present, depth_known, format_known, is_part, active_inside, low};

use crate::{SIDE_LIMIT, Shape};

// w and h are within the limit
pub fn is_small(w: usize, h: usize) -> bool
    ensures { result ≡ (small w h).0 }
{
    (w <= SIDE_LIMIT) & (h <= SIDE_LIMIT)
}

// 1 ≤ w and 1 ≤ h
pub fn is_present(w: usize, h: usize) -> bool
    ensures { result ≡ (present w h).0 }
{
    (1 <= w) & (1 <= h)
}

// depth is 8, 10 or 12
pub fn depth_known(depth: u8) -> bool
    ensures { result ≡ (depth_known depth).0 }
{
    matches!(depth, 8 | 10 | 12)
}

// format ≤ 3. (A number: question 4 asks any that C lends.)
pub fn format_known(format: u8) -> bool
    ensures { result ≡ (format_known format).0 }
{
    format <= 3
}

// Along one direction, a rectangle from `start` on, `size` long, in a frame `side` long: 1 ≤ size, start + size ≤ side, and an even start where the format halves the direction. The sum is not worked out: it may be past the largest number. (`halved` is a fact of the format, and no step is chosen by it.)
fn is_part(halved: bool, start: usize, size: usize, side: usize) -> bool
    ensures { result ≡ is_part halved start size side }
{
    1 <= size && size <= side && start <= side - size && (!halved || start % 2 == 0)
}

// The active rectangle is a part of the frame, and starts where chroma does.
pub fn active_inside(s: Shape) -> bool
    ensures { result ≡ (active_inside s).0 }
{
    let across = is_part(
        (s.format == 1) | (s.format == 2),
        s.active.left,
        s.active.width,
        s.width,
    );
    let down = is_part(s.format == 1, s.active.top, s.active.height, s.height);
    across & down
}

// Every sample is below 2^depth: no sample has a bit at `depth` or above, so neither has the or of them all. Four quarters are read at once, which memory delivers faster than one run. (Tried: `zip` of the quarters, 4.6 ms and more a pass over 4,096×4,096 for 3.0; one run by `fold`, 3.2.)
pub fn samples_low(plane: &[u16], depth: u8) -> bool
    ensures { result ≡ low depth plane.now }
{
    let quarter = plane.len() / 4;
    let mut bits: u16 = 0;
    for i in 0..quarter {
        bits |= plane[i];
        bits |= plane[quarter + i];
        bits |= plane[2 * quarter + i];
        bits |= plane[3 * quarter + i];
    }
    for sample in &plane[4 * quarter..] {
        bits |= sample;
    }
    16 <= depth || bits >> depth == 0
}
