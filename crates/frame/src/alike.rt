// Questions that are put to several planes alike.
ghost use Rattle.std.specs.Prelude.{◌≡◌, map};
ghost use Rattle.frame.specs.Questions.{each, all_low};

use crate::questions::samples_low;

// Every length is n.
pub fn all_are(n: usize, lengths: &[usize]) -> bool
    ensures { result ≡ each n lengths.now }
{
    lengths.iter().all(|&length| length == n)
}

// Every sample of every plane is below 2^depth.
pub fn all_low(depth: u8, planes: &[&[u16]]) -> bool
    ensures { result ≡ all_low depth (map (λ plane. plane.now) planes.now) }
{
    planes.iter().all(|&plane| samples_low(plane, depth))
}
