// Sigma16 of a plane.
ghost use Rattle.std.specs.Prelude.{◌≡◌, ◌-◌};
ghost use Rattle.laws.specs.Limits.{plane_limit};
ghost use Rattle.profile.specs.Steps.{plane_squares};
ghost use Rattle.profile.specs.Answers.{sigma_answer};
ghost use Rattle.profile.specs.LowParts.{Copied, LowThen};
ghost use Rattle.profile.specs.Record.{sigma_record};

use crate::Sigma;
use crate::lines::PART_LIMIT;
use crate::parts::part_squares;
use frame::{Pair, Refusal};

impl From<Result<u64, Refusal>> for Sigma {
    ghost from_gives = { λ answer r. r ≡ sigma_record answer };

    fn from(answer: Result<u64, Refusal>) -> Sigma {
        match answer {
            Ok(sigma16) => Sigma {
                refusal: 0,
                sigma16,
            },
            Err(refusal) => Sigma {
                refusal: refusal.into(),
                sigma16: 0,
            },
        }
    }
}

// The sum of a plane's d², part by part; a part whose samples are not low ends it.
fn plane_squares(plane: Pair<'_>, depth: u8) -> Option<u64>
    requires { Copied plane_limit depth plane.source.now plane.denoised.now }
    ensures { LowThen result depth plane.entry.source.now plane.entry.denoised.now (plane_squares (depth - 8) plane.entry.source.now plane.entry.denoised.now) }
{
    let mut sum = 0;
    let copies = plane.denoised.chunks(PART_LIMIT);
    for (source, denoised) in plane.source.chunks(PART_LIMIT).zip(copies) {
        sum += part_squares(Pair { source, denoised }, depth)?;
    }
    Some(sum)
}

// round(16 × root(sum of d² / count)), d the noise shifted right by depth − 8; 0 for an empty plane. A lone plane is lent whole, so question 6 is asked part by part, and each sample is read from memory once. (The size stands beside the plane and in no struct: nothing holds of them before the questions.)
pub fn plane_sigma16(
    plane: Pair<'_>,
    width: usize,
    height: usize,
    depth: u8,
) -> Result<u64, Refusal>
    ensures { sigma_record result ≡ sigma_answer width height depth plane.entry.source.now plane.entry.denoised.now }
{
    frame::ask_pair_numbers(
        width,
        height,
        depth,
        plane.source.len(),
        plane.denoised.len(),
    )?;
    let squares = plane_squares(plane, depth).ok_or(Refusal::SampleAboveDepth)?;
    Ok(float::sigma16(squares, plane.source.len() as u64))
}
