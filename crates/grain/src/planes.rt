// Calls on a lone plane.
ghost use Rattle.std.specs.Prelude.{◌≡◌};
ghost use Rattle.denoise.specs.Calls.{plane_outcome};
ghost use Rattle.profile.specs.Answers.{sigma_answer};

use frame::Pair;
use profile::Sigma;

// C is given a refusal's number: an exported function returns no enum.
#[unsafe(no_mangle)]
pub extern "C" fn grain_denoise_plane(
    src: &[u16],
    dst: &mut [u16],
    width: usize,
    height: usize,
) -> u32
    ensures { (result, dst.new) ≡ plane_outcome src.now dst.old width height }
{
    frame::number_of(&denoise::denoise_plane(src, dst, width, height))
}

// C lends each plane by itself.
#[unsafe(no_mangle)]
pub extern "C" fn grain_plane_sigma16(
    src: &[u16],
    den: &[u16],
    width: usize,
    height: usize,
    depth: u8,
) -> Sigma
    ensures { result ≡ sigma_answer width height depth src.now den.now }
{
    let plane = Pair {
        source: src,
        denoised: den,
    };
    profile::plane_sigma16(plane, width, height, depth).into()
}
