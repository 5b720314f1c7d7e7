// The size of a part, lines for it, and the bin of each sample.
ghost use Rattle.std.specs.Prelude.{◌≡◌, ◌≤◌, length};
ghost use Rattle.laws.specs.Table.{tabulate};
ghost use Rattle.profile.specs.Parts.{part_limit, InPlane, coarse_at};

use noise::Shift;

// The most samples of a part: few enough to stay in the cache, and to lie in few bins.
pub const PART_LIMIT: usize = 256;

// Lines to work in, with a place for each sample of a part: shifted noise, bins, and the noise of one bin.
#[derive(Drop)]
pub struct PartLines<'a> {
    pub line: &'a mut [i16],
    pub bins: &'a mut [u16],
    pub own: &'a mut [i16],
    ghost few: { length line.now ≤ part_limit },
    ghost bins_fit: { length bins.now ≡ length line.now },
    ghost own_fits: { length own.now ≡ length line.now },
}

// bins[i] = src[start + i × stride] >> coarse
fn bins_at(src: &[u16], start: usize, stride: usize, coarse: Shift, bins: &mut [u16])
    requires { InPlane src.now start stride (length bins.old) }
    ensures { bins.new ≡ tabulate (length bins.old) (coarse_at src.now start stride coarse.bits) }
{
    for (i, bin) in bins.iter_mut().enumerate() {
        *bin = src[start + i * stride] >> coarse.bits;
    }
}

// The bin of each sample of a part. With a stride of 1 written out, the back end makes packed loads and shifts of the loop.
pub fn bin_line(src: &[u16], start: usize, stride: usize, coarse: Shift, bins: &mut [u16])
    requires { InPlane src.now start stride (length bins.old) }
    ensures { bins.new ≡ tabulate (length bins.old) (coarse_at src.now start stride coarse.bits) }
{
    if stride == 1 {
        bins_at(src, start, 1, coarse, bins);
    } else {
        bins_at(src, start, stride, coarse, bins);
    }
}
