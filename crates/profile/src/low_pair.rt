// A plane and its denoised copy, of a known depth.
ghost use Rattle.profile.specs.Runs.{SeenAt};

use frame::View;

// What the view shows of both, with samples below 2^depth. (Its planes and view themselves, and no `PlanePair`: tried, and with the pair as a field four goals of overflow in `add_row` stay open, as nothing says there that a plane's length fits a word.)
#[derive(Clone, Copy)]
pub struct LowPair<'a> {
    pub source: &'a [u16],
    pub denoised: &'a [u16],
    pub view: View,
    pub depth: u8,
    ghost low: { SeenAt depth view source.now denoised.now },
}
