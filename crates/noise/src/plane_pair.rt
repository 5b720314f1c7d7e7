// A plane and its denoised copy, as a view shows them.
ghost use Rattle.noise.specs.Seen.{Seen};

use frame::View;

// The view lies in both planes, within the limits, and their samples are low.
#[derive(Clone, Copy)]
pub struct PlanePair<'a> {
    pub source: &'a [u16],
    pub denoised: &'a [u16],
    pub view: View,
    ghost seen: { Seen view source.now denoised.now },
}

impl PlanePair<'_> {
    ghost use Rattle.std.specs.Prelude.{◌≡◌, ◌*◌};

    // How many samples the view shows of each.
    pub fn samples(&self) -> usize
        ensures { result ≡ self.now.view.width * self.now.view.height }
    {
        self.view.width * self.view.height
    }
}
