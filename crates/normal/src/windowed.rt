// A plane, and a frame, that holds a fit's window.
ghost use Rattle.std.specs.Prelude.{◌≡◌, ◌-◌, ◌*◌};
ghost use Rattle.normal.specs.Calls.{Window};

use crate::shown_frame::ShownFrame;
use noise::PlanePair;
use positions::Lag;

// A plane that has a window at this lag.
#[derive(Clone, Copy)]
pub struct Windowed<'a> {
    pub pair: PlanePair<'a>,
    pub lag: Lag,
    ghost window: { Window pair.view.width pair.view.height lag.reach },
}

impl Windowed<'_> {
    // How many columns the window has.
    pub fn columns(&self) -> usize
        ensures { result ≡ self.now.pair.view.width - 2 * self.now.lag.reach }
    {
        self.pair.view.width - 2 * self.lag.reach
    }

    // How many rows.
    pub fn rows(&self) -> usize
        ensures { result ≡ self.now.pair.view.height - self.now.lag.reach }
    {
        self.pair.view.height - self.lag.reach
    }
}

// A frame whose chroma planes have a window at this lag.
#[derive(Clone, Copy)]
pub struct WindowedFrame<'a> {
    pub shown: ShownFrame<'a>,
    pub lag: Lag,
    ghost window: { Window shown.cb.view.width shown.cb.view.height lag.reach },
}

// A method each: a function of any plane would have to ask that its view is Cb's.
impl<'a> WindowedFrame<'a> {
    pub fn cb(&self) -> Windowed<'a>
        ensures { (result.pair ≡ self.now.shown.cb) × (result.lag ≡ self.now.lag) }
    {
        Windowed {
            pair: self.shown.cb,
            lag: self.lag,
        }
    }

    pub fn cr(&self) -> Windowed<'a>
        ensures { (result.pair ≡ self.now.shown.cr) × (result.lag ≡ self.now.lag) }
    {
        Windowed {
            pair: self.shown.cr,
            lag: self.lag,
        }
    }
}
