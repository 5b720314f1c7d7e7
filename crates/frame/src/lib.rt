// The shape of a frame, how its planes are looked at, and the questions put to a call.
#![tactic(auto)]

mod view; // how a plane is looked at
mod active; // what a call sees of a frame
mod questions; // each question, a yes or no
mod refusal; // why a call is refused
mod planes; // planes as they are lent
mod alike; // questions put to several planes alike
mod asked; // all questions of a call

ghost use Rattle.std.specs.Prelude.{◌≡◌};
ghost use Rattle.frame.specs.Planes.{whole_frame, columns_of, rows_of, width_of, height_of, sampling_of};

pub use active::{geometry_of, view_of};
pub use asked::{
    ask, ask_bits, ask_denoise_frame, ask_fit, ask_frame, ask_gate, ask_lag, ask_lengths,
    ask_order, ask_pair, ask_pair_numbers, ask_plane,
};
pub use planes::{FramePair, Pair, Planes};
pub use questions::{format_known, samples_low};
pub use refusal::{Refusal, number_of};
pub use view::{Component, Geometry, Sampling, View};

// The largest width and the largest height.
pub const SIDE_LIMIT: usize = 4096;

// A part of a frame, in luma samples.
#[repr(C)]
#[derive(Clone, Copy)]
pub struct Rectangle {
    pub left: usize,
    pub top: usize,
    pub width: usize,
    pub height: usize,
}

// A frame's size in luma samples, its depth in bits, its format: 0 monochrome, 1 4:2:0, 2 4:2:2, 3 4:4:4; and the active rectangle, outside which there is no picture.
#[repr(C)]
#[derive(Clone, Copy)]
pub struct Shape {
    pub width: usize,
    pub height: usize,
    // Numbers and no enums: C lends any, and questions 3 and 4 ask them.
    pub depth: u8,
    pub format: u8,
    pub active: Rectangle,
}

impl Shape {
    // A frame that is active as a whole.
    pub fn whole(width: usize, height: usize, depth: u8, format: u8) -> Shape
        ensures { result ≡ whole_frame width height depth format }
    {
        let active = Rectangle {
            left: 0,
            top: 0,
            width,
            height,
        };
        Shape {
            width,
            height,
            depth,
            format,
            active,
        }
    }

    // How many columns of a plane lie over x columns of luma.
    #[tactic(auto, unfolding(crate::specs::Size::chroma_width))]
    fn columns_of(self, component: Component, x: usize) -> usize
        ensures { result ≡ columns_of self.format component x }
    {
        match component {
            Component::Y => x,
            Component::CbCr => match self.format {
                0 => 0,
                1 | 2 => x.div_ceil(2),
                _ => x,
            },
        }
    }

    // How many rows of a plane lie over x rows of luma.
    #[tactic(auto, unfolding(crate::specs::Size::chroma_height))]
    fn rows_of(self, component: Component, x: usize) -> usize
        ensures { result ≡ rows_of self.format component x }
    {
        match component {
            Component::Y => x,
            Component::CbCr => match self.format {
                0 => 0,
                1 => x.div_ceil(2),
                _ => x,
            },
        }
    }

    // The columns of a plane. It and the next differ in a side; one function would take which side as one more argument.
    pub fn width_of(self, component: Component) -> usize
        ensures { result ≡ width_of self component }
    {
        self.columns_of(component, self.width)
    }

    // The rows of a plane.
    pub fn height_of(self, component: Component) -> usize
        ensures { result ≡ height_of self component }
    {
        self.rows_of(component, self.height)
    }

    // What the format halves: the columns, and the rows.
    pub fn sampling(self) -> Sampling
        ensures { result ≡ sampling_of self }
    {
        let across = usize::from(self.format <= 2);
        let down = usize::from(self.format <= 1);
        Sampling { across, down }
    }
}
