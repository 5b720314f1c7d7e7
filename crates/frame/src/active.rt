// What a call sees of a frame: the active rectangle.
ghost use Rattle.std.specs.Prelude.{◌≡◌};
ghost use Rattle.frame.specs.Planes.{view_of, geometry_of};
ghost use Rattle.frame.specs.Inside.{Inside};

use crate::{Component, Geometry, Shape, View};

// Of a plane.
#[tactic(auto, using(crate::proofs::Size::row_fits, crate::proofs::Size::active_fits))]
pub fn view_of(s: Shape, component: Component) -> View
    requires { Inside s }
    ensures { result ≡ view_of s component }
{
    let step = s.width_of(component);
    let left = s.columns_of(component, s.active.left);
    let top = s.rows_of(component, s.active.top);
    View {
        start: top * step + left,
        step,
        stride: 1,
        width: s.columns_of(component, s.active.width),
        height: s.rows_of(component, s.active.height),
    }
}

// Of luma and of chroma.
pub fn geometry_of(s: Shape) -> Geometry
    requires { Inside s }
    ensures { result ≡ geometry_of s }
{
    let luma = view_of(s, Component::Y);
    let chroma = view_of(s, Component::CbCr);
    let sampling = s.sampling();
    Geometry {
        luma,
        chroma,
        sampling,
    }
}
