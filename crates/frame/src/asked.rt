// All questions of a call. Samples are looked at only where the numbers pass.
ghost use Rattle.std.specs.Prelude.{◌≡◌, [], ◌∷◌, ◌≤◌, cond, length};
ghost use Rattle.laws.specs.Limits.{side_limit};
ghost use Rattle.frame.specs.Questions.{first_no};
ghost use Rattle.frame.specs.Refusal.{number_of, number};
ghost use Rattle.frame.specs.Planes.{samples_of};
ghost use Rattle.frame.specs.Calls.{shape_numbers, pair_numbers, frame_numbers, plane_refusal, lag_refusal, order_refusal, bits_refusal, pair_refusal, frame_refusal, fit_refusal, gate_refusal, denoise_frame_refusal};

use crate::alike::{all_are, all_low};
use crate::{Component, FramePair, Pair, Planes, Refusal, Shape, questions};

// One question.
pub fn ask(answer: bool, refusal: Refusal) -> Result<(), Refusal>
    ensures { number_of result ≡ cond answer 0 (number refusal) }
{
    if answer { Ok(()) } else { Err(refusal) }
}

// Question 7, of a lag. It and question 9 differ in a limit and a refusal; one function of both would be `ask`.
pub fn ask_lag(lag: usize) -> Result<(), Refusal>
    ensures { number_of result ≡ lag_refusal lag }
{
    ask(lag <= 3, Refusal::LagAbove3)
}

// Question 8, of the solver's order.
pub fn ask_order(order: usize) -> Result<(), Refusal>
    ensures { number_of result ≡ order_refusal order }
{
    ask((1..=25).contains(&order), Refusal::SolverOrder)
}

// Question 9, of the bits that the register is asked for.
pub fn ask_bits(bits: u32) -> Result<(), Refusal>
    ensures { number_of result ≡ bits_refusal bits }
{
    ask(bits <= 16, Refusal::RegisterBits)
}

// Questions 1 and 5, of a lone plane and its destination.
#[tactic(auto, unfolding(crate::specs::Calls::plane_refusal, crate::specs::Calls::plane_numbers))]
pub fn ask_plane(width: usize, height: usize, src: usize, dst: usize) -> Result<(), Refusal>
    ensures { number_of result ≡ plane_refusal width height src dst }
{
    ask(questions::is_small(width, height), Refusal::SideAbove4096)?;
    ask(all_are(width * height, &[src, dst]), Refusal::PlaneLength)
}

// Questions 1, 3 and 5, of a lone plane and its denoised copy: those about numbers alone.
#[tactic(auto, unfolding(crate::specs::Calls::pair_numbers))]
pub fn ask_pair_numbers(
    width: usize,
    height: usize,
    depth: u8,
    source: usize,
    denoised: usize,
) -> Result<(), Refusal>
    ensures { number_of result ≡ first_no (pair_numbers width height depth (source ∷ denoised ∷ [])) }
{
    ask(questions::is_small(width, height), Refusal::SideAbove4096)?;
    ask(questions::depth_known(depth), Refusal::Depth)?;
    ask(
        all_are(width * height, &[source, denoised]),
        Refusal::PlaneLength,
    )
}

// Questions 1, 3, 5 and 6, of a lone plane and its denoised copy.
pub fn ask_pair(pair: Pair<'_>, width: usize, height: usize, depth: u8) -> Result<(), Refusal>
    ensures { number_of result ≡ pair_refusal width height depth pair.entry.source.now pair.entry.denoised.now }
{
    ask_pair_numbers(width, height, depth, pair.source.len(), pair.denoised.len())?;
    ask(
        all_low(depth, &[pair.source, pair.denoised]),
        Refusal::SampleAboveDepth,
    )
}

// Questions 1 to 4 and 12, of a frame's shape.
#[tactic(auto, unfolding(crate::specs::Calls::shape_numbers))]
fn ask_shape(s: Shape) -> Result<(), Refusal>
    ensures { number_of result ≡ first_no (shape_numbers s) }
{
    ask(
        questions::is_small(s.width, s.height),
        Refusal::SideAbove4096,
    )?;
    ask(
        questions::is_present(s.width, s.height),
        Refusal::EmptyFrame,
    )?;
    ask(questions::depth_known(s.depth), Refusal::Depth)?;
    ask(questions::format_known(s.format), Refusal::Format)?;
    ask(questions::active_inside(s), Refusal::ActiveRectangle)
}

// The samples of a plane.
#[tactic(auto, using(crate::proofs::Size::samples_fit))]
fn samples(s: Shape, component: Component) -> usize
    requires { (s.width ≤ side_limit) × (s.height ≤ side_limit) }
    ensures { result ≡ samples_of s component }
{
    s.width_of(component) * s.height_of(component)
}

// Questions 1 to 4, 12 and 5, of the planes of frames of one shape: of luma's lengths, and of chroma's.
pub fn ask_lengths(s: Shape, luma: &[usize], chroma: &[usize]) -> Result<(), Refusal>
    ensures { number_of result ≡ first_no (frame_numbers s luma.now chroma.now) }
{
    ask_shape(s)?;
    let filled = all_are(samples(s, Component::Y), luma)
        && all_are(samples(s, Component::CbCr), chroma);
    ask(filled, Refusal::PlaneLength)
}

// Questions 1 to 4, 12, 5 and 6, of a frame and its denoised copy.
pub fn ask_frame(s: Shape, frame: &FramePair<'_>) -> Result<(), Refusal>
    ensures { number_of result ≡ frame_refusal s frame.now.source.y.now frame.now.source.cb.now frame.now.source.cr.now frame.now.denoised.y.now frame.now.denoised.cb.now frame.now.denoised.cr.now }
{
    let source = frame.source;
    let denoised = frame.denoised;
    ask_lengths(
        s,
        &[source.y.len(), denoised.y.len()],
        &[
            source.cb.len(),
            source.cr.len(),
            denoised.cb.len(),
            denoised.cr.len(),
        ],
    )?;
    let low = all_low(
        s.depth,
        &[
            source.y,
            source.cb,
            source.cr,
            denoised.y,
            denoised.cb,
            denoised.cr,
        ],
    );
    ask(low, Refusal::SampleAboveDepth)
}

// Questions 1 to 4, 12, and 5 to 7, of a fit: a frame, its denoised copy and a lag.
pub fn ask_fit(s: Shape, frame: &FramePair<'_>, lag: usize) -> Result<(), Refusal>
    ensures { number_of result ≡ fit_refusal s frame.now.source.y.now frame.now.source.cb.now frame.now.source.cr.now frame.now.denoised.y.now frame.now.denoised.cb.now frame.now.denoised.cr.now lag }
{
    ask_frame(s, frame)?;
    ask_lag(lag)
}

// Questions 1 to 4, 12, 5 and 6, of one component of two frames and of their denoised copies: pairs as they are lent.
pub fn ask_gate(
    s: Shape,
    component: Component,
    first: Pair<'_>,
    second: Pair<'_>,
) -> Result<(), Refusal>
    ensures { number_of result ≡ gate_refusal s component first.entry.source.now first.entry.denoised.now second.entry.source.now second.entry.denoised.now }
{
    ask_shape(s)?;
    let lengths = [
        first.source.len(),
        first.denoised.len(),
        second.source.len(),
        second.denoised.len(),
    ];
    ask(
        all_are(samples(s, component), &lengths),
        Refusal::PlaneLength,
    )?;
    let low = all_low(
        s.depth,
        &[first.source, first.denoised, second.source, second.denoised],
    );
    ask(low, Refusal::SampleAboveDepth)
}

// Questions 1 to 4, 12, 5 and 6, of a frame and the lengths of its destinations.
pub fn ask_denoise_frame(
    s: Shape,
    frame: &Planes<'_>,
    yout: usize,
    cbout: usize,
    crout: usize,
) -> Result<(), Refusal>
    ensures { number_of result ≡ denoise_frame_refusal s frame.now.y.now frame.now.cb.now frame.now.cr.now yout cbout crout }
{
    ask_lengths(
        s,
        &[frame.y.len(), yout],
        &[frame.cb.len(), frame.cr.len(), cbout, crout],
    )?;
    ask(
        all_low(s.depth, &[frame.y, frame.cb, frame.cr]),
        Refusal::SampleAboveDepth,
    )
}
