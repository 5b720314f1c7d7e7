// The magnitude of a float.
ghost use Rattle.std.specs.Prelude.{◌≡◌};
ghost use Rattle.float.specs.Magnitude.{magnitude_of};

// |x|, Rust's `abs`.
#[tactic(auto, using(crate::proofs::WithoutSign::without_sign))]
pub fn magnitude(x: f64) -> f64
    ensures { result ≡ magnitude_of x }
{
    x.abs()
}
