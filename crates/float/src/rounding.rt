// The whole number nearest to a float.
ghost use Rattle.std.specs.Prelude.{◌≡◌};
ghost use Rattle.float.specs.Round.{round_half_away};

// The whole number nearest to x, halves away from zero. Rust's `round`.
pub fn round(x: f64) -> f64
    ensures { result ≡ round_half_away x }
{
    x.round()
}
