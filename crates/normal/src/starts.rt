// Sums of the products of two lines, by the place at which each starts.
ghost use Rattle.std.specs.Prelude.{◌≡◌, ◌+◌, ◌<◌, ◌*ℤ◌, length};
ghost use Rattle.noise.specs.Lines.{at};
ghost use Rattle.normal.specs.Starts.{start_sum, Noisy};

use noise::{NOISE_BLOCK, dot};

// up[a] × lo[b] + up[a + 1] × lo[b + 1] + .., n products. (No struct of the lines holds what is asked: each call has starts of its own.)
pub fn start_sum(up: &[i16], lo: &[i16], n: usize, a: usize, b: usize) -> i64
    requires { Noisy up.now lo.now n a b }
    ensures { result ≡ start_sum (at up.now) (at lo.now) n a b }
{
    let up_end = a + n;
    let lo_end = b + n;
    dot::<NOISE_BLOCK>(&up[a..up_end], &lo[b..lo_end])
}

// up[a] × lo[b].
fn product_at(up: &[i16], lo: &[i16], a: usize, b: usize) -> i64
    requires { (a < length up.now) × (b < length lo.now) }
    ensures { result ≡ at up.now a *ℤ at lo.now b }
{
    i64::from(up[a]) * i64::from(lo[b])
}

// The sum one place on: less the first product, and one product more. (It has starts of its own, as `start_sum`.)
pub fn slid_sum(up: &[i16], lo: &[i16], n: usize, a: usize, b: usize, before: i64) -> i64
    requires { Noisy up.now lo.now n (a + 1) (b + 1) × (before ≡ start_sum (at up.now) (at lo.now) n a b) }
    ensures { result ≡ start_sum (at up.now) (at lo.now) n (a + 1) (b + 1) }
{
    let first = product_at(up, lo, a, b);
    let next = product_at(up, lo, a + n, b + n);
    before - first + next
}
