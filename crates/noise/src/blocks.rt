// The sum of the products of two lines.
ghost use Rattle.std.specs.Prelude.{◌≡◌, ◌≤◌, length};
ghost use Rattle.laws.specs.Sums.{sum_to};
ghost use Rattle.noise.specs.Lines.{product, Lines};

// How many products an i32 can add up where each is below 2^26: noise × noise, and noise × average. In blocks of 32 the back end fills its packed multiply-adds.
pub const NOISE_BLOCK: usize = 32;

// And where each is below 2^28: average × average.
pub const AVERAGE_BLOCK: usize = 8;

// p[0] × q[0] + p[1] × q[1] + .., in an i32.
fn block(p: &[i16], q: &[i16]) -> i32
    requires { Lines (length p.now) p.now q.now }
    ensures { result ≡ sum_to (product p.now q.now) (length p.now) }
{
    let mut sum = 0;
    for (x, y) in p.iter().zip(q) {
        sum += i32::from(*x) * i32::from(*y);
    }
    sum
}

// p[0] × q[0] + p[1] × q[1] + .., in blocks of SIZE products. 4,096 of them in blocks of 32 take 269 ns, and 281 ns where `chunks_exact` gives the blocks.
pub fn dot<const SIZE: usize>(p: &[i16], q: &[i16]) -> i64
    requires some { 1 ≤ SIZE }
    requires lines { Lines SIZE p.now q.now }
    ensures { result ≡ sum_to (product p.now q.now) (length p.now) }
{
    let n = p.len();
    let blocks = n / SIZE;
    let mut sum = 0;
    for k in 0..blocks {
        let from = k * SIZE;
        let to = from + SIZE;
        sum += i64::from(block(&p[from..to], &q[from..to]));
    }
    // (both to n, so that the back end sees one length)
    let from = blocks * SIZE;
    sum + i64::from(block(&p[from..n], &q[from..n]))
}
