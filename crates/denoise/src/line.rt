// A row at a time: the weights 1 2 1 down the columns, then along the line of the sums.
ghost use Rattle.std.specs.Prelude.{◌≡◌, ◌+◌, ◌*◌, ◌^◌, ◌<◌, ◌≤◌, length};
ghost use Rattle.laws.specs.Table.{tabulate};
ghost use Rattle.denoise.specs.Line.{weigh, mean, column_sum, column_sums, SumsLow, line_mean};

// a + 2·b + c
fn weigh_three(a: u32, b: u32, c: u32) -> u32
    requires { weigh a b c < 2 ^ 32 }
    ensures { result ≡ weigh a b c }
{
    a + 2 * b + c
}

// (sum + 8) / 16
fn mean_of(sum: u32) -> u16
    requires { mean sum < 2 ^ 16 }
    ensures { result ≡ mean sum }
{
    ((sum + 8) >> 4) as u16
}

// Three rows of a plane, one below another, alike in length.
#[derive(Clone, Copy)]
pub struct Rows<'a> {
    pub up: &'a [u16],
    pub mid: &'a [u16],
    pub down: &'a [u16],
    ghost alike: { (length mid.now ≡ length up.now) × (length down.now ≡ length up.now) },
}

impl Rows<'_> {
    // up + 2·mid + down in column c
    fn column_sum(&self, c: usize) -> u32
        requires { c < length self.now.up.now }
        ensures sum { result ≡ column_sum self.now.up.now self.now.mid.now self.now.down.now c }
        ensures low { result ≤ 4 * 65535 }
    {
        weigh_three(
            u32::from(self.up[c]),
            u32::from(self.mid[c]),
            u32::from(self.down[c]),
        )
    }

    // up + 2·mid + down, column by column, the first and the last column once more at the ends
    pub fn column_sums(&self, line: &mut [u32])
        requires { (0 < length self.now.up.now) × (length line.old ≡ length self.now.up.now + 2) }
        ensures sums { line.new ≡ column_sums self.now.up.now self.now.mid.now self.now.down.now (length self.now.up.now) }
        ensures low { SumsLow line.new }
    {
        let n = self.up.len();
        line[0] = self.column_sum(0);
        let inner = &mut line[1..n + 1];
        for (c, sum) in inner.iter_mut().enumerate() {
            *sum = self.column_sum(c);
        }
        line[n + 1] = self.column_sum(n - 1);
    }
}

// (a + 2·b + c + 8) / 16 of three neighbours of a line, the first of them at c
#[tactic(auto, unfolding(crate::specs::Line::line_mean))]
fn mean_at(line: &[u32], c: usize) -> u16
    requires { (c + 2 < length line.now) × SumsLow line.now }
    ensures { result ≡ line_mean line.now c }
{
    mean_of(weigh_three(line[c], line[c + 1], line[c + 2]))
}

// The means of each three neighbours of a line
pub fn line_means(line: &[u32], out: &mut [u16])
    requires { (length line.now ≡ length out.old + 2) × SumsLow line.now }
    ensures { out.new ≡ tabulate (length out.old) (line_mean line.now) }
{
    for (c, mean) in out.iter_mut().enumerate() {
        *mean = mean_at(line, c);
    }
}
