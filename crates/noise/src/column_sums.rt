// The noise of two luma rows, added column by column: four times the averages, once the columns are added too.
ghost use Rattle.std.specs.Prelude.{◌≡◌, ◌+◌, ◌*◌, ◌/◌, ◌≤◌, length};
ghost use Rattle.laws.specs.Table.{tabulate};
ghost use Rattle.frame.specs.Size.{sampled};
ghost use Rattle.noise.specs.Lines.{AtMost, noise_limit};
ghost use Rattle.noise.specs.Quarters.{quartered};

// A sum for each luma column, of two noises.
#[derive(Clone, Copy)]
pub struct ColumnSums<'a> {
    pub sums: &'a [i16],
    ghost small: { AtMost (2 * noise_limit) sums.now },
}

impl ColumnSums<'_> {
    // line[k] = sums[k] + sums[k]: of a format that keeps the columns.
    pub fn kept(self, line: &mut [i16])
        requires { length line.old ≡ sampled 0 (length self.sums.now) }
        ensures { line.new ≡ tabulate (length line.old) (quartered 0 self.entry.sums.now) }
    {
        for (k, quarters) in line.iter_mut().enumerate() {
            let sum = self.sums[k];
            *quarters = sum + sum;
        }
    }

    // part[k] = sums[2c] + sums[2c + 1], c = from + k: part of a line, from place `from` on.
    fn halved_part(self, from: usize, part: &mut [i16])
        requires { from + length part.old ≤ length self.sums.now / 2 }
        ensures { part.new ≡ tabulate (length part.old) (λ k. quartered 1 self.entry.sums.now (from + k)) }
    {
        for (k, quarters) in part.iter_mut().enumerate() {
            let c = (from + k) * 2;
            *quarters = self.sums[c] + self.sums[c + 1];
        }
    }

    // line[k] = sums[2k] + sums[2k + 1]: of one that halves them; of an odd number the last is repeated. In parts of 16 the back end makes packed shifts of the loop.
    pub fn halved(self, line: &mut [i16])
        requires { length line.old ≡ sampled 1 (length self.sums.now) }
        ensures { line.new ≡ tabulate (length line.old) (quartered 1 self.entry.sums.now) }
    {
        let pairs = self.sums.len() / 2;
        let parts = pairs / 16;
        // By index. Tried: `line[..parts * 16].chunks_exact_mut(16).enumerate()`, after which a proof knows no number that was written.
        for part in 0..parts {
            let from = part * 16;
            self.halved_part(from, &mut line[from..from + 16]);
        }
        let from = parts * 16;
        self.halved_part(from, &mut line[from..pairs]);
        if pairs < line.len() {
            let a = self.sums[self.sums.len() - 1];
            line[pairs] = a + a;
        }
    }
}
