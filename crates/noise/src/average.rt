// Lines of luma averages, in quarters.
ghost use Rattle.std.specs.Prelude.{◌≡◌, ◌+◌, ◌-◌, ◌*◌, ◌≤◌, ◌<◌, ◌+ℤ◌, length};
ghost use Rattle.laws.specs.Table.{tabulate};
ghost use Rattle.frame.specs.Size.{sampled};
ghost use Rattle.noise.specs.Average.{quarters};
ghost use Rattle.noise.specs.PlanePair.{shown, noise_in};
ghost use Rattle.noise.specs.Quarters.{AverageRow};

use crate::column_sums::ColumnSums;
use crate::line::noise_at;
use crate::plane_pair::PlanePair;
use frame::Sampling;

// sums[c] = the noise of row upper at column c + that of row lower.
fn added_places(pair: &PlanePair, upper: usize, lower: usize, stride: usize, sums: &mut [i16])
    requires stride { stride ≡ pair.now.view.stride }
    requires upper { upper < pair.now.view.height }
    requires lower { lower < pair.now.view.height }
    requires fits { length sums.old ≤ pair.now.view.width }
    ensures { sums.new ≡ tabulate (length sums.old) (λ c. noise_in pair.now upper c +ℤ noise_in pair.now lower c) }
{
    let source = pair.source;
    let denoised = pair.denoised;
    let above = pair.view.start + upper * pair.view.step;
    let below = pair.view.start + lower * pair.view.step;
    for (c, sum) in sums.iter_mut().enumerate() {
        let a = noise_at(source, denoised, above + c * stride);
        let b = noise_at(source, denoised, below + c * stride);
        *sum = a + b;
    }
}

// The noise of two rows, added column by column. With a stride of 1 written out, the back end makes packed loads and differences of the loop.
fn added_rows(pair: &PlanePair, upper: usize, lower: usize, sums: &mut [i16])
    requires upper { upper < pair.now.view.height }
    requires lower { lower < pair.now.view.height }
    requires fits { length sums.old ≤ pair.now.view.width }
    ensures { sums.new ≡ tabulate (length sums.old) (λ c. noise_in pair.now upper c +ℤ noise_in pair.now lower c) }
{
    let stride = pair.view.stride;
    if stride == 1 {
        added_places(pair, upper, lower, 1, sums);
    } else {
        added_places(pair, upper, lower, stride, sums);
    }
}

// Four times the luma average at each column of chroma row r: of the shown rows r or 2r, 2r + 1, the last repeated. The line sums has a place for each luma column.
pub fn average_line(
    luma: &PlanePair,
    sampling: Sampling,
    r: usize,
    sums: &mut [i16],
    line: &mut [i16],
)
    requires { AverageRow luma.now.view sampling r (length sums.old) (length line.old) }
    ensures { line.new ≡ tabulate (sampled sampling.across luma.now.view.width) (quarters (record { plane = shown luma.now; sampling = sampling }) r) }
{
    let upper = r * (sampling.down + 1);
    let lower = (upper + sampling.down).min(luma.view.height - 1);
    added_rows(luma, upper, lower, sums);
    let columns = ColumnSums { sums };
    if sampling.across == 0 {
        columns.kept(line);
    } else {
        columns.halved(line);
    }
}
