// "a reader record of rows, columns and the lent u16 samples": a read of a plane, held at the edges as `PlaneBuffer::get` holds it.
ghost use Rattle.std.specs.Prelude.{◌≡◌, ◌/◌, ◌%◌, pos, negsuc};

use crate::numbers::Numbers;
use frame::Refusal;

// The sample; 1000 where there is none, and 2000 more than the number of a refusal.
fn figure_of(read: Result<Option<u16>, Refusal>) -> u64 {
    match read {
        Ok(Some(sample)) => u64::from(sample),
        Ok(None) => 1000,
        Err(refusal) => 2000 + u64::from(u32::from(refusal)),
    }
}

// A row or a column: 0, -1, 1, -2, 2 and so on.
fn place_of(number: u32) -> i32
    ensures even { number % 2 ≡ 0 → result ≡ pos (number / 2) }
    ensures odd { number % 2 ≡ 1 → result ≡ negsuc (number / 2) }
{
    let half = (number / 2).cast_signed();
    if number % 2 == 0 { half } else { !half }
}

// The rows, the columns, the row and the column, and how many of these samples are lent, by the remainder of 8.
pub fn read(numbers: &mut Numbers<'_>) -> u64 {
    let samples = [10, 11, 12, 20, 21, 22, 30, 31];
    let rows = numbers.read();
    let columns = numbers.read();
    let row = place_of(numbers.read());
    let column = place_of(numbers.read());
    let count = numbers.read::<usize>() % samples.len();
    figure_of(plane_reader::sample_of(&samples[..count], rows, columns, row, column))
}
