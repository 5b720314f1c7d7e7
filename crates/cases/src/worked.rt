// The scope's cases, each by its numbers, which are those of a recorded call:
// "Bins: 8-bit 31 in 0, 32 in 1; 10-bit 1023 in 7; chroma 63 in 0, 64 in 1." "n = 6,400 wants 64 in a bin, 6,500 wants 65."
// "Luma gate, width 4, height 1, 8 bits: noise 1,1,1,1 gives no (3/4). Noise 1,1,1,−1 then 1,−1,1,1: yes."
// "Width 10, height 1: noise 1,1,−1,−1,1,1,−1,−1,1,1, second frame with 3 signs turned: 4/10, no; with 4 turned: yes."
// "Width 2 at lag 1: no fit. Lag 4: 7." "Sizes 4,096 and 4,097; sample 255 and 256 at 8 bits; register bits 16 and 17."
// "Order 0 and 26: 8. Pivot 1e-9 passes."
ghost use Rattle.std.specs.Prelude.{◌≡◌, ◌↔◌};
ghost use Rattle.cases.specs.declared.worked.Question.TheVariants.{Read};

use crate::answer::{Answer, Outcome};
use crate::answers::answer;
use crate::bytes::split_once;
use crate::call::Call;
use crate::numbers::Numbers;
use crate::reads::read;

// What is shown of an answer.
#[derive(Clone, Copy)]
enum Part {
    Refusal,
    Value,
    // 1000 where it is none.
    RefusalOr1000,
    // The bits that the register drew, or its refusal.
    RefusalOrBits,
    Figure,
}

impl Part {
    fn of(self, answer: Answer) -> u64 {
        let refusal = u64::from(answer.outcome.refusal);
        let value = answer.outcome.value;
        match self {
            Part::Refusal => refusal,
            Part::Value => value,
            Part::RefusalOr1000 if refusal == 0 => 1000,
            Part::RefusalOrBits if refusal == 0 => value >> 16,
            Part::RefusalOr1000 | Part::RefusalOrBits => refusal,
            Part::Figure => answer.figure,
        }
    }
}

// What a worked case asks: a part of a call's answer, or a read.
#[derive(Clone, Copy)]
enum Question {
    Call(Call, Part),
    Read,
}

// 1 to 5; any other shows the figure too.
impl From<u64> for Part {
    fn from(number: u64) -> Self {
        match number {
            1 => Part::Refusal,
            2 => Part::Value,
            3 => Part::RefusalOr1000,
            4 => Part::RefusalOrBits,
            _ => Part::Figure,
        }
    }
}

// 20 times the part, and the call; 120 a read.
impl From<u64> for Question {
    ghost from_gives = { λ number question. (question ≡ Read) ↔ (number ≡ 120) };

    fn from(number: u64) -> Self {
        match number {
            120 => Question::Read,
            _ => Question::Call(Call::from(number % 20), Part::from(number / 20)),
        }
    }
}

// The figure of a worked case, which asks its question where a recorded call has its value.
fn worked(numbers: &mut Numbers<'_>) -> u64 {
    let question = Question::from(Outcome::read(numbers).value);
    match question {
        Question::Call(call, part) => part.of(answer(call, numbers)),
        Question::Read => read(numbers),
    }
}

// A worked case's line: its name, a colon and its numbers; one with no colon is a name. A name is written as its bytes are.
pub fn show<R: Print>(rt: &R, line: &[u8]) -> anyhow::Result<()> {
    let (name, numbers) = split_once(line, b':');
    let figure = worked(&mut Numbers::of(numbers));
    rt.write_all(name)?;
    println!(rt; ": {figure}")?;
    Ok(())
}
