// The recorded lists: what the Rust answered, and the numbers of each refused call, against what the calls answer here.
ghost use Rattle.std.specs.Prelude.{◌≡◌, ◌↔◌, ◌≤◌, IfOk};

use crate::answer::Outcome;
use crate::answers::answer;
use crate::bytes::Lines;
use crate::call::Call;
use crate::numbers::Numbers;
use anyhow::Context;
use std::rt::Files;
use std::{fmt, fs};

// How many calls a list has, and how many answered otherwise.
#[derive(Clone, Copy)]
struct Counts {
    calls: usize,
    differences: usize,
    ghost in_calls: { differences ≤ calls },
}

impl fmt::Display for Counts {
    fn fmt<W: fmt::Write>(&self, f: &mut fmt::Formatter<W>) -> fmt::Result {
        write!(f, "{} calls, {} differences", self.calls, self.differences)
    }
}

// 1 where an answer is another than the recorded one, else 0.
fn difference(answer: Outcome, recorded: Outcome) -> usize
    ensures bound { result ≤ 1 }
    ensures same { (result ≡ 0) ↔ ((answer.refusal ≡ recorded.refusal) × (answer.value ≡ recorded.value)) }
{
    usize::from(answer != recorded)
}

// How many differences a line has: where its answer is another than the recorded one, both are written. (No fact joins the handle and the call.)
fn replay_line<R: Print>(rt: &R, call: Call, number: usize, line: &[u8]) -> anyhow::Result<usize>
    ensures { IfOk result (λ n. n ≤ 1) }
{
    let mut numbers = Numbers::of(line);
    let recorded = Outcome::read(&mut numbers);
    let answer = answer(call, &mut numbers).outcome;
    let differences = difference(answer, recorded);
    if differences > 0 {
        println!(rt; "{call} line {number} {answer}")?;
        println!(rt; "{call} recorded, line {number} {recorded}")?;
    }
    Ok(differences)
}

// Every line of a list.
fn compare<R: Print>(rt: &R, call: Call, list: &[u8]) -> anyhow::Result<Counts> {
    let mut calls = 0;
    let mut differences = 0;
    for line in Lines::of(list) {
        calls += 1;
        differences += replay_line(rt, call, calls, line)?;
    }
    Ok(Counts { calls, differences })
}

// A list is a file of the call's name. The report ends at one that can't be read.
pub fn replay<R: Files + Print + AllocGlobal>(rt: &R, call: Call) -> anyhow::Result<()> {
    let list = fs::read(rt, call.name()).context(format_args!("reading {call}"))?;
    let counts = compare(rt, call, list.as_slice())?;
    println!(rt; "{call}: {counts}")?;
    Ok(())
}
