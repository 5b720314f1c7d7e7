// The report: the standard input has a line for each worked case, with its name, a colon and its numbers; then each recorded list is
// replayed.
use crate::bytes::Lines;
use crate::call::Call;
use crate::replay::replay;
use crate::worked::show;
use anyhow::Context;
use std::io::Read;
use std::rt::Files;

pub fn run<R: Input + Files + Print + AllocGlobal>(rt: &R) -> anyhow::Result<()> {
    let mut cases = Vec::new(rt.alloc());
    rt.reader()
        .read_to_end(&mut cases)
        .context("reading the worked cases")?;
    for line in Lines::of(cases.as_slice()) {
        show(rt, line)?;
    }
    for call in Call::ALL {
        replay(rt, call)?;
    }
    Ok(())
}
