// Writes a report: the scope's cases that are not proved about the definitions, which the standard input has, each with the figure that
// came out; then each recorded list in data/, with how many calls it has and how many answered otherwise.
#![tactic(auto)]

mod answer;
mod answers;
mod bytes;
mod call;
mod case;
mod digest;
mod draws;
mod fault;
mod frame_calls;
mod gate_calls;
mod kind;
mod number_calls;
mod numbers;
mod plane;
mod plane_calls;
mod planes;
mod reads;
mod replay;
mod report;
mod sample;
mod systems;
mod worked;

fn main(rt: HostRuntime) -> anyhow::Result<()> {
    report::run(&rt)
}
