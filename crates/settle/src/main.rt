//! The desk: reads commands from standard input, one a line, and writes one answer a command.
#![tactic(auto)]

mod answer;
mod command;
mod desk;
mod tally;

use answer::answer_text;
use desk::answer_line;
use std::io::{BufRead, BufReader};
use tally::Tally;

fn main(rt: HostRuntime) -> anyhow::Result<()> {
    let heap = rt.alloc();
    let lines = BufReader::new(heap, rt.stdin())?.split(heap, b'\n');
    let mut tally = Tally::new();
    // Nothing says that an input ends, so its lines are counted.
    for (number, line) in (1..u64::MAX).zip(lines) {
        if let Some(answer) = answer_line(heap, &mut tally, number, line?.as_slice())? {
            rt.println(answer_text(heap, &answer)?)?;
        }
    }
    Ok(())
}
