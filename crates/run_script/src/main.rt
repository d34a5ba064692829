// Runs a script of calls from standard input on a volume of its own, and prints the answer of each line.
#![tactic(auto)]

mod print;
mod step;

use crate::step::{State, step};
use interface::Session;
use script::Script;
use std::io;

// Runs the lines one after the other, up to the first one that isn't understood. A line ends with 0A: what stands behind the last
// 0A isn't understood either.
fn run(rt: &impl Print, script: &[u8], buffer: &mut [u8]) -> io::Result<()> {
    let mut state = State {
        length: 0,
        session: Session::new(),
    };
    for (i, line) in script.split_inclusive(|b| *b == b'\n').enumerate() {
        let next = match line.strip_suffix(b"\n") {
            Some(line) => step(rt, buffer, state, line)?,
            None => None,
        };
        match next {
            Some(next) => state = next,
            None => return println!(rt; "line {}: not understood", i + 1),
        }
    }
    Ok(())
}

fn main(rt: HostRuntime) -> io::Result<()> {
    // One byte more than the longest script.
    let mut input = [0u8; Script::LONGEST + 1];
    let n = console::read_full(&rt, &mut input)?;
    if Script::LONGEST < n {
        return println!(&rt; "too long");
    }
    let mut buffer = [0u8; Script::VOLUME];
    run(&rt, &input[..n], &mut buffer)
}
