// Reads a sheet from standard input and prints the levels of its tasks, or its refusal (paper 2), in constant memory: one byte more of
// the input than a sheet can have is kept, and the rest is not read (proofs/Kept.antt: what is printed of it is what is printed of all).
// A read or a write that fails ends the run with a line on standard error. With an argument nothing is read or printed: a line on
// standard error says how the program is used.
#![tactic(auto)]

mod text;

use sheet::LONGEST_SHEET;
use terminal::Failure;
use text::{ROOM, put_sheet};

fn main(rt: HostRuntime) {
    if terminal::has_argument(&rt) {
        let _ = rt.eprintln("levels: usage: levels < SHEET > LEVELS");
    } else if let Err(failure) = run(&rt) {
        let _ = eprintln!(rt; "levels: {failure}");
    }
}

// Reads standard input to its end, or until the input is full, and prints what it is answered.
fn run(rt: &(impl Input + Print)) -> Result<(), Failure> {
    let mut input = [0u8; LONGEST_SHEET + 1];
    let mut output = [0u8; ROOM];
    let n = terminal::fill(&mut rt.reader(), &mut input).map_err(Failure::Read)?;
    let k = put_sheet(&input[..n], &mut output);
    rt.write_all(&output[..k]).map_err(Failure::Write)
}
