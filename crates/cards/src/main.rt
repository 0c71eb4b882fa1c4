// Reads a script from standard input to its end and prints its listing (document 01, 'Script and listing'), in constant memory: a
// chunk of the script, its part of the listing, and the machine. A read or a write that fails ends the run with a line on standard
// error. With an argument nothing is read or listed: a line on standard error says how the program is used.
#![tactic(auto)]

use runner::{Reading, inside};
use std::io::Read;
use terminal::Failure;

// How many bytes of the script are read at a time, and how many of the listing they may need.
const CHUNK: usize = 2048;

const ROOM: usize = CHUNK * runner::LINE_ROOM;

fn main(rt: HostRuntime) {
    if terminal::has_argument(&rt) {
        let _ = rt.eprintln("cards: usage: cards < SCRIPT > LISTING");
    } else if let Err(failure) = run(&rt) {
        let _ = eprintln!(rt; "cards: {failure}");
    }
}

// Runs the script on standard input to its end, or until nothing more is read, and prints its listing.
fn run(rt: &(impl Input + Print)) -> Result<(), Failure> {
    let mut committed = [0u32; runner::COMMITTED_WORDS];
    let mut pending = [0u32; runner::PENDING_WORDS];
    let mut output = [0u8; ROOM];
    let heading = listing::put_heading(&mut output);
    rt.write_all(&output[..heading]).map_err(Failure::Write)?;
    let mut reader = rt.reader();
    let mut input = [0u8; CHUNK];
    let mut reading = Reading::start();
    // a proved loop has to end, and nothing says that the input does: no run uses up these turns
    for _ in 0..u64::MAX {
        let n = reader.read(&mut input).map_err(Failure::Read)?;
        if n == 0 {
            break;
        }
        let fed = inside::feed(
            reading,
            &input[..n],
            &mut committed,
            &mut pending,
            &mut output,
        );
        reading = fed.reading;
        rt.write_all(&output[..fed.written])
            .map_err(Failure::Write)?;
        if !reading.going {
            break;
        }
    }
    let k = inside::finish(reading, &mut committed, &mut pending, &mut output).written;
    rt.write_all(&output[..k]).map_err(Failure::Write)
}
