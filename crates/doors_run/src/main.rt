// Runs case A of document 01 through the runner's doors, seven bytes at a time, and prints its listing. Before the last line ends it
// hands in what does not fit, and prints the number of each refusal: nothing is lost by them. `show` asks that the text that it is told of
// is there.
#![tactic(auto)]

ghost use Rattle.std.specs.Prelude.{◌≤◌, length, IfOk};

use machine::Machine;
use runner::{COMMITTED_WORDS, LINE_ROOM, PENDING_WORDS, Reading, Taken};
use std::io;

// How many bytes are fed at a time, and the text that they may need.
const PIECE: usize = 7;

const ROOM: usize = PIECE * LINE_ROOM;

fn main(rt: HostRuntime) -> io::Result<()> {
    let script = b"call core card value\n\
        setup 2 2 -\n\
        release 0 7 100\n\
        release 1 8 90\n\
        begin 0 - -\n\
        begin 1 - -\n\
        read 1 0 -\n\
        write 0 0 30\n\
        write 1 1 4\n\
        commit 1 - -\n\
        commit 0 - -\n\
        commit 1 - -\n\
        read 1 0 -\n\
        commit 1 - -";
    let mut committed = [7u32; COMMITTED_WORDS];
    let mut pending = [7u32; PENDING_WORDS];
    let mut text = [0u8; ROOM];
    println!(rt; "line answer value")?;
    let mut reading = Reading::start();
    for piece in script.chunks(PIECE) {
        let taken = reading.feed(piece, &mut committed, &mut pending, &mut text);
        show(&rt, taken, &text)?;
        reading = taken.reading;
    }
    refused(&rt, reading)?;
    let taken = reading.finish(&mut committed, &mut pending, &mut text);
    show(&rt, taken, &text)
}

// What is not taken: a table that is one word short, too little room, and readings that no run leaves.
fn refused(rt: &impl Print, reading: Reading) -> io::Result<()> {
    let mut committed = [7u32; COMMITTED_WORDS];
    let mut pending = [7u32; PENDING_WORDS];
    let mut text = [0u8; ROOM];
    // arrays of their own: of a part of the whole table the check does not find the length again
    let mut short_committed = [7u32; COMMITTED_WORDS - 1];
    let mut short_pending = [7u32; PENDING_WORDS - 1];
    let mut little = [0u8; LINE_ROOM - 1];
    let taken = reading.finish(&mut short_committed, &mut pending, &mut text);
    show(rt, taken, &text)?;
    let taken = reading.finish(&mut committed, &mut short_pending, &mut text);
    show(rt, taken, &text)?;
    let taken = reading.finish(&mut committed, &mut pending, &mut little);
    show(rt, taken, &little)?;
    let taken = reading.feed(b"\n", &mut committed, &mut pending, &mut little);
    show(rt, taken, &little)?;
    let machine = reading.machine;
    let readings = [
        Reading {
            length: 66,
            ..reading
        },
        Reading {
            number: 1,
            ..reading
        },
        Reading {
            machine: Machine {
                tickets: 9,
                ..machine
            },
            ..reading
        },
        Reading {
            machine: Machine {
                commits: 9,
                ..Machine::blank()
            },
            ..reading
        },
    ];
    for wrong in readings {
        let taken = wrong.finish(&mut committed, &mut pending, &mut text);
        show(rt, taken, &text)?;
    }
    Ok(())
}

// Prints the refusal, or the bytes that were written.
fn show(rt: &impl Print, taken: Taken, text: &[u8]) -> io::Result<()>
    requires { IfOk taken.written (λ n. n ≤ length text.now) }
{
    match taken.written {
        Ok(n) => rt.write_all(&text[..n]),
        Err(misfit) => println!(rt; "not taken: refusal {}", misfit.number()),
    }
}
