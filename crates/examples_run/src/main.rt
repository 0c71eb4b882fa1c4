// Runs the eight calls over the rows of the documents' examples, and writes each answer with its value in the words of
// the document's listing: a heading for each example, a line for each call.
#![tactic(auto)]

mod rows;

ghost use Rattle.std.specs.Prelude.{◌≡◌};
ghost use Rattle.machine.specs.Rule.{lent};
ghost use Rattle.examples_run.specs.Rows.{given, left_of};

use machine::{Machine, Outcome};
use one_core::{Answer, Refusal};
use rows::{ROWS, Row, value_of};
use std::io;

// How many words the tables of the largest machine have.
const COMMITTED_WORDS: usize = objset::OBJECTS;

const PENDING_WORDS: usize = one_core::CORES * objset::OBJECTS;

// Plays every row on one machine and its tables, which hold sevens until a setup clears them.
fn main(rt: HostRuntime) -> io::Result<()> {
    let mut committed = [7u32; COMMITTED_WORDS];
    let mut pending = [7u32; PENDING_WORDS];
    let mut machine = Machine::blank();
    for row in ROWS {
        machine = play(&rt, machine, row, &mut committed, &mut pending)?;
    }
    Ok(())
}

// Plays one row, and hands back the record after it. A call is lent the first words of each table: as many as the machine has, or as
// setup asks for, or all there are.
fn play(
    rt: &impl Print,
    machine: Machine,
    row: Row,
    committed: &mut [u32],
    pending: &mut [u32],
) -> io::Result<Machine> {
    let (cores, cards) = match row {
        Row::Setup(cores, cards) => (cores as usize, cards as usize),
        _ => (machine.cores as usize, machine.objects as usize),
    };
    let lent = cards.min(committed.len());
    let committed = &mut committed[..lent];
    let lent = (cores * cards).min(pending.len());
    let pending = &mut pending[..lent];
    if let Some(out) = make(machine, row, committed, pending) {
        show(rt, out.answer)?;
        return Ok(out.machine);
    }
    if let Row::Heading(name) = row {
        println!(rt; "{name}")?;
    } else {
        show_cards(rt, committed)?;
    }
    Ok(machine)
}

// Makes the call of a row; a write whose number is above the largest value is no call, and refused. A heading and the cards are none.
#[tactic(auto, unfolding(machine::specs::Rule::rule))]
fn make(machine: Machine, row: Row, committed: &mut [u32], pending: &mut [u32]) -> Option<Outcome>
    ensures { left_of result committed.new pending.new ≡ given (lent machine committed.old pending.old) row }
{
    let out = match row {
        Row::Setup(cores, cards) => Machine::setup(cores, cards, committed, pending),
        Row::Release(core, job, deadline) => machine.release(core, job, deadline),
        Row::Begin(core) => machine.begin(core),
        Row::Read(core, card) => machine.read(core, card, committed, pending),
        Row::Write(core, card, number) => match value_of(number) {
            Some(value) => machine.write(core, card, value, committed, pending),
            None => Outcome {
                machine,
                answer: Answer::from(Refusal::Malformed),
            },
        },
        Row::Commit(core) => machine.commit(core, committed, pending),
        Row::GiveUp(core) => machine.give_up(core),
        Row::Finish(core) => machine.finish(core),
        Row::Heading(_) | Row::Cards => return None,
    };
    Some(out)
}

// Writes an answer and its value, or `-` where it has none.
fn show(rt: &impl Print, answer: Answer) -> io::Result<()> {
    match answer {
        Answer::Ready => println!(rt; "ready -"),
        Answer::Running => println!(rt; "running -"),
        Answer::Queued => println!(rt; "queued -"),
        Answer::Begun(ticket) => println!(rt; "begun {ticket}"),
        Answer::Value(value, _) => println!(rt; "value {value}"),
        Answer::Written => println!(rt; "written -"),
        Answer::Waits(core) => println!(rt; "waits {core}"),
        Answer::Committed(setbacks) => println!(rt; "committed {setbacks}"),
        Answer::SetBack => println!(rt; "setback -"),
        Answer::Ended => println!(rt; "ended -"),
        Answer::Finished(job) => println!(rt; "finished {job}"),
        Answer::Refused(number) => println!(rt; "refused {number}"),
    }
}

// Writes the machine's committed values.
fn show_cards(rt: &impl Print, values: &[u32]) -> io::Result<()> {
    print!(rt; "cards")?;
    for value in values {
        print!(rt; " {value}")?;
    }
    println!(rt; "")
}
