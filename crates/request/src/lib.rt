// What a line of a script asks for (document 01, 'Script and listing'), by its number and its bytes: the order of the fields, a refusal, or
// a call. Of the machine it takes the number of cores alone: 0, and there is no machine.
//
// The contracts cite `specs/Asks.antt`. The public function requires nothing.
#![tactic(auto)]

ghost use Rattle.std.specs.Prelude.{◌≡◌};
ghost use Rattle.script.specs.Line.{names, spells};
ghost use Rattle.request.specs.Asks.{of_names, made, unfounded, of_line, asks};

use one_core::Refusal;
use one_core::calls::Act;
use script::{Call, Columns};

// How many lines are read, the line of names among them.
pub const MOST_LINES: u32 = 1_000_000;

// What a line asks for.
#[derive(Clone, Copy)]
pub enum Asked {
    // the line of names: the order of the fields of the other lines; nothing is listed of it
    Order(Columns),
    // a refusal; the next line is read
    Refused(Refusal),
    // a refusal, after which nothing is read
    Ended(Refusal),
    // a new machine: cores, cards
    Setup(u32, u32),
    // a commit: the core
    Commit(u32),
    // another call: the core, and the call there
    One(u32, Act),
}

// The line of names: a bad one is refused, and nothing is read after it.
#[tactic(auto, unfolding(crate::specs::Asks::of_names))]
fn names_line(line: &[u8]) -> Asked
    ensures { result ≡ of_names (names line.now) }
{
    let Some(order) = script::order(line) else {
        return Asked::Ended(Refusal::Malformed);
    };
    Asked::Order(order)
}

// A call, where there is a machine.
#[tactic(auto, unfolding(crate::specs::Asks::made))]
fn founded(call: Call) -> Asked
    ensures { result ≡ made call }
{
    match call {
        Call::Setup(cores, cards) => Asked::Setup(cores, cards),
        Call::Release(core, job, deadline) => Asked::One(core, Act::Release(job, deadline)),
        Call::Begin(core) => Asked::One(core, Act::Begin),
        Call::Read(core, card) => Asked::One(core, Act::Read(card)),
        Call::Write(core, card, value) => Asked::One(core, Act::Write(card, value)),
        Call::Commit(core) => Asked::Commit(core),
        Call::GiveUp(core) => Asked::One(core, Act::GiveUp),
        Call::Finish(core) => Asked::One(core, Act::Finish),
    }
}

// A call where there is no machine: any but setup is refused, since the blank record is unsound.
#[tactic(auto, unfolding(crate::specs::Asks::unfounded))]
fn unfounded(call: Call) -> Asked
    ensures { result ≡ unfounded call }
{
    let Call::Setup(cores, cards) = call else {
        return Asked::Refused(Refusal::Unsound);
    };
    Asked::Setup(cores, cards)
}

// A line of values: one that is not a call is malformed, and the next line is read.
#[tactic(auto, unfolding(crate::specs::Asks::of_line))]
fn values_line(columns: Columns, line: &[u8], cores: u8) -> Asked
    ensures { result ≡ of_line cores (spells columns line.now) }
{
    let Some(call) = script::parse(columns, line) else {
        return Asked::Refused(Refusal::Malformed);
    };
    if cores == 0 {
        return unfounded(call);
    }
    founded(call)
}

// A line that has ended, whichever it is: line 1 has the names, line 1,000,001 is malformed and ends the run, any other has values.
#[tactic(auto, unfolding(crate::specs::Asks::asks))]
pub fn end_line(columns: Columns, number: u32, line: &[u8], cores: u8) -> Asked
    ensures { result ≡ asks columns number line.now cores }
{
    if number == 1 {
        return names_line(line);
    }
    if MOST_LINES < number {
        return Asked::Ended(Refusal::Malformed);
    }
    values_line(columns, line, cores)
}
