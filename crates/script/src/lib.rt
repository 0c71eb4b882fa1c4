// Which call a line of a script spells (document 01, 'Script and listing'). A script's first line says the order of the fields;
// each other line is a call or malformed.
//
// `order` reads the first line, and `parse` each other line, both over `table`; of a malformed line they make nothing. Their contracts
// cite `specs/`; `proofs/Laws.antt` has what a caller knows of what stands there. The public functions require nothing.
#![tactic(auto)]

mod calls;
mod heading;

pub use calls::parse;
pub use heading::order;

// The most bytes that a line may have, without its newline.
const LONGEST: usize = 64;

// A call as a script spells it: its numbers, whatever they are.
#[derive(Clone, Copy)]
pub enum Call {
    // cores, cards
    Setup(u32, u32),
    // core, job number, deadline
    Release(u32, u16, u32),
    Begin(u32),
    // core, card
    Read(u32, u32),
    // core, card, value
    Write(u32, u32, u32),
    Commit(u32),
    GiveUp(u32),
    Finish(u32),
}

// Where each field stands in a line, counted from 0.
#[derive(Clone, Copy)]
pub struct Columns {
    pub call: usize,
    pub core: usize,
    pub card: usize,
    pub value: usize,
}

// What the field of the call's name says.
#[derive(Clone, Copy)]
enum Verb {
    Setup,
    Release,
    Begin,
    Read,
    Write,
    Commit,
    GiveUp,
    Finish,
}

// What stands in a field of a number. (No Option: `field` answers one already, none where the field is malformed.)
#[derive(Clone, Copy)]
enum Field {
    // `-`
    Unused,
    Number(u32),
}
