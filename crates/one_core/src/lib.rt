// One core of the machine: its list of jobs and its transaction (document 01); what one core keeps by itself, and what a call gives
// there. The whole machine is the crate above. Each promise is an equation with a definition of specs/.
#![tactic(auto)]

ghost use Rattle.std.specs.Prelude.{◌≡◌};
ghost use Rattle.one_core.specs.Parts.{blank_core};
ghost use Rattle.one_core.specs.Refusal.{answer_of};

pub mod calls;
pub mod inside;
mod refusal;
mod soundness;

pub use refusal::Refusal;

// How many cores a machine has at most, and how many jobs a core's list.
pub const CORES: usize = 16;

pub const JOBS: usize = 8;

// A job in a core's list. The default stands in an unused place.
#[derive(Clone, Copy, PartialEq, Eq, Default)]
pub struct Job {
    pub number: u16,
    pub deadline: u32,
}

// One core: its list of jobs and its transaction. The small fields stand together, which saves the compiler copies of what lies between.
// `active` stands beside the transaction's fields, and no Option holds them: document 01's record has them whether one is in progress or not,
// and its standing rules say that they are 0 then.
#[derive(Clone, Copy, Default)]
pub struct Core {
    // the list, in order of release; the places from count on are unused (document 01; no heap: an array of fixed length and a count)
    pub jobs: [Job; JOBS],
    pub count: u8,
    // a transaction is in progress
    pub active: bool,
    // the place of the transaction's job in the list (document 01: owner's place)
    pub owner: u8,
    // how often the transaction was aborted (document 01: setbacks)
    pub aborts: u8,
    pub ticket: u32,
    // the read set and the write set
    pub reads: u64,
    pub writes: u64,
    // aborted by another's commit and not told yet (document 01: marked)
    pub zombie: bool,
}

// What a call answers.
#[derive(Clone, Copy)]
pub enum Answer {
    Ready,
    Running,
    Queued,
    // the ticket
    Begun(u32),
    // the value and the committed version
    Value(u32, u32),
    Written,
    // the core of the conflicting transaction with the smallest ticket
    Waits(u8),
    // the count of aborts (document 01: setbacks)
    Committed(u8),
    SetBack,
    Ended,
    // the job's number
    Finished(u16),
    // the refusal's number in document 01 (`Refusal::number`): the claims and the listing speak of numbers, the listing of every one
    Refused(u8),
}

impl Answer {
    // What a call hands back: its answer, or its refusal by number.
    pub fn of(outcome: Result<Answer, Refusal>) -> Answer
        ensures { result ≡ answer_of outcome }
    {
        match outcome {
            Ok(answer) => answer,
            Err(refusal) => Answer::from(refusal),
        }
    }
}

impl Core {
    // No job and no transaction, all fields 0.
    pub fn blank() -> Core
        ensures { result ≡ blank_core }
    {
        Core::default()
    }
}
