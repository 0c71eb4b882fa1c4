// Why a call is refused, a reason for each row of document 01's table 'What a refused call gives', by its number there. The answer that is
// handed back has the number alone.
ghost use Rattle.std.specs.Prelude.{◌≡◌};
ghost use Rattle.one_core.specs.Refusal.{number};

use crate::Answer;

#[derive(Clone, Copy, PartialEq, Eq)]
pub enum Refusal {
    // no machine has so many cores, or so many objects (document 01: cards)
    WrongSize = 1,
    // the record is unsound
    Unsound = 2,
    // a table has the wrong length
    WrongTable = 3,
    NoSuchCore = 4,
    NoSuchObject = 5,
    // the core has 8 jobs
    ListFull = 6,
    // the core has no job
    NoJob = 7,
    // a transaction is in progress
    InProgress = 8,
    NoneInProgress = 9,
    // every ticket is given
    TicketsSpent = 10,
    // a line that is not a call
    Malformed = 11,
}

impl Refusal {
    // Its number in document 01's table.
    pub fn number(self) -> u8
        ensures { result ≡ number self }
    {
        self as u8
    }
}

impl From<Refusal> for Answer {
    ghost use Rattle.std.specs.Prelude.{◌≡◌};
    ghost use Rattle.one_core.specs.declared.Answer.TheVariants.{Refused};
    ghost use Rattle.one_core.specs.Refusal.{number};

    ghost from_gives = { λ r a. a ≡ Refused (number r) };

    fn from(refusal: Refusal) -> Answer {
        Answer::Refused(refusal.number())
    }
}
