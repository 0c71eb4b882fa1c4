// The calls that concern one core, what such a call sees beside its core and what it leaves there. What they give is worked out by the
// functions of `inside::calls`.
ghost use Rattle.std.specs.Prelude.{◌≡◌};
ghost use Rattle.one_core.specs.Calls.{object_of};

use crate::{Answer, Core};

// A call that concerns one core, without that core.
#[derive(Clone, Copy)]
pub enum Act {
    // job number, deadline, as they stand in the call (document 01); a `Job` here would be no plainer to write or to match
    Release(u16, u32),
    Begin,
    // object (document 01: card)
    Read(u32),
    // object, value
    Write(u32, u32),
    GiveUp,
    Finish,
}

impl Act {
    // The object that it names; 0, which every machine has, where it names none: not an Option, so that one way of finding the core and the
    // object's words serves all six calls.
    pub fn object(self) -> u32
        ensures { result ≡ object_of self }
    {
        match self {
            Act::Read(object) | Act::Write(object, _) => object,
            Act::Release(_, _) | Act::Begin | Act::GiveUp | Act::Finish => 0,
        }
    }
}

// What such a call sees beside its core: the counts of tickets and give-ups, and of its object the committed value, the core's pending
// value and the version.
#[derive(Clone, Copy)]
pub struct Seen {
    pub tickets: u32,
    pub give_ups: u32,
    pub committed: u32,
    pub pending: u32,
    pub version: u32,
}

// What it leaves, where it is not refused: the core, the counts and the pending value; and its answer.
#[derive(Clone, Copy)]
pub struct Acted {
    pub core: Core,
    pub tickets: u32,
    pub give_ups: u32,
    pub pending: u32,
    pub answer: Answer,
}
