// What a call gives on its core, once the core and the card are found: the six calls that concern one core. Each promise is an equation with
// a definition of specs/Calls.antt. `act_on` asks for a list of at most 8 jobs and, while a transaction is in progress, for a count of give-ups
// that can rise (`Fits`); `begin`, `give_up` and `finish` for their part of it.
//
// The tests for a transaction in progress and for a mark stand in `read` and in `write` (and in the machine's commit): a few lines each, and a
// helper would hand back an Option within a Result, to be matched in as many.
ghost use Rattle.std.specs.Prelude.{◌≡◌, ◌<◌, ◌≤◌, true};
ghost use Rattle.one_core.specs.Calls.{left_on, release_on, begin_on, read_on, write_on, give_up_on, finish_on, taken, Fits};
ghost use Rattle.one_core.specs.Parts.{most_jobs};

use crate::calls::{Act, Acted, Seen};
use crate::{Answer, Core, JOBS, Job, Refusal};

// This core and this answer; all else as it was seen.
fn leaving(k: Core, s: Seen, answer: Answer) -> Acted
    ensures { result ≡ left_on k s answer }
{
    Acted {
        core: k,
        tickets: s.tickets,
        give_ups: s.give_ups,
        pending: s.pending,
        answer,
    }
}

// The job joins the end of the list.
#[tactic(auto, unfolding(crate::specs::Calls::release_on, crate::specs::Calls::unless_on))]
fn release(mut k: Core, s: Seen, job: Job) -> Result<Acted, Refusal>
    ensures { result ≡ release_on k s job }
{
    let place = k.count;
    if place as usize >= JOBS {
        return Err(Refusal::ListFull);
    }
    k.join(job);
    let answer = if k.running() == place {
        Answer::Running
    } else {
        Answer::Queued
    };
    Ok(leaving(k, s, answer))
}

// The running job's transaction gets the next ticket.
#[tactic(auto, unfolding(crate::specs::Calls::begin_on, crate::specs::Calls::unless_on))]
fn begin(mut k: Core, s: Seen) -> Result<Acted, Refusal>
    requires { k.count ≤ most_jobs }
    ensures { result ≡ begin_on k s }
{
    if k.count == 0 {
        return Err(Refusal::NoJob);
    }
    if k.active {
        return Err(Refusal::InProgress);
    }
    if s.tickets == u32::MAX {
        return Err(Refusal::TicketsSpent);
    }
    k.begin(s.tickets);
    Ok(Acted {
        tickets: s.tickets + 1,
        ..leaving(k, s, Answer::Begun(s.tickets))
    })
}

// The pending value if this attempt wrote the object, else the committed value, with the version; the object joins the read set. A
// marked transaction is told that it was set back instead.
#[tactic(auto, unfolding(crate::specs::Calls::read_on, crate::specs::Calls::unless_on))]
fn read(mut k: Core, s: Seen, object: usize) -> Result<Acted, Refusal>
    ensures { result ≡ read_on k s object }
{
    if !k.active {
        return Err(Refusal::NoneInProgress);
    }
    if k.zombie {
        k.tell();
        return Ok(leaving(k, s, Answer::SetBack));
    }
    k.add_read(object);
    let value = if objset::contains(k.writes, object) {
        s.pending
    } else {
        s.committed
    };
    Ok(leaving(k, s, Answer::Value(value, s.version)))
}

// The pending value becomes this one; the object joins the write set. A marked transaction is told that it was set back instead.
#[tactic(auto, unfolding(crate::specs::Calls::write_on, crate::specs::Calls::unless_on))]
fn write(mut k: Core, s: Seen, object: usize, value: u32) -> Result<Acted, Refusal>
    ensures { result ≡ write_on k s object value }
{
    if !k.active {
        return Err(Refusal::NoneInProgress);
    }
    if k.zombie {
        k.tell();
        return Ok(leaving(k, s, Answer::SetBack));
    }
    k.add_write(object);
    Ok(Acted {
        pending: value,
        ..leaving(k, s, Answer::Written)
    })
}

// The transaction ends without effect.
#[tactic(auto, unfolding(crate::specs::Calls::give_up_on, crate::specs::Calls::unless_on))]
fn give_up(mut k: Core, s: Seen) -> Result<Acted, Refusal>
    requires { k.active ≡ true → s.give_ups < 4294967295 }
    ensures { result ≡ give_up_on k s }
{
    if !k.active {
        return Err(Refusal::NoneInProgress);
    }
    k.end();
    Ok(Acted {
        give_ups: s.give_ups + 1,
        ..leaving(k, s, Answer::Ended)
    })
}

// The running job leaves the list; its number is the answer.
#[tactic(auto, unfolding(crate::specs::Calls::finish_on, crate::specs::Calls::unless_on))]
fn finish(mut k: Core, s: Seen) -> Result<Acted, Refusal>
    requires { k.count ≤ most_jobs }
    ensures { result ≡ finish_on k s }
{
    if k.count == 0 {
        return Err(Refusal::NoJob);
    }
    if k.active {
        return Err(Refusal::InProgress);
    }
    let p = k.running() as usize;
    let number = k.jobs[p].number;
    k.leave(p);
    Ok(leaving(k, s, Answer::Finished(number)))
}

// What the call gives on the core k.
#[tactic(auto, unfolding(crate::specs::Calls::taken))]
pub fn act_on(act: Act, k: Core, s: Seen) -> Result<Acted, Refusal>
    requires { Fits k s }
    ensures { result ≡ taken act k s }
{
    match act {
        Act::Release(number, deadline) => release(k, s, Job { number, deadline }),
        Act::Begin => begin(k, s),
        Act::Read(object) => read(k, s, object as usize),
        Act::Write(object, value) => write(k, s, object as usize, value),
        Act::GiveUp => give_up(k, s),
        Act::Finish => finish(k, s),
    }
}
