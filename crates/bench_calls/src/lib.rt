// Lists of calls on one machine, run through the public calls and in place on the record, for bench/. A list is numbers: the
// lower four bits say what is done, the rest is the core. What a list gives is specs/Lists.antt. `inside_run` asks for a sound record and
// tables of the right lengths.
#![tactic(auto)]

ghost use Rattle.std.specs.Prelude.{◌≡◌, if◌then◌else◌};
ghost use Rattle.one_core.specs.declared.Answer.TheVariants.{Ready, Refused};
ghost use Rattle.machine.specs.Rule.{lent, left, setup as setup_rule};
ghost use Rattle.machine.specs.Inside.{SoundWorld, WellFormedWorld};
ghost use Rattle.machine.specs.Sound.{sound};
ghost use Rattle.bench_calls.specs.Lists.{number_of, asked_of, door_gives, inside_gives, inside, ready, run, door_run, inside_run};

use machine::inside::calls::access;
use machine::inside::commit::commit;
use machine::{Machine, Outcome};
use one_core::calls::Act;
use one_core::{Answer, Refusal};

// The calls of a list, numbers as C hands them in, beside SAVE, which keeps the record, and RESTORE, which goes back to the one kept.
const SAVE: u32 = 0;

const RESTORE: u32 = 1;

const SETUP: u32 = 2;

const RELEASE: u32 = 3;

const BEGIN: u32 = 4;

const READ: u32 = 5;

const WRITE: u32 = 6;

const COMMIT: u32 = 7;

const GIVE_UP: u32 = 8;

const FINISH: u32 = 9;

// A number for an answer: the export gives C one.
fn number_of(answer: Answer) -> u32
    ensures { result ≡ number_of answer }
{
    match answer {
        Answer::Ready => 1,
        Answer::Running => 2,
        Answer::Queued => 3,
        Answer::Begun(ticket) => ticket,
        Answer::Value(value, _) => value,
        Answer::Written => 4,
        Answer::Waits(_) => 5,
        Answer::Committed(_) => 6,
        Answer::SetBack => 7,
        Answer::Ended => 8,
        Answer::Finished(_) => 9,
        Answer::Refused(_) => 10,
    }
}

// The record as it is, tested.
fn tested(m: Machine) -> Outcome
    ensures { result ≡ record { answer = (if sound m then Ready else Refused 2); machine = m } }
{
    let answer = if m.sound() {
        Answer::Ready
    } else {
        Answer::from(Refusal::Unsound)
    };
    Outcome { machine: m, answer }
}

// What a number of a list asks for, beside SAVE and RESTORE.
#[derive(Clone, Copy)]
enum Ask {
    Setup,
    One(Act),
    Commit,
    // of a number that is no call
    Nothing,
}

#[tactic(auto, unfolding(crate::specs::Lists::asked_of))]
fn asked(call: u32, core: u32) -> Ask
    ensures { result ≡ asked_of call core }
{
    match call {
        SETUP => Ask::Setup,
        RELEASE => Ask::One(Act::Release(7, 100)),
        BEGIN => Ask::One(Act::Begin),
        READ => Ask::One(Act::Read(core / 2 + 32)),
        WRITE => Ask::One(Act::Write(core, 5)),
        COMMIT => Ask::Commit,
        GIVE_UP => Ask::One(Act::GiveUp),
        FINISH => Ask::One(Act::Finish),
        _ => Ask::Nothing,
    }
}

// The public call that is asked for; where there is none, the soundness test alone.
#[tactic(auto, unfolding(machine::specs::Rule::rule))]
fn door_step(m: Machine, ask: Ask, core: u32, committed: &mut [u32], pending: &mut [u32]) -> Outcome
    ensures { left result committed.new pending.new ≡ door_gives (lent m committed.old pending.old) core ask }
{
    match ask {
        Ask::Setup => Machine::setup(m.cores as u32, m.objects as u32, committed, pending),
        Ask::One(Act::Release(job, deadline)) => m.release(core, job, deadline),
        Ask::One(Act::Begin) => m.begin(core),
        Ask::One(Act::Read(object)) => m.read(core, object, committed, pending),
        Ask::One(Act::Write(object, value)) => m.write(core, object, value, committed, pending),
        Ask::One(Act::GiveUp) => m.give_up(core),
        Ask::One(Act::Finish) => m.finish(core),
        Ask::Commit => m.commit(core, committed, pending),
        Ask::Nothing => tested(m),
    }
}

// The call that is asked for, in place; setup and no call change nothing.
#[tactic(auto, unfolding(machine::specs::Rule::rule))]
fn inside_step(
    m: &mut Machine,
    ask: Ask,
    core: u32,
    committed: &mut [u32],
    pending: &mut [u32],
) -> Answer
    requires { SoundWorld (lent m.old committed.old pending.old) }
    ensures { left (record { answer = result; machine = m.new }) committed.new pending.new ≡ inside_gives (lent m.old committed.old pending.old) core ask }
{
    match ask {
        Ask::One(act) => Answer::of(access(m, core, act, committed, pending)),
        Ask::Commit => Answer::of(commit(m, core, committed, pending)),
        Ask::Setup | Ask::Nothing => Answer::Ready,
    }
}

// Runs the list through the public calls on a new machine of that many cores and cards; a number for the last answer. The tables are
// left as the calls leave them.
#[unsafe(no_mangle)]
pub extern "C" fn bench_calls_door(
    cores: u32,
    cards: u32,
    list: &[u32],
    committed: &mut [u32],
    pending: &mut [u32],
) -> u32
    ensures number { result ≡ (door_run (setup_rule cores cards committed.old pending.old) list.now).last }
    ensures committed { committed.new ≡ (door_run (setup_rule cores cards committed.old pending.old) list.now).world.committed }
    ensures pending { pending.new ≡ (door_run (setup_rule cores cards committed.old pending.old) list.now).world.pending }
{
    let made = Machine::setup(cores, cards, committed, pending);
    let mut m = made.machine;
    let mut kept = m;
    let mut last = made.answer;
    for number in list {
        let core = *number / 16;
        match *number % 16 {
            SAVE => kept = m,
            RESTORE => m = kept,
            call => {
                let step = door_step(m, asked(call, core), core, committed, pending);
                m = step.machine;
                last = step.answer;
            }
        }
    }
    number_of(last)
}

// Runs the list on a good world, each call in place; a number for the last answer. The loop is the door's but for its step: one loop for both
// would take the step as a closure over the record and both tables, with a condition of its own: no plainer.
fn inside_run(first: Machine, list: &[u32], committed: &mut [u32], pending: &mut [u32]) -> u32
    requires { WellFormedWorld (lent first committed.old pending.old) }
    ensures number { result ≡ (run inside (ready (lent first committed.old pending.old)) list.now).last }
    ensures committed { committed.new ≡ (run inside (ready (lent first committed.old pending.old)) list.now).world.committed }
    ensures pending { pending.new ≡ (run inside (ready (lent first committed.old pending.old)) list.now).world.pending }
{
    let mut m = first;
    let mut kept = first;
    let mut last = Answer::Ready;
    for number in list {
        let core = *number / 16;
        match *number % 16 {
            SAVE => kept = m,
            RESTORE => m = kept,
            call => last = inside_step(&mut m, asked(call, core), core, committed, pending),
        }
    }
    number_of(last)
}

// Runs the list in place on a new machine of that many cores and cards; a number for the last answer. If setup is refused, nothing is
// run.
#[unsafe(no_mangle)]
pub extern "C" fn bench_calls_inside(
    cores: u32,
    cards: u32,
    list: &[u32],
    committed: &mut [u32],
    pending: &mut [u32],
) -> u32
    ensures number { result ≡ (inside_run (setup_rule cores cards committed.old pending.old) list.now).last }
    ensures committed { committed.new ≡ (inside_run (setup_rule cores cards committed.old pending.old) list.now).world.committed }
    ensures pending { pending.new ≡ (inside_run (setup_rule cores cards committed.old pending.old) list.now).world.pending }
{
    let made = Machine::setup(cores, cards, committed, pending);
    let answer = made.answer;
    if let Answer::Ready = answer {
        inside_run(made.machine, list, committed, pending)
    } else {
        number_of(answer)
    }
}
