// One public call of `Machine` on a record that the caller spells in words, for the comparison of the calls with the reference
// (tests/compare.sh). Every record can be spelt, sound or not. It is a test's door, and no part of the product. It is proved to be safe
// and to end; what the words hold after a call it does not promise, for that is what is compared.
// The parts are found by their places: they have many widths, and C gives them in one row.
#![tactic(auto)]

ghost use Rattle.std.specs.Prelude.{◌≡◌, ◌<◌, length, ◌≢◌};

use machine::{Machine, Outcome};
use objset::OBJECTS;
use one_core::{Answer, CORES, Core, JOBS, Job};

// How a record stands in words: five numbers of the machine, its cores, the versions. A core: its jobs, each a number and a deadline,
// then count, active, owner, aborts, ticket, zombie, and the read set and the write set, the lower half of each first. A field that is
// narrower than a word has the word's lowest bits; a bool is 0 or not. After the record come the answer's two values.
const FIRST_CORE: usize = 5;

const JOB_WORDS: usize = 2 * JOBS;

const CORE_WORDS: usize = JOB_WORDS + 10;

const VERSIONS: usize = FIRST_CORE + CORES * CORE_WORDS;

const VALUES: usize = VERSIONS + OBJECTS;

const WORDS: usize = VALUES + 2;

// The calls by number, as C hands them in; any other number is finish.
const SETUP: u32 = 0;

const RELEASE: u32 = 1;

const BEGIN: u32 = 2;

const READ: u32 = 3;

const WRITE: u32 = 4;

const COMMIT: u32 = 5;

const GIVE_UP: u32 = 6;

// ---- a record out of words

// The word at that place; 0 where there is none.
fn word(words: &[u32], at: usize) -> u32 {
    words.get(at).copied().unwrap_or(0)
}

fn byte(words: &[u32], at: usize) -> u8 {
    (word(words, at) % 256) as u8
}

fn job_in(words: &[u32], at: usize) -> Job
    requires { at < 500 }
{
    Job {
        number: (word(words, at) % 65536) as u16,
        deadline: word(words, at + 1),
    }
}

fn set_in(words: &[u32], at: usize) -> u64
    requires { at < 500 }
{
    word(words, at) as u64 + word(words, at + 1) as u64 * 4294967296
}

fn core_in(words: &[u32], at: usize) -> Core
    requires { at < 450 }
{
    let mut jobs = [Job::default(); JOBS];
    for (p, job) in jobs.iter_mut().enumerate() {
        *job = job_in(words, at + 2 * p);
    }
    let rest = at + JOB_WORDS;
    Core {
        jobs,
        count: byte(words, rest),
        active: word(words, rest + 1) != 0,
        owner: byte(words, rest + 2),
        aborts: byte(words, rest + 3),
        ticket: word(words, rest + 4),
        zombie: word(words, rest + 5) != 0,
        reads: set_in(words, rest + 6),
        writes: set_in(words, rest + 8),
    }
}

fn machine_in(words: &[u32]) -> Machine {
    let mut m = Machine {
        cores: byte(words, 0),
        objects: byte(words, 1),
        tickets: word(words, 2),
        commits: word(words, 3),
        give_ups: word(words, 4),
        ..Machine::blank()
    };
    for (c, core) in m.core.iter_mut().enumerate() {
        *core = core_in(words, FIRST_CORE + CORE_WORDS * c);
    }
    for (d, version) in m.versions.iter_mut().enumerate() {
        *version = word(words, VERSIONS + d);
    }
    m
}

// ---- a record into words

// The words from that place on become these, where there are such places.
fn put(words: &mut [u32], at: usize, from: &[u32])
    requires { at < 500 }
{
    for (i, w) in from.iter().enumerate() {
        if at + i < words.len() {
            words[at + i] = *w;
        }
    }
}

fn lower(set: u64) -> u32 {
    (set % 4294967296) as u32
}

fn upper(set: u64) -> u32 {
    (set / 4294967296) as u32
}

fn put_core(words: &mut [u32], at: usize, k: &Core)
    requires { at < 450 }
{
    for (p, job) in k.jobs.iter().enumerate() {
        put(words, at + 2 * p, &[job.number as u32, job.deadline]);
    }
    let rest = [
        k.count as u32,
        k.active as u32,
        k.owner as u32,
        k.aborts as u32,
        k.ticket,
        k.zombie as u32,
        lower(k.reads),
        upper(k.reads),
        lower(k.writes),
        upper(k.writes),
    ];
    put(words, at + JOB_WORDS, &rest);
}

fn put_machine(words: &mut [u32], m: &Machine) {
    let counts = [
        m.cores as u32,
        m.objects as u32,
        m.tickets,
        m.commits,
        m.give_ups,
    ];
    put(words, 0, &counts);
    for (c, k) in m.core.iter().enumerate() {
        put_core(words, FIRST_CORE + CORE_WORDS * c, k);
    }
    put(words, VERSIONS, &m.versions);
}

// ---- the call

// The answer as a number for its kind and two values.
fn told_as(answer: Answer) -> (u32, [u32; 2]) {
    match answer {
        Answer::Ready => (1, [0, 0]),
        Answer::Running => (2, [0, 0]),
        Answer::Queued => (3, [0, 0]),
        Answer::Begun(ticket) => (4, [ticket, 0]),
        Answer::Value(value, version) => (5, [value, version]),
        Answer::Written => (6, [0, 0]),
        Answer::Waits(core) => (7, [core as u32, 0]),
        Answer::Committed(aborts) => (8, [aborts as u32, 0]),
        Answer::SetBack => (9, [0, 0]),
        Answer::Ended => (10, [0, 0]),
        Answer::Finished(job) => (11, [job as u32, 0]),
        Answer::Refused(number) => (12, [number as u32, 0]),
    }
}

// The public call of that number.
fn called(
    m: Machine,
    call: u32,
    core: u32,
    object: u32,
    value: u32,
    committed: &mut [u32],
    pending: &mut [u32],
) -> Outcome {
    match call {
        SETUP => Machine::setup(core, object, committed, pending),
        RELEASE => m.release(core, (object % 65536) as u16, value),
        BEGIN => m.begin(core),
        READ => m.read(core, object, committed, pending),
        WRITE => m.write(core, object, value, committed, pending),
        COMMIT => m.commit(core, committed, pending),
        GIVE_UP => m.give_up(core),
        _ => m.finish(core),
    }
}

// Makes one call on the record in the words, which hold the record after it then, and the answer's values; the answer's kind comes
// back. The tables are lent to the call. Words of another length: 0, and every word stays.
#[unsafe(no_mangle)]
pub extern "C" fn calls_door(
    call: u32,
    core: u32,
    object: u32,
    value: u32,
    words: &mut [u32],
    committed: &mut [u32],
    pending: &mut [u32],
) -> u32
    ensures unspelt { (length words.old ≢ 487) → result ≡ 0 }
    ensures words { (length words.old ≢ 487) → words.new ≡ words.old }
    ensures committed { (length words.old ≢ 487) → committed.new ≡ committed.old }
    ensures pending { (length words.old ≢ 487) → pending.new ≡ pending.old }
{
    if words.len() != WORDS {
        return 0;
    }
    let m = machine_in(words);
    let after = called(m, call, core, object, value, committed, pending);
    put_machine(words, &after.machine);
    let (kind, values) = told_as(after.answer);
    put(words, VALUES, &values);
    kind
}
