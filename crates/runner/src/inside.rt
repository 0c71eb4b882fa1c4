// The runner for callers that have proved its conditions: a reading that is fit for its tables (`ReadingFits`), and room for what may be
// written. No test of the record is made; the doors in lib.rt test, and then call these.
ghost use Rattle.std.specs.Prelude.{◌≡◌, ℕ, ◌*◌, ◌≤◌, ◌||◌, true, List, [], ◌∷◌, ◌++◌, length, take, drop, ◌==◌, nat_lt};
ghost use Rattle.decimal.specs.Bytes.{byte};
ghost use Rattle.runner.specs.Kept.{ReadingFits, line_room, rest, state, after_byte, fed, at_end};
ghost use Rattle.runner.specs.Listing.{answer_line};

use crate::setup::set_up;
use crate::{Fed, KEPT_BYTES, Reading};
use listing::put_line;
use machine::inside::calls::access;
use machine::inside::commit::commit;
use one_core::Answer;
use request::{Asked, end_line};

// The next bytes of the script. The output needs 32 bytes for each of them; what is written is what the chunk adds to the listing, and
// the bytes after it keep what they held. What is kept, with every word of both tables, is what `fed` says.
pub fn feed(
    mut r: Reading,
    chunk: &[u8],
    committed: &mut [u32],
    pending: &mut [u32],
    output: &mut [u8],
) -> Fed
    requires { ReadingFits r committed.old pending.old × (line_room * length chunk.now ≤ length output.old) }
    ensures fit { ReadingFits result.reading committed.new pending.new }
    ensures listed { (bytes : List ℕ) → rest r committed.old pending.old (chunk.now ++ bytes) ≡ take result.written output.new ++ rest result.reading committed.new pending.new bytes }
    ensures after { (result.written ≤ line_room * length chunk.now) × (drop result.written output.new ≡ drop result.written output.old) }
    ensures kept { state result.reading committed.new pending.new ≡ fed (state r committed.old pending.old) chunk.now }
{
    let mut written = 0;
    // beside the reading, so that it stays in a register: as a field of `r` it makes a line of `cards` 42 instructions dearer
    let mut length = r.length;
    for b in chunk {
        if *b != b'\n' {
            if length < KEPT_BYTES {
                r.line[length] = *b;
                length += 1;
            }
        } else if r.going {
            r.length = length;
            written += line_listed(&mut r, committed, pending, &mut output[written..]);
            length = 0;
        }
    }
    r.length = length;
    Fed {
        reading: r,
        written,
    }
}

// The line has ended: what it asks for is done, and its answer is listed. How many bytes of the output are written.
fn line_listed(
    r: &mut Reading,
    committed: &mut [u32],
    pending: &mut [u32],
    output: &mut [u8],
) -> usize
    requires fits { ReadingFits r.old committed.old pending.old }
    requires going { r.old.going ≡ true }
    requires room { line_room ≤ length output.old }
    ensures fit { ReadingFits r.new committed.new pending.new }
    ensures empty { r.new.length ≡ 0 }
    ensures listed { (bytes : List ℕ) → rest r.old committed.old pending.old (byte "\n" ∷ bytes) ≡ take result output.new ++ rest r.new committed.new pending.new bytes }
    ensures after { (result ≤ line_room) × (drop result output.new ≡ drop result output.old) }
    ensures kept { state r.new committed.new pending.new ≡ after_byte (state r.old committed.old pending.old) (byte "\n") }
{
    let n = r.number;
    match line_ended(r, committed, pending) {
        Some(answer) => put_line(n, answer, output),
        None => 0,
    }
}

// The line has ended: what it asks for is done. Its answer, which is listed; none of the line of names.
fn line_ended(r: &mut Reading, committed: &mut [u32], pending: &mut [u32]) -> Option<Answer>
    requires { ReadingFits r.old committed.old pending.old × (r.old.going ≡ true) }
    ensures fit { ReadingFits r.new committed.new pending.new }
    ensures empty { r.new.length ≡ 0 }
    ensures listed { (bytes : List ℕ) → rest r.old committed.old pending.old (byte "\n" ∷ bytes) ≡ answer_line r.old.number result ++ rest r.new committed.new pending.new bytes }
    ensures kept { state r.new committed.new pending.new ≡ after_byte (state r.old committed.old pending.old) (byte "\n") }
{
    let cards = r.machine.objects as usize;
    let words = r.machine.cores as usize * cards;
    let asked = end_line(r.columns, r.number, &r.line[..r.length], r.machine.cores);
    r.number += 1;
    r.length = 0;
    match asked {
        Asked::Order(columns) => {
            r.columns = columns;
            None
        }
        Asked::Refused(refusal) => Some(Answer::from(refusal)),
        Asked::Ended(refusal) => {
            r.going = false;
            Some(Answer::from(refusal))
        }
        Asked::Setup(cores, cards) => {
            let given = set_up(&mut r.machine, cores, cards, committed, pending);
            Some(Answer::of(given))
        }
        Asked::Commit(core) => {
            let committed = &mut committed[..cards];
            let given = commit(&mut r.machine, core, committed, &pending[..words]);
            Some(Answer::of(given))
        }
        Asked::One(core, act) => {
            let committed = &committed[..cards];
            let given = access(&mut r.machine, core, act, committed, &mut pending[..words]);
            Some(Answer::of(given))
        }
    }
}

// Whether a line is left at the script's end: the line of names, even with no byte, or a line that has a byte.
fn line_left(number: u32, length: usize) -> bool
    ensures { result ≡ (number == 1 || nat_lt 0 length) }
{
    number == 1 || length > 0
}

// The script's end: a line without its newline is a line. What is written is the rest of the listing, and the bytes after it keep what
// they held.
pub fn finish(r: Reading, committed: &mut [u32], pending: &mut [u32], output: &mut [u8]) -> Fed
    requires { ReadingFits r committed.old pending.old × (line_room ≤ length output.old) }
    ensures listed { take result.written output.new ≡ rest r committed.old pending.old [] }
    ensures after { (result.written ≤ line_room) × (drop result.written output.new ≡ drop result.written output.old) }
    ensures kept { state result.reading committed.new pending.new ≡ at_end (state r committed.old pending.old) }
{
    if r.going && line_left(r.number, r.length) {
        feed(r, b"\n", committed, pending, output)
    } else {
        Fed {
            reading: r,
            written: 0,
        }
    }
}
