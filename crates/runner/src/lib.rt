// Runs a script in chunks of any size and lists what each line answers (document 01, 'Script and listing').
//
// `Reading::start`, then `feed` for each chunk, then `finish`: the outputs together, after the heading, are the listing of the chunks
// together (specs/Listing.antt), however the script is cut. Any reading, tables and output may be handed in: what does not fit is
// refused, and the reading comes back as given.
#![tactic(auto)]

ghost use Rattle.std.specs.Prelude.{◌≡◌, ℕ, ◌≤◌, List, [], ◌++◌, length, take, drop, if◌then◌else◌, is_ok, OnOk, OnErr, IfOk};
ghost use Rattle.runner.specs.Kept.{ReadingFits, rest, state, started, fed, at_end};
ghost use Rattle.std.specs.Result.{result_err};
ghost use Rattle.runner.specs.Doors.{misfit_number, refusal};

use crate::soundness::refusal_of;
use machine::Machine;
use script::Columns;

pub mod inside;
mod setup;
mod soundness;

// How many bytes of a line are kept: one more than it may have, so that a line that is too long is known.
pub const KEPT_BYTES: usize = 65;

// How many words the largest machine's table of committed values has: one per card, 64.
pub const COMMITTED_WORDS: usize = objset::OBJECTS;

// How many its table of pending values has: cores × cards, 1,024.
pub const PENDING_WORDS: usize = one_core::CORES * objset::OBJECTS;

// How many bytes of output each byte of a chunk may need: it may end a line.
pub const LINE_ROOM: usize = 32;

// Why these doors do not take what they are handed.
#[derive(Clone, Copy, PartialEq, Eq)]
pub enum Misfit {
    // the reading is unsound
    Unsound = 2,
    // either table has not the length of the largest machine's
    WrongTable = 3,
    // the output has not LINE_ROOM bytes for each byte of the chunk, whether or not its listing would fit
    NoRoom = 100,
}

impl Misfit {
    // Its number: 2 and 3 are document 01's; no document has 100. (12, a listing longer than the output, is the C entry's.)
    pub fn number(self) -> u8
        ensures { result ≡ misfit_number self }
    {
        self as u8
    }
}

// What is kept of a script between two chunks. The doors take any reading and refuse an unsound one, as `doors_run` tries; so no type rules a
// field's value out, and the flag, the bytes and their number stand side by side.
#[derive(Clone, Copy)]
pub struct Reading {
    // whether lines are still read
    pub going: bool,
    // the order of the fields, once line 1 is read
    pub columns: Columns,
    // the number of the line that is being read, from 1
    pub number: u32,
    // the first bytes of that line, and how many are kept: past 64 the line is malformed, whatever it holds
    pub line: [u8; KEPT_BYTES],
    pub length: usize,
    pub machine: Machine,
}

// What a chunk leaves, and how many bytes of the output were written.
#[derive(Clone, Copy)]
pub struct Fed {
    pub reading: Reading,
    pub written: usize,
}

// The same of the doors, or why they refused. Refused, nothing is written and the reading comes back as given; so it stands beside the `Result`.
#[derive(Clone, Copy)]
pub struct Taken {
    pub reading: Reading,
    pub written: Result<usize, Misfit>,
}

impl Reading {
    // Before the first byte.
    pub fn start() -> Reading
        ensures { result ≡ started }
    {
        Reading {
            going: true,
            columns: Columns {
                call: 0,
                core: 0,
                card: 0,
                value: 0,
            },
            number: 1,
            line: [0; KEPT_BYTES],
            length: 0,
            machine: Machine::blank(),
        }
    }

    // The next bytes of the script, with the tables of the largest machine, 64 and 1,024 words. What is written is what the chunk adds
    // to the listing, and the bytes after it keep what they held. What is kept, with every word of both tables, is what `fed` says, and
    // the doors take it again with these tables (proofs/Doors.antt: `not-refused`). 2 unsound reading, 3 wrong table, 100 the output
    // has not 32 bytes for each byte of the chunk.
    pub fn feed(
        self,
        chunk: &[u8],
        committed: &mut [u32],
        pending: &mut [u32],
        output: &mut [u8],
    ) -> Taken
        ensures refusal { result_err result.written ≡ refusal self (length committed.old) (length pending.old) (length chunk.now) (length output.old) }
        ensures kept { state result.reading committed.new pending.new ≡ (if is_ok result.written then fed (state self committed.old pending.old) chunk.now else state self committed.old pending.old) }
        ensures fit { OnOk result.written (ReadingFits result.reading committed.new pending.new) }
        ensures listed { IfOk result.written (λ n. (bytes : List ℕ) → rest self committed.old pending.old (chunk.now ++ bytes) ≡ take n output.new ++ rest result.reading committed.new pending.new bytes) }
        ensures after { IfOk result.written (λ n. (n ≤ length output.old) × (drop n output.new ≡ drop n output.old)) }
        ensures untouched { OnErr result.written (output.new ≡ output.old) }
    {
        let misfit = refusal_of(
            &self,
            committed.len(),
            pending.len(),
            chunk.len(),
            output.len(),
        );
        if let Some(misfit) = misfit {
            return Taken {
                reading: self,
                written: Err(misfit),
            };
        }
        let fed = inside::feed(self, chunk, committed, pending, output);
        Taken {
            reading: fed.reading,
            written: Ok(fed.written),
        }
    }

    // The script's end: a line without its newline is a line. What is written is the rest of the listing, and the bytes after it keep
    // what they held. 2 unsound reading, 3 wrong table, 100 the output has not 32 bytes.
    pub fn finish(self, committed: &mut [u32], pending: &mut [u32], output: &mut [u8]) -> Taken
        ensures refusal { result_err result.written ≡ refusal self (length committed.old) (length pending.old) 1 (length output.old) }
        ensures kept { state result.reading committed.new pending.new ≡ (if is_ok result.written then at_end (state self committed.old pending.old) else state self committed.old pending.old) }
        ensures listed { IfOk result.written (λ n. take n output.new ≡ rest self committed.old pending.old []) }
        ensures after { IfOk result.written (λ n. (n ≤ length output.old) × (drop n output.new ≡ drop n output.old)) }
        ensures untouched { OnErr result.written (output.new ≡ output.old) }
    {
        let misfit = refusal_of(&self, committed.len(), pending.len(), 1, output.len());
        if let Some(misfit) = misfit {
            return Taken {
                reading: self,
                written: Err(misfit),
            };
        }
        let fed = inside::finish(self, committed, pending, output);
        Taken {
            reading: fed.reading,
            written: Ok(fed.written),
        }
    }
}
