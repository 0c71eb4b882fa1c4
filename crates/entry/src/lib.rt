// The C entry (include/cards.h): a script in, its listing out; `sheets` has the functions on sheets. `cards_run` has no condition; `newlines`
// beneath it has one, on a length.
#![tactic(auto)]

mod sheets;

ghost use Rattle.std.specs.Prelude.{◌≡◌, ◌++◌, ◌+◌, ◌≤◌, ◌<◌, leb, length, drop};
ghost use Rattle.decimal.specs.Bytes.{byte};
ghost use Rattle.table.specs.Pieces.{pieces, lines};
ghost use Rattle.runner.specs.Listing.{listing};
ghost use Rattle.runner.specs.Runs.{ScriptRuns};
ghost use Rattle.entry.specs.Fitting.{whole_or_none, output_after};
ghost use Rattle.entry.specs.Enough.{Enough, enough_for};

use runner::{Reading, inside};

// How many bytes of the script are run at a time.
const CHUNK: usize = 512;

// How many bytes of text they may need: each may end a line, which takes up to 32.
const TEXT: usize = CHUNK * runner::LINE_ROOM;

// How many bytes of the script are counted at a time: a multiple of 32, for the compiler, whose newlines a byte can count.
const BLOCK: usize = 224;

// How many bytes the heading takes.
const HEADING: usize = 18;

// How many bytes are enough for any line of a listing.
const LINE: usize = 29;

// Lists the script over the first bytes of the output and answers how many bytes that is. A listing that is longer than the output is
// refused (12): the answer is 0 and the output is untouched. An output of 18 bytes, and 29 for each line of the script, is enough, and one
// of 29,000,047 for every script (specs/Enough.antt). The claim about whole runs holds of this script: of the calls from each accepted
// setup to the next setup, with the answers that the listing has on their lines (runner's specs/Runs.antt).
//
// An output that is enough for any script of as many lines is filled at once; for another, the script is run twice, first to see how
// long its listing is.
#[unsafe(no_mangle)]
pub extern "C" fn cards_run(script: &[u8], output: &mut [u8]) -> usize
    ensures count { result ≡ length (whole_or_none (listing script.now) output.old) }
    ensures bytes { output.new ≡ output_after (listing script.now) output.old }
    ensures enough { Enough script.now output.old result }
    ensures runs { ScriptRuns script.now }
{
    if is_enough(output.len(), lines_of(script)) {
        return list_into(script, output);
    }
    let n = list_into(script, &mut output[..0]);
    if output.len() < n {
        return 0;
    }
    list_into(script, output)
}

// How many lines the script has, an empty one counted as one: a line begins at the start and after each newline but one at the end.
fn lines_of(script: &[u8]) -> usize
    ensures { (1 ≤ result) × (length (lines script.now) ≤ result) }
{
    let [before @ .., _] = script else {
        return 1;
    };
    // whole blocks, whose length the compiler knows, and what they leave
    let blocks = before.chunks_exact(BLOCK);
    let rest = blocks.remainder();
    let mut n = 1;
    for block in blocks {
        n += newlines(block) as usize;
    }
    n + newlines(rest) as usize
}

// How many newlines a block has: one fewer than the pieces between them. Counted in a byte, so that the compiler
// compares 16 at a time: `filter` and `count` over the whole script cost 8 instructions a line more.
fn newlines(block: &[u8]) -> u8
    requires { length block.now < 256 }
    ensures { (length (pieces (byte "\n") block.now) ≡ result + 1) × (result ≤ length block.now) }
{
    let mut n = 0;
    for b in block {
        if *b == b'\n' {
            n += 1;
        }
    }
    n
}

// Whether so many bytes are enough for the listing of any script of that many lines: 18, and 29 for each line.
fn is_enough(bytes: usize, lines: usize) -> bool
    ensures { result ≡ leb (enough_for lines) bytes }
{
    HEADING <= bytes && lines <= (bytes - HEADING) / LINE
}

// How long the script's listing is. Where the output has room for all of it, it is the output's first part, and the bytes after it keep
// what they held.
fn list_into(script: &[u8], output: &mut [u8]) -> usize
    ensures count { result ≡ length (listing script.now) }
    ensures bytes { result ≤ length output.old → output.new ≡ listing script.now ++ drop result output.old }
{
    let mut committed = [0u32; runner::COMMITTED_WORDS];
    let mut pending = [0u32; runner::PENDING_WORDS];
    let mut text = [0u8; TEXT];
    let mut total = listing::put_heading(&mut text);
    listing::put_bytes(output, 0, &text[..total]);
    let mut reading = Reading::start();
    for chunk in script.chunks(CHUNK) {
        let fed = inside::feed(reading, chunk, &mut committed, &mut pending, &mut text);
        reading = fed.reading;
        listing::put_bytes(output, total, &text[..fed.written]);
        total += fed.written;
        if !reading.going {
            break;
        }
    }
    let k = inside::finish(reading, &mut committed, &mut pending, &mut text).written;
    listing::put_bytes(output, total, &text[..k]);
    total + k
}
