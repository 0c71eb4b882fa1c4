// The lines of a listing (document 01, 'Script and listing'): the heading, and one line for each line read.
//
// The contracts cite `specs/Text.antt`: `line n a` is the line for line n of the script, and `put` what putting a text over the first
// bytes of an output leaves there. `proofs/Laws.antt` has what a caller knows of them. The functions require nothing.
#![tactic(auto)]

ghost use Rattle.std.specs.Prelude.{◌≡◌, length, take};
ghost use Rattle.decimal.specs.Spelling.{spelling};
ghost use Rattle.listing.specs.Text.{heading, spaced, value_text, field_text, line, fitting, put, fitting_at, placed};

use one_core::Answer;

// What stands between a line's number and its newline: a text whose first bytes are the answer's word between two spaces, how many they are,
// and its value, where it has one. The text stands here by value: a slice of the constants is copied by memmove, which the archive for C
// would need from outside.
#[derive(Clone, Copy)]
struct Said {
    text: [u8; 11],
    length: usize,
    value: Option<u32>,
}

// Any line of a listing fits into so many bytes.
const ROOM: usize = 32;

// Puts the heading over the first bytes of the output, and answers how many there are. The bytes
// after them keep what they held. An output under 32 bytes keeps its bytes, and the answer is 0.
pub fn put_heading(output: &mut [u8]) -> usize
    ensures count { result ≡ length (fitting heading output.old) }
    ensures bytes { output.new ≡ put heading output.old }
{
    if output.len() < ROOM {
        return 0;
    }
    put_bytes(output, 0, b"line answer value\n")
}

// Puts the line for line `number` of the script, answered so, over the first bytes of the output, and
// answers how many there are. The bytes after them keep what they held. An output under 32 bytes keeps
// its bytes, and the answer is 0.
pub fn put_line(number: u32, answer: Answer, output: &mut [u8]) -> usize
    ensures count { result ≡ length (fitting (line number answer) output.old) }
    ensures bytes { output.new ≡ put (line number answer) output.old }
{
    if output.len() < ROOM {
        return 0;
    }
    let said = said_of(answer);
    let mut k = put_number(number, output, 0);
    k += put_bytes(output, k, &said.text[..said.length]);
    k += put_field(said.value, output, k);
    k + put_bytes(output, k, b"\n")
}

// What an answer says.
fn said_of(answer: Answer) -> Said
    ensures count { result.length ≡ length (spaced answer) }
    ensures text { take result.length result.text ≡ spaced answer }
    ensures value { field_text result.value ≡ value_text answer }
{
    let (text, length, value) = match answer {
        Answer::Ready => (*b" ready     ", 7, None),
        Answer::Running => (*b" running   ", 9, None),
        Answer::Queued => (*b" queued    ", 8, None),
        Answer::Begun(ticket) => (*b" begun     ", 7, Some(ticket)),
        Answer::Value(value, _) => (*b" value     ", 7, Some(value)),
        Answer::Written => (*b" written   ", 9, None),
        Answer::Waits(core) => (*b" waits     ", 7, Some(u32::from(core))),
        Answer::Committed(setbacks) => (*b" committed ", 11, Some(u32::from(setbacks))),
        Answer::SetBack => (*b" setback   ", 9, None),
        Answer::Ended => (*b" ended     ", 7, None),
        Answer::Finished(job) => (*b" finished  ", 10, Some(u32::from(job))),
        Answer::Refused(number) => (*b" refused   ", 9, Some(u32::from(number))),
    };
    Said {
        text,
        length,
        value,
    }
}

// Puts a value, or `-` where there is none, over the output's bytes from `at` on, and answers how many bytes that is.
fn put_field(value: Option<u32>, output: &mut [u8], at: usize) -> usize
    ensures count { result ≡ length (fitting_at at (field_text value) output.old) }
    ensures bytes { output.new ≡ placed at (field_text value) output.old }
{
    match value {
        Some(n) => put_number(n, output, at),
        None => put_bytes(output, at, b"-"),
    }
}

// Puts n's digits over the output's bytes from `at` on, and answers how many there are: they are printed into a scratch, and the part
// that comes back is copied. Where they do not fit, the output keeps its bytes, and the answer is 0.
pub fn put_number(n: u32, output: &mut [u8], at: usize) -> usize
    ensures count { result ≡ length (fitting_at at (spelling n) output.old) }
    ensures bytes { output.new ≡ placed at (spelling n) output.old }
{
    let mut scratch = [0u8; 10];
    let digits = decimal::print(n, &mut scratch);
    // a single digit is copied by itself: a copy whose length is not known is a call of memcpy
    if digits.len() == 1 {
        let digit = [digits[0]];
        return put_bytes(output, at, &digit);
    }
    put_bytes(output, at, digits)
}

// Copies a text over the output's bytes from `at` on, and answers how many bytes it has; the bytes before and after them keep what they
// held. Where the text does not fit, the output keeps its bytes and the answer is 0, which is what a caller adds to its place either way.
// Output and place stay two parameters: the promises say what is placed there (`placed`), and the programs' proofs cite them so.
#[tactic(auto, unfolding(crate::specs::Text::fitting_at, crate::specs::Text::placed))]
pub fn put_bytes(output: &mut [u8], at: usize, text: &[u8]) -> usize
    ensures count { result ≡ length (fitting_at at text.now output.old) }
    ensures bytes { output.new ≡ placed at text.now output.old }
{
    if output.len() < text.len() || output.len() - text.len() < at {
        return 0;
    }
    output[at..at + text.len()].copy_from_slice(text);
    text.len()
}
