// What the programs share: why a run ends early, the words for it, and whether there is an argument; and, for the program of sheets, input that
// is read to its end. `main` stands in each program: it is the program's name, its usage and its run, and nothing more.
#![tactic(auto)]

ghost use Rattle.std.specs.Prelude.{◌<◌, ◌≤◌, length, take, IfOk};
ghost use Rattle.std.specs.Io.KnownBytes.{Consumes, IsAtEnd};

use std::env::{Env, FillError};
use std::error::Error;
use std::io::Read;
use std::{fmt, io};

// Why a run ends early. The error is a parameter, and io's own where none is named. The words of io's own are the C library's, which a program
// reaches, and no library here.
#[derive(Debug, Drop)]
pub enum Failure<E = io::Error> {
    Read(E),
    Write(E),
}

impl<E: fmt::Display> fmt::Display for Failure<E> {
    fn fmt<W: fmt::Write>(&self, f: &mut fmt::Formatter<W>) -> fmt::Result {
        match self {
            Failure::Read(error) => write!(f, "read: {error}"),
            Failure::Write(error) => write!(f, "write: {error}"),
        }
    }
}

impl<E: Error> Error for Failure<E> {}

// Whether the program was given an argument. It promises nothing: std's contract has no word for the arguments.
pub fn has_argument(rt: &impl Env) -> bool {
    !matches!(rt.arg(1, &mut [0]), Err(FillError::NotPresent))
}

// Reads until the buffer is full or the input ends, and answers how many bytes of it were read.
pub fn fill<R: Read>(reader: &mut R, buffer: &mut [u8]) -> io::Result<usize>
    ensures bound { IfOk result (λ n. n ≤ length buffer.new) }
    ensures bytes { IfOk result (λ n. Consumes (R.remaining reader.old) (R.remaining reader.new) (take n buffer.new)) }
    ensures all { IfOk result (λ n. n < length buffer.new → IsAtEnd (R.remaining reader.new)) }
{
    // the bytes are counted by hand: a read may give fewer than there is room for
    let mut n = 0;
    while n < buffer.len() {
        let more = reader.read(&mut buffer[n..])?;
        if more == 0 {
            break;
        }
        n += more;
    }
    Ok(n)
}
