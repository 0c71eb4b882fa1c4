// The line reader: 'a record over the lent line and the next field's position; the core beneath it takes the line and a number' (document
// 01). The core is `ends::field_end` and `ends::after_field`; `end_from` and `next_from` are the steps that `cut` takes by the reader.
ghost use Rattle.std.specs.Prelude.{◌≡◌};
ghost use Rattle.table.specs.Fields.{field_end, after_field};

use crate::ends::{after_field, field_end};

#[derive(Clone, Copy)]
pub struct LineReader<'a> {
    pub line: &'a [u8],
    pub at: usize,
}

impl<'a> LineReader<'a> {
    // A reader of a line, the next field beginning at a place.
    pub fn new(line: &'a [u8], at: usize) -> Self
        ensures { (result.line ≡ line.entry) × (result.at ≡ at) }
    {
        LineReader { line, at }
    }

    // Where the next field begins.
    pub fn position(self) -> usize
        ensures { result ≡ self.entry.at }
    {
        self.at
    }

    // Where the next field ends.
    pub fn next_end(self) -> usize
        ensures { result ≡ field_end self.entry.line.now self.entry.at }
    {
        field_end(self.line, self.at)
    }

    // The reader moved on past the next field and its space.
    pub fn moved(self) -> Self
        ensures { (result.line ≡ self.entry.line) × (result.at ≡ after_field self.entry.line.now self.entry.at) }
    {
        LineReader {
            at: after_field(self.line, self.at),
            ..self
        }
    }
}

// Where the field that begins at a place ends, by the reader.
pub fn end_from(line: &[u8], at: usize) -> usize
    ensures { result ≡ field_end line.now at }
{
    LineReader::new(line, at).next_end()
}

// Where the field after the one that begins at a place begins, by the reader.
pub fn next_from(line: &[u8], at: usize) -> usize
    ensures { result ≡ after_field line.now at }
{
    LineReader::new(line, at).moved().position()
}
