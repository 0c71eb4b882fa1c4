// The fields of a line: where each begins.
ghost use Rattle.std.specs.Prelude.{◌≡◌};
ghost use Rattle.table.specs.Cut.{cut_of};

use crate::reader::{end_from, next_from};
use crate::{Fields, MOST_FIELDS};

// Finds where the fields of a line begin by the line reader, one pass over it. None are found where the line is longer than `longest`,
// where it has more or fewer than `count`, and where `count` is 0 or above `MOST_FIELDS`.
pub fn cut(line: &[u8], longest: usize, count: usize) -> Option<Fields<'_>>
    ensures { result ≡ cut_of longest count line.entry }
{
    if longest < line.len() || count == 0 || MOST_FIELDS < count {
        return None;
    }
    let mut begins = [0; MOST_FIELDS + 1];
    for i in 1..count {
        begins[i] = next_from(line, begins[i - 1]);
    }
    let last = begins[count - 1];
    if line.len() < last || end_from(line, last) < line.len() {
        return None;
    }
    begins[count] = line.len() + 1;
    Some(Fields {
        line,
        begins,
        count,
    })
}
