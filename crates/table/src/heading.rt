// The line of names: where each name stands. `Fields::place` asks that the fields are those that were found in the line.
ghost use Rattle.std.specs.Prelude.{◌≡◌, ◌<◌, SomeIff, length};
ghost use Rattle.decimal.specs.Bytes.{byte};
ghost use Rattle.table.specs.Pieces.{pieces};
ghost use Rattle.table.specs.Fields.{place, columns_of};
ghost use Rattle.table.specs.Cut.{fields_by, held_places, Fielded};

use crate::cutting::cut;
use crate::{Fields, MOST_FIELDS};

// Where each of the names stands in a line of names; none, where the line is malformed. `names` has them in their plain order, one space
// between. The array is padded past the last: the names are lent as one text, so how many there are is no part of a type (and no heap).
pub fn order(names: &[u8], line: &[u8], longest: usize) -> Option<[usize; MOST_FIELDS]>
    ensures { result ≡ held_places (columns_of (pieces (byte " ") names.now) longest line.now) }
{
    let count = how_many(names);
    let wanted = cut(names, names.len(), count)?;
    let f = cut(line, longest, count)?;
    let mut places = [MOST_FIELDS; MOST_FIELDS];
    for i in 0..count {
        places[i] = f.place(wanted.part(i))?;
    }
    Some(places)
}

// How many fields a line has.
fn how_many(line: &[u8]) -> usize
    ensures { result ≡ length (pieces (byte " ") line.now) }
{
    line.iter().filter(|b| **b == b' ').count() + 1
}

impl Fields<'_> {
    // The place of the first field that is this name.
    fn place(&self, name: &[u8]) -> Option<usize>
        requires { Fielded self.now }
        ensures { let fs = fields_by self.now in SomeIff result (place name.now fs < length fs) (place name.now fs) }
    {
        (0..self.count).find(|&i| self.part(i) == name)
    }
}
