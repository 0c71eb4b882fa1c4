// The line of names: where each name stands.
ghost use Rattle.std.specs.Prelude.{◌≡◌};
ghost use Rattle.script.specs.Line.{names};

use crate::{Columns, LONGEST};

// The order of the fields that a line of names gives.
pub fn order(line: &[u8]) -> Option<Columns>
    ensures { result ≡ names line.now }
{
    let [call, core, card, value, ..] = table::order(b"call core card value", line, LONGEST)?;
    Some(Columns {
        call,
        core,
        card,
        value,
    })
}
