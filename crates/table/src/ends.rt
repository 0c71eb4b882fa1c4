// Where a piece of a line ends.
ghost use Rattle.std.specs.Prelude.{◌≡◌};
ghost use Rattle.table.specs.Fields.{piece_end, field_end, after_field};

// Where the piece that begins at a place ends: at the first byte `at` from there on, or at the line's end.
pub fn piece_end(line: &[u8], from: usize, at: u8) -> usize
    ensures { result ≡ piece_end at line.now from }
{
    // by places: with an iterator over the rest of the line, cutting a line takes a tenth more instructions
    for i in from..line.len() {
        if line[i] == at {
            return i;
        }
    }
    from.max(line.len())
}

// Where the field that begins at a place ends: at the first space from there on, or at the line's end.
#[tactic(auto, unfolding(crate::specs::Fields::field_end))]
pub(crate) fn field_end(line: &[u8], from: usize) -> usize
    ensures { result ≡ field_end line.now from }
{
    piece_end(line, from, b' ')
}

// Where the field after the one that begins at a place begins: past that one and its space.
pub(crate) fn after_field(line: &[u8], from: usize) -> usize
    ensures { result ≡ after_field line.now from }
{
    if line.len() < from {
        return from;
    }
    field_end(line, from) + 1
}
