// The field of a task's cards: a comma list of different rising numbers, or `-`.
ghost use Rattle.std.specs.Prelude.{◌≡◌};
ghost use Rattle.sheet.specs.Sheet.{card_list};

use objset::OBJECTS;

// The set that a field of cards spells.
pub(crate) fn card_list(field: &[u8]) -> Option<u64>
    ensures { result ≡ card_list field.now }
{
    if field == b"-".as_slice() {
        return Some(objset::EMPTY);
    }
    let mut set = objset::EMPTY;
    let mut least = 0;
    for number in field.split(|b| *b == b',') {
        let card = decimal::read(number)? as usize;
        if card < least || OBJECTS <= card {
            return None;
        }
        set = objset::insert(set, card);
        least = card + 1;
    }
    Some(set)
}
