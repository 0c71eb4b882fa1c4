// The soundness test of a reading, whatever its fields hold, and the test that tables and output fit it.
ghost use Rattle.std.specs.Prelude.{◌≡◌, ◌+◌, ◌&&◌, ◌||◌, nat_le, nat_lt};
ghost use Rattle.one_core.specs.Tidy.{◌⇒◌};
ghost use Rattle.machine.specs.Sound.{sound, is_blank};
ghost use Rattle.decimal.specs.Bytes.{byte};
ghost use Rattle.table.specs.Pieces.{free};
ghost use Rattle.request.specs.Asks.{most_lines};
ghost use Rattle.runner.specs.Doors.{readable, refusal};

use crate::{COMMITTED_WORDS, KEPT_BYTES, LINE_ROOM, Misfit, PENDING_WORDS, Reading};
use machine::Machine;

// The greatest number that a line may have while lines are read.
const LAST_LINE: u32 = request::MOST_LINES + 1;

// Whether no byte is a newline.
fn no_newline(bytes: &[u8]) -> bool
    ensures { result ≡ free (byte "\n") bytes.now }
{
    !bytes.contains(&b'\n')
}

// Whether a line may have this number.
fn is_line(number: u32, going: bool) -> bool
    ensures { result ≡ (nat_lt 0 number && (going ⇒ nat_le number (most_lines + 1))) }
{
    number > 0 && (!going || number <= LAST_LINE)
}

// Whether the record is blank, or after line 1 sound.
fn machine_sound(number: u32, m: Machine) -> bool
    ensures { result ≡ (is_blank m || (nat_lt 1 number && sound m)) }
{
    m.is_blank() || (number > 1 && m.sound())
}

// Whether the reading is sound.
#[tactic(auto, unfolding(crate::specs::Doors::readable))]
fn is_readable(r: &Reading) -> bool
    ensures { result ≡ readable r.now }
{
    is_line(r.number, r.going)
        && r.length <= KEPT_BYTES
        && no_newline(&r.line[..r.length])
        && machine_sound(r.number, r.machine)
}

// Why the doors do not take a reading, tables of these lengths, and room for so many bytes.
#[tactic(auto, unfolding(crate::specs::Doors::refusal), using(crate::proofs::Doors::room_test))]
pub fn refusal_of(
    r: &Reading,
    committed: usize,
    pending: usize,
    bytes: usize,
    room: usize,
) -> Option<Misfit>
    ensures { result ≡ refusal r.now committed pending bytes room }
{
    if !is_readable(r) {
        return Some(Misfit::Unsound);
    }
    if committed != COMMITTED_WORDS || pending != PENDING_WORDS {
        return Some(Misfit::WrongTable);
    }
    if room / LINE_ROOM < bytes {
        return Some(Misfit::NoRoom);
    }
    None
}
