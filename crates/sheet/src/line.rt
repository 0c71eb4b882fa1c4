// A line of a sheet: its four fields, and the task that they spell.
ghost use Rattle.std.specs.Prelude.{◌≡◌};
ghost use Rattle.sheet.specs.Sheet.{spelled_task, task_line};

use crate::cards::card_list;
use table::{MOST_FIELDS, cut};
use taskset::{LAST_CORE, Task};

// The most bytes that a line may have, without its newline.
pub(crate) const LONGEST_LINE: usize = 1024;

// The task that a line spells, the names task, core, deadline and cards standing at these places.
pub(crate) fn task_line(at: [usize; MOST_FIELDS], line: &[u8]) -> Option<Task>
    ensures { result ≡ task_line at line.now }
{
    let fields = cut(line, LONGEST_LINE, 4)?;
    let number = decimal::read(fields.part(at[0]))?;
    let core = decimal::read(fields.part(at[1]))?;
    let deadline = decimal::read(fields.part(at[2]))?;
    let cards = card_list(fields.part(at[3]))?;
    spelled(number, core, deadline, cards)
}

// The task of the values of four fields; none where the number or the core is too large.
#[tactic(auto, unfolding(crate::specs::Sheet::spelled_task))]
fn spelled(number: u32, core: u32, deadline: u32, cards: u64) -> Option<Task>
    ensures { result ≡ spelled_task number core deadline cards }
{
    Some(Task {
        number: u16::try_from(number).ok()?,
        core: u8::try_from(core).ok().filter(|core| *core <= LAST_CORE)?,
        deadline,
        cards,
    })
}
