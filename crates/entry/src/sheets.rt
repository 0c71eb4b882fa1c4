// The C functions on sheets (include/cards.h): the levels of the tasks of any sheet, and of the sheet that the kit ships with. They have no
// condition; `put_words` beneath them asks for room.
ghost use Rattle.std.specs.Prelude.{◌≡◌, ◌++◌, ◌*◌, ◌/◌, ◌≤◌, length, drop, get_or};
ghost use Rattle.taskset.specs.Levels.{no_level};
ghost use Rattle.sheet.specs.Sheet.{sheet_tasks};
ghost use Rattle.sheet.specs.Shipped.{shipped_sheet, shipped_levels};
ghost use Rattle.entry.specs.Fitting.{whole_or_none, output_after};
ghost use Rattle.entry.specs.Words.{level_words, sheet_words, RightWords};

use sheet::shipped;
use taskset::Level;

// Puts three words for each task of the sheet, in its order, over the first words: task, task level, transaction level; and answers how
// many tasks there are. Bytes that are no sheet, and words too few for its tasks, are refused (13): the answer is 0 and no word is touched.
#[unsafe(no_mangle)]
pub extern "C" fn cards_levels(sheet: &[u8], levels: &mut [u32]) -> usize
    ensures count { result ≡ length (whole_or_none (sheet_words sheet.now) levels.old) / 3 }
    ensures words { levels.new ≡ output_after (sheet_words sheet.now) levels.old }
    ensures paper { RightWords (sheet_tasks sheet.now) result levels.new }
{
    let Ok(given) = sheet::levels(sheet) else {
        return 0;
    };
    let n = given.count;
    if levels.len() / 3 < n {
        return 0;
    }
    put_words(&given.list[..n], levels);
    n
}

// Puts the words of the levels over the first words.
fn put_words(given: &[Level], words: &mut [u32])
    requires { 3 * length given.now ≤ length words.old }
    ensures { words.new ≡ level_words given.now ++ drop (3 * length given.now) words.old }
{
    for (i, level) in given.iter().enumerate() {
        let three = [
            level.number as u32,
            level.task as u32,
            level.transaction as u32,
        ];
        words[3 * i..3 * i + 3].copy_from_slice(&three);
    }
}

// Puts the bytes of the shipped sheet over the first bytes of the output, and answers how many they are. Where the output is shorter, the
// answer is 0 and the output is untouched.
#[unsafe(no_mangle)]
pub extern "C" fn cards_shipped_sheet(output: &mut [u8]) -> usize
    ensures count { result ≡ length (whole_or_none shipped_sheet output.old) }
    ensures bytes { output.new ≡ output_after shipped_sheet output.old }
{
    let bytes = shipped::sheet();
    listing::put_bytes(output, 0, &bytes)
}

// How many tasks the shipped sheet has.
#[unsafe(no_mangle)]
pub extern "C" fn cards_shipped_tasks() -> usize
    ensures { result ≡ length shipped_levels }
{
    shipped::TASKS
}

// The number of its task at a place; 0 past the last.
#[unsafe(no_mangle)]
pub extern "C" fn cards_shipped_task(place: usize) -> u32
    ensures { result ≡ (get_or shipped_levels place no_level).number }
{
    shipped::level(place).number as u32
}

// The level of its task at a place; 0 past the last.
#[unsafe(no_mangle)]
pub extern "C" fn cards_shipped_task_level(place: usize) -> u32
    ensures { result ≡ (get_or shipped_levels place no_level).task }
{
    shipped::level(place).task as u32
}

// The level of the transaction of its task at a place; 0 past the last.
#[unsafe(no_mangle)]
pub extern "C" fn cards_shipped_transaction_level(place: usize) -> u32
    ensures { result ≡ (get_or shipped_levels place no_level).transaction }
{
    shipped::level(place).transaction as u32
}
