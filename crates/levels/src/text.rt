// The lines that the program prints. The functions ask for room in the output: 33 bytes for a line, and for 32 of them.
// They put the parts one by one and not by `write!`: the promise is of every byte of the output.
ghost use Rattle.std.specs.Prelude.{◌≡◌, ◌++◌, ◌+◌, ◌≤◌, length, drop};
ghost use Rattle.listing.specs.Text.{placed};
ghost use Rattle.taskset.specs.Tasks.{most_tasks};
ghost use Rattle.levels.specs.Printed.{most_printed, level_line, level_lines, levels_printed};

use taskset::{Level, NotTasks};

// How many bytes are enough for what is printed: a line of at most 33 for each of 32 tasks.
pub(crate) const ROOM: usize = 33 * taskset::TASKS;

// Puts what is printed of a sheet over the first bytes of the output, and answers how many bytes that is.
pub(crate) fn put_sheet(sheet: &[u8], output: &mut [u8]) -> usize
    requires { most_printed ≤ length output.old }
    ensures count { result ≡ length (levels_printed sheet.now) }
    ensures bytes { output.new ≡ levels_printed sheet.now ++ drop (length (levels_printed sheet.now)) output.old }
{
    match sheet::levels(sheet) {
        Ok(levels) => put_levels(&levels.list[..levels.count], output),
        Err(NotTasks) => listing::put_bytes(output, 0, b"refused 13\n"),
    }
}

// Puts the levels of at most 32 tasks over the first bytes of the output, and answers how many bytes that is.
fn put_levels(levels: &[Level], output: &mut [u8]) -> usize
    requires { (length levels.now ≤ most_tasks) × (most_printed ≤ length output.old) }
    ensures count { result ≡ length (level_lines levels.now) }
    ensures bytes { output.new ≡ level_lines levels.now ++ drop (length (level_lines levels.now)) output.old }
{
    let mut k = 0;
    for level in levels {
        k = put_level(*level, output, k);
    }
    k
}

// Puts the line of one task over the output's bytes from `at` on, and answers where it ends.
fn put_level(level: Level, output: &mut [u8], at: usize) -> usize
    requires { at + 33 ≤ length output.old }
    ensures end { result ≡ at + length (level_line level) }
    ensures bytes { output.new ≡ placed at (level_line level) output.old }
{
    let mut k = at;
    k += listing::put_number(level.number as u32, output, k);
    k += listing::put_bytes(output, k, b" ");
    k += listing::put_number(level.task as u32, output, k);
    k += listing::put_bytes(output, k, b" ");
    k += listing::put_number(level.transaction as u32, output, k);
    k + listing::put_bytes(output, k, b"\n")
}
