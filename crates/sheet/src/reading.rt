// A whole sheet: the line of names, then one line for each task.
ghost use Rattle.std.specs.Prelude.{◌≡◌, [], map, drop, MatchOption};
ghost use Rattle.table.specs.Pieces.{lines};
ghost use Rattle.taskset.specs.declared.TaskSet.{TaskSet};
ghost use Rattle.taskset.specs.Tasks.{packed};
ghost use Rattle.sheet.specs.Sheet.{task_line, gathered, sheet_tasks};

use crate::line::{LONGEST_LINE, task_line};
use table::{MOST_FIELDS, order, piece_end};
use taskset::{TASKS, Task, TaskSet};

// The most bytes of a sheet: 33 lines and their newlines. More are none.
pub const LONGEST_SHEET: usize = (TASKS + 1) * (LONGEST_LINE + 1);

// The tasks of a sheet; none, where the line of names is bad or a line below it.
pub(crate) fn read(bytes: &[u8]) -> Option<TaskSet>
    ensures { MatchOption result (sheet_tasks bytes.now ≡ []) (λ set. set ≡ packed (sheet_tasks bytes.now)) }
{
    let end = piece_end(bytes, 0, b'\n');
    let at = order(b"task core deadline cards", &bytes[..end], LONGEST_LINE)?;
    read_tasks(bytes, end + 1, at)
}

// The tasks of the lines from a place on, the names standing at these places; none, where a line spells no task, repeats a number, or is one
// too many.
fn read_tasks(bytes: &[u8], first: usize, at: [usize; MOST_FIELDS]) -> Option<TaskSet>
    ensures { let ts = gathered [] (map (task_line at) (lines (drop first bytes.now))) in MatchOption result (ts ≡ []) (λ set. set ≡ packed ts) }
{
    let mut tasks = [Task::default(); TASKS];
    let mut n = 0;
    let mut from = first;
    // by places: `split` gives one line more after the last newline, and of `split_inclusive` std has no law
    while from < bytes.len() {
        let to = piece_end(bytes, from, b'\n');
        let task = task_line(at, &bytes[from..to])?;
        if TASKS <= n || tasks[..n].iter().any(|other| task.number == other.number) {
            return None;
        }
        // (no heap: the tasks stand in an array, counted)
        tasks[n] = task;
        n += 1;
        from = to + 1;
    }
    Some(TaskSet { tasks, count: n })
}
