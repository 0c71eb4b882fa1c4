// The levels of a sheet by way of a list of tasks that the function owns: 'filled by the sheet reader and read by the group and level functions'.
ghost use Rattle.std.specs.Prelude.{◌≡◌};
ghost use Rattle.taskset.specs.Levels.{levels_given};
ghost use Rattle.taskset.specs.Ceilings.{RightLevels};
ghost use Rattle.sheet.specs.Sheet.{sheet_tasks};

use crate::lending::read_into;
use taskset::{Levels, NotTasks, TASKS, Task};

// The levels of the tasks of a sheet; refused, where the bytes are no sheet. The list has a place for each task that a sheet can have.
pub fn levels(bytes: &[u8]) -> Result<Levels, NotTasks>
    ensures rule { result ≡ levels_given (sheet_tasks bytes.now) }
    ensures paper { RightLevels (sheet_tasks bytes.now) result }
{
    let mut list = [Task::default(); TASKS];
    let count = read_into(&mut list, bytes)?;
    tasklist::levels(&list, count)
}
