// The sheet reader over a list that the caller lends: 'The tasks stand in a list the caller lends, one record each'.
ghost use Rattle.std.specs.Prelude.{◌≡◌};
ghost use Rattle.tasklist.specs.Lists.{fill_given, filled_list};
ghost use Rattle.sheet.specs.Sheet.{sheet_tasks};

use crate::reading::read;
use tasklist::fill;
use taskset::{NotTasks, Task};

// Reads a sheet into the list: its tasks stand in the first places, in the sheet's order, and are counted; places beyond the last keep what they
// held. Refused, where the bytes are no sheet or the list is shorter than it: then every place keeps what it held.
pub fn read_into(list: &mut [Task], bytes: &[u8]) -> Result<usize, NotTasks>
    ensures answer { result ≡ fill_given (sheet_tasks bytes.now) list.old }
    ensures list { list.new ≡ filled_list (sheet_tasks bytes.now) list.old }
{
    let set = read(bytes).ok_or(NotTasks)?;
    fill(list, set)
}
