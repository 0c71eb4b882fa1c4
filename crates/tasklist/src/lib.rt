// Task sets in a list of tasks that the caller lends (paper 2: 'The tasks stand in a list the caller lends, one record each').
//
// `fill` and `taken` go over the list, to and from a task set by value; `levels` and `groups` take the tasks and go by the functions on that,
// which are those of `taskset`. A list may hold anything, and be of any length. The contracts cite `specs/Lists.antt`; `proofs/ListLaws.antt` has
// what a caller knows of what stands there. The functions require nothing.
#![tactic(auto)]

ghost use Rattle.std.specs.Prelude.{◌≡◌};
ghost use Rattle.taskset.specs.Tasks.{packed, standing};
ghost use Rattle.taskset.specs.Groups.{groups_given};
ghost use Rattle.taskset.specs.Chains.{RightGroups};
ghost use Rattle.taskset.specs.Levels.{levels_given};
ghost use Rattle.taskset.specs.Ceilings.{RightLevels};
ghost use Rattle.tasklist.specs.Lists.{fill_given, filled_list, first_of};

use taskset::{Groups, Levels, NotTasks, TASKS, Task, TaskSet, groups_of, levels_of, standing};

// The task set's tasks are put into the first places of the list, and counted; refused, where there are none or the list is shorter.
pub fn fill(list: &mut [Task], set: TaskSet) -> Result<usize, NotTasks>
    ensures answer { result ≡ fill_given (standing set) list.old }
    ensures list { list.new ≡ filled_list (standing set) list.old }
{
    let tasks = standing(&set);
    let n = tasks.len();
    if n == 0 || list.len() < n {
        return Err(NotTasks);
    }
    // by `[..n]` (tried: `get_mut(..n)`, of which std says the length alone once it is written through)
    list[..n].copy_from_slice(tasks);
    Ok(n)
}

// The first n tasks of the list as a task set; the empty one, where the list is shorter or no task set has so many. That is the tasks of no sheet
// and refused as such below, so it needs no option. A list and n (paper 2: the reader answers a count), for an n above the list is refused, not cut.
pub fn taken(list: &[Task], n: usize) -> TaskSet
    ensures { result ≡ packed (first_of n list.now) }
{
    let mut tasks = [Task::default(); TASKS];
    if TASKS < n || list.len() < n {
        return TaskSet { tasks, count: 0 };
    }
    tasks[..n].copy_from_slice(&list[..n]);
    TaskSet { tasks, count: n }
}

// The levels of the first n tasks of the list; refused, where they are not the tasks of a sheet.
pub fn levels(list: &[Task], n: usize) -> Result<Levels, NotTasks>
    ensures rule { result ≡ levels_given (first_of n list.now) }
    ensures paper { RightLevels (first_of n list.now) result }
{
    levels_of(taken(list, n))
}

// The contention groups of the first n tasks of the list; refused, where they are not the tasks of a sheet.
pub fn groups(list: &[Task], n: usize) -> Result<Groups, NotTasks>
    ensures rule { result ≡ groups_given (first_of n list.now) }
    ensures paper { RightGroups (first_of n list.now) result }
{
    groups_of(taken(list, n))
}
