// Which task sets by value are one.
ghost use Rattle.std.specs.Prelude.{◌≡◌, not, ◌≤◌, is_ok, IfOk, length};
ghost use Rattle.taskset.specs.Tasks.{most_tasks, occurs, all_differ, numbers_of, standing, is_task_set};

use crate::{NotTasks, TASKS, Task, TaskSet};

// The last core that a task may run on.
pub const LAST_CORE: u8 = 15;

// Whether the tasks are those of some sheet.
pub fn is_task_set(set: TaskSet) -> bool
    ensures { result ≡ is_task_set (standing set) }
{
    are_task_set(standing(&set))
}

// The tasks that stand, where they are those of some sheet.
pub(crate) fn tasks_of(set: &TaskSet) -> Result<&[Task], NotTasks>
    ensures which { is_ok result ≡ is_task_set (standing set.now) }
    ensures tasks { IfOk result (λ ts. ts.now ≡ standing set.now) }
{
    let tasks = standing(set);
    if are_task_set(tasks) {
        Ok(tasks)
    } else {
        Err(NotTasks)
    }
}

// The tasks that stand; none where the count is greater than the array.
pub fn standing(set: &TaskSet) -> &[Task]
    ensures { result.now ≡ standing set.now }
{
    set.tasks.get(..set.count).unwrap_or(&[])
}

// Whether the tasks are 1 to 32, on cores that exist, with different numbers.
fn are_task_set(tasks: &[Task]) -> bool
    ensures { result ≡ is_task_set tasks.now }
{
    (1..=TASKS).contains(&tasks.len())
        && tasks.iter().all(|task| task.core <= LAST_CORE)
        && all_differ(tasks)
}

// Whether no two tasks have the same number.
fn all_differ(tasks: &[Task]) -> bool
    ensures { result ≡ all_differ (numbers_of tasks.now) }
{
    tasks
        .iter()
        .enumerate()
        .all(|(i, task)| is_new(task.number, &tasks[i + 1..]))
}

// Whether no task has this number.
fn is_new(number: u16, tasks: &[Task]) -> bool
    ensures { result ≡ not (occurs number (numbers_of tasks.now)) }
{
    !tasks.iter().any(|task| number == task.number)
}
