// The levels of a task set. The different deadlines are found once; then a task's level is how many of them are at least its own.
ghost use Rattle.std.specs.Prelude.{◌≡◌, ◌≤◌, ◌-◌, ◌++◌, leb, count_by, length, take, replicate};
ghost use Rattle.taskset.specs.Tasks.{most_tasks, deadlines_of, standing};
ghost use Rattle.taskset.specs.Levels.{task_level, task_levels, highest, levels_of, levelled, levels_given};
ghost use Rattle.taskset.specs.Ceilings.{RightLevels};
ghost use Rattle.taskset.specs.Counted.{distinct, Columns};

use crate::contention::group_cards;
use crate::tasks::tasks_of;
use crate::{Level, Levels, NotTasks, TASKS, Task, TaskSet};

// The levels of the tasks of a set; refused where they are the tasks of no sheet.
pub fn levels_of(set: TaskSet) -> Result<Levels, NotTasks>
    ensures rule { result ≡ levels_given (standing set) }
    ensures paper { RightLevels (standing set) result }
{
    let tasks = tasks_of(&set)?;
    let count = tasks.len();
    let groups = group_cards(tasks);
    let levels = task_levels(tasks);
    let list = side_by_side(tasks, &groups[..count], &levels[..count]);
    Ok(Levels { list, count })
}

// The task level and the transaction level of each task; zeros past them. Three lists: a transaction's level asks for all groups and all task levels,
// so each is needed whole.
fn side_by_side(tasks: &[Task], groups: &[u64], levels: &[u8]) -> [Level; TASKS]
    requires { Columns tasks.now groups.now levels.now }
    ensures { result ≡ (levelled (levels_of tasks.now)).list }
{
    let mut list = [Level::default(); TASKS];
    // by places, as in `group_cards`
    for (i, task) in tasks.iter().enumerate() {
        list[i] = Level {
            number: task.number,
            task: levels[i],
            transaction: highest(groups[i], groups, levels),
        };
    }
    list
}

// The level of each task, by their deadlines, in the first places; zeros past them.
fn task_levels(tasks: &[Task]) -> [u8; TASKS]
    requires { length tasks.now ≤ most_tasks }
    ensures { result ≡ task_levels (deadlines_of tasks.now) ++ replicate (most_tasks - length tasks.now) 0 }
{
    let mut deadlines = [0u32; TASKS];
    let n = different(tasks, &mut deadlines);
    let mut levels = [0u8; TASKS];
    // by places, as in `group_cards`
    for (i, task) in tasks.iter().enumerate() {
        levels[i] = level(&deadlines[..n], task.deadline);
    }
    levels
}

// Puts the different deadlines into the first places of a lent list, and counts them (no heap); by places, as in `group_cards`.
fn different(tasks: &[Task], deadlines: &mut [u32]) -> usize
    requires { length tasks.now ≤ length deadlines.old }
    ensures count { result ≡ length (distinct (deadlines_of tasks.now)) }
    ensures list { take result deadlines.new ≡ distinct (deadlines_of tasks.now) }
{
    let mut n = 0;
    for (i, task) in tasks.iter().enumerate() {
        if !tasks[i + 1..]
            .iter()
            .any(|later| task.deadline == later.deadline)
        {
            deadlines[n] = task.deadline;
            n += 1;
        }
    }
    n
}

// How many of the deadlines are at least d.
fn level(deadlines: &[u32], d: u32) -> u8
    requires { length deadlines.now ≤ most_tasks }
    ensures { result ≡ count_by (leb d) deadlines.now }
{
    deadlines.iter().filter(|deadline| d <= **deadline).count() as u8
}

// The highest level of the tasks whose groups have a card of this one.
fn highest(group: u64, groups: &[u64], levels: &[u8]) -> u8
    requires { length levels.now ≡ length groups.now }
    ensures { result ≡ highest group groups.now levels.now }
{
    groups
        .iter()
        .zip(levels)
        .filter(|(other, _)| objset::meets(group, **other))
        .map(|(_, level)| *level)
        .max()
        .unwrap_or(0)
}
