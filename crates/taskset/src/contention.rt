// The contention groups of a task set (paper 2: groups): for each task the cards of its group, worked out from the last task to the first.
ghost use Rattle.std.specs.Prelude.{◌≡◌, ◌≤◌, length};
ghost use Rattle.taskset.specs.Tasks.{most_tasks, cards_of, standing};
ghost use Rattle.taskset.specs.Groups.{reached, replaced, groups_of, grouped, groups_given};
ghost use Rattle.taskset.specs.Chains.{RightGroups};

use crate::tasks::tasks_of;
use crate::{Groups, NotTasks, TASKS, Task, TaskSet};

// The groups of the tasks of a set; refused where they are the tasks of no sheet.
pub fn groups_of(set: TaskSet) -> Result<Groups, NotTasks>
    ensures rule { result ≡ groups_given (standing set) }
    ensures paper { RightGroups (standing set) result }
{
    let tasks = tasks_of(&set)?;
    Ok(Groups {
        cards: group_cards(tasks),
        count: tasks.len(),
    })
}

// For each task the cards of its group, in the first places; no cards past them.
pub(crate) fn group_cards(tasks: &[Task]) -> [u64; TASKS]
    requires { length tasks.now ≤ most_tasks }
    ensures { result ≡ (grouped (groups_of (cards_of tasks.now))).cards }
{
    let mut cards = [objset::EMPTY; TASKS];
    // by places (tried: `cards.iter_mut().zip(tasks)`): std says nothing of an element that is written through such an iterator
    for (i, task) in tasks.iter().enumerate() {
        cards[i] = task.cards;
    }
    join_groups(&mut cards[..tasks.len()]);
    cards
}

// A task's cards, and those of each group that they meet: joined from the last group to the first, as the definition goes.
fn reach(groups: &[u64], cards: u64) -> u64
    ensures { result ≡ reached cards groups.now }
{
    groups
        .iter()
        .rev()
        .filter(|group| objset::meets(cards, **group))
        .fold(cards, |whole, group| objset::union(*group, whole))
}

// Makes each group that a task's cards meet the whole.
fn replace(groups: &mut [u64], cards: u64, whole: u64)
    ensures { groups.new ≡ replaced cards whole groups.old }
{
    for group in groups.iter_mut() {
        if objset::meets(cards, *group) {
            *group = whole;
        }
    }
}

// Lent the cards of each task, leaves the cards of its group there.
fn join_groups(groups: &mut [u64])
    ensures { groups.new ≡ groups_of groups.old }
{
    for i in (0..groups.len()).rev() {
        let cards = groups[i];
        let whole = reach(&groups[i + 1..], cards);
        replace(&mut groups[i + 1..], cards, whole);
        groups[i] = whole;
    }
}
