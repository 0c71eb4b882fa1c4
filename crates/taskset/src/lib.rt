// A task set (paper 2: the tasks of a job sheet): its contention groups and its preemption levels.
//
// A task set is an array of 32 tasks and a count, by value; crate `tasklist` has the functions over a list of tasks that the caller lends. The
// contracts cite `specs/`: the clause `rule` what is worked out, the clause `paper` paper 2's own sentences (`specs/Chains.antt` of groups,
// `specs/Ceilings.antt` of levels), which follow from it by the laws of the same names. Which tasks are a task set: `proofs/TaskLaws.antt`.
// The public functions require nothing: what is no task set is refused.
#![tactic(auto)]

ghost use Rattle.std.specs.Prelude.{◌≡◌};
ghost use Rattle.taskset.specs.Tasks.{not_tasks_number};

mod contention;
mod preemption;
mod tasks;

pub use contention::groups_of;
pub use preemption::levels_of;
pub use tasks::{LAST_CORE, is_task_set, standing};

// The most tasks of a task set.
pub const TASKS: usize = 32;

// One task: its number, the core that it runs on, its relative deadline, and the set of objects (paper 2: cards) that its transaction uses.
// The default stands where there is no task.
#[derive(Clone, Copy, Default)]
pub struct Task {
    pub number: u16,
    pub core: u8,
    pub deadline: u32,
    pub cards: u64,
}

// The tasks stand in the first `count` places, in the sheet's order: an array and a count (paper 2: by value; no heap).
#[derive(Clone, Copy)]
pub struct TaskSet {
    pub tasks: [Task; TASKS],
    pub count: usize,
}

// The levels of one task: the task's own, and its transaction's. The default stands where there is no task.
#[derive(Clone, Copy, Default)]
pub struct Level {
    pub number: u16,
    pub task: u8,
    pub transaction: u8,
}

// The levels of a task set, in the first `count` places, in its order (paper 2: by value; no heap).
#[derive(Clone, Copy)]
pub struct Levels {
    pub list: [Level; TASKS],
    pub count: usize,
}

// The contention groups of a task set: in the first `count` places for each task all cards of its group (paper 2: by value; no heap).
#[derive(Clone, Copy)]
pub struct Groups {
    pub cards: [u64; TASKS],
    pub count: usize,
}

// Why there are no levels or groups: these are the tasks of no sheet.
#[derive(Clone, Copy, PartialEq, Eq)]
pub struct NotTasks;

// The number of this refusal.
impl From<NotTasks> for u8 {
    fn from(_refused: NotTasks) -> u8
        ensures { result ≡ not_tasks_number }
    {
        13
    }
}
