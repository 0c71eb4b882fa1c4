// Owns a list of tasks, lends the first places of it to the sheet reader, shares them with the functions for levels and groups, and prints what
// comes of some sheets: the reader's answer, each task's levels and group, and the task in the place after the last. `by_list` and `show` ask that
// the list has as many places as are lent.
#![tactic(auto)]

ghost use Rattle.std.specs.Prelude.{◌≡◌, ◌≤◌};
ghost use Rattle.sheet.specs.Sheet.{sheet_tasks};
ghost use Rattle.lists_run.specs.Listed.{places, listed_of};

use objset::OBJECTS;
use sheet::read_into;
use std::{fmt, io};
use taskset::{Groups, Levels, NotTasks, Task};

// Places of the list.
const PLACES: usize = 40;

// What stands in each place before a sheet is read. It is no sheet's task: there is no core 99.
const MARK: Task = Task {
    number: 9,
    core: 99,
    deadline: 9,
    cards: 9,
};

// What comes of a sheet: the reader's answer, the levels and groups of the tasks that it counted, and the task in the place after them.
#[derive(Clone, Copy)]
struct Listed {
    filled: Result<usize, NotTasks>,
    levels: Result<Levels, NotTasks>,
    groups: Result<Groups, NotTasks>,
    beyond: Task,
}

fn main(rt: HostRuntime) -> io::Result<()> {
    let shipped = sheet::shipped::sheet();
    show(&rt, "table 6.1", &shipped, PLACES)?;
    show(&rt, "table 6.1", &shipped, 6)?;
    show(&rt, "table 6.1", &shipped, 5)?;
    let twice = b"task core deadline cards\n1 0 50 3\n1 1 100 1\n";
    show(&rt, "a task twice", twice, PLACES)?;
    show(&rt, "no bytes", b"", PLACES)?;
    let most = b"task core deadline cards\n\
        0 0 10 0\n1 1 10 1\n2 2 10 2\n3 3 10 3\n4 4 11 4\n5 5 11 5\n6 6 11 6\n7 7 11 7\n\
        8 8 12 0\n9 9 12 1\n10 10 12 2\n11 11 12 3\n12 12 13 4\n13 13 13 5\n14 14 13 6\n15 15 13 7\n\
        16 0 14 0\n17 1 14 1\n18 2 14 2\n19 3 14 3\n20 4 15 4\n21 5 15 5\n22 6 15 6\n23 7 15 7\n\
        24 8 16 0\n25 9 16 1\n26 10 16 2\n27 11 16 3\n28 12 17 4\n29 13 17 5\n30 14 17 6\n31 15 17 7\n";
    show(&rt, "32 tasks", most, PLACES)?;
    show(&rt, "32 tasks", most, 31)
}

// What comes of a sheet by way of a list, into whose first n places it is read.
fn by_list(bytes: &[u8], n: usize) -> Listed
    requires { n ≤ places }
    ensures { result ≡ listed_of (sheet_tasks bytes.now) n }
{
    let mut list = [MARK; PLACES];
    let filled = read_into(&mut list[..n], bytes);
    let count = filled.unwrap_or(0);
    let levels = tasklist::levels(&list[..n], count);
    let groups = tasklist::groups(&list[..n], count);
    Listed {
        filled,
        levels,
        groups,
        beyond: list[count],
    }
}

// Reads a sheet into the first n places, and prints what comes of it.
fn show(rt: &impl Print, name: &str, bytes: &[u8], n: usize) -> io::Result<()>
    requires { n ≤ places }
{
    let Listed {
        filled,
        levels,
        groups,
        beyond,
    } = by_list(bytes, n);
    println!(rt; "{name}, places {n}: tasks {}", Answered(filled))?;
    println!(rt; "  levels {}", Answered(levels.map(|levels| levels.count)))?;
    println!(rt; "  groups {}", Answered(groups.map(|groups| groups.count)))?;
    if let (Ok(levels), Ok(groups)) = (levels, groups) {
        for (level, group) in levels.list.iter().zip(groups.cards).take(levels.count) {
            println!(rt;
                "  task {}: level {}, transaction {}, group{}",
                level.number,
                level.task,
                level.transaction,
                Cards(group)
            )?;
        }
    }
    println!(rt;
        "  after them: task {}, core {}, deadline {}, cards{}",
        beyond.number,
        beyond.core,
        beyond.deadline,
        Cards(beyond.cards)
    )
}

// The cards of a set, each with a space before it.
#[derive(Clone, Copy)]
struct Cards(u64);

impl fmt::Display for Cards {
    fn fmt<W: fmt::Write>(&self, f: &mut fmt::Formatter<W>) -> fmt::Result {
        for card in 0..OBJECTS {
            if objset::contains(self.0, card) {
                write!(f, " {card}")?;
            }
        }
        Ok(())
    }
}

// A count and no refusal; or no tasks and the refusal's number.
#[derive(Clone, Copy)]
struct Answered(Result<usize, NotTasks>);

impl fmt::Display for Answered {
    fn fmt<W: fmt::Write>(&self, f: &mut fmt::Formatter<W>) -> fmt::Result {
        match self.0 {
            Ok(count) => write!(f, "{count}, refusal 0"),
            Err(refused) => write!(f, "0, refusal {}", u8::from(refused)),
        }
    }
}
