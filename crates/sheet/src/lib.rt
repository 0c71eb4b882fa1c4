// The job sheet (paper 2), the file of a task set: a line of names, then one line for each task.
//
// `read_into` is the sheet reader: it puts the tasks into a list that the caller lends. `levels` has such a list of its own, and gives the tasks'
// levels. `shipped` has the sheet that the kit ships with, and its levels. The contracts cite `specs/`; `proofs/Laws.antt` has what a caller knows of
// what stands there. The public functions require nothing.
#![tactic(auto)]

mod cards;
mod lending;
mod line;
mod listed;
mod reading;
pub mod shipped;

pub use lending::read_into;
pub use listed::levels;
pub use reading::LONGEST_SHEET;
