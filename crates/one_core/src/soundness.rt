// The soundness test of one core, whatever its fields hold: the standing rules (document 01) that a core keeps by itself. Each promise
// is an equation with the rules' own definitions in specs/Tidy.antt. `owner_first` asks that the owner's place is one of the list's.
ghost use Rattle.std.specs.Prelude.{◌≡◌, ◌<◌, ◌≤◌, ◌&&◌};
ghost use Rattle.one_core.specs.Tidy.{empty_sets, clear, sets_within_on, owner_listed_on, idle_clear_on, zombie_empty_on, unused_jobs_on, first_listed, tidy, blank_on};
ghost use Rattle.one_core.specs.Parts.{most_jobs};

use crate::{Core, JOBS, Job};

impl Core {
    // Whether its sets lie within the objects.
    fn sets_within(&self, objects: u8) -> bool
        ensures { result ≡ sets_within_on objects self.now }
    {
        objset::within(self.data_set(), objects as usize)
    }

    // Whether its sets are empty.
    fn sets_empty(&self) -> bool
        ensures { result ≡ empty_sets self.now }
    {
        objset::is_empty(self.data_set())
    }

    // Whether it has empty sets, no mark, and owner's place, ticket and aborts (document 01: setbacks) 0.
    fn is_clear(&self) -> bool
        ensures { result ≡ clear self.now }
    {
        self.sets_empty() && !self.zombie && self.owner == 0 && self.ticket == 0 && self.aborts == 0
    }

    // Whether the transaction's job is one of the list's, a core without a transaction is clear, and a marked one has empty sets.
    fn transaction_tidy(&self) -> bool
        ensures { result ≡ (owner_listed_on self.now && idle_clear_on self.now && zombie_empty_on self.now) }
    {
        if self.active {
            self.owner < self.count && (!self.zombie || self.sets_empty())
        } else {
            self.is_clear()
        }
    }

    // Whether the unused job places hold zeros. Every place is looked at: over `self.jobs[count..]` alone the test costs a seventh more.
    fn unused_zero(&self) -> bool
        ensures { result ≡ unused_jobs_on self.now }
    {
        let count = self.count as usize;
        self.jobs
            .iter()
            .enumerate()
            .all(|(p, j)| p < count || *j == Job::default())
    }

    // Whether every job listed before the owner's has a greater deadline.
    fn owner_first(&self) -> bool
        requires { self.now.owner < most_jobs }
        ensures { result ≡ first_listed self.now }
    {
        let owner = self.owner as usize;
        let deadline = self.jobs[owner].deadline;
        self.jobs[..owner].iter().all(|j| deadline < j.deadline)
    }

    // Whether it keeps the rules that a core keeps by itself, on a machine of that many objects (document 01: cards). The last rule is about
    // the jobs before the owner's, so only an owner's place that is not 0 is looked at.
    #[tactic(auto, using(crate::proofs::TidyLaws::owner_at_zero))]
    pub fn is_tidy(&self, objects: u8) -> bool
        ensures { result ≡ tidy objects self.now }
    {
        self.sets_within(objects)
            && self.transaction_tidy()
            && self.count as usize <= JOBS
            && self.unused_zero()
            && (self.owner == 0 || self.owner_first())
    }

    // Whether every field is 0. The numbers are joined before they are tested, so that the compiler takes several at a time; a job counts as
    // one number, its deadline in the upper half. An `all` over the jobs makes the public calls of `examples_run` 5 % dearer.
    pub fn is_blank(&self) -> bool
        ensures { result ≡ blank_on self.now }
    {
        let mut all = self.count as u64
            | self.owner as u64
            | self.aborts as u64
            | self.ticket as u64;
        for j in self.jobs {
            all |= j.number as u64 + j.deadline as u64 * 4294967296;
        }
        !self.active && !self.zombie && all == 0 && self.sets_empty()
    }
}
