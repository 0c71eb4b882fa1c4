// A core's list of jobs: which one runs, a job joins, a job leaves. Each function asks that the places it is told of are the list's.
ghost use Rattle.std.specs.Prelude.{◌≡◌, ◌<◌, ◌≤◌};
ghost use Rattle.one_core.specs.Parts.{most_jobs, least, running};
ghost use Rattle.one_core.specs.Life.{with_job, without_job};

use crate::{Core, JOBS, Job};

impl Core {
    // The place of the job of least deadline, the first released among equals.
    pub fn least(&self) -> u8
        requires { self.now.count ≤ most_jobs }
        ensures { result ≡ least self.now.jobs self.now.count }
    {
        let listed = &self.jobs[..self.count as usize];
        match listed.iter().enumerate().min_by_key(|p| p.1.deadline) {
            Some((i, _)) => i as u8,
            None => 0,
        }
    }

    // The place of the running job: the transaction's own job while one is in progress, else the job of least deadline.
    #[tactic(auto, unfolding(crate::specs::Parts::running))]
    pub fn running(&self) -> u8
        requires { self.now.count ≤ most_jobs }
        ensures { result ≡ running self.now }
    {
        if self.active {
            self.owner
        } else {
            self.least()
        }
    }

    // The job joins the end of the list; the transaction stays.
    pub fn join(&mut self, job: Job)
        requires { self.old.count < most_jobs }
        ensures { self.new ≡ with_job self.old job }
    {
        self.jobs[self.count as usize] = job;
        self.count += 1;
    }

    // The job at place p leaves the list: those after it move up by one, in their order, and the last place becomes unused. The transaction
    // stays.
    pub fn leave(&mut self, p: usize)
        requires { (p < most_jobs) × (0 < self.old.count) }
        ensures { self.new ≡ without_job self.old p }
    {
        self.jobs.copy_within(p + 1.., p);
        self.jobs[JOBS - 1] = Job::default();
        self.count -= 1;
    }
}
