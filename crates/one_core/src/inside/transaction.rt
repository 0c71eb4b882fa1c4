// A transaction's life on its core: begun, told that it was set back, a card joins a set, struck, over; whether it is read-only; and whether
// two conflict.
// `begin` asks for a list of at most 8 jobs, `abort` that the setbacks can rise.
ghost use Rattle.std.specs.Prelude.{◌≡◌, ◌<◌, ◌≤◌};
ghost use Rattle.one_core.specs.Life.{with_transaction, unmarked, with_read, with_write, conflicting, conflicts_below, is_struck, aborted, over, is_read_only};
ghost use Rattle.one_core.specs.Parts.{most_jobs, data_set};

use crate::Core;

impl Core {
    // The running job's transaction begins, with this ticket.
    pub fn begin(&mut self, ticket: u32)
        requires { self.old.count ≤ most_jobs }
        ensures { self.new ≡ with_transaction self.old ticket }
    {
        *self = Core {
            active: true,
            owner: self.running(),
            ticket,
            aborts: 0,
            zombie: false,
            reads: objset::empty(),
            writes: objset::empty(),
            ..*self
        };
    }

    // A marked transaction is told that it was set back: the mark is taken away, and nothing more.
    pub fn tell(&mut self)
        ensures { self.new ≡ unmarked self.old }
    {
        self.zombie = false;
    }

    // Object d (document 01: card) joins the read set.
    pub fn add_read(&mut self, d: usize)
        ensures { self.new ≡ with_read self.old d }
    {
        self.reads = objset::insert(self.reads, d);
    }

    // Object d joins the write set.
    pub fn add_write(&mut self, d: usize)
        ensures { self.new ≡ with_write self.old d }
    {
        self.writes = objset::insert(self.writes, d);
    }

    // Whether it is read-only (document 02, paper 4: it only looks): the write set of its present attempt is empty.
    pub fn is_read_only(&self) -> bool
        ensures { result ≡ is_read_only self.now }
    {
        objset::is_empty(self.writes)
    }

    // The read set and the write set together.
    pub(crate) fn data_set(&self) -> u64
        ensures { result ≡ data_set self.now }
    {
        objset::union(self.reads, self.writes)
    }

    // Whether two transactions conflict: the write set of either meets the data set of the other.
    fn conflicts_with(&self, other: &Core) -> bool
        ensures { result ≡ conflicting self.now other.now }
    {
        objset::meets(self.writes, other.data_set()) || objset::meets(other.writes, self.data_set())
    }

    // Whether it holds a transaction that conflicts with core k's and has a smaller ticket than `below`; where that is the ticket of k itself,
    // whether it holds that one back.
    pub fn holds_back(&self, k: &Core, below: u32) -> bool
        ensures { result ≡ conflicts_below below self.now k.now }
    {
        self.active && self.ticket < below && k.conflicts_with(self)
    }

    // Whether another's commit of the write set ws strikes it: it has a transaction whose data set meets ws.
    pub fn is_struck(&self, ws: u64) -> bool
        ensures { result ≡ is_struck ws self.now }
    {
        self.active && objset::meets(ws, self.data_set())
    }

    // Its transaction is aborted and marked: empty sets and one setback more; its ticket and jobs stay.
    pub fn abort(&mut self)
        requires { self.old.aborts < 255 }
        ensures { self.new ≡ aborted self.old }
    {
        self.aborts += 1;
        self.zombie = true;
        self.reads = objset::empty();
        self.writes = objset::empty();
    }

    // The transaction is over: the jobs stay, and no transaction.
    pub fn end(&mut self)
        ensures { self.new ≡ over self.old }
    {
        *self = Core {
            jobs: self.jobs,
            count: self.count,
            ..Core::blank()
        };
    }
}
