// The machine's record (document 01: the record that each call but setup takes and all hand back), what a call hands back, and the
// eight calls. Each promise is an equation with the rule (specs/Rule.antt) for the answer,
// the whole record and every word of both tables, for every record, sound or not, and every table length.
// The two tables are lent to a call one by one (document 01), so they are two parameters here and in all that calls this crate.
#![tactic(auto)]

ghost use Rattle.std.specs.Prelude.{◌≡◌, ◌*◌, ◌&&◌, true, [], ◌==◌};
ghost use Rattle.machine.specs.Sound.{sound, is_blank};
ghost use Rattle.machine.specs.Rule as Rule;
ghost use Rattle.machine.specs.Rule.{lent, left, rule};
ghost use Rattle.machine.specs.OneCore.{call_of, lends, zeroed, handed, checked};
ghost use Rattle.machine.specs.Record.{blank, sizes_in_range};
ghost use Rattle.one_core.specs.declared.Answer.TheVariants.{Ready};
ghost use Rattle.one_core.specs.Refusal.{answer_of};
ghost use Rattle.machine.specs.Claims.{EveryRun};
ghost use Rattle.machine.specs.Refusals.{Numbered, NumberedSetup};

use crate::inside::calls::{access, alone};
use crate::inside::commit::commit;
use crate::inside::setup::set_up;
use crate::soundness::{all_zero, is_sound};
use objset::OBJECTS;
use one_core::calls::Act;
use one_core::{Answer, CORES, Core, Refusal};

pub mod inside;
mod soundness;

// The fields are document 01's. The arrays have their full length on a smaller machine: the standing rules say what stands past `cores` and
// `objects`.
#[derive(Clone, Copy)]
pub struct Machine {
    // how many cores and objects (document 01: cards) there are
    pub cores: u8,
    pub objects: u8,
    // how many tickets were given, transactions committed, transactions given up
    pub tickets: u32,
    pub commits: u32,
    pub give_ups: u32,
    pub core: [Core; CORES],
    // for each object the count of commits that wrote it
    pub versions: [u32; OBJECTS],
}

// What a call hands back: the record after it and its answer. The record stands first, which saves the compiler copies of it.
#[derive(Clone, Copy)]
pub struct Outcome {
    pub machine: Machine,
    pub answer: Answer,
}

// The most cores and objects, as setup takes them.
const MOST_CORES: u32 = CORES as u32;

const MOST_OBJECTS: u32 = OBJECTS as u32;

// Whether a machine may have that many cores and cards.
pub fn in_range(cores: u32, objects: u32) -> bool
    ensures { result ≡ sizes_in_range cores objects }
{
    1 <= cores && cores <= MOST_CORES && 1 <= objects && objects <= MOST_OBJECTS
}

// Whether tables of these lengths fit a machine of that many cores and objects.
fn tables_fit(cores: u8, objects: u8, committed: usize, pending: usize) -> bool
    ensures { result ≡ (committed == objects && pending == cores * objects) }
{
    committed == objects as usize && pending == cores as usize * objects as usize
}

impl Outcome {
    // What a call gave on the record, and the record after it.
    fn of(given: Result<Answer, Refusal>, machine: Machine) -> Outcome
        ensures { result ≡ record { answer = answer_of given; machine = machine } }
    {
        Outcome {
            machine,
            answer: Answer::of(given),
        }
    }
}

impl Machine {
    // The blank record, all fields 0. Written out: of a derived `Default` the proof, place by place, would be longer than this text.
    pub fn blank() -> Machine
        ensures { result ≡ blank }
    {
        Machine {
            cores: 0,
            objects: 0,
            tickets: 0,
            commits: 0,
            give_ups: 0,
            core: [Core::blank(); CORES],
            versions: [0; OBJECTS],
        }
    }

    // Whether the record is the blank one.
    pub fn is_blank(self) -> bool
        ensures { result ≡ is_blank self }
    {
        all_zero(&self)
    }

    // Whether the record keeps the standing rules.
    pub fn sound(self) -> bool
        ensures { result ≡ sound self }
    {
        is_sound(&self)
    }

    // A new machine, both tables zero. Refused, the tables keep every word and the record is blank: 1 cores not 1 to 16 or cards
    // not 1 to 64, 3 either table's length is wrong. Accepted, the claim about whole runs holds of every list of the other seven
    // calls that follows (specs/Claims.antt).
    pub fn setup(cores: u32, objects: u32, committed: &mut [u32], pending: &mut [u32]) -> Outcome
        ensures rule { left result committed.new pending.new ≡ Rule.setup cores objects committed.old pending.old }
        ensures runs { result.answer ≡ Ready → EveryRun (lent result.machine committed.new pending.new) }
        ensures paper { NumberedSetup cores objects committed.old pending.old result.answer }
    {
        let mut machine = Machine::blank();
        let given = set_up(&mut machine, cores, objects, committed, pending);
        Outcome::of(given, machine)
    }

    // The job joins the end of the core's list; running, if it is the running job now, or queued. 2 unsound record, 4 no such core,
    // 6 the core has 8 jobs. Refused, the record comes back as given.
    pub fn release(mut self, core: u32, job: u16, deadline: u32) -> Outcome
        ensures rule { result ≡ Rule.release self core job deadline }
        ensures paper { Numbered (lent self [] []) (Rule.Release core job deadline) result.answer }
    {
        Outcome::of(self.unlent(core, Act::Release(job, deadline)), self)
    }

    // The running job's transaction gets the next ticket: 2 unsound record, 4 no such core, 7 the core has no job, 8 a transaction
    // is in progress, 10 every ticket is given. Refused, the record comes back as given.
    pub fn begin(mut self, core: u32) -> Outcome
        ensures rule { result ≡ Rule.begin self core }
        ensures paper { Numbered (lent self [] []) (Rule.Begin core) result.answer }
    {
        Outcome::of(self.unlent(core, Act::Begin), self)
    }

    // The card's pending value if this attempt wrote it, else its committed value, and the committed version; the card joins the
    // read set. A marked transaction is told that it was set back instead. 2 unsound record, 3 wrong table, 4 no such core, 5 no
    // such card, 9 none in progress. Both tables keep every word; refused, the record comes back as given.
    pub fn read(
        mut self,
        core: u32,
        object: u32,
        committed: &mut [u32],
        pending: &mut [u32],
    ) -> Outcome
        ensures rule { left result committed.new pending.new ≡ Rule.read (lent self committed.old pending.old) core object }
        ensures paper { Numbered (lent self committed.old pending.old) (Rule.Read core object) result.answer }
    {
        Outcome::of(self.lent(core, Act::Read(object), committed, pending), self)
    }

    // Stores the pending word; the card joins the write set. A marked transaction is told that it was set back instead. 2 unsound
    // record, 3 wrong table, 4 no such core, 5 no such card, 9 none in progress. No other word changes; refused, none does and the
    // record comes back as given.
    pub fn write(
        mut self,
        core: u32,
        object: u32,
        value: u32,
        committed: &mut [u32],
        pending: &mut [u32],
    ) -> Outcome
        ensures rule { left result committed.new pending.new ≡ Rule.write (lent self committed.old pending.old) core object value }
        ensures paper { Numbered (lent self committed.old pending.old) (Rule.Write core object value) result.answer }
    {
        Outcome::of(
            self.lent(core, Act::Write(object, value), committed, pending),
            self,
        )
    }

    // The transaction commits, with the count of setbacks, or waits, with the core of the smallest conflicting ticket, or is told that
    // it was set back; one that has written nothing does not wait. 2 unsound record, 3 wrong table, 4 no such core, 9 none in
    // progress. The pending table keeps every word; so does the committed one where the transaction does not commit; refused, the
    // record comes back as given.
    pub fn commit(mut self, core: u32, committed: &mut [u32], pending: &mut [u32]) -> Outcome
        ensures rule { left result committed.new pending.new ≡ Rule.commit (lent self committed.old pending.old) core }
        ensures paper { Numbered (lent self committed.old pending.old) (Rule.Commit core) result.answer }
    {
        Outcome::of(self.committed(core, committed, pending), self)
    }

    // The transaction ends without effect: 2 unsound record, 4 no such core, 9 none in progress. Refused, the record comes back as
    // given.
    pub fn give_up(mut self, core: u32) -> Outcome
        ensures rule { result ≡ Rule.give_up self core }
        ensures paper { Numbered (lent self [] []) (Rule.GiveUp core) result.answer }
    {
        Outcome::of(self.unlent(core, Act::GiveUp), self)
    }

    // The running job leaves the list, the others keep their order; its number is the answer. 2 unsound record, 4 no such core, 7
    // the core has no job, 8 a transaction is in progress. Refused, the record comes back as given.
    pub fn finish(mut self, core: u32) -> Outcome
        ensures rule { result ≡ Rule.finish self core }
        ensures paper { Numbered (lent self [] []) (Rule.Finish core) result.answer }
    {
        Outcome::of(self.unlent(core, Act::Finish), self)
    }

    // A call that is lent no table: `Unsound`, or what the inside function gives.
    fn unlent(&mut self, core: u32, act: Act) -> Result<Answer, Refusal>
        ensures { record { answer = answer_of result; machine = self.new } ≡ handed (rule (zeroed self.old) (call_of act core)) }
    {
        if !is_sound(self) {
            return Err(Refusal::Unsound);
        }
        alone(self, core, act)
    }

    // A read or a write: `Unsound`, `WrongTable`, or what the inside function gives.
    fn lent(
        &mut self,
        core: u32,
        act: Act,
        committed: &[u32],
        pending: &mut [u32],
    ) -> Result<Answer, Refusal>
        requires { lends act ≡ true }
        ensures { left (record { answer = answer_of result; machine = self.new }) committed.now pending.new ≡ rule (lent self.old committed.now pending.old) (call_of act core) }
    {
        self.tested(committed, pending)?;
        access(self, core, act, committed, pending)
    }

    // The same of a commit.
    fn committed(
        &mut self,
        core: u32,
        committed: &mut [u32],
        pending: &[u32],
    ) -> Result<Answer, Refusal>
        ensures { left (record { answer = answer_of result; machine = self.new }) committed.new pending.now ≡ Rule.commit (lent self.old committed.old pending.now) core }
    {
        self.tested(committed, pending)?;
        commit(self, core, committed, pending)
    }

    // Whether the record is sound, `Unsound` if not, and the tables are of its lengths, `WrongTable` if not.
    #[tactic(auto, unfolding(one_core::specs::Calls::unless_on))]
    fn tested(&self, committed: &[u32], pending: &[u32]) -> Result<(), Refusal>
        ensures { result ≡ checked (lent self.now committed.now pending.now) }
    {
        if !is_sound(self) {
            return Err(Refusal::Unsound);
        }
        if !tables_fit(self.cores, self.objects, committed.len(), pending.len()) {
            return Err(Refusal::WrongTable);
        }
        Ok(())
    }
}
