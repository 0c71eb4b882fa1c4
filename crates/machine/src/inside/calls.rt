// The calls that concern one core: the core and the card are found, the call is made on the core, and what it leaves is stored. A refusal
// leaves all as it was. `alone` asks for a sound record, `access` for tables of the right lengths too.
ghost use Rattle.std.specs.Prelude.{◌≡◌, ◌<◌, ◌≤◌, true};
ghost use Rattle.machine.specs.Sound.{sound};
ghost use Rattle.machine.specs.Inside.{SoundWorld};
ghost use Rattle.machine.specs.Rule.{lent, left, rule};
ghost use Rattle.machine.specs.OneCore.{found, found_core, call_of, zeroed, handed, acted_at, with_acted};
ghost use Rattle.machine.specs.Record.{core_at};
ghost use Rattle.one_core.specs.Parts.{most_cores, most_jobs};
ghost use Rattle.one_core.specs.Refusal.{answer_of};
ghost use Rattle.objset.specs.Objset.{most_objects};

use crate::Machine;
use one_core::calls::{Act, Seen};
use one_core::inside::calls::act_on;
use one_core::{Answer, Refusal};

// The places of the core and of the object (document 01: card) that a call is for.
#[derive(Clone, Copy)]
pub struct Place {
    pub core: usize,
    pub object: usize,
}

// The place of this core, where a machine of that many cores has it.
pub fn find_core(core: u32, cores: u8) -> Result<usize, Refusal>
    ensures { result ≡ found_core core cores }
{
    if core < cores as u32 {
        Ok(core as usize)
    } else {
        Err(Refusal::NoSuchCore)
    }
}

// The places of this core and of this object, where a machine of that many cores and objects has both.
pub fn find(core: u32, object: u32, cores: u8, objects: u8) -> Result<Place, Refusal>
    ensures { result ≡ found core object cores objects }
{
    let core = find_core(core, cores)?;
    if object < objects as u32 {
        Ok(Place {
            core,
            object: object as usize,
        })
    } else {
        Err(Refusal::NoSuchObject)
    }
}

// The call at these places, where it sees this committed value and this pending one.
fn act_at(
    m: &mut Machine,
    at: Place,
    act: Act,
    committed: u32,
    pending: &mut u32,
) -> Result<Answer, Refusal>
    requires there { at.core < most_cores }
    requires card { at.object < most_objects }
    requires few_jobs { (core_at m.old at.core).count ≤ most_jobs }
    requires one_open { (core_at m.old at.core).active ≡ true → m.old.give_ups < m.old.tickets }
    ensures left { m.new ≡ with_acted m.old at.core (acted_at m.old at act committed pending.old) }
    ensures word { pending.new ≡ (acted_at m.old at act committed pending.old).pending }
    ensures answer { answer_of result ≡ (acted_at m.old at act committed pending.old).answer }
{
    let seen = Seen {
        tickets: m.tickets,
        give_ups: m.give_ups,
        committed,
        pending: *pending,
        version: m.versions[at.object],
    };
    let done = act_on(act, m.core[at.core], seen)?;
    m.core[at.core] = done.core;
    m.tickets = done.tickets;
    m.give_ups = done.give_ups;
    *pending = done.pending;
    Ok(done.answer)
}

// A call that is lent no table: release, begin, give up, finish. (A read or a write would find tables of zeros.)
pub fn alone(m: &mut Machine, core: u32, act: Act) -> Result<Answer, Refusal>
    requires { sound m.old ≡ true }
    ensures { record { answer = answer_of result; machine = m.new } ≡ handed (rule (zeroed m.old) (call_of act core)) }
{
    let at = find(core, act.object(), m.cores, m.objects)?;
    let mut word = 0;
    act_at(m, at, act, 0, &mut word)
}

// A call that is lent the tables: read, write.
pub fn access(
    m: &mut Machine,
    core: u32,
    act: Act,
    committed: &[u32],
    pending: &mut [u32],
) -> Result<Answer, Refusal>
    requires { SoundWorld (lent m.old committed.now pending.old) }
    ensures { left (record { answer = answer_of result; machine = m.new }) committed.now pending.new ≡ rule (lent m.old committed.now pending.old) (call_of act core) }
{
    let at = find(core, act.object(), m.cores, m.objects)?;
    let slot = at.core * m.objects as usize + at.object;
    act_at(m, at, act, committed[at.object], &mut pending[slot])
}
