// A transaction commits (document 01: commit): who is first ahead of it, and what its write set changes in the tables, the versions and the
// other cores. `commit` asks for a sound record and tables of the right lengths, `write_back` and `strike` for what keeps their indices and
// sums in range.
ghost use Rattle.std.specs.Prelude.{◌≡◌, ℕ, ◌+◌, ◌<◌, ◌≤◌, true, length, slice_index, slice_index_or};
ghost use Rattle.objset.specs.Objset.{most_objects, has};
ghost use Rattle.one_core.specs.Parts.{most_cores, no_core};
ghost use Rattle.one_core.specs.Refusal.{answer_of};
ghost use Rattle.machine.specs.Inside.{SoundWorld};
ghost use Rattle.machine.specs.Rule.{lent, left, changed, commit as commit_rule};
ghost use Rattle.machine.specs.OneCore.{first_holding, struck_all};

use crate::Machine;
use crate::inside::calls::find_core;
use objset::OBJECTS;
use one_core::{Answer, CORES, Core, Refusal};

// The core that core k's transaction waits for at its commit: of those that hold it back the one of smallest ticket; nobody, where it is
// read-only. `below` is the ticket to beat.
pub fn ahead_of(cores: &[Core; CORES], k: &Core) -> Option<u8>
    ensures { result ≡ first_holding cores.now k.now }
{
    if k.is_read_only() {
        return None;
    }
    let mut ahead = None;
    let mut below = k.ticket;
    for (e, other) in cores.iter().enumerate() {
        if other.holds_back(k, below) {
            ahead = Some(e as u8);
            below = other.ticket;
        }
    }
    ahead
}

// Stores the pending value of each object in the write set ws as its committed value and raises its version by one; the others
// keep both. The core's own pending values come first in `own`. The write set holds no object past the committed table. (An iterator over a
// set would be this loop, with the word as its state.)
pub fn write_back(ws: u64, own: &[u32], committed: &mut [u32], versions: &mut [u32; OBJECTS])
    requires own_long { length committed.old ≤ length own.now }
    requires versions_len { length versions.old ≡ most_objects }
    requires by_index { (d : ℕ) → d < most_objects → has ws d ≡ true → d < length committed.old }
    requires by_index_2 { (d : ℕ) → d < length committed.old → has ws d ≡ true → slice_index versions.old d < 4294967295 }
    ensures values { committed.new ≡ changed ws (λ d v. slice_index own.now d) 0 committed.old }
    ensures raised { versions.new ≡ changed ws (λ d v. v + 1) 0 versions.old }
{
    let mut rest = ws;
    while let Some(d) = objset::first(rest) {
        committed[d] = own[d];
        versions[d] += 1;
        rest = objset::remove(rest, d);
    }
}

// The cores after a commit of the write set ws, whose own core has no transaction any more: each transaction that ws strikes is aborted.
// No core is looked at where ws is empty.
fn strike(cores: &mut [Core; CORES], ws: u64)
    requires { (e : ℕ) → e < most_cores → (slice_index_or cores.old e no_core).aborts < 255 }
    ensures { cores.new ≡ struck_all ws cores.old }
{
    if objset::is_empty(ws) {
        return;
    }
    for k in cores.iter_mut() {
        if k.is_struck(ws) {
            k.abort();
        }
    }
}

// Commits the transaction of a core. A marked transaction is told that it was set back, and loses its mark and nothing more. One that
// conflicts with a smaller ticket waits, unless it is read-only. Any other goes through. A refusal or a wait leaves the record and both
// tables as they are. One that has written is in progress and not marked (`Settles`), so neither is looked at.
pub fn commit(
    m: &mut Machine,
    core: u32,
    committed: &mut [u32],
    pending: &[u32],
) -> Result<Answer, Refusal>
    requires { SoundWorld (lent m.old committed.old pending.now) }
    ensures { left (record { answer = answer_of result; machine = m.new }) committed.new pending.now ≡ commit_rule (lent m.old committed.old pending.now) core }
{
    let c = find_core(core, m.cores)?;
    let k = m.core[c];
    let read_only = k.is_read_only();
    if read_only {
        if !k.active {
            return Err(Refusal::NoneInProgress);
        }
        if k.zombie {
            m.core[c].tell();
            return Ok(Answer::SetBack);
        }
    }
    if let Some(e) = ahead_of(&m.core, &k) {
        return Ok(Answer::Waits(e));
    }
    m.core[c].end();
    m.commits += 1;
    let base = c * m.objects as usize;
    write_back(k.writes, &pending[base..], committed, &mut m.versions);
    strike(&mut m.core, k.writes);
    Ok(Answer::Committed(k.aborts))
}
