// Setup: a new machine, with no jobs, no transactions, all versions and both tables zero.
ghost use Rattle.std.specs.Prelude.{◌≡◌};
ghost use Rattle.machine.specs.Rule.{left, setup};
ghost use Rattle.one_core.specs.Refusal.{answer_of};

use crate::{Machine, in_range, tables_fit};
use one_core::{Answer, Refusal};

// The record becomes a new machine of that many cores and objects, and its tables are made zero. Refused, the record becomes the blank one,
// and the tables keep every word. In place: a `Result<Machine, Refusal>` costs 116 instructions more.
pub fn set_up(
    m: &mut Machine,
    cores: u32,
    objects: u32,
    committed: &mut [u32],
    pending: &mut [u32],
) -> Result<Answer, Refusal>
    ensures { left (record { answer = answer_of result; machine = m.new }) committed.new pending.new ≡ setup cores objects committed.old pending.old }
{
    *m = Machine::blank();
    if !in_range(cores, objects) {
        return Err(Refusal::WrongSize);
    }
    let n = cores as u8;
    let d = objects as u8;
    if !tables_fit(n, d, committed.len(), pending.len()) {
        return Err(Refusal::WrongTable);
    }
    committed.fill(0);
    pending.fill(0);
    m.cores = n;
    m.objects = d;
    Ok(Answer::Ready)
}
