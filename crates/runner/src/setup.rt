// Setup with tables for the largest machine; that they have its lengths is a condition.
ghost use Rattle.std.specs.Prelude.{◌≡◌, length};
ghost use Rattle.runner.specs.Kept.{held, overlaid, committed_words, pending_words, BlankOrSound};
ghost use Rattle.runner.specs.Listing.{set_up};
ghost use Rattle.one_core.specs.Refusal.{answer_of};

use machine::Machine;
use one_core::{Answer, Refusal};

// Setup of the record where it is, with as many words of each table as it asks for; out of range, with none.
pub(crate) fn set_up(
    m: &mut Machine,
    cores: u32,
    cards: u32,
    committed: &mut [u32],
    pending: &mut [u32],
) -> Result<Answer, Refusal>
    requires { (length committed.old ≡ committed_words) × (length pending.old ≡ pending_words) }
    ensures answer { answer_of result ≡ (set_up cores cards).answer }
    ensures world { held m.new committed.new pending.new ≡ (set_up cores cards).world }
    ensures kept { BlankOrSound m.new committed.new pending.new }
    ensures tables { (committed.new ≡ overlaid (set_up cores cards).world.committed committed.old) × (pending.new ≡ overlaid (set_up cores cards).world.pending pending.old) }
{
    let (cores_lent, cards_lent) = if machine::in_range(cores, cards) {
        (cores as usize, cards as usize)
    } else {
        (0, 0)
    };
    machine::inside::setup::set_up(
        m,
        cores,
        cards,
        &mut committed[..cards_lent],
        &mut pending[..cores_lent * cards_lent],
    )
}
