// A line of values: its call's name, its three fields of a number, and the call that they spell.
ghost use Rattle.std.specs.Prelude.{◌≡◌};
ghost use Rattle.script.specs.Line.{verb, field, spelt, spells};

use crate::{Call, Columns, Field, LONGEST, Verb};
use table::cut;

// The call that a line spells, with its fields in this order.
pub fn parse(at: Columns, line: &[u8]) -> Option<Call>
    ensures { result ≡ spells at line.now }
{
    let f = cut(line, LONGEST, 4)?;
    let called = verb(f.part(at.call))?;
    let core = field(f.part(at.core))?;
    let card = field(f.part(at.card))?;
    let value = field(f.part(at.value))?;
    spelt(called, core, card, value)
}

// What the field of the call's name says.
#[tactic(auto, using(crate::proofs::Verbs::verb_is))]
fn verb(bytes: &[u8]) -> Option<Verb>
    ensures { result ≡ verb bytes.now }
{
    match bytes {
        b"setup" => Some(Verb::Setup),
        b"release" => Some(Verb::Release),
        b"begin" => Some(Verb::Begin),
        b"read" => Some(Verb::Read),
        b"write" => Some(Verb::Write),
        b"commit" => Some(Verb::Commit),
        b"giveup" => Some(Verb::GiveUp),
        b"finish" => Some(Verb::Finish),
        _ => None,
    }
}

// What stands in a field of a number. (Inlined, as `spelt` is: as calls they make a line of `cards` 20 instructions dearer.)
#[tactic(auto, unfolding(crate::specs::Line::field))]
#[inline(always)]
fn field(bytes: &[u8]) -> Option<Field>
    ensures { result ≡ field bytes.now }
{
    match bytes {
        b"-" => Some(Field::Unused),
        _ => Some(Field::Number(decimal::read(bytes)?)),
    }
}

// The call that a verb and three fields spell. Each call has a number under core; a release's job number, under card, is at most 65,535.
#[tactic(auto, unfolding(crate::specs::Line::spelt, crate::specs::Line::with_number, crate::specs::Line::with_dash))]
#[inline(always)]
fn spelt(verb: Verb, core: Field, card: Field, value: Field) -> Option<Call>
    ensures { result ≡ spelt verb core card value }
{
    let Field::Number(core) = core else {
        return None;
    };
    match (verb, card, value) {
        (Verb::Setup, Field::Number(cards), Field::Unused) => Some(Call::Setup(core, cards)),
        (Verb::Release, Field::Number(job), Field::Number(deadline)) => Some(Call::Release(
            core,
            u16::try_from(job).ok()?,
            deadline,
        )),
        (Verb::Begin, Field::Unused, Field::Unused) => Some(Call::Begin(core)),
        (Verb::Read, Field::Number(card), Field::Unused) => Some(Call::Read(core, card)),
        (Verb::Write, Field::Number(card), Field::Number(value)) => Some(Call::Write(
            core, card, value,
        )),
        (Verb::Commit, Field::Unused, Field::Unused) => Some(Call::Commit(core)),
        (Verb::GiveUp, Field::Unused, Field::Unused) => Some(Call::GiveUp(core)),
        (Verb::Finish, Field::Unused, Field::Unused) => Some(Call::Finish(core)),
        _ => None,
    }
}
