// The soundness test: whether a record, whatever its fields hold, keeps the standing rules (document 01). Each promise is an
// equation with the rules' own definitions in specs/Sound.antt. `turn_kept` asks for one of the sixteen places.
ghost use Rattle.std.specs.Prelude.{◌≡◌, ◌<◌};
ghost use Rattle.machine.specs.Sound.{cards_sound, turn_kept, cores_sound, sound, is_blank};
ghost use Rattle.one_core.specs.Parts.{most_cores};

use crate::{Machine, in_range};

// Whether no version exceeds the commits, and the places for objects (document 01: cards) that the machine lacks hold zeros. The loop is
// not left early, and the commits are read before it, not by each turn: so the compiler compares several at a time.
fn versions_bounded(m: &Machine) -> bool
    ensures { result ≡ cards_sound m.now }
{
    let objects = m.objects as usize;
    let commits = m.commits;
    let mut kept = true;
    for (d, version) in m.versions.iter().enumerate() {
        let most = if d < objects { commits } else { 0 };
        kept &= *version <= most;
    }
    kept
}

// Whether a transaction on core c keeps the rules that tie those in progress: its ticket differs from those before it and is
// smaller than the count of tickets given, and its aborts (document 01: setbacks) plus the number of smaller tickets in progress are
// at most cores - 1. (Counted by a loop: by `filter` and `count` the test of a record costs a quarter more.)
fn turn_kept(m: &Machine, c: usize, ticket: u32, aborts: u8) -> bool
    requires { c < most_cores }
    ensures { result ≡ turn_kept m.now c ticket aborts }
{
    let mut smaller = aborts as usize;
    for k in &m.core {
        if k.active && k.ticket < ticket {
            smaller += 1;
        }
    }
    m.core[..c].iter().all(|k| !k.active || ticket != k.ticket)
        && ticket < m.tickets
        && smaller < m.cores as usize
}

// Whether each core is tidy and its transaction keeps those rules, each core that the machine lacks is blank, and the count of tickets
// given is commits + give-ups + transactions in progress. One pass for the tests and the count: an `all` and a count would be two.
fn cores_kept(m: &Machine) -> bool
    ensures { result ≡ cores_sound m.now }
{
    let cores = m.cores as usize;
    let mut open: u64 = 0;
    for (c, k) in m.core.iter().enumerate() {
        if c < cores {
            if !k.is_tidy(m.objects) {
                return false;
            }
            if k.active {
                if !turn_kept(m, c, k.ticket, k.aborts) {
                    return false;
                }
                open += 1;
            }
        } else if !k.is_blank() {
            return false;
        }
    }
    m.tickets as u64 == m.commits as u64 + m.give_ups as u64 + open
}

// Whether the record is sound: it keeps every standing rule.
pub fn is_sound(m: &Machine) -> bool
    ensures { result ≡ sound m.now }
{
    in_range(m.cores as u32, m.objects as u32) && versions_bounded(m) && cores_kept(m)
}

// Whether the record is blank: all fields are 0. Of a record without cores and cards the tests of both ask that every place holds zeros.
pub fn all_zero(m: &Machine) -> bool
    ensures { result ≡ is_blank m.now }
{
    m.cores == 0
        && m.objects == 0
        && m.tickets == 0
        && m.commits == 0
        && m.give_ups == 0
        && versions_bounded(m)
        && cores_kept(m)
}
