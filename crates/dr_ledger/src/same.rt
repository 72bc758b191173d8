//! Whether two lines of a journal are the same, part by part.
ghost use Rattle.std.specs.Prelude.{◌≡◌, ◌↔◌, IsTrue};
ghost use Rattle.dr_ledger.specs.declared.item.Entry.TheVariants as entry;

use crate::item::{Entry, Outcome};
use dr_base::same::{Same, are_same};
use dr_base::{Seq, Text};
use dr_route::Key;

/// Whether the line is this arrival.
fn is_arrival(
    line: &Entry,
    caller: &Text,
    uid: &Text,
    key: &Key,
    length: u64,
    to: &Seq<Text>,
    keep: bool,
) -> bool
    ensures { IsTrue result
        ↔ (line.now ≡ entry.Arrival caller.now uid.now key.now length to.now keep) }
{
    match line {
        Entry::Arrival {
            caller: from,
            uid: of,
            key: with,
            length: size,
            to: targets,
            keep: keeps,
        } => {
            from == caller
                && of == uid
                && with == key
                && *size == length
                && *keeps == keep
                && are_same(targets.as_slice(), to.as_slice())
        }
        _ => false,
    }
}

/// Whether the line is this repeat.
fn is_repeat(line: &Entry, caller: &Text, uid: &Text, key: &Key, length: u64) -> bool
    ensures { IsTrue result ↔ (line.now ≡ entry.Repeat caller.now uid.now key.now length) }
{
    match line {
        Entry::Repeat {
            caller: from,
            uid: of,
            key: with,
            length: size,
        } => from == caller && of == uid && with == key && *size == length,
        _ => false,
    }
}

/// Whether the line is this settling.
fn is_settling(line: &Entry, uid: &Text, dest: &Text, outcome: Outcome, now: u64) -> bool
    ensures { IsTrue result ↔ (line.now ≡ entry.Settling uid.now dest.now outcome now) }
{
    match line {
        Entry::Settling {
            uid: of,
            dest: towards,
            outcome: came,
            now: at,
        } => of == uid && towards == dest && *came == outcome && *at == now,
        _ => false,
    }
}

/// Whether the line is this requeuing.
fn is_requeuing(line: &Entry, uid: &Text, dest: &Text) -> bool
    ensures { IsTrue result ↔ (line.now ≡ entry.Requeuing uid.now dest.now) }
{
    match line {
        Entry::Requeuing {
            uid: of,
            dest: towards,
        } => of == uid && towards == dest,
        _ => false,
    }
}

/// Whether the line is this dropping.
fn is_dropping(line: &Entry, uid: &Text, dest: &Text, now: u64) -> bool
    ensures { IsTrue result ↔ (line.now ≡ entry.Dropping uid.now dest.now now) }
{
    match line {
        Entry::Dropping {
            uid: of,
            dest: towards,
            now: at,
        } => of == uid && towards == dest && *at == now,
        _ => false,
    }
}

/// Whether the line is this forgetting.
fn is_forgetting(line: &Entry, uid: &Text) -> bool
    ensures { IsTrue result ↔ (line.now ≡ entry.Forgetting uid.now) }
{
    match line {
        Entry::Forgetting { uid: of } => of == uid,
        _ => false,
    }
}

impl Same for Entry {
    fn is_same(&self, other: &Entry) -> bool {
        match self {
            Entry::Arrival {
                caller,
                uid,
                key,
                length,
                to,
                keep,
            } => is_arrival(other, caller, uid, key, *length, to, *keep),
            Entry::Repeat {
                caller,
                uid,
                key,
                length,
            } => is_repeat(other, caller, uid, key, *length),
            Entry::Settling {
                uid,
                dest,
                outcome,
                now,
            } => is_settling(other, uid, dest, *outcome, *now),
            Entry::Requeuing { uid, dest } => is_requeuing(other, uid, dest),
            Entry::Dropping { uid, dest, now } => is_dropping(other, uid, dest, *now),
            Entry::Forgetting { uid } => is_forgetting(other, uid),
            Entry::Adoption => matches!(other, Entry::Adoption),
        }
    }
}
