//! What a caller holds of an accepted call.
ghost use Rattle.std.specs.Prelude.{◌≡◌, ◌↔◌, IfOk, IsTrue, length};
ghost use Rattle.dr_desk.specs.Receipts.{Records, arrival_of};
ghost use Rattle.dr_ledger.specs.Replies.{entry_of};
ghost use Rattle.dr_ledger_history.specs.Lines.{line_of};

use dr_base::Text;
use dr_ledger::{Arrived, Instance, Item, Outcome};
use dr_ledger_history::JournalLine;
use dr_route::Key;
use std::alloc::AllocError;

/// A call that adds a line where it is accepted; of an arrival it has the length of the data set
/// (bytes) in place of the data set.
#[derive(PartialEq, Eq, Debug, Drop)]
pub enum Call {
    Arrival {
        caller: Text,
        uid: Text,
        key: Key,
        length: u64,
    },
    Settling {
        uid: Text,
        dest: Text,
        outcome: Outcome,
        now: u64,
    },
    Requeuing {
        uid: Text,
        dest: Text,
    },
    Dropping {
        uid: Text,
        dest: Text,
        now: u64,
    },
    Forgetting {
        uid: Text,
    },
}

/// What an accepted call answered.
#[derive(Clone, Copy, PartialEq, Eq, Debug)]
pub enum Reply {
    Arrived(Arrived),
    /// The row was settled, queued again or dropped, or the instance is forgotten.
    Done,
}

/// An accepted call with its reply, and the number of its line in the journal, from 1 on.
#[derive(PartialEq, Eq, Debug, Drop)]
pub struct Receipt {
    pub number: u64,
    pub call: Call,
    pub reply: Reply,
}

/// The arrival of an item from a caller.
pub(crate) fn arrival(caller: &Text, item: &Item) -> Result<Call, AllocError>
    ensures { IfOk result (λ call. call ≡ arrival_of caller.now item.now) }
{
    let caller = caller.clone()?;
    let uid = item.uid().clone()?;
    let key = item.key().clone()?;
    let length = item.body().len() as u64;
    let call = Call::Arrival {
        caller,
        uid,
        key,
        length,
    };
    Ok(call)
}

/// What came of a try to send, as it is noted.
pub(crate) fn settling(
    uid: &Text,
    dest: &Text,
    outcome: Outcome,
    now: u64,
) -> Result<Call, AllocError>
    ensures { IfOk result (λ call. call ≡ Call.Settling uid.now dest.now outcome now) }
{
    let uid = uid.clone()?;
    let dest = dest.clone()?;
    Ok(Call::Settling {
        uid,
        dest,
        outcome,
        now,
    })
}

/// A held row that is queued again.
pub(crate) fn requeuing(uid: &Text, dest: &Text) -> Result<Call, AllocError>
    ensures { IfOk result (λ call. call ≡ Call.Requeuing uid.now dest.now) }
{
    let uid = uid.clone()?;
    let dest = dest.clone()?;
    Ok(Call::Requeuing { uid, dest })
}

/// A held row that is given up.
pub(crate) fn dropping(uid: &Text, dest: &Text, now: u64) -> Result<Call, AllocError>
    ensures { IfOk result (λ call. call ≡ Call.Dropping uid.now dest.now now) }
{
    let uid = uid.clone()?;
    let dest = dest.clone()?;
    Ok(Call::Dropping { uid, dest, now })
}

/// A forgetting.
pub(crate) fn forgetting(uid: &Text) -> Result<Call, AllocError>
    ensures { IfOk result (λ call. call ≡ Call.Forgetting uid.now) }
{
    let uid = uid.clone()?;
    Ok(Call::Forgetting { uid })
}

/// Whether a line of the journal is of that call, with that reply.
pub(crate) fn records(line: &JournalLine, receipt: &Receipt) -> bool
    ensures { IsTrue result
        ↔ Records (entry_of (line_of line.now)) receipt.now.call receipt.now.reply }
{
    match line {
        JournalLine::Arrival {
            caller,
            instance,
            ..
        } => records_arrival(caller, instance, Arrived::New, receipt),
        JournalLine::Repeat { caller, instance } => {
            records_arrival(caller, instance, Arrived::Again, receipt)
        }
        JournalLine::Settling {
            uid,
            dest,
            outcome,
            now,
        } => is_settling(uid, dest, *outcome, *now, receipt),
        JournalLine::Requeuing { uid, dest } => is_requeuing(uid, dest, receipt),
        JournalLine::Dropping { uid, dest, now } => is_dropping(uid, dest, *now, receipt),
        JournalLine::Forgetting { uid } => is_forgetting(uid, receipt),
        JournalLine::Adoption => false,
    }
}

fn records_arrival(caller: &Text, instance: &Instance, arrived: Arrived, receipt: &Receipt) -> bool
    ensures { IsTrue result
        ↔ ((receipt.now.call
        ≡ Call.Arrival caller.now instance.now.uid instance.now.key instance.now.size)
        × (receipt.now.reply ≡ Reply.Arrived arrived)) }
{
    let Instance { uid, key, size, .. } = instance;
    is_arrival(caller, uid, key, *size, arrived, receipt)
}

fn is_arrival(
    caller: &Text,
    uid: &Text,
    key: &Key,
    length: u64,
    arrived: Arrived,
    receipt: &Receipt,
) -> bool
    ensures { IsTrue result
        ↔ ((receipt.now.call ≡ Call.Arrival caller.now uid.now key.now length)
        × (receipt.now.reply ≡ Reply.Arrived arrived)) }
{
    let Call::Arrival {
        caller: from,
        uid: of,
        key: with,
        length: size,
    } = &receipt.call
    else {
        return false;
    };
    from == caller
        && of == uid
        && with == key
        && *size == length
        && receipt.reply == Reply::Arrived(arrived)
}

fn is_settling(uid: &Text, dest: &Text, outcome: Outcome, now: u64, receipt: &Receipt) -> bool
    ensures { IsTrue result
        ↔ ((receipt.now.call ≡ Call.Settling uid.now dest.now outcome now)
        × (receipt.now.reply ≡ Reply.Done)) }
{
    let Call::Settling {
        uid: of,
        dest: to,
        outcome: came,
        now: at,
    } = &receipt.call
    else {
        return false;
    };
    of == uid && to == dest && *came == outcome && *at == now && receipt.reply == Reply::Done
}

fn is_requeuing(uid: &Text, dest: &Text, receipt: &Receipt) -> bool
    ensures { IsTrue result
        ↔ ((receipt.now.call ≡ Call.Requeuing uid.now dest.now)
        × (receipt.now.reply ≡ Reply.Done)) }
{
    let Call::Requeuing { uid: of, dest: to } = &receipt.call else {
        return false;
    };
    of == uid && to == dest && receipt.reply == Reply::Done
}

fn is_dropping(uid: &Text, dest: &Text, now: u64, receipt: &Receipt) -> bool
    ensures { IsTrue result
        ↔ ((receipt.now.call ≡ Call.Dropping uid.now dest.now now)
        × (receipt.now.reply ≡ Reply.Done)) }
{
    let Call::Dropping {
        uid: of,
        dest: to,
        now: at,
    } = &receipt.call
    else {
        return false;
    };
    of == uid && to == dest && *at == now && receipt.reply == Reply::Done
}

fn is_forgetting(uid: &Text, receipt: &Receipt) -> bool
    ensures { IsTrue result
        ↔ ((receipt.now.call ≡ Call.Forgetting uid.now) × (receipt.now.reply ≡ Reply.Done)) }
{
    let Call::Forgetting { uid: of } = &receipt.call else {
        return false;
    };
    of == uid && receipt.reply == Reply::Done
}
