//! What a node that runs is asked and told by a word.
ghost use Rattle.std.specs.Prelude.{◌≡◌, codes};
ghost use Rattle.dr_run_ask.specs.Calls.{copy_form, dest_form, reason_form, row_form, uid_form};
ghost use Rattle.dr_run_ask.specs.Conversations.{OnlyReads};
ghost use Rattle.dr_run_ask.specs.declared.call.HttpCall.TheVariants as calls;
ghost use Rattle.dr_word_at.specs.Errands.{Acts, Does, Runs};

use crate::listing::{list_of, summary_of};
use dr_base::Text;
use dr_run_ask::{
    AskFault, Asks, HttpCall, Meant, copy_form, dest_form, reason_form, row_form, see, tell,
    uid_form,
};
use dr_run_open::{NextHop, Status};
use dr_word_line::Errand;
use std::alloc::{AllocError, Global};

/// What an errand comes to: what is printed, and the exit status.
#[derive(Drop)]
pub struct ErrandOutcome {
    pub text: Text,
    pub status: Status,
}

/// An errand that tells a node something, and what is printed where it is done. The line is made
/// first.
///
/// Errors: those of `tell`.
fn act<A: Asks>(
    alloc: Global,
    node: &mut A,
    meant: Meant<'_>,
    call: HttpCall<'_>,
    line: &str,
) -> Result<ErrandOutcome, AskFault>
    ensures { Does A.answers meant.entry.name.now meant.entry.digest.now call.entry line.now
        node.old result node.new }
{
    let text = match Text::copy_of(alloc, line.as_bytes()) {
        Ok(text) => text,
        Err(AllocError) => return Err(AskFault::Memory),
    };
    match tell(alloc, node, meant, call) {
        Ok(()) => Ok(ErrandOutcome {
            text,
            status: Status::Success,
        }),
        Err(fault) => Err(fault),
    }
}

/// Prints what a node has that was seen.
///
/// Errors: those of `list_of`.
fn list_seen<A: Asks>(
    alloc: Global,
    node: &mut A,
    name: &Text,
    hops: &[NextHop],
) -> Result<ErrandOutcome, AskFault>
    ensures { OnlyReads A.answers node.old node.new }
{
    match list_of(alloc, node, name, hops) {
        Ok(text) => Ok(ErrandOutcome {
            text,
            status: Status::Success,
        }),
        Err(fault) => Err(fault),
    }
}

/// Prints what a node has.
///
/// Errors: those of `see` and `list_of`.
fn list<A: Asks>(
    alloc: Global,
    node: &mut A,
    meant: Meant<'_>,
    hops: &[NextHop],
) -> Result<ErrandOutcome, AskFault>
    ensures { OnlyReads A.answers node.old node.new }
{
    match see(alloc, node, meant) {
        Ok(_seen) => list_seen(alloc, node, meant.name, hops),
        Err(fault) => Err(fault),
    }
}

/// The exit status of a summary, where a held row may be a no.
fn strict_status(is_strict: bool, is_held: bool) -> Status {
    if is_strict && is_held {
        return Status::Refused;
    }
    Status::Success
}

/// Prints how much a node has; a held row may be a no.
///
/// Errors: those of `see`; those of the answer.
fn summarize<A: Asks>(
    alloc: Global,
    node: &mut A,
    meant: Meant<'_>,
    is_strict: bool,
) -> Result<ErrandOutcome, AskFault>
    ensures { OnlyReads A.answers node.old node.new }
{
    let answer = match see(alloc, node, meant) {
        Ok(answer) => answer,
        Err(fault) => return Err(fault),
    };
    match summary_of(alloc, meant.name, &answer) {
        Ok(summed) => Ok(ErrandOutcome {
            text: summed.text,
            status: strict_status(is_strict, summed.is_held),
        }),
        Err(fault) => Err(fault),
    }
}

/// Queues a held row again.
///
/// Errors: those of `act`.
fn requeue_row<A: Asks>(
    alloc: Global,
    node: &mut A,
    meant: Meant<'_>,
    uid: &str,
    dest: &str,
) -> Result<ErrandOutcome, AskFault>
    ensures { Acts A.answers meant.entry.name.now meant.entry.digest.now (row_form uid.now dest.now)
        calls.Requeue (codes "requeued\n") node.old result node.new }
{
    let form = match row_form(alloc, uid, dest) {
        Ok(form) => form,
        Err(AllocError) => return Err(AskFault::Memory),
    };
    let call = HttpCall::Requeue(form.as_str());
    act(alloc, node, meant, call, "requeued\n")
}

/// Queues all held rows to a node again.
///
/// Errors: those of `act`.
fn requeue_all<A: Asks>(
    alloc: Global,
    node: &mut A,
    meant: Meant<'_>,
    dest: &str,
) -> Result<ErrandOutcome, AskFault>
    ensures { Acts A.answers meant.entry.name.now meant.entry.digest.now (dest_form dest.now)
        calls.Requeue (codes "requeued\n") node.old result node.new }
{
    let form = match dest_form(alloc, dest) {
        Ok(form) => form,
        Err(AllocError) => return Err(AskFault::Memory),
    };
    let call = HttpCall::Requeue(form.as_str());
    act(alloc, node, meant, call, "requeued\n")
}

/// Gives a held row up.
///
/// Errors: those of `act`.
fn give_row_up<A: Asks>(
    alloc: Global,
    node: &mut A,
    meant: Meant<'_>,
    uid: &str,
    dest: &str,
) -> Result<ErrandOutcome, AskFault>
    ensures { Acts A.answers meant.entry.name.now meant.entry.digest.now (row_form uid.now dest.now)
        calls.GiveUp (codes "dropped\n") node.old result node.new }
{
    let form = match row_form(alloc, uid, dest) {
        Ok(form) => form,
        Err(AllocError) => return Err(AskFault::Memory),
    };
    let call = HttpCall::GiveUp(form.as_str());
    act(alloc, node, meant, call, "dropped\n")
}

/// Gives a held row up for a reason.
///
/// Errors: those of `act`.
fn give_row_up_for<A: Asks>(
    alloc: Global,
    node: &mut A,
    meant: Meant<'_>,
    uid: &str,
    dest: &str,
    reason: &str,
) -> Result<ErrandOutcome, AskFault>
    ensures { Acts A.answers meant.entry.name.now meant.entry.digest.now
        (reason_form uid.now dest.now reason.now)
        calls.GiveUp (codes "dropped\n") node.old result node.new }
{
    let form = match reason_form(alloc, uid, dest, reason) {
        Ok(form) => form,
        Err(AllocError) => return Err(AskFault::Memory),
    };
    let call = HttpCall::GiveUp(form.as_str());
    act(alloc, node, meant, call, "dropped\n")
}

/// Has a node visit another one now.
///
/// Errors: those of `act`.
fn visit_node<A: Asks>(
    alloc: Global,
    node: &mut A,
    meant: Meant<'_>,
    dest: &str,
) -> Result<ErrandOutcome, AskFault>
    ensures { Acts A.answers meant.entry.name.now meant.entry.digest.now (dest_form dest.now)
        calls.Visit (codes "visited\n") node.old result node.new }
{
    let form = match dest_form(alloc, dest) {
        Ok(form) => form,
        Err(AllocError) => return Err(AskFault::Memory),
    };
    let call = HttpCall::Visit(form.as_str());
    act(alloc, node, meant, call, "visited\n")
}

/// Has a node copy its ledger.
///
/// Errors: those of `act`.
fn back_up<A: Asks>(
    alloc: Global,
    node: &mut A,
    meant: Meant<'_>,
    copy: &str,
) -> Result<ErrandOutcome, AskFault>
    ensures { Acts A.answers meant.entry.name.now meant.entry.digest.now (copy_form copy.now)
        calls.Backup (codes "copied\n") node.old result node.new }
{
    let form = match copy_form(alloc, copy) {
        Ok(form) => form,
        Err(AllocError) => return Err(AskFault::Memory),
    };
    let call = HttpCall::Backup(form.as_str());
    act(alloc, node, meant, call, "copied\n")
}

/// Forgets an instance.
///
/// Errors: those of `act`.
fn forget_instance<A: Asks>(
    alloc: Global,
    node: &mut A,
    meant: Meant<'_>,
    uid: &str,
) -> Result<ErrandOutcome, AskFault>
    ensures { Acts A.answers meant.entry.name.now meant.entry.digest.now (uid_form uid.now)
        calls.Forget (codes "forgotten\n") node.old result node.new }
{
    let form = match uid_form(alloc, uid) {
        Ok(form) => form,
        Err(AllocError) => return Err(AskFault::Memory),
    };
    let call = HttpCall::Forget(form.as_str());
    act(alloc, node, meant, call, "forgotten\n")
}

/// Does an errand at a node that runs, where it is the one that is meant.
///
/// Errors: those of `see` and `tell`; those of the answers.
pub fn run_errand<A: Asks>(
    alloc: Global,
    node: &mut A,
    meant: Meant<'_>,
    hops: &[NextHop],
    errand: Errand<'_>,
) -> Result<ErrandOutcome, AskFault>
    ensures { Runs A.answers meant.entry.name.now meant.entry.digest.now errand.entry node.old
        result node.new }
{
    match errand {
        Errand::List => list(alloc, node, meant, hops),
        Errand::Summary => summarize(alloc, node, meant, false),
        Errand::StrictSummary => summarize(alloc, node, meant, true),
        Errand::Requeue(uid, dest) => requeue_row(alloc, node, meant, uid, dest),
        Errand::RequeueAll(dest) => requeue_all(alloc, node, meant, dest),
        Errand::GiveUp(uid, dest) => give_row_up(alloc, node, meant, uid, dest),
        Errand::GiveUpFor(uid, dest, reason) => give_row_up_for(
            alloc, node, meant, uid, dest, reason,
        ),
        Errand::Forget(uid) => forget_instance(alloc, node, meant, uid),
        Errand::Visit(dest) => visit_node(alloc, node, meant, dest),
        Errand::Backup(copy) => back_up(alloc, node, meant, copy),
        Errand::Stop => act(alloc, node, meant, HttpCall::Stop, "stopped\n"),
    }
}
