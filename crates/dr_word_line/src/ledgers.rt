//! What plain words ask to be done with ledgers.
ghost use Rattle.std.specs.Prelude.{ℕ, List, IfNone, IfSome};
ghost use Rattle.std.specs.Borrow.{Bor};
ghost use Rattle.dr_word_line.specs.Words.{Asks, IsAdoptOf, IsAtNode, IsAuditOf, IsDutyOf};
ghost use Rattle.dr_word_line.specs.Words.{IsForgetOf, IsGiveUpOf, IsListOf, IsMakeOf};
ghost use Rattle.dr_word_line.specs.Words.{IsMakeWithDataOf};
ghost use Rattle.dr_word_line.specs.Words.{IsRequeueAllOf, IsRequeueOf, IsSendOf, IsServeOf};
ghost use Rattle.dr_word_line.specs.Words.{IsSummaryOf};
ghost use Rattle.dr_run_files.specs.declared.node.NodeFiles.{NodeFiles as NodeFilesValue};
ghost use Rattle.dr_word_line.specs.declared.words.Duty.{Duty as DutyValue};
ghost use Rattle.dr_word_line.specs.declared.words.PlanChange.{PlanChange as PlanChangeValue};
ghost use Rattle.dr_word_line.specs.declared.words.SiteFiles.{SiteFiles as SiteFilesValue};

use crate::option::{are_paths, is_no_option, is_with_three};
use crate::words::{
    Duty, PlanChange, Serving, SiteFiles, Task, USUAL_DAYS, USUAL_MEMORY, USUAL_WAITS,
    USUAL_WORKERS, Verbosity,
};
use dr_run_files::NodeFiles;

/// What words ask to be done with the ledgers of all nodes, if they are of that form.
fn read_change<'a>(words: &'a [&'a str]) -> Option<Task<'a>>
    ensures asked { IfSome result (λ asked. Asks words.now asked) }
    ensures adopt { IfNone result ((change : PlanChangeValue) → IsAdoptOf words.now change → ⊥) }
{
    match words {
        [word, plan, certificate, next_plan, next_certificate, folder]
            if is_with_three("adopt", word, plan, certificate, folder)
                && are_paths(next_plan, next_certificate) => {
            let change = PlanChange {
                plan,
                certificate,
                next_plan,
                next_certificate,
                folder,
            };
            Some(Task::Adopt(change))
        }
        _ => None,
    }
}

/// What words ask of the ledgers of all nodes, if they are of that form.
fn read_audit<'a>(words: &'a [&'a str]) -> Option<Task<'a>>
    ensures asked { IfSome result (λ asked. Asks words.now asked) }
    ensures audit { IfNone result ((given : SiteFilesValue) → IsAuditOf words.now given → ⊥) }
{
    match words {
        [word, plan, certificate, folder]
            if is_with_three("audit", word, plan, certificate, folder) => {
            let given = SiteFiles {
                plan,
                certificate,
                folder,
            };
            Some(Task::Audit(given))
        }
        _ => None,
    }
}

/// What names a node and its ledger behind a word, and the words behind that.
fn at_node<'a>(name: &str, words: &'a [&'a str]) -> Option<(NodeFiles<'a>, &'a [&'a str])>
    ensures found { IfSome result (λ found. IsAtNode name.now words.now found.0 found.1.now) }
    ensures none { IfNone result
        ((given : NodeFilesValue) (more : List (Bor (List ℕ)))
        → IsAtNode name.now words.now given more
        → ⊥) }
{
    match words {
        [word, plan, certificate, node, ledger, more @ ..]
            if is_with_three(name, word, plan, certificate, ledger) => {
            let given = NodeFiles {
                plan,
                certificate,
                node,
                ledger,
            };
            Some((given, more))
        }
        _ => None,
    }
}

/// What words ask a node to print, if they are of such a form.
fn read_listing<'a>(words: &'a [&'a str]) -> Option<Task<'a>>
    ensures asked { IfSome result (λ asked. Asks words.now asked) }
    ensures list { IfNone result ((given : NodeFilesValue) → IsListOf words.now given → ⊥) }
    ensures summary { IfNone result ((given : NodeFilesValue) → IsSummaryOf words.now given → ⊥) }
{
    let Some((given, more)) = at_node("list", words) else {
        return None;
    };
    match more {
        [] => Some(Task::AtNode(given, Duty::List)),
        [option] if *option == "--summary" => Some(Task::AtNode(given, Duty::Summary)),
        _ => None,
    }
}

/// Whether words ask a node to serve for ever.
fn read_serving<'a>(words: &'a [&'a str]) -> Option<Task<'a>>
    ensures asked { IfSome result (λ asked. Asks words.now asked) }
    ensures serve { IfNone result ((given : NodeFilesValue) → IsServeOf words.now given → ⊥) }
{
    let Some((given, more)) = at_node("serve", words) else {
        return None;
    };
    match more {
        [] => {
            let serving = Serving {
                links: 0,
                verbosity: Verbosity::Events,
                report: None,
                workers: USUAL_WORKERS,
                memory: USUAL_MEMORY,
                forget_after: Some(USUAL_DAYS),
                waits: USUAL_WAITS,
                until_input_ends: false,
                must_exist: false,
                control: None,
            };
            Some(Task::AtNode(given, Duty::Serve(serving)))
        }
        _ => None,
    }
}

/// Whether words ask for a ledger that isn't there.
fn read_making<'a>(words: &'a [&'a str]) -> Option<Task<'a>>
    ensures asked { IfSome result (λ asked. Asks words.now asked) }
    ensures make { IfNone result ((given : NodeFilesValue) → IsMakeOf words.now given → ⊥) }
    ensures with_data { IfNone result
        ((given : NodeFilesValue) → IsMakeWithDataOf words.now given → ⊥) }
{
    let Some((given, more)) = at_node("new", words) else {
        return None;
    };
    match more {
        [] => Some(Task::AtNode(given, Duty::Make)),
        [option] if *option == "--data-file" => Some(Task::AtNode(given, Duty::MakeWithData)),
        _ => None,
    }
}

/// What words ask a node to send, if they are of that form.
fn read_sending<'a>(words: &'a [&'a str]) -> Option<Task<'a>>
    ensures asked { IfSome result (λ asked. Asks words.now asked) }
    ensures send { IfNone result
        ((given : NodeFilesValue) (file : Bor (List ℕ)) → IsSendOf words.now given file → ⊥) }
{
    let Some((given, more)) = at_node("send", words) else {
        return None;
    };
    match more {
        [file] if is_no_option(file) => Some(Task::AtNode(given, Duty::Send(file))),
        _ => None,
    }
}

/// Which held rows words ask a node to queue again, if they are of such a form.
fn read_requeue<'a>(words: &'a [&'a str]) -> Option<Task<'a>>
    ensures asked { IfSome result (λ asked. Asks words.now asked) }
    ensures requeue { IfNone result
        ((given : NodeFilesValue) (uid dest : Bor (List ℕ))
        → IsRequeueOf words.now given uid dest
        → ⊥) }
    ensures requeue_all { IfNone result
        ((given : NodeFilesValue) (dest : Bor (List ℕ)) → IsRequeueAllOf words.now given dest → ⊥) }
{
    let Some((given, more)) = at_node("requeue", words) else {
        return None;
    };
    match more {
        [option, dest] if *option == "--all-held" => Some(Task::AtNode(
            given,
            Duty::RequeueAll(dest),
        )),
        [uid, dest] if is_no_option(uid) => Some(Task::AtNode(given, Duty::Requeue(uid, dest))),
        _ => None,
    }
}

/// Which held row words ask a node to give up, if they are of that form.
fn read_giving_up<'a>(words: &'a [&'a str]) -> Option<Task<'a>>
    ensures asked { IfSome result (λ asked. Asks words.now asked) }
    ensures give_up { IfNone result
        ((given : NodeFilesValue) (uid dest : Bor (List ℕ))
        → IsGiveUpOf words.now given uid dest
        → ⊥) }
{
    let Some((given, more)) = at_node("drop", words) else {
        return None;
    };
    match more {
        [uid, dest] if is_no_option(uid) => Some(Task::AtNode(given, Duty::GiveUp(uid, dest))),
        _ => None,
    }
}

/// Which instance words ask a node to forget, if they are of that form.
fn read_forgetting<'a>(words: &'a [&'a str]) -> Option<Task<'a>>
    ensures asked { IfSome result (λ asked. Asks words.now asked) }
    ensures forget { IfNone result
        ((given : NodeFilesValue) (uid : Bor (List ℕ)) → IsForgetOf words.now given uid → ⊥) }
{
    let Some((given, more)) = at_node("forget", words) else {
        return None;
    };
    match more {
        [uid] if is_no_option(uid) => Some(Task::AtNode(given, Duty::Forget(uid))),
        _ => None,
    }
}

/// What words ask of a ledger as a whole, if they are of such a form.
fn read_whole<'a>(words: &'a [&'a str]) -> Option<Task<'a>>
    ensures asked { IfSome result (λ asked. Asks words.now asked) }
    ensures list { IfNone result ((given : NodeFilesValue) → IsListOf words.now given → ⊥) }
    ensures summary { IfNone result ((given : NodeFilesValue) → IsSummaryOf words.now given → ⊥) }
    ensures serve { IfNone result ((given : NodeFilesValue) → IsServeOf words.now given → ⊥) }
    ensures make { IfNone result ((given : NodeFilesValue) → IsMakeOf words.now given → ⊥) }
    ensures with_data { IfNone result
        ((given : NodeFilesValue) → IsMakeWithDataOf words.now given → ⊥) }
{
    read_listing(words)
        .or(read_serving(words))
        .or(read_making(words))
}

/// What words ask of rows and instances of a ledger, if they are of such a form.
fn read_rows<'a>(words: &'a [&'a str]) -> Option<Task<'a>>
    ensures asked { IfSome result (λ asked. Asks words.now asked) }
    ensures requeue { IfNone result
        ((given : NodeFilesValue) (uid dest : Bor (List ℕ))
        → IsRequeueOf words.now given uid dest
        → ⊥) }
    ensures requeue_all { IfNone result
        ((given : NodeFilesValue) (dest : Bor (List ℕ)) → IsRequeueAllOf words.now given dest → ⊥) }
    ensures give_up { IfNone result
        ((given : NodeFilesValue) (uid dest : Bor (List ℕ))
        → IsGiveUpOf words.now given uid dest
        → ⊥) }
    ensures forget { IfNone result
        ((given : NodeFilesValue) (uid : Bor (List ℕ)) → IsForgetOf words.now given uid → ⊥) }
{
    read_requeue(words)
        .or(read_giving_up(words))
        .or(read_forgetting(words))
}

/// What words ask a node to do with its ledger, if they are of such a form.
fn read_duty<'a>(words: &'a [&'a str]) -> Option<Task<'a>>
    ensures asked { IfSome result (λ asked. Asks words.now asked) }
    ensures duty { IfNone result
        ((given : NodeFilesValue) (duty : DutyValue) → IsDutyOf words.now given duty → ⊥) }
{
    read_whole(words)
        .or(read_rows(words))
        .or(read_sending(words))
}

/// What plain words ask a node to do with its ledger, or of the ledgers of all nodes: those of a
/// known form.
pub(crate) fn read_ledger<'a>(words: &'a [&'a str]) -> Option<Task<'a>>
    ensures asked { IfSome result (λ asked. Asks words.now asked) }
    ensures duty { IfNone result
        ((given : NodeFilesValue) (duty : DutyValue) → IsDutyOf words.now given duty → ⊥) }
    ensures adopt { IfNone result ((change : PlanChangeValue) → IsAdoptOf words.now change → ⊥) }
    ensures audit { IfNone result ((given : SiteFilesValue) → IsAuditOf words.now given → ⊥) }
{
    read_duty(words)
        .or(read_change(words))
        .or(read_audit(words))
}
