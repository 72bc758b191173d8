//! What plain words ask of a node that runs, or tell it to do.
ghost use Rattle.std.specs.Prelude.{◌≡◌, ◌↔◌, ℕ, List, IfNone, IfSome, IsTrue, codes};
ghost use Rattle.std.specs.Borrow.{Bor};
ghost use Rattle.dr_word_line.specs.Words.{Asks, IsAtRunning, IsErrandOf, IsNoOption};
ghost use Rattle.dr_word_line.specs.Words.{IsToRunning};
ghost use Rattle.dr_word_line.specs.declared.words.Errand.{Errand as ErrandValue};
ghost use Rattle.dr_word_line.specs.declared.words.Errand.TheVariants as errands;
ghost use Rattle.dr_word_line.specs.declared.words.RunningNode.{RunningNode as RunningNodeValue};

use crate::option::{is_no_option, is_with_two};
use crate::words::{Errand, RunningNode, Task};

/// Whether the words say where a running node may be asked.
fn is_at(option: &str, at: &str) -> bool
    ensures { IsTrue result ↔ ((option.now ≡ codes "--at") × IsNoOption at.now) }
{
    option == "--at" && is_no_option(at)
}

/// What names a running node behind a word, and the words behind that.
fn at_running<'a>(name: &str, words: &'a [&'a str]) -> Option<(RunningNode<'a>, &'a [&'a str])>
    ensures found { IfSome result (λ found. IsAtRunning name.now words.now found.0 found.1.now) }
    ensures none { IfNone result
        ((given : RunningNodeValue) (more : List (Bor (List ℕ)))
        → IsAtRunning name.now words.now given more
        → ⊥) }
{
    match words {
        [word, plan, certificate, node, option, at, more @ ..]
            if is_with_two(name, word, plan, certificate) && is_at(option, at) => {
            let given = RunningNode {
                plan,
                certificate,
                node,
                at,
                token: None,
            };
            Some((given, more))
        }
        _ => None,
    }
}

/// The same with the token that an act needs.
fn to_running<'a>(name: &str, words: &'a [&'a str]) -> Option<(RunningNode<'a>, &'a [&'a str])>
    ensures found { IfSome result (λ found. IsToRunning name.now words.now found.0 found.1.now) }
    ensures none { IfNone result
        ((given : RunningNodeValue) (more : List (Bor (List ℕ)))
        → IsToRunning name.now words.now given more
        → ⊥) }
{
    let Some((given, more)) = at_running(name, words) else {
        return None;
    };
    match more {
        [option, file, more @ ..] if *option == "--token" && is_no_option(file) => {
            let given = RunningNode {
                token: Some(file),
                ..given
            };
            Some((given, more))
        }
        _ => None,
    }
}

/// What words ask a running node for, if they are of such a form.
fn read_question<'a>(words: &'a [&'a str]) -> Option<Task<'a>>
    ensures asked { IfSome result (λ asked. Asks words.now asked) }
    ensures list { IfNone result
        ((given : RunningNodeValue) → IsErrandOf words.now given errands.List → ⊥) }
    ensures summary { IfNone result
        ((given : RunningNodeValue) → IsErrandOf words.now given errands.Summary → ⊥) }
{
    let Some((given, more)) = at_running("list", words) else {
        return None;
    };
    match more {
        [] => Some(Task::AtRunning(given, Errand::List)),
        [option] if *option == "--summary" => Some(Task::AtRunning(given, Errand::Summary)),
        _ => None,
    }
}

/// Which held rows words tell a running node to queue again, if they are of such a form.
fn read_requeue<'a>(words: &'a [&'a str]) -> Option<Task<'a>>
    ensures asked { IfSome result (λ asked. Asks words.now asked) }
    ensures requeue { IfNone result
        ((given : RunningNodeValue) (uid dest : Bor (List ℕ))
        → IsErrandOf words.now given (errands.Requeue uid dest)
        → ⊥) }
    ensures requeue_all { IfNone result
        ((given : RunningNodeValue) (dest : Bor (List ℕ))
        → IsErrandOf words.now given (errands.RequeueAll dest)
        → ⊥) }
{
    let Some((given, more)) = to_running("requeue", words) else {
        return None;
    };
    match more {
        [option, dest] if *option == "--all-held" => Some(Task::AtRunning(
            given,
            Errand::RequeueAll(dest),
        )),
        [uid, dest] if is_no_option(uid) => Some(Task::AtRunning(
            given,
            Errand::Requeue(uid, dest),
        )),
        _ => None,
    }
}

/// Which held row words tell a running node to give up, if they are of that form.
fn read_giving_up<'a>(words: &'a [&'a str]) -> Option<Task<'a>>
    ensures asked { IfSome result (λ asked. Asks words.now asked) }
    ensures give_up { IfNone result
        ((given : RunningNodeValue) (uid dest : Bor (List ℕ))
        → IsErrandOf words.now given (errands.GiveUp uid dest)
        → ⊥) }
{
    let Some((given, more)) = to_running("drop", words) else {
        return None;
    };
    match more {
        [uid, dest] if is_no_option(uid) => Some(Task::AtRunning(given, Errand::GiveUp(uid, dest))),
        _ => None,
    }
}

/// Which instance words tell a running node to forget, if they are of that form.
fn read_forgetting<'a>(words: &'a [&'a str]) -> Option<Task<'a>>
    ensures asked { IfSome result (λ asked. Asks words.now asked) }
    ensures forget { IfNone result
        ((given : RunningNodeValue) (uid : Bor (List ℕ))
        → IsErrandOf words.now given (errands.Forget uid)
        → ⊥) }
{
    let Some((given, more)) = to_running("forget", words) else {
        return None;
    };
    match more {
        [uid] if is_no_option(uid) => Some(Task::AtRunning(given, Errand::Forget(uid))),
        _ => None,
    }
}

/// Which node words tell a running one to visit now, if they are of that form.
fn read_visiting<'a>(words: &'a [&'a str]) -> Option<Task<'a>>
    ensures asked { IfSome result (λ asked. Asks words.now asked) }
    ensures visit { IfNone result
        ((given : RunningNodeValue) (dest : Bor (List ℕ))
        → IsErrandOf words.now given (errands.Visit dest)
        → ⊥) }
{
    let Some((given, more)) = to_running("visit", words) else {
        return None;
    };
    match more {
        [dest] if is_no_option(dest) => Some(Task::AtRunning(given, Errand::Visit(dest))),
        _ => None,
    }
}

/// Where to words tell a running node to copy its ledger, if they are of that form.
fn read_backup<'a>(words: &'a [&'a str]) -> Option<Task<'a>>
    ensures asked { IfSome result (λ asked. Asks words.now asked) }
    ensures backup { IfNone result
        ((given : RunningNodeValue) (copy : Bor (List ℕ))
        → IsErrandOf words.now given (errands.Backup copy)
        → ⊥) }
{
    let Some((given, more)) = to_running("backup", words) else {
        return None;
    };
    match more {
        [copy] if is_no_option(copy) => Some(Task::AtRunning(given, Errand::Backup(copy))),
        _ => None,
    }
}

/// Whether words tell a running node to end.
fn read_stopping<'a>(words: &'a [&'a str]) -> Option<Task<'a>>
    ensures asked { IfSome result (λ asked. Asks words.now asked) }
    ensures stop { IfNone result
        ((given : RunningNodeValue) → IsErrandOf words.now given errands.Stop → ⊥) }
{
    let Some((given, more)) = to_running("stop", words) else {
        return None;
    };
    match more {
        [] => Some(Task::AtRunning(given, Errand::Stop)),
        _ => None,
    }
}

/// What words tell a running node to do with rows and instances, if they are of such a form.
fn read_rows<'a>(words: &'a [&'a str]) -> Option<Task<'a>>
    ensures asked { IfSome result (λ asked. Asks words.now asked) }
    ensures requeue { IfNone result
        ((given : RunningNodeValue) (uid dest : Bor (List ℕ))
        → IsErrandOf words.now given (errands.Requeue uid dest)
        → ⊥) }
    ensures requeue_all { IfNone result
        ((given : RunningNodeValue) (dest : Bor (List ℕ))
        → IsErrandOf words.now given (errands.RequeueAll dest)
        → ⊥) }
    ensures give_up { IfNone result
        ((given : RunningNodeValue) (uid dest : Bor (List ℕ))
        → IsErrandOf words.now given (errands.GiveUp uid dest)
        → ⊥) }
    ensures forget { IfNone result
        ((given : RunningNodeValue) (uid : Bor (List ℕ))
        → IsErrandOf words.now given (errands.Forget uid)
        → ⊥) }
{
    read_requeue(words)
        .or(read_giving_up(words))
        .or(read_forgetting(words))
}

/// What else words tell a running node to do, if they are of such a form.
fn read_work<'a>(words: &'a [&'a str]) -> Option<Task<'a>>
    ensures asked { IfSome result (λ asked. Asks words.now asked) }
    ensures visit { IfNone result
        ((given : RunningNodeValue) (dest : Bor (List ℕ))
        → IsErrandOf words.now given (errands.Visit dest)
        → ⊥) }
    ensures backup { IfNone result
        ((given : RunningNodeValue) (copy : Bor (List ℕ))
        → IsErrandOf words.now given (errands.Backup copy)
        → ⊥) }
    ensures stop { IfNone result
        ((given : RunningNodeValue) → IsErrandOf words.now given errands.Stop → ⊥) }
{
    read_visiting(words)
        .or(read_backup(words))
        .or(read_stopping(words))
}

/// What words ask of a running node, or tell it to do, if they are of such a form.
pub(crate) fn read_running<'a>(words: &'a [&'a str]) -> Option<Task<'a>>
    ensures asked { IfSome result (λ asked. Asks words.now asked) }
    ensures errand { IfNone result
        ((given : RunningNodeValue) (errand : ErrandValue)
        → IsErrandOf words.now given errand
        → ⊥) }
{
    read_question(words)
        .or(read_rows(words))
        .or(read_work(words))
}
