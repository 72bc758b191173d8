//! What plain words ask about plans.
ghost use Rattle.std.specs.Prelude.{ℕ, List, IfNone, IfSome};
ghost use Rattle.std.specs.Borrow.{Bor};
ghost use Rattle.dr_word_line.specs.Words.{Asks, IsCheckOf, IsDiffOf, IsEchoOf, IsExpandOf};
ghost use Rattle.dr_word_line.specs.Words.{IsExpectOf, IsFileRouteOf, IsGraphOf, IsImportOf};
ghost use Rattle.dr_word_line.specs.Words.{IsKeyRouteOf};
ghost use Rattle.dr_word_line.specs.Words.{IsLintOf, IsPlainCheck, IsSimulateOf, IsVerifyOf};
ghost use Rattle.dr_word_line.specs.declared.words.KeyWords.{KeyWords as KeyWordsValue};
ghost use Rattle.dr_word_line.specs.declared.words.NextPlan.{NextPlan as NextPlanValue};

use crate::option::{are_paths, is_no_option, is_with_path, is_with_three, is_with_two};
use crate::words::{KeyWords, NextPlan, Question, Task};

/// What words ask of a plan's text alone, if they are of such a form.
fn read_check<'a>(words: &'a [&'a str]) -> Option<Task<'a>>
    ensures asked { IfSome result (λ asked. Asks words.now asked) }
    ensures input { IfNone result (IsPlainCheck words.now → ⊥) }
    ensures file { IfNone result ((plan : Bor (List ℕ)) → IsCheckOf words.now plan → ⊥) }
{
    match words {
        [] => Some(Task::CheckInput),
        [word] if *word == "check" => Some(Task::CheckInput),
        [word, plan] if *word == "check" && is_no_option(plan) => Some(Task::CheckFile(plan)),
        _ => None,
    }
}

/// What words ask for that is to be expanded, if they are of that form.
fn read_expand<'a>(words: &'a [&'a str]) -> Option<Task<'a>>
    ensures asked { IfSome result (λ asked. Asks words.now asked) }
    ensures expand { IfNone result ((plan : Bor (List ℕ)) → IsExpandOf words.now plan → ⊥) }
{
    match words {
        [word, plan] if *word == "expand" && is_no_option(plan) => Some(Task::Expand(plan)),
        _ => None,
    }
}

/// What words ask for that is to be imported, if they are of that form.
fn read_import<'a>(words: &'a [&'a str]) -> Option<Task<'a>>
    ensures asked { IfSome result (λ asked. Asks words.now asked) }
    ensures imported { IfNone result ((table : Bor (List ℕ)) → IsImportOf words.now table → ⊥) }
{
    match words {
        [word, table] if *word == "import" && is_no_option(table) => Some(Task::Import(table)),
        _ => None,
    }
}

/// What words ask of a plan and something else, if they are of such a form.
fn read_pair<'a>(words: &'a [&'a str]) -> Option<Task<'a>>
    ensures asked { IfSome result (λ asked. Asks words.now asked) }
    ensures verify { IfNone result
        ((plan certificate : Bor (List ℕ)) → IsVerifyOf words.now plan certificate → ⊥) }
    ensures simulate { IfNone result
        ((plan certificate script : Bor (List ℕ))
        → IsSimulateOf words.now plan certificate script
        → ⊥) }
    ensures echo { IfNone result
        ((plan caller called : Bor (List ℕ)) → IsEchoOf words.now plan caller called → ⊥) }
{
    match words {
        [word, plan, certificate] if is_with_two("verify", word, plan, certificate) => {
            Some(Task::Verify(plan, certificate))
        }
        [word, plan, certificate, script]
            if is_with_three("simulate", word, plan, certificate, script) => {
            Some(Task::Simulate(plan, certificate, script))
        }
        [word, plan, caller, called] if is_with_path("echo", word, plan) => {
            Some(Task::Echo(plan, caller, called))
        }
        _ => None,
    }
}

/// What words ask about a plan and its certificate, if they have no more than what names them.
fn read_question<'a>(words: &'a [&'a str]) -> Option<Task<'a>>
    ensures asked { IfSome result (λ asked. Asks words.now asked) }
    ensures graph { IfNone result
        ((plan certificate : Bor (List ℕ)) → IsGraphOf words.now plan certificate → ⊥) }
    ensures lint { IfNone result
        ((plan certificate : Bor (List ℕ)) → IsLintOf words.now plan certificate → ⊥) }
{
    match words {
        [word, plan, certificate] if is_with_two("graph", word, plan, certificate) => {
            Some(Task::Question(plan, certificate, Question::Graph))
        }
        [word, plan, certificate] if is_with_two("lint", word, plan, certificate) => {
            Some(Task::Question(plan, certificate, Question::Lint))
        }
        _ => None,
    }
}

/// What words ask of a plan, its certificate and what is expected of it, if they are of that form.
fn read_expect<'a>(words: &'a [&'a str]) -> Option<Task<'a>>
    ensures asked { IfSome result (λ asked. Asks words.now asked) }
    ensures expect { IfNone result
        ((plan certificate path : Bor (List ℕ))
        → IsExpectOf words.now plan certificate path
        → ⊥) }
{
    match words {
        [word, plan, certificate, path] if is_with_three("expect", word, plan, certificate, path) =>
            { Some(Task::Question(plan, certificate, Question::Expect(path))) }
        _ => None,
    }
}

/// What words ask of two plans with their certificates, if they are of that form.
fn read_diff<'a>(words: &'a [&'a str]) -> Option<Task<'a>>
    ensures asked { IfSome result (λ asked. Asks words.now asked) }
    ensures diff { IfNone result
        ((plan certificate : Bor (List ℕ)) (next : NextPlanValue)
        → IsDiffOf words.now plan certificate next
        → ⊥) }
{
    match words {
        [word, plan, certificate, next_plan, next_certificate]
            if is_with_two("diff", word, plan, certificate)
                && are_paths(next_plan, next_certificate) => {
            let next = NextPlan {
                plan: next_plan,
                certificate: next_certificate,
                fails_on_lost: false,
            };
            Some(Task::Question(plan, certificate, Question::Diff(next)))
        }
        _ => None,
    }
}

/// What words ask about where an instance goes, if they are of such a form.
fn read_route<'a>(words: &'a [&'a str]) -> Option<Task<'a>>
    ensures asked { IfSome result (λ asked. Asks words.now asked) }
    ensures route_of_file { IfNone result
        ((plan certificate at path : Bor (List ℕ))
        → IsFileRouteOf words.now plan certificate at path
        → ⊥) }
    ensures route_of_key { IfNone result
        ((plan certificate at : Bor (List ℕ)) (key : KeyWordsValue)
        → IsKeyRouteOf words.now plan certificate at key
        → ⊥) }
{
    match words {
        [word, plan, certificate, at, path]
            if is_with_three("route", word, plan, certificate, path) => {
            Some(Task::Question(plan, certificate, Question::RouteOfFile(at, path)))
        }
        [
            word,
            plan,
            certificate,
            at,
            class,
            syntax,
            modality,
            station,
        ] if is_with_two("route", word, plan, certificate) => {
            let key = KeyWords {
                class,
                syntax,
                modality,
                station,
            };
            Some(Task::Question(plan, certificate, Question::RouteOfKey(at, key)))
        }
        _ => None,
    }
}

/// What words ask of one file, if they are of such a form.
pub(crate) fn read_alone<'a>(words: &'a [&'a str]) -> Option<Task<'a>>
    ensures asked { IfSome result (λ asked. Asks words.now asked) }
    ensures input { IfNone result (IsPlainCheck words.now → ⊥) }
    ensures file { IfNone result ((plan : Bor (List ℕ)) → IsCheckOf words.now plan → ⊥) }
    ensures expand { IfNone result ((plan : Bor (List ℕ)) → IsExpandOf words.now plan → ⊥) }
    ensures imported { IfNone result ((table : Bor (List ℕ)) → IsImportOf words.now table → ⊥) }
{
    read_check(words)
        .or(read_expand(words))
        .or(read_import(words))
}

/// What words ask of a plan and of what they name beside it, if they are of such a form.
pub(crate) fn read_named<'a>(words: &'a [&'a str]) -> Option<Task<'a>>
    ensures asked { IfSome result (λ asked. Asks words.now asked) }
    ensures verify { IfNone result
        ((plan certificate : Bor (List ℕ)) → IsVerifyOf words.now plan certificate → ⊥) }
    ensures simulate { IfNone result
        ((plan certificate script : Bor (List ℕ))
        → IsSimulateOf words.now plan certificate script
        → ⊥) }
    ensures echo { IfNone result
        ((plan caller called : Bor (List ℕ)) → IsEchoOf words.now plan caller called → ⊥) }
    ensures graph { IfNone result
        ((plan certificate : Bor (List ℕ)) → IsGraphOf words.now plan certificate → ⊥) }
    ensures lint { IfNone result
        ((plan certificate : Bor (List ℕ)) → IsLintOf words.now plan certificate → ⊥) }
    ensures expect { IfNone result
        ((plan certificate path : Bor (List ℕ))
        → IsExpectOf words.now plan certificate path
        → ⊥) }
{
    read_pair(words)
        .or(read_question(words))
        .or(read_expect(words))
}

/// What words ask of two plans, or of an instance's way, if they are of such a form.
pub(crate) fn read_ways<'a>(words: &'a [&'a str]) -> Option<Task<'a>>
    ensures asked { IfSome result (λ asked. Asks words.now asked) }
    ensures diff { IfNone result
        ((plan certificate : Bor (List ℕ)) (next : NextPlanValue)
        → IsDiffOf words.now plan certificate next
        → ⊥) }
    ensures route_of_file { IfNone result
        ((plan certificate at path : Bor (List ℕ))
        → IsFileRouteOf words.now plan certificate at path
        → ⊥) }
    ensures route_of_key { IfNone result
        ((plan certificate at : Bor (List ℕ)) (key : KeyWordsValue)
        → IsKeyRouteOf words.now plan certificate at key
        → ⊥) }
{
    read_diff(words).or(read_route(words))
}
