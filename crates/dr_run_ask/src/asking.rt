//! A node that runs is asked what it is, and then told something.
ghost use Rattle.std.specs.Prelude.{◌≡◌, ◌⊎◌, ◌↔◌, IfErr, IfOk, IfSome, IsTrue, MatchOption, Some};
ghost use Rattle.std.specs.Prelude.{codes};
ghost use Rattle.serde_json.specs.View.{view};
ghost use Rattle.dr_run_ask.specs.Conversations.{IsDone, IsOf, Refuses, Sees, Tells, TellsSeen};
ghost use Rattle.dr_run_ask.specs.Conversations.{name_told};
ghost use Rattle.dr_run_ask.specs.Lines.{FirstLineIs, text_at};
ghost use Rattle.dr_run_ask.specs.declared.fault.AskFault.TheVariants as faults;

use crate::answer::HttpAnswer;
use crate::call::HttpCall;
use crate::fault::AskFault;
use crate::lines::{first_value, flag_at, text_at};
use dr_base::Text;
use serde_json::Value;
use std::alloc::Global;

/// Where a node that runs is asked one thing after the other. Its relation says what is answered to
/// what.
pub trait Asks {
    ghost use Rattle.std.specs.Prelude.{Result};
    ghost use Rattle.dr_run_ask.specs.declared.answer.HttpAnswer.{HttpAnswer as AnswerValue};
    ghost use Rattle.dr_run_ask.specs.declared.call.HttpCall.{HttpCall as CallValue};
    ghost use Rattle.dr_run_ask.specs.declared.fault.AskFault.{AskFault as AskFaultValue};

    ghost answers: { Self → CallValue → Result AnswerValue AskFaultValue → Self → Type 0 };

    /// Asks that, and waits for the answer.
    ///
    /// Errors: NoConnection, NoAnswer, NoNodesAnswer, NoRequest, Memory.
    fn ask(&mut self, call: HttpCall<'_>) -> Result<HttpAnswer, AskFault>
        ensures { answers self.old call.entry result self.new };
}

/// The node that is meant: its name, and the digest of its plan in lower-case hexadecimal digits.
#[derive(Clone, Copy, Drop)]
pub struct Meant<'a> {
    pub name: &'a Text,
    pub digest: &'a Text,
}

/// What the first line of an answer says.
///
/// Errors: NoNodesAnswer where it says nothing; Memory.
fn said_in(alloc: Global, answer: &HttpAnswer) -> Result<Value, AskFault>
    ensures { IfOk result (λ value. FirstLineIs answer.now.body.items (view value)) }
{
    let value = first_value(alloc, answer.body.as_slice())?;
    Ok(value)
}

/// Whether two texts are the same.
fn is_same(one: &[u8], other: &[u8]) -> bool
    ensures { IsTrue result ↔ one.now ≡ other.now }
{
    one == other
}

/// Whether a line is of the node of that name.
///
/// Errors: OtherNode, NoNodesAnswer.
fn test_name(value: &Value, name: &Text) -> Result<(), AskFault>
    ensures { IfOk result (λ _. text_at (codes "node") (view value.now) ≡ Some name.now) }
{
    let Some(told) = text_at(value, "node") else {
        return Err(AskFault::NoNodesAnswer);
    };
    if is_same(told.as_bytes(), name.as_bytes()) {
        return Ok(());
    }
    Err(AskFault::OtherNode)
}

/// Whether a line is of a plan of that digest, where it tells one.
///
/// Errors: OtherPlan.
fn test_plan(value: &Value, digest: &Text) -> Result<(), AskFault>
    ensures { IfOk result (λ _. MatchOption (text_at (codes "plan") (view value.now)) (Unit {0})
        (λ told. told ≡ digest.now)) }
{
    let Some(told) = text_at(value, "plan") else {
        return Ok(());
    };
    if is_same(told.as_bytes(), digest.as_bytes()) {
        return Ok(());
    }
    Err(AskFault::OtherPlan)
}

/// Whether the answer's first line is of the node that is meant.
///
/// Errors: OtherNode, OtherPlan, NoNodesAnswer, Memory.
pub fn judge(alloc: Global, answer: &HttpAnswer, meant: Meant<'_>) -> Result<(), AskFault>
    ensures { IfOk result
        (λ _. IsOf meant.entry.name.now meant.entry.digest.now answer.now.body.items) }
{
    let value = said_in(alloc, answer)?;
    test_name(&value, meant.name)?;
    test_plan(&value, meant.digest)?;
    Ok(())
}

/// Why a node itself refuses a request, by that name.
fn request_fault(name: &[u8]) -> Option<AskFault>
    ensures { IfSome result (λ fault. name_told fault ≡ Some name.now) }
{
    if is_same(name, b"Host") {
        return Some(AskFault::Host);
    }
    if is_same(name, b"Path") {
        return Some(AskFault::Unknown);
    }
    if is_same(name, b"Closed") {
        return Some(AskFault::Closed);
    }
    if is_same(name, b"Token") {
        return Some(AskFault::Token);
    }
    if is_same(name, b"Hop") {
        return Some(AskFault::NoHop);
    }
    None
}

/// Why its ledger refuses, by that name.
fn ledger_fault(name: &[u8]) -> Option<AskFault>
    ensures { IfSome result (λ fault. name_told fault ≡ Some name.now) }
{
    if is_same(name, b"G5 NotHeld") {
        return Some(AskFault::NotHeld);
    }
    if is_same(name, b"G7 NotOver") {
        return Some(AskFault::NotOver);
    }
    if is_same(name, b"G3 Store") {
        return Some(AskFault::Store);
    }
    if is_same(name, b"Memory") {
        return Some(AskFault::Memory);
    }
    None
}

/// Why it doesn't copy its ledger, by that name.
fn copy_fault(name: &[u8]) -> Option<AskFault>
    ensures { IfSome result (λ fault. name_told fault ≡ Some name.now) }
{
    if is_same(name, b"Q1 OwnFile") {
        return Some(AskFault::OwnFile);
    }
    if is_same(name, b"Q3 IsThere") {
        return Some(AskFault::IsThere);
    }
    if is_same(name, b"Q4 NoPath") {
        return Some(AskFault::NoPath);
    }
    if is_same(name, b"Q5 Busy") {
        return Some(AskFault::Busy);
    }
    if is_same(name, b"Q6 GivenUp") {
        return Some(AskFault::GivenUp);
    }
    if is_same(name, b"Q7 NoCopy") {
        return Some(AskFault::NoCopy);
    }
    if is_same(name, b"Q8 DataFile") {
        return Some(AskFault::DataFile);
    }
    None
}

/// The fault of that name.
fn fault_named(name: &[u8]) -> AskFault
    ensures { (result ≡ faults.NoNodesAnswer) ⊎ (name_told result ≡ Some name.now) }
{
    if let Some(fault) = request_fault(name) {
        return fault;
    }
    if let Some(fault) = copy_fault(name) {
        return fault;
    }
    match ledger_fault(name) {
        Some(fault) => fault,
        None => AskFault::NoNodesAnswer,
    }
}

/// Why the node refuses, by its answer.
pub fn refusal(alloc: Global, answer: &HttpAnswer) -> AskFault
    ensures { Refuses answer.now result }
{
    let value = match said_in(alloc, answer) {
        Ok(value) => value,
        Err(_) => return AskFault::NoNodesAnswer,
    };
    match text_at(&value, "fault") {
        Some(name) => fault_named(name.as_bytes()),
        None => AskFault::NoNodesAnswer,
    }
}

/// Asks the node what it is: it has to be the one that is meant.
///
/// Errors: those of `Asks::ask`; those of the answer; OtherNode, OtherPlan.
pub fn see<A: Asks>(alloc: Global, node: &mut A, meant: Meant<'_>) -> Result<HttpAnswer, AskFault>
    ensures { Sees A.answers meant.entry.name.now meant.entry.digest.now node.old result node.new }
{
    let answer = match node.ask(HttpCall::Status) {
        Ok(answer) => answer,
        Err(fault) => return Err(fault),
    };
    if answer.status != 200 {
        return Err(refusal(alloc, &answer));
    }
    match judge(alloc, &answer, meant) {
        Ok(()) => Ok(answer),
        Err(fault) => Err(fault),
    }
}

/// Whether the answer says that an act was done.
///
/// Errors: those of the answer.
fn done(alloc: Global, answer: &HttpAnswer) -> Result<(), AskFault>
    ensures done { IfOk result (λ _. IsDone answer.now) }
    ensures refused { IfErr result (Refuses answer.now) }
{
    if answer.status != 200 {
        return Err(refusal(alloc, answer));
    }
    let value = match said_in(alloc, answer) {
        Ok(value) => value,
        Err(_) => return Err(AskFault::NoNodesAnswer),
    };
    let Some(is_done) = flag_at(&value, "done") else {
        return Err(AskFault::NoNodesAnswer);
    };
    if is_done {
        return Ok(());
    }
    Err(AskFault::NoNodesAnswer)
}

/// Tells the node something, which was seen to be the one that is meant.
///
/// Errors: those of `Asks::ask`; those of the answer.
fn tell_seen<A: Asks>(alloc: Global, node: &mut A, call: HttpCall<'_>) -> Result<(), AskFault>
    ensures { TellsSeen A.answers call.entry node.old result node.new }
{
    let answer = match node.ask(call) {
        Ok(answer) => answer,
        Err(fault) => return Err(fault),
    };
    done(alloc, &answer)
}

/// Tells the node something, once it was seen to be the one that is meant.
///
/// Errors: those of `see`; those of the answer.
pub fn tell<A: Asks>(
    alloc: Global,
    node: &mut A,
    meant: Meant<'_>,
    call: HttpCall<'_>,
) -> Result<(), AskFault>
    ensures { Tells A.answers meant.entry.name.now meant.entry.digest.now call.entry node.old result
        node.new }
{
    match see(alloc, node, meant) {
        Ok(_seen) => tell_seen(alloc, node, call),
        Err(fault) => Err(fault),
    }
}
