//! What a script tells, with the plans that it names.
ghost use Rattle.std.specs.Prelude.{◌≡◌, ◌∷◌, ◌++◌, [], MatchResult};
ghost use Rattle.std.specs.List.{AllZip};
ghost use Rattle.dr_run_open.specs.Openings.{IsSealedBy};
ghost use Rattle.dr_run_open.specs.declared.status.Status.TheVariants.{Refused as RefusedStatus};
ghost use Rattle.dr_word_simulate.specs.Orders.{AddsOrder, IsOrderOf, IsUndone, IsUnsealedBy};
ghost use Rattle.dr_word_simulate.specs.Orders.{StopsAt};
ghost use Rattle.dr_word_simulate.specs.declared.orders.ActFault.TheVariants.{Unsealed};

use dr_base::Text;
use dr_cert::Sealed;
use dr_run_files::{Failure, Files};
use dr_run_open::{Halt, Status, seal_files};
use dr_world::{Deed, WorldOrder};
use dr_world_script::Act;
use std::alloc::Global;
use std::io::ErrorKind;
use std::{io, str};

/// Why a line of a script can't be done.
#[derive(Drop)]
pub enum ActFault {
    /// A file has no sound plan, or the other one isn't its certificate.
    Unsealed,
    /// The file of this path wasn't read.
    Unread(String, io::Error),
    /// There was no memory.
    Memory,
}

/// Why a script isn't done, and the place in it of what can't be, counted from 0.
#[derive(Drop)]
pub struct ScriptStop {
    pub place: usize,
    pub fault: ActFault,
}

/// The file of this path wasn't read.
fn unread(alloc: Global, path: &str, error: io::Error) -> ActFault
    ensures { result ≡ Unsealed → ⊥ }
{
    if error.kind() == ErrorKind::OutOfMemory {
        return ActFault::Memory;
    }
    match String::from_str(alloc, path) {
        Ok(path) => ActFault::Unread(path, error),
        Err(_) => ActFault::Memory,
    }
}

/// A file wasn't read.
fn unread_for(alloc: Global, failure: Failure<'_>) -> ActFault
    ensures { result ≡ Unsealed → ⊥ }
{
    match failure {
        Failure::File(path, error) => unread(alloc, path, error),
        Failure::Stream(error) => unread(alloc, "adopt", error),
    }
}

/// Why a plan isn't sealed, where its files were read.
fn fault_for(status: Status) -> ActFault
    ensures { result ≡ Unsealed → status ≡ RefusedStatus }
{
    match status {
        Status::Refused => ActFault::Unsealed,
        _ => ActFault::Memory,
    }
}

/// The path of a file of this name.
///
/// Errors: Unread, where the name isn't UTF-8, since no path is; Memory.
fn path_of(alloc: Global, name: &Text) -> Result<&str, ActFault>
    ensures { MatchResult result (λ path. path.now ≡ name.now) (λ fault. fault ≡ Unsealed → ⊥) }
{
    match str::from_utf8(name.as_bytes()) {
        Ok(path) => Ok(path),
        Err(_) => Err(unread(alloc, "adopt", io::Error::from(ErrorKind::InvalidInput))),
    }
}

/// The plan in the one file, sealed with the certificate in the other.
fn seal_at<F: Files>(
    alloc: Global,
    files: &F,
    plan: &str,
    certificate: &str,
) -> Result<Sealed, ActFault>
    ensures { MatchResult result
        (IsSealedBy (F.holds files.now plan.now) (F.holds files.now certificate.now))
        (λ fault. fault ≡ Unsealed
        → IsUnsealedBy (F.holds files.now plan.now) (F.holds files.now certificate.now)) }
{
    match seal_files(alloc, files, plan, certificate) {
        Ok(sealed) => Ok(sealed),
        Err(Halt::Failed(failure)) => Err(unread_for(alloc, failure)),
        Err(halt) => {
            let status = halt.status();
            drop(halt);
            Err(fault_for(status))
        }
    }
}

/// The same, by the files' names.
fn seal_named<F: Files>(
    alloc: Global,
    files: &F,
    plan: &Text,
    certificate: &Text,
) -> Result<Sealed, ActFault>
    ensures { MatchResult result
        (IsSealedBy (F.holds files.now plan.now) (F.holds files.now certificate.now))
        (λ fault. fault ≡ Unsealed
        → IsUnsealedBy (F.holds files.now plan.now) (F.holds files.now certificate.now)) }
{
    let plan = match path_of(alloc, plan) {
        Ok(plan) => plan,
        Err(fault) => return Err(fault),
    };
    let certificate = match path_of(alloc, certificate) {
        Ok(certificate) => certificate,
        Err(fault) => return Err(fault),
    };
    seal_at(alloc, files, plan, certificate)
}

/// What a line of a script orders.
fn order_of<F: Files>(alloc: Global, files: &F, act: Act) -> Result<WorldOrder, ActFault>
    ensures { MatchResult result (IsOrderOf (F.holds files.now) act)
        (IsUndone (F.holds files.now) act) }
{
    match act {
        Act::Step(step) => Ok(WorldOrder::Deed(Deed::Step(step))),
        Act::Bytes { link, side, bytes } => Ok(WorldOrder::Deed(Deed::Bytes { link, side, bytes })),
        Act::Foreign(foreign) => Ok(WorldOrder::Foreign(foreign)),
        Act::Adopt { plan, certificate } => {
            match seal_named(alloc, files, &plan, &certificate) {
                Ok(sealed) => Ok(WorldOrder::Deed(Deed::Adopt(sealed))),
                Err(fault) => Err(fault),
            }
        }
    }
}

/// What a line of a script orders, behind the others.
fn add_order<F: Files>(
    alloc: Global,
    files: &F,
    act: Act,
    orders: &mut Vec<WorldOrder>,
) -> Result<(), ActFault>
    ensures { MatchResult result
        (λ _. AddsOrder (F.holds files.now) act orders.old.items orders.new.items)
        (IsUndone (F.holds files.now) act) }
{
    let order = match order_of(alloc, files, act) {
        Ok(order) => order,
        Err(fault) => return Err(fault),
    };
    match orders.push(order) {
        Ok(()) => Ok(()),
        Err(_) => Err(ActFault::Memory),
    }
}

/// What the lines of a script order, up to the first by which nothing can be done: then nothing is.
pub fn orders_of<F: Files>(
    alloc: Global,
    files: &F,
    acts: Vec<Act>,
) -> Result<Vec<WorldOrder>, ScriptStop>
    ensures { MatchResult result
        (λ orders. AllZip (IsOrderOf (F.holds files.now)) acts.items orders.items)
        (λ stop. StopsAt (F.holds files.now) acts.items stop.place stop.fault) }
{
    let mut orders = Vec::new(alloc);
    for act in acts {
        let place = orders.len();
        match add_order(alloc, files, act, &mut orders) {
            Ok(()) => {}
            Err(fault) => return Err(ScriptStop { place, fault }),
        }
    }
    Ok(orders)
}
