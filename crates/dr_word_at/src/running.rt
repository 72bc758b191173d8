//! The words at a node that runs, over files, tokens and a network.
ghost use Rattle.std.specs.Prelude.{◌≡◌};
ghost use Rattle.dr_word_at.specs.Errands.{status_of};

use crate::caller::Caller;
use crate::doing::{ErrandOutcome, run_errand};
use dr_base::Text;
use dr_cert::Sealed;
use dr_run_ask::{AskFault, Meant};
use dr_run_files::{Failure, Files};
use dr_run_net::Network;
use dr_run_open::{Halt, NextHop, Status, finish, hops_of, seal_files};
use dr_run_token::Tokens;
use dr_session::Clock;
use dr_site::{Site, SiteFault};
use dr_word_line::{Errand, RunningNode};
use std::alloc::{AllocError, Global};
use std::io::Write;

/// The status with which the program ends where that is told.
pub fn status_of(fault: AskFault) -> Status
    ensures { result ≡ status_of fault }
{
    match fault {
        AskFault::NoConnection
        | AskFault::NoAnswer
        | AskFault::NoNodesAnswer
        | AskFault::NoCopy
        | AskFault::Store => Status::InputOutput,
        AskFault::Shrunk
        | AskFault::OtherNode
        | AskFault::OtherPlan
        | AskFault::NoRequest
        | AskFault::Host
        | AskFault::Unknown
        | AskFault::Closed
        | AskFault::Token
        | AskFault::NoHop
        | AskFault::NotHeld
        | AskFault::NotOver
        | AskFault::OwnFile
        | AskFault::IsThere
        | AskFault::NoPath
        | AskFault::Busy
        | AskFault::GivenUp
        | AskFault::DataFile => Status::Refused,
        AskFault::Memory => Status::Memory,
    }
}

/// The way to a node that runs: a network, and the clock by which its answer is awaited.
#[derive_where(Clone, Copy)]
pub struct Way<'a, N, C> {
    pub network: &'a N,
    pub clock: &'a C,
}

/// Why an errand comes to nothing.
#[derive(Drop)]
enum ErrandStopped<'a> {
    /// Before anything was asked.
    Halted(Halt<'a>),
    /// By the node, or on the way to it.
    Asking(AskFault),
}

impl<'a> From<Halt<'a>> for ErrandStopped<'a> {
    fn from(halt: Halt<'a>) -> ErrandStopped<'a> {
        ErrandStopped::Halted(halt)
    }
}

impl<'a> From<AskFault> for ErrandStopped<'a> {
    fn from(fault: AskFault) -> ErrandStopped<'a> {
        ErrandStopped::Asking(fault)
    }
}

impl<'a> From<AllocError> for ErrandStopped<'a> {
    fn from(_: AllocError) -> ErrandStopped<'a> {
        ErrandStopped::Asking(AskFault::Memory)
    }
}

/// Where a node of the plan sends.
///
/// Errors: NoNode, Memory.
fn hops_from<'a>(
    alloc: Global,
    sealed: &Sealed,
    name: &Text,
) -> Result<Vec<NextHop>, ErrandStopped<'a>> {
    let site = match Site::of(alloc, sealed, name) {
        Ok(site) => site,
        Err(SiteFault::NoNode) => return Err(ErrandStopped::Halted(Halt::NoNode)),
        Err(SiteFault::Memory) => return Err(ErrandStopped::Asking(AskFault::Memory)),
    };
    let hops = hops_of(alloc, &site, sealed.plan());
    drop(site);
    match hops {
        Ok(hops) => Ok(hops),
        Err(AllocError) => Err(ErrandStopped::Asking(AskFault::Memory)),
    }
}

/// What the plan says of the node that is meant: its name, the digest of the plan in lower-case
/// hexadecimal digits, and where it sends.
#[derive(Drop)]
struct NodeMeant {
    name: Text,
    digest: Text,
    hops: Vec<NextHop>,
}

/// The digest of the plan, in lower-case hexadecimal digits.
///
/// Errors: want of memory.
pub fn digest_of(alloc: Global, sealed: &Sealed) -> Result<Text, AllocError> {
    let digits = hex::encode(alloc, sealed.plan().digest().as_slice())?;
    Text::copy_of(alloc, digits.as_bytes())
}

/// What the plan says of the node of that name.
///
/// Errors: NoNode, Memory.
fn place_in<'a>(
    alloc: Global,
    sealed: &Sealed,
    node: &str,
) -> Result<NodeMeant, ErrandStopped<'a>> {
    let name = Text::copy_of(alloc, node.as_bytes())?;
    let hops = hops_from(alloc, sealed, &name)?;
    let digest = digest_of(alloc, sealed)?;
    Ok(NodeMeant { name, digest, hops })
}

/// What the plan in these files says of the node that is meant.
///
/// Errors: those of `seal_files`; NoNode, Memory.
fn place_of<'a, F: Files>(
    alloc: Global,
    files: &F,
    given: RunningNode<'a>,
) -> Result<NodeMeant, ErrandStopped<'a>> {
    let sealed = match seal_files(alloc, files, given.plan, given.certificate) {
        Ok(sealed) => sealed,
        Err(halt) => return Err(ErrandStopped::Halted(halt)),
    };
    let place = place_in(alloc, &sealed, given.node);
    drop(sealed);
    place
}

/// The token of a file, where one is given.
///
/// Errors: File.
pub fn token_at<'a, F: Tokens>(
    alloc: Global,
    files: &F,
    path: Option<&'a str>,
) -> Result<Option<Text>, Halt<'a>> {
    let Some(path) = path else {
        return Ok(None);
    };
    match files.token(alloc, path) {
        Ok(token) => Ok(Some(token)),
        Err(error) => Err(Halt::Failed(Failure::File(path, error))),
    }
}

/// What an errand comes to at an address.
///
/// Errors: those of `run_errand`.
fn ask_at<'x, N: Network, C: Clock>(
    alloc: Global,
    way: Way<'x, N, C>,
    at: &'x Text,
    token: Option<&'x Text>,
    place: &NodeMeant,
    errand: Errand<'_>,
) -> Result<ErrandOutcome, AskFault> {
    let mut caller = Caller {
        alloc,
        network: way.network,
        clock: way.clock,
        at,
        token,
    };
    let meant = Meant {
        name: &place.name,
        digest: &place.digest,
    };
    run_errand(alloc, &mut caller, meant, place.hops.as_slice(), errand)
}

/// What an errand comes to at the node that runs at an address.
///
/// Errors: those of `place_of` and `token_at`; those of `run_errand`.
fn come<'a, F: Files + Tokens, N: Network, C: Clock>(
    alloc: Global,
    files: &F,
    given: RunningNode<'a>,
    errand: Errand<'a>,
    way: Way<'_, N, C>,
) -> Result<ErrandOutcome, ErrandStopped<'a>> {
    let place = place_of(alloc, files, given)?;
    let token = token_at(alloc, files, given.token)?;
    let at = Text::copy_of(alloc, given.at.as_bytes())?;
    let outcome = ask_at(alloc, way, &at, token.as_ref(), &place, errand)?;
    Ok(outcome)
}

/// Asks a node that runs, or tells it something. Its plan and certificate are in these files; the
/// first says which node is meant.
///
/// Errors: Stream, File.
pub fn ask_files<'a, F: Files + Tokens, N: Network, C: Clock, W: Write, E: Write>(
    alloc: Global,
    files: &F,
    given: RunningNode<'a>,
    errand: Errand<'a>,
    way: Way<'_, N, C>,
    output: &mut W,
    faults: &mut E,
) -> Result<Status, Failure<'a>> {
    match come(alloc, files, given, errand, way) {
        Ok(outcome) => {
            output.write_all(outcome.text.as_bytes())?;
            Ok(outcome.status)
        }
        Err(ErrandStopped::Halted(halt)) => finish(Err(halt), output, faults),
        Err(ErrandStopped::Asking(fault)) => {
            writeln!(faults, "dr_router: {fault}")?;
            Ok(status_of(fault))
        }
    }
}
