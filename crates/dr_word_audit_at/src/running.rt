//! The word `audit` over files, tokens and a network.
ghost use Rattle.std.specs.Prelude.{◌≡◌, IfOk, length};
ghost use Rattle.dr_word_audit_at.specs.Cuts.{IsConcluded, IsJudged};

use crate::figuring::told_of;
use crate::judging::{Judged, judge};
use crate::paging::{count_of, read_lines};
use dr_base::{Seq, Text};
use dr_cert::Sealed;
use dr_ledger_history::JournalLine;
use dr_plan_model::Plan;
use dr_run_ask::{AskFault, Meant};
use dr_run_files::{Failure, Files};
use dr_run_net::Network;
use dr_run_open::{Halt, Status, seal_files};
use dr_run_token::Tokens;
use dr_session::Clock;
use dr_word_adopt::{Halted, is_among, stranger_in, tell_stop, texts_of};
use dr_word_at::{Caller, Way, digest_of, status_of, token_at};
use dr_word_audit::naming::our_names;
use dr_word_audit::printing::short_line;
use dr_word_audit::{Audited, tell_audit, tell_verdict};
use dr_word_line::RunningNodes;
use dr_world_audit::audit::{AuditFault, AuditVerdict, NodeJournal};
use std::alloc::{AllocError, AllocFailed, Global};
use std::io;
use std::io::Write;

/// Why an audit of nodes that run comes to nothing.
#[derive(Drop)]
enum NodesStopped<'a> {
    /// Before any node was asked.
    Halted(Halted<'a>),
    /// At the node of that name, or on the way to it.
    Asking(AskFault, Text),
    /// Two addresses are of one node, or one is of a node that is named as another maker's.
    Twice(Text),
    Memory,
}

impl<'a> From<Halt<'a>> for NodesStopped<'a> {
    fn from(halt: Halt<'a>) -> NodesStopped<'a> {
        NodesStopped::Halted(Halted { halt, node: None })
    }
}

impl<'a> From<AllocError> for NodesStopped<'a> {
    fn from(_: AllocError) -> NodesStopped<'a> {
        NodesStopped::Memory
    }
}

impl<'a, T: Drop> From<AllocFailed<T>> for NodesStopped<'a> {
    fn from(_: AllocFailed<T>) -> NodesStopped<'a> {
        NodesStopped::Memory
    }
}

/// Nodes that run, each with the address of its control connection.
#[derive(Drop)]
struct Addresses {
    names: Vec<Text>,
    at: Vec<Text>,
}

/// Where the name ends that a word gives to an address.
fn name_end(word: &[u8]) -> usize {
    match word.iter().position(|byte| *byte == b'=') {
        Some(end) => end,
        None => word.len(),
    }
}

/// Adds the node that a word names, with its address.
fn add_address(alloc: Global, all: &mut Addresses, word: &[u8]) -> Result<(), AllocError> {
    let (name, rest) = word.split_at(name_end(word).min(word.len()));
    let at = match rest {
        [_equals, at @ ..] => at,
        [] => rest,
    };
    all.names.push(Text::copy_of(alloc, name)?)?;
    all.at.push(Text::copy_of(alloc, at)?)?;
    Ok(())
}

/// The nodes that the words name.
fn addresses_of(alloc: Global, words: &[&str]) -> Result<Addresses, AllocError> {
    let mut all = Addresses {
        names: Vec::new(alloc),
        at: Vec::new(alloc),
    };
    for word in words {
        add_address(alloc, &mut all, word.as_bytes())?;
    }
    Ok(all)
}

/// The first of these names that stands there once more, or among the others.
fn twice_in<'x>(names: &'x [Text], others: &[Text]) -> Option<&'x Text> {
    let mut rest = names;
    for name in names {
        let [_name, more @ ..] = rest else {
            return None;
        };
        if is_among(more, name) || is_among(others, name) {
            return Some(name);
        }
        rest = more;
    }
    None
}

/// Whether all of the names are of nodes of the plan.
///
/// Errors: NoNode, Memory.
fn test_known<'a>(plan: &Plan, names: &[Text]) -> Result<(), NodesStopped<'a>> {
    match stranger_in(plan, names) {
        Some(name) => Err(NodesStopped::Halted(Halted::at(name, Halt::NoNode))),
        None => Ok(()),
    }
}

/// Whether each of the nodes is named once, and none is among the others.
///
/// Errors: Twice, Memory.
fn test_once<'a>(names: &[Text], others: &[Text]) -> Result<(), NodesStopped<'a>> {
    match twice_in(names, others) {
        Some(name) => Err(NodesStopped::Twice(name.clone()?)),
        None => Ok(()),
    }
}

/// The address of the node of that name.
fn address_of<'x>(all: &'x Addresses, name: &Text) -> Option<&'x Text> {
    match all.names.as_slice().iter().position(|one| *one == *name) {
        Some(place) => all.at.as_slice().get(place),
        None => None,
    }
}

/// The first of these nodes that has no address.
fn lacking<'x>(all: &Addresses, names: &'x [Text]) -> Option<&'x Text> {
    for name in names {
        if address_of(all, name).is_none() {
            return Some(name);
        }
    }
    None
}

/// Who asks nodes that run: over which way, at which addresses, with which token, and for which
/// plan, of which the digest is given in lower-case hexadecimal digits.
#[derive(Drop)]
struct NodesAsker<'x, N: Network, C: Clock> {
    alloc: Global,
    network: &'x N,
    clock: &'x C,
    addresses: &'x Addresses,
    token: Option<&'x Text>,
    digest: &'x Text,
}

impl<'x, N: Network, C: Clock> NodesAsker<'x, N, C> {
    /// Who asks at an address.
    fn caller(&self, at: &'x Text) -> Caller<'x, N, C> {
        Caller {
            alloc: self.alloc,
            network: self.network,
            clock: self.clock,
            at,
            token: self.token,
        }
    }

    /// How many lines the journal of the node of that name has.
    ///
    /// Errors: those of `count_of`.
    fn count_at(&self, name: &Text) -> Result<u64, AskFault> {
        let Some(at) = address_of(self.addresses, name) else {
            return Err(AskFault::NoConnection);
        };
        let mut caller = self.caller(at);
        let meant = Meant {
            name,
            digest: self.digest,
        };
        count_of(self.alloc, &mut caller, meant)
    }

    /// The first lines of the journal of the node of that name, so many.
    ///
    /// Errors: those of `read_lines`.
    fn lines_at(&self, name: &Text, count: u64) -> Result<Seq<JournalLine>, AskFault> {
        let Some(at) = address_of(self.addresses, name) else {
            return Err(AskFault::NoConnection);
        };
        let mut caller = self.caller(at);
        let meant = Meant {
            name,
            digest: self.digest,
        };
        read_lines(self.alloc, &mut caller, meant, count)
    }

    /// How many lines the journals of these nodes have.
    ///
    /// Errors: those of `count_at`, at a node; Memory.
    fn counts<'a>(&self, names: &[Text]) -> Result<Vec<u64>, NodesStopped<'a>> {
        let mut counts = Vec::new(self.alloc);
        for name in names {
            match self.count_at(name) {
                Ok(count) => counts.push(count)?,
                Err(fault) => return Err(NodesStopped::Asking(fault, name.clone()?)),
            }
        }
        Ok(counts)
    }

    /// The journal of the node of that name, so many lines, which are no fewer than there were.
    ///
    /// Errors: those of `lines_at`; Shrunk.
    fn journal_at(&self, name: &Text, had: u64, count: u64) -> Result<NodeJournal, AskFault> {
        if count < had {
            return Err(AskFault::Shrunk);
        }
        let lines = self.lines_at(name, count)?;
        let name = name.clone()?;
        Ok(NodeJournal { name, lines })
    }

    /// The journals of these nodes, so many lines of each.
    ///
    /// Errors: those of `journal_at`, at a node; Memory.
    fn journals<'a>(
        &self,
        names: &[Text],
        first: &[u64],
        last: &[u64],
    ) -> Result<Vec<NodeJournal>, NodesStopped<'a>> {
        let mut journals = Vec::new(self.alloc);
        for (place, name) in names.iter().enumerate() {
            let (had, count) = (number_at(first, place), number_at(last, place));
            match self.journal_at(name, had, count) {
                Ok(journal) => journals.push(journal)?,
                Err(fault) => return Err(NodesStopped::Asking(fault, name.clone()?)),
            }
        }
        Ok(journals)
    }
}

/// The number at that place; 0 where there is none.
fn number_at(numbers: &[u64], place: usize) -> u64 {
    match numbers.get(place) {
        Some(number) => *number,
        None => 0,
    }
}

/// The numbers of lines as places.
fn places_of(alloc: Global, counts: &[u64]) -> Result<Vec<usize>, AllocError> {
    let mut places = Vec::new(alloc);
    for count in counts {
        places.push(*count as usize)?;
    }
    Ok(places)
}

/// What is told of the nodes, where all holds.
///
/// Errors: those of `told_of`.
fn told_if(
    alloc: Global,
    sealed: &Sealed,
    others: &[Text],
    judged: &Judged,
) -> Result<Vec<u8>, AskFault> {
    match &judged.verdict {
        AuditVerdict::Holds => told_of(alloc, sealed, others, judged.journals.as_slice()),
        AuditVerdict::No(_) => Ok(Vec::new(alloc)),
    }
}

/// The audit of journals of which so many lines were there first.
///
/// Errors: NoNodesAnswer where they aren't of different nodes of the plan; Memory.
fn judged_of(
    alloc: Global,
    sealed: &Sealed,
    first: Vec<usize>,
    read: Vec<NodeJournal>,
) -> Result<Judged, AskFault>
    requires { length first.items ≡ length read.items }
    ensures { IfOk result (λ judged.
        IsJudged sealed.now.plan first.items read.items judged.journals.items judged.verdict) }
{
    match judge(alloc, sealed, first, read) {
        Ok(judged) => Ok(judged),
        Err(AuditFault::Memory) => Err(AskFault::Memory),
        Err(AuditFault::NoNode | AuditFault::Twice) => Err(AskFault::NoNodesAnswer),
    }
}

/// What is concluded of journals of which so many lines were there first.
///
/// Errors: those of `judged_of` and `told_of`; Memory.
fn conclude(
    alloc: Global,
    sealed: &Sealed,
    others: &[Text],
    first: Vec<usize>,
    read: Vec<NodeJournal>,
) -> Result<Audited, AskFault>
    requires { length first.items ≡ length read.items }
    ensures { IfOk result (IsConcluded sealed.now.plan first.items read.items) }
{
    let _plan = sealed.plan();
    let judged = judged_of(alloc, sealed, first, read)?;
    let told = told_if(alloc, sealed, others, &judged)?;
    let audited = tell_verdict(
        alloc,
        &judged.verdict,
        judged.journals.as_slice(),
        told.as_slice(),
    )?;
    Ok(audited)
}

/// Reads the journals of these nodes, and audits them.
///
/// Errors: those of `NodesAsker`, at a node; those of `conclude`; Memory.
fn audit_by<'a, N: Network, C: Clock>(
    asker: &NodesAsker<'_, N, C>,
    sealed: &Sealed,
    others: &[Text],
    names: &[Text],
) -> Result<Audited, NodesStopped<'a>> {
    let first = asker.counts(names)?;
    let last = asker.counts(names)?;
    let read = asker.journals(names, first.as_slice(), last.as_slice())?;
    let places = places_of(asker.alloc, first.as_slice())?;
    if places.len() != read.len() {
        return Err(NodesStopped::Memory);
    }
    match conclude(asker.alloc, sealed, others, places, read) {
        Ok(audited) => Ok(audited),
        Err(AskFault::Memory) => Err(NodesStopped::Memory),
        Err(fault) => Err(NodesStopped::Asking(fault, Text::empty(asker.alloc))),
    }
}

/// Audits nodes of the sealed plan at these addresses, all but the others.
///
/// Errors: NoNode, Twice; those of `audit_by`; Memory.
fn audit_sealed<'a, N: Network, C: Clock>(
    alloc: Global,
    way: Way<'_, N, C>,
    sealed: &Sealed,
    given: &RunningNodes<'a>,
    token: Option<&Text>,
) -> Result<Audited, NodesStopped<'a>> {
    let others = texts_of(alloc, given.others.as_slice())?;
    let addresses = addresses_of(alloc, given.running.as_slice())?;
    test_known(sealed.plan(), others.as_slice())?;
    test_known(sealed.plan(), addresses.names.as_slice())?;
    test_once(addresses.names.as_slice(), others.as_slice())?;
    let names = our_names(alloc, sealed.plan(), others.as_slice())?;
    if let Some(name) = lacking(&addresses, names.as_slice()) {
        let text = short_line(alloc, b"A7 NoAddress", name)?;
        return Ok(Audited::No(text));
    }
    let digest = digest_of(alloc, sealed)?;
    let asker = NodesAsker {
        alloc,
        network: way.network,
        clock: way.clock,
        addresses: &addresses,
        token,
        digest: &digest,
    };
    audit_by(&asker, sealed, others.as_slice(), names.as_slice())
}

/// Audits the nodes by the plan and the certificate in these files.
///
/// Errors: those of `seal_files`; File, of the token; those of `audit_sealed`.
fn audit_given<'a, F: Files + Tokens, N: Network, C: Clock>(
    alloc: Global,
    files: &F,
    given: &RunningNodes<'a>,
    way: Way<'_, N, C>,
) -> Result<Audited, NodesStopped<'a>> {
    let token = token_at(alloc, files, given.token)?;
    let sealed = match seal_files(alloc, files, given.plan, given.certificate) {
        Ok(sealed) => sealed,
        Err(halt) => return Err(NodesStopped::from(halt)),
    };
    let came = audit_sealed(alloc, way, &sealed, given, token.as_ref());
    drop(sealed);
    came
}

/// Writes that, and at which node it is.
fn tell_at<E: Write>(fault: &str, node: &Text, faults: &mut E) -> io::Result<()> {
    writeln!(faults, "dr_router: {fault}")?;
    if node.is_empty() {
        return Ok(());
    }
    faults.write_all(b"  node ")?;
    faults.write_all(node.as_bytes())?;
    faults.write_all(b"\n")
}

/// Reads the journals of nodes that run, of all nodes of the plan but the others, and prints
/// whether the four claims hold of their books: `holds` with how much each node has, or `no` with
/// what doesn't match. Nothing is changed.
///
/// Errors: Stream, File.
pub fn audit_running<'a, F: Files + Tokens, N: Network, C: Clock, W: Write, E: Write>(
    alloc: Global,
    files: &F,
    given: RunningNodes<'a>,
    way: Way<'_, N, C>,
    output: &mut W,
    faults: &mut E,
) -> Result<Status, Failure<'a>> {
    let came = audit_given(alloc, files, &given, way);
    drop(given);
    match came {
        Ok(audited) => tell_audit(&audited, output),
        Err(NodesStopped::Halted(stop)) => tell_stop(stop, output, faults),
        Err(NodesStopped::Asking(fault, node)) => {
            tell_at(fault.name(), &node, faults)?;
            Ok(status_of(fault))
        }
        Err(NodesStopped::Twice(node)) => {
            tell_at("Twice", &node, faults)?;
            Ok(Status::Refused)
        }
        Err(NodesStopped::Memory) => {
            tell_at("Memory", &Text::empty(alloc), faults)?;
            Ok(Status::Memory)
        }
    }
}
