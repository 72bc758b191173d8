//! What a node that runs tells of itself: events, each a line of a log.
//!
//! A line says what it is about (`node`, `association`, `instance`, `row`, `visit`, `queue`,
//! `report`, `listener`) and what happened, with its parts as
//! `key=value`. Of an instance only the UID is told. What a peer sent, as a title or a UID, goes
//! through `Escaped`, so that it can't begin a line or end a quote.
use crate::copying::Copied;
use crate::visit::Visit;
use dr_base::Text;
use dr_desk_workers::Tally;
use dr_ledger::{Arrived, Cause, Instance, LedgerFault, Outcome, Progress};
use dr_route::Key;
use dr_run_answer::ResponseCount;
use dr_run_backup::BackupFault;
use dr_run_control::name_of_refusal;
use dr_run_open::code_of;
use dr_run_request::{Order, Refused, RowName};
use dr_run_shown::Escaped;
use dr_session::{Ended, SessionFault};
use log::{Log, debug, error, info, warn};
use std::fmt::{Display, Formatter};
use std::net::SocketAddr;
use std::{fmt, io};

/// How an association ended, in a word.
fn word_of(ended: Ended) -> &'static str {
    match ended {
        Ended::Rejected(_) => "rejected",
        Ended::Aborted => "aborted",
        Ended::Released => "released",
        Ended::Closed => "closed",
    }
}

/// Why an association was rejected, if it was: the result, source and reason of PS3.8 9.3.4.
#[derive(Drop)]
struct Why(Ended);

impl Display for Why {
    fn fmt<W: fmt::Write>(&self, f: &mut Formatter<W>) -> fmt::Result {
        match self.0 {
            Ended::Rejected(rejection) => write!(
                f,
                " why=\"{} {} {}\"",
                rejection.result, rejection.source, rejection.reason
            ),
            _ => Ok(()),
        }
    }
}

/// How many responses of a status were sent, as `B007=1`, or `other=1`.
#[derive(Drop)]
struct StatusShown<'a>(&'a ResponseCount);

impl<'a> Display for StatusShown<'a> {
    fn fmt<W: fmt::Write>(&self, f: &mut Formatter<W>) -> fmt::Result {
        let count = self.0.count;
        match self.0.status {
            Some(status) => write!(f, "{status:04X}={count}"),
            None => write!(f, "other={count}"),
        }
    }
}

/// The statuses of the responses that were sent over an association, if any were.
#[derive(Drop)]
struct StatusesShown<'a>(&'a [ResponseCount]);

impl<'a> Display for StatusesShown<'a> {
    fn fmt<W: fmt::Write>(&self, f: &mut Formatter<W>) -> fmt::Result {
        if self.0.is_empty() {
            return Ok(());
        }
        f.write_str(" statuses=\"")?;
        let mut between = "";
        for one in self.0 {
            write!(f, "{between}{}", StatusShown(one))?;
            between = " ";
        }
        f.write_str("\"")
    }
}

/// Tells how an association ended that another node asked for, what came of it, and the statuses of
/// the responses that were sent over it.
pub fn tell_association<G: Log>(
    log: &G,
    session: u64,
    ended: Result<Ended, SessionFault>,
    tally: Tally,
    responses: &[ResponseCount],
) {
    let statuses = StatusesShown(responses);
    let Tally {
        accepted,
        refused,
        milliseconds,
    } = tally;
    match ended {
        Ok(ended) => {
            let (word, why) = (word_of(ended), Why(ended));
            info!(
                log; target: "association",
                "{word} session={session}{why} instances={accepted} refused={refused}{statuses} milliseconds={milliseconds}"
            );
        }
        Err(fault) => {
            warn!(
                log; target: "association",
                "failed session={session} fault=\"{fault}\" instances={accepted} refused={refused}{statuses} milliseconds={milliseconds}"
            );
        }
    }
}

/// What rules read of an instance, as an event shows it.
#[derive(Drop)]
struct KeyShown<'a>(&'a Key);

impl<'a> Display for KeyShown<'a> {
    fn fmt<W: fmt::Write>(&self, f: &mut Formatter<W>) -> fmt::Result {
        let (class, syntax) = (
            Escaped(self.0.class.as_bytes()),
            Escaped(self.0.syntax.uid()),
        );
        let (modality, station) = (
            Escaped(self.0.modality.as_bytes()),
            Escaped(self.0.station.as_bytes()),
        );
        write!(
            f,
            "class={class} syntax={syntax} modality=\"{modality}\" station=\"{station}\""
        )
    }
}

/// The sentence that says why a node has nowhere to go for an instance of a caller; of no other
/// fault there is one.
#[derive(Drop)]
struct WhyShown<'a> {
    fault: LedgerFault,
    node: &'a Text,
    caller: &'a Text,
    key: &'a Key,
}

impl<'a> WhyShown<'a> {
    /// That no flow of the node and no rule of it fits.
    fn put_sentence<W: fmt::Write>(&self, f: &mut Formatter<W>) -> fmt::Result {
        let (node, caller) = (
            Escaped(self.node.as_bytes()),
            Escaped(self.caller.as_bytes()),
        );
        let (class, syntax) = (
            Escaped(self.key.class.as_bytes()),
            Escaped(self.key.syntax.uid()),
        );
        let (modality, station) = (
            Escaped(self.key.modality.as_bytes()),
            Escaped(self.key.station.as_bytes()),
        );
        write!(
            f,
            " why=\"no flow or rule at {node} brings {class} in {syntax}"
        )?;
        write!(
            f,
            " of modality '{modality}' and station '{station}' from {caller}\""
        )
    }
}

impl<'a> Display for WhyShown<'a> {
    fn fmt<W: fmt::Write>(&self, f: &mut Formatter<W>) -> fmt::Result {
        match self.fault {
            LedgerFault::NoLine => self.put_sentence(f),
            _ => Ok(()),
        }
    }
}

/// Tells of an instance that the ledger refused: what rules read of it, and where it has nowhere to
/// go, a sentence.
fn tell_refusal<G: Log>(
    log: &G,
    session: u64,
    node: &Text,
    caller: &Text,
    instance: &Instance,
    fault: LedgerFault,
) {
    let (key, uid) = (&instance.key, Escaped(instance.uid.as_bytes()));
    let why = WhyShown {
        fault,
        node,
        caller,
        key,
    };
    let (caller, fault, key) = (Escaped(caller.as_bytes()), code_of(fault), KeyShown(key));
    warn!(
        log; target: "instance",
        "refused session={session} caller=\"{caller}\" uid={uid} fault=\"{fault}\" {key}{why}"
    );
}

/// Tells what the ledger of a node answered an instance that came.
pub fn tell_arrival<G: Log>(
    log: &G,
    session: u64,
    node: &Text,
    caller: &Text,
    instance: &Instance,
    answer: Result<Arrived, LedgerFault>,
) {
    let shown = Escaped(caller.as_bytes());
    let uid = Escaped(instance.uid.as_bytes());
    match answer {
        Ok(Arrived::New) => {
            debug!(log; target: "instance", "new session={session} caller=\"{shown}\" uid={uid}");
        }
        Ok(Arrived::Again) => {
            debug!(
                log; target: "instance",
                "again session={session} caller=\"{shown}\" uid={uid}"
            );
        }
        Err(fault) => {
            tell_refusal(log, session, node, caller, instance, fault);
        }
    }
}

/// Tells that there is no room for a data set that comes.
pub fn tell_crowded<G: Log>(log: &G, session: u64) {
    warn!(log; target: "association", "crowded session={session} status=\"A700\"");
}

/// What came of a try to send an instance, as an event shows it.
#[derive(Drop)]
struct OutcomeShown(Outcome);

impl Display for OutcomeShown {
    fn fmt<W: fmt::Write>(&self, f: &mut Formatter<W>) -> fmt::Result {
        match self.0 {
            Outcome::Status(status) => write!(f, "{status:04X}"),
            Outcome::Broken => f.write_str("-"),
            Outcome::NoContext => f.write_str("no context"),
            Outcome::Unreadable => f.write_str("unreadable"),
        }
    }
}

/// Tells of a row whose data set can't be read: its medium is to be looked at. It is held.
fn tell_unreadable<G: Log>(log: &G, uid: &Text, dest: &Text) {
    let (uid, dest) = (Escaped(uid.as_bytes()), Escaped(dest.as_bytes()));
    error!(log; target: "row", "unreadable dest=\"{dest}\" uid={uid}");
}

/// Tells of a row that is held.
fn tell_held<G: Log>(log: &G, uid: &Text, dest: &Text, outcome: Outcome) {
    let (uid, dest, answer) = (
        Escaped(uid.as_bytes()),
        Escaped(dest.as_bytes()),
        OutcomeShown(outcome),
    );
    warn!(log; target: "row", "held dest=\"{dest}\" uid={uid} status=\"{answer}\"");
}

/// Tells of a row that waits again: how often it was tried, and from when on it is due.
fn tell_waiting<G: Log>(log: &G, uid: &Text, dest: &Text, outcome: Outcome, tries: u32, due: u64) {
    let (uid, dest, answer) = (
        Escaped(uid.as_bytes()),
        Escaped(dest.as_bytes()),
        OutcomeShown(outcome),
    );
    info!(
        log; target: "row",
        "waits dest=\"{dest}\" uid={uid} status=\"{answer}\" tries={tries} due={due}"
    );
}

/// Tells of a row that needs nobody's eye, with what happened to it in a word.
fn tell_settled<G: Log>(log: &G, word: &str, uid: &Text, dest: &Text, outcome: Outcome) {
    let (uid, dest, answer) = (
        Escaped(uid.as_bytes()),
        Escaped(dest.as_bytes()),
        OutcomeShown(outcome),
    );
    debug!(log; target: "row", "{word} dest=\"{dest}\" uid={uid} status=\"{answer}\"");
}

/// Tells what came of a try to send an instance: how far its row is then.
pub fn tell_row<G: Log>(
    log: &G,
    uid: &Text,
    dest: &Text,
    outcome: Outcome,
    came: Option<Progress>,
) {
    match came {
        Some(Progress::Done) => tell_settled(log, "done", uid, dest, outcome),
        Some(Progress::Held(Cause::Unreadable)) => tell_unreadable(log, uid, dest),
        Some(Progress::Held(_)) => tell_held(log, uid, dest, outcome),
        Some(Progress::Waiting { tries, due }) => {
            tell_waiting(log, uid, dest, outcome, tries, due);
        }
        Some(Progress::Dropped) | None => tell_settled(log, "settled", uid, dest, outcome),
    }
}

/// Tells what came of a visit to a node at which rows were due, and how many outcomes were noted.
pub fn tell_visit<G: Log>(log: &G, dest: &Text, visit: &Visit, settled: u64) {
    let dest = Escaped(dest.as_bytes());
    match visit {
        Visit::Idle => {}
        Visit::Unreached(error) => {
            warn!(
                log; target: "visit",
                "unreached dest=\"{dest}\" settled={settled} error=\"{error}\""
            );
        }
        Visit::Ended(Ended::Released) => {
            info!(log; target: "visit", "released dest=\"{dest}\" settled={settled}");
        }
        Visit::Ended(ended) => {
            let (word, why) = (word_of(*ended), Why(*ended));
            warn!(log; target: "visit", "{word} dest=\"{dest}\"{why} settled={settled}");
        }
        Visit::Failed(fault) => {
            warn!(
                log; target: "visit",
                "failed dest=\"{dest}\" settled={settled} fault=\"{fault}\""
            );
        }
    }
}

/// Tells that a visit came to a fault of the ledger, and how many outcomes were noted before.
pub fn tell_visit_fault<G: Log>(log: &G, dest: &Text, fault: LedgerFault, settled: u64) {
    let (dest, fault) = (Escaped(dest.as_bytes()), code_of(fault));
    error!(
        log; target: "visit",
        "ledger dest=\"{dest}\" settled={settled} fault=\"{fault}\""
    );
}

/// A moment as an event shows it, in milliseconds; a hyphen where there is none.
#[derive(Drop)]
struct MomentShown(Option<u64>);

impl Display for MomentShown {
    fn fmt<W: fmt::Write>(&self, f: &mut Formatter<W>) -> fmt::Result {
        match self.0 {
            Some(moment) => write!(f, "{moment}"),
            None => f.write_str("-"),
        }
    }
}

/// Tells how much a node has.
pub fn tell_holdings<G: Log>(log: &G, arrivals: u64, kept: u64, lines: u64) {
    info!(log; target: "node", "has arrivals={arrivals} kept={kept} lines={lines}");
}

/// Tells how many rows wait for a node, are held and are done, and from when on the first of those
/// that wait is due.
pub fn tell_queue<G: Log>(log: &G, dest: &Text, stages: [u64; 3], oldest: Option<u64>) {
    let [waiting, held, done] = stages;
    let (dest, oldest) = (Escaped(dest.as_bytes()), MomentShown(oldest));
    info!(
        log; target: "queue",
        "has dest=\"{dest}\" waiting={waiting} held={held} done={done} oldest={oldest}"
    );
}

/// Tells that what the node has couldn't be read.
pub fn tell_unread<G: Log>(log: &G, fault: LedgerFault) {
    let fault = code_of(fault);
    error!(log; target: "report", "unread fault=\"{fault}\"");
}

/// Tells that the report couldn't be written.
pub fn tell_unwritten<G: Log>(log: &G, error: &io::Error) {
    error!(log; target: "report", "unwritten error=\"{error}\"");
}

/// Tells that so many instances were forgotten, which had been over for long.
pub fn tell_forgotten<G: Log>(log: &G, count: u64) {
    info!(log; target: "node", "forgets instances={count}");
}

/// Tells that the ledger refused to forget what is over.
pub fn tell_unswept<G: Log>(log: &G, fault: LedgerFault) {
    let fault = code_of(fault);
    error!(log; target: "node", "unswept fault=\"{fault}\"");
}

/// Tells that the store of the node's ledger is shut: nothing can be read or written any more, and
/// the node ends.
pub fn tell_shut<G: Log>(log: &G) {
    let fault = code_of(LedgerFault::Store);
    error!(log; target: "node", "shut fault=\"{fault}\"");
}

/// A peer's address, as an event shows it; a hyphen where the system doesn't tell it.
#[derive(Drop)]
struct PeerShown(Option<SocketAddr>);

impl Display for PeerShown {
    fn fmt<W: fmt::Write>(&self, f: &mut Formatter<W>) -> fmt::Result {
        match self.0 {
            Some(address) => write!(f, "{address}"),
            None => f.write_str("-"),
        }
    }
}

/// Tells that a connection was accepted, and from where it comes.
pub fn tell_came<G: Log>(log: &G, session: u64, peer: Option<SocketAddr>) {
    let peer = PeerShown(peer);
    info!(log; target: "association", "comes session={session} address=\"{peer}\"");
}

/// Tells that connections can't be accepted.
pub fn tell_unaccepted<G: Log>(log: &G, error: &io::Error) {
    error!(log; target: "listener", "failed error=\"{error}\"");
}

/// Tells that the system gave fewer threads than there should be: those that serve, or those that
/// send. What they should do is done late, or when the others have ended.
pub fn tell_threads<G: Log>(log: &G, purpose: &str, wanted: usize, begun: usize) {
    error!(log; target: "node", "threads purpose={purpose} wanted={wanted} begun={begun}");
}

/// Tells that the node ends in order.
pub fn tell_stopping<G: Log>(log: &G) {
    info!(log; target: "node", "stops");
}

/// Tells that what was still under way was cut.
pub fn tell_cut<G: Log>(log: &G) {
    warn!(log; target: "node", "cuts what is under way");
}

/// A row, as an event shows it.
#[derive(Drop)]
struct RowShown<'a>(&'a RowName);

impl<'a> Display for RowShown<'a> {
    fn fmt<W: fmt::Write>(&self, f: &mut Formatter<W>) -> fmt::Result {
        let (uid, dest) = (
            Escaped(self.0.uid.as_bytes()),
            Escaped(self.0.dest.as_bytes()),
        );
        write!(f, "dest=\"{dest}\" uid={uid}")
    }
}

/// An order, as an event shows it.
#[derive(Drop)]
struct OrderShown<'a>(&'a Order);

impl<'a> Display for OrderShown<'a> {
    fn fmt<W: fmt::Write>(&self, f: &mut Formatter<W>) -> fmt::Result {
        match self.0 {
            Order::Requeue(row) => write!(f, "requeue {}", RowShown(row)),
            Order::RequeueAll(dest) => write!(f, "requeue dest=\"{}\"", Escaped(dest.as_bytes())),
            Order::GiveUp(row) => write!(f, "drop {}", RowShown(row)),
            Order::Forget(uid) => write!(f, "forget uid={}", Escaped(uid.as_bytes())),
            Order::Visit(dest) => write!(f, "visit dest=\"{}\"", Escaped(dest.as_bytes())),
        }
    }
}

/// The reason that was given for an order, if one was.
#[derive(Drop)]
struct ReasonShown<'a>(Option<&'a Text>);

impl<'a> Display for ReasonShown<'a> {
    fn fmt<W: fmt::Write>(&self, f: &mut Formatter<W>) -> fmt::Result {
        match self.0 {
            Some(reason) => write!(f, " reason=\"{}\"", Escaped(reason.as_bytes())),
            None => Ok(()),
        }
    }
}

/// Tells of an order that somebody gave over the control connection, for that reason, and what the
/// ledger answered.
pub fn tell_act<G: Log>(log: &G, order: &Order, reason: Option<&Text>, fault: Option<LedgerFault>) {
    let (order, reason) = (OrderShown(order), ReasonShown(reason));
    match fault {
        None => {
            info!(log; target: "control", "{order}{reason}");
        }
        Some(fault) => {
            let fault = code_of(fault);
            warn!(log; target: "control", "{order}{reason} fault=\"{fault}\"");
        }
    }
}

/// Tells that the ledger was copied to a path, as somebody asked for over the control connection,
/// and how many milliseconds that took.
pub fn tell_copied<G: Log>(log: &G, path: &Text, copied: Copied, spent: u64) {
    let copy = Escaped(path.as_bytes());
    let Copied { lines, bytes } = copied;
    info!(
        log; target: "control",
        "backup copy=\"{copy}\" lines={lines} bytes={bytes} milliseconds={spent}"
    );
}

/// Tells that it wasn't copied, and why.
pub fn tell_uncopied<G: Log>(log: &G, path: &Text, fault: BackupFault) {
    let copy = Escaped(path.as_bytes());
    match fault {
        BackupFault::NoCopy(error) => {
            warn!(
                log; target: "control",
                "backup copy=\"{copy}\" fault=\"{fault}\" error=\"{error}\""
            );
        }
        fault => warn!(log; target: "control", "backup copy=\"{copy}\" fault=\"{fault}\""),
    }
}

/// Tells that somebody asked for the node's end.
pub fn tell_told_to_stop<G: Log>(log: &G) {
    info!(log; target: "control", "stop");
}

/// Tells that a request of the control connection was refused.
pub fn tell_refused<G: Log>(log: &G, why: Refused) {
    let why = name_of_refusal(why);
    warn!(log; target: "control", "refused why={why}");
}
