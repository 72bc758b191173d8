//! What a running node shows of itself.
ghost use Rattle.hex.specs.Hex.{encode_lower};
ghost use Rattle.std.specs.FinMap as map;
ghost use Rattle.std.specs.Prelude.{◌≡◌, ◌++◌, IfOk, MatchOption, OnOk, flat_map, length};
ghost use Rattle.std.specs.Prelude.{map as mapped, string_bytes};
ghost use Rattle.dr_desk.specs.Reading.{Reading};
ghost use Rattle.dr_ledger.specs.Replies.{Reads};
ghost use Rattle.dr_run_answer.specs.Answers.{association_line, brought_figures, bytes_figures};
ghost use Rattle.dr_run_answer.specs.Answers.{figures, from_line, instance_line, line_of_node};
ghost use Rattle.dr_run_answer.specs.Answers.{line_of_queue, lock_figures, open_figure};
ghost use Rattle.dr_run_answer.specs.Answers.{own_row_line};
ghost use Rattle.dr_run_answer.specs.Answers.{queues_figures, recent_line, row_line};
ghost use Rattle.dr_run_answer.specs.Answers.{visits_figures};
ghost use Rattle.dr_run_answer.specs.Responses.{response_figures};
ghost use Rattle.dr_run_control.specs.Consoles.{AreParts, IsCounted, IsMissing, IsTold};
ghost use Rattle.dr_run_control.specs.Consoles.{page_wanted};

use crate::console::{Around, House};
use crate::reply::{HttpReply, Media, misread, refused_by_ledger};
use dr_base::{Seq, Text};
use dr_desk::{SharedDesk, Sharing, Totals};
use dr_ledger::{LedgerFault, Progress};
use dr_ledger_views::{HopTally, Origin, Views};
use dr_run_answer::{
    Counts, Identity, Queue, Visited, Visits, put_associations, put_callers, put_figures,
    put_froms, put_instance, put_late, put_lock, put_node, put_open, put_own_rows, put_queue,
    put_queues, put_recents, put_responses, put_rows, put_stored_bytes, put_visits, put_well,
};
use dr_run_open::NextHop;
use dr_run_request::{Wanted, instance_of, wanted_of};
use dr_site::Site;
use http::StatusCode;
use std::alloc::{AllocError, Global};
use std::sync::Wait;

/// Who reads and acts at a node's desk: by what it waits for the lock, and where what it reads
/// lies.
#[derive(Drop)]
pub(crate) struct DeskClerk<'a, R: Wait, L: Views, B: Sharing> {
    pub rt: &'a R,
    pub alloc: Global,
    pub desk: &'a SharedDesk<L, B>,
}

/// Who looks after a whole node: at its desk, at the hops to which it sends, and at what goes on
/// around it, at a moment (milliseconds).
#[derive(Drop)]
pub(crate) struct NodeReader<'a, R: Wait, L: Views, B: Sharing, H: House> {
    pub clerk: DeskClerk<'a, R, L, B>,
    pub hops: &'a [NextHop],
    pub house: &'a H,
    pub moment: u64,
}

/// How many rows are on their way to a node, as they were counted.
fn queue_of(
    dest: &Text,
    tally: HopTally,
    waited: Option<u64>,
    visit: Option<Visited>,
    visits: Visits,
) -> Queue<'_>
    ensures { IsCounted dest.now tally waited visit visits result }
{
    Queue {
        dest,
        waiting: tally.waiting,
        held: tally.held,
        done: tally.done,
        due: tally.due,
        waited,
        visit,
        visits,
    }
}

/// Adds a line for each queue.
fn put_each(out: &mut Vec<u8>, queues: &[Queue<'_>]) -> Result<(), AllocError>
    ensures { OnOk result
        (out.new.items ≡ out.old.items ++ flat_map line_of_queue queues.now) }
{
    for queue in queues {
        put_queue(out, queue)?;
    }
    Ok(())
}

/// How much a node has, as it was counted.
fn counts_of(totals: Totals) -> Counts
    ensures { result
        ≡ record {
          arrivals = totals.arrivals;
          kept = totals.kept;
          lines = totals.lines;
          failures = totals.failures;
        } }
{
    Counts {
        arrivals: totals.arrivals,
        kept: totals.kept,
        lines: totals.lines,
        failures: totals.failures,
    }
}

/// The lines of a node: one of it, one for each hop, one for each association that is open, and one
/// for each caller and modality of which something came within the last hour.
fn status_lines(
    alloc: Global,
    node: &Identity<'_>,
    counts: Counts,
    queues: &[Queue<'_>],
    around: &Around,
) -> Result<Vec<u8>, AllocError>
    ensures { IfOk result (λ text.
        text.items
        ≡ line_of_node node.now counts
        ++ flat_map line_of_queue queues.now
        ++ flat_map association_line around.now.associations.items
        ++ flat_map recent_line around.now.recents.items) }
{
    let mut out = Vec::new(alloc);
    put_node(&mut out, node, counts)?;
    put_each(&mut out, queues)?;
    put_associations(&mut out, around.associations.as_slice())?;
    put_recents(&mut out, around.recents.as_slice())?;
    Ok(out)
}

/// Adds what each caller has brought, and which responses it was sent.
fn put_callers_of(out: &mut Vec<u8>, around: &Around) -> Result<(), AllocError>
    ensures { OnOk result (out.new.items
        ≡ out.old.items
        ++ (brought_figures around.now.brought.items ++ bytes_figures around.now.brought.items
        ++ response_figures around.now.responses.items)) }
{
    put_callers(out, around.brought.as_slice())?;
    put_stored_bytes(out, around.brought.as_slice())?;
    put_responses(out, around.responses.as_slice())?;
    Ok(())
}

/// Adds how many associations are open, and for how long the ledger was locked.
fn put_rest(out: &mut Vec<u8>, around: &Around) -> Result<(), AllocError>
    ensures { OnOk result (out.new.items
        ≡ out.old.items
        ++ (open_figure (length around.now.associations.items) ++ lock_figures around.now.lock)) }
{
    put_open(out, around.associations.len() as u64)?;
    put_lock(out, around.lock)
}

/// Its figures.
fn figure_lines(
    alloc: Global,
    counts: Counts,
    queues: &[Queue<'_>],
    around: &Around,
) -> Result<Vec<u8>, AllocError>
    ensures { IfOk result (λ text.
        text.items
        ≡ figures counts ++ queues_figures queues.now ++ visits_figures queues.now
        ++ (brought_figures around.now.brought.items ++ bytes_figures around.now.brought.items
        ++ response_figures around.now.responses.items)
        ++ (open_figure (length around.now.associations.items) ++ lock_figures around.now.lock)) }
{
    let mut out = Vec::new(alloc);
    put_figures(&mut out, counts)?;
    put_queues(&mut out, queues)?;
    put_visits(&mut out, queues)?;
    put_callers_of(&mut out, around)?;
    put_rest(&mut out, around)?;
    Ok(out)
}

/// A page of rows.
fn row_lines(alloc: Global, rows: &[((Text, Text), Progress)]) -> Result<Vec<u8>, AllocError>
    ensures { IfOk result (λ text. text.items ≡ flat_map row_line rows.now) }
{
    let mut out = Vec::new(alloc);
    put_rows(&mut out, rows)?;
    Ok(out)
}

/// That a node is well.
fn well_line(alloc: Global) -> Result<Vec<u8>, AllocError> {
    let mut out = Vec::new(alloc);
    put_well(&mut out)?;
    Ok(out)
}

/// The reply with that text; where memory ran out, one without.
pub(crate) fn reply_with(
    alloc: Global,
    text: Result<Vec<u8>, AllocError>,
    media: Media,
) -> HttpReply {
    match text {
        Ok(text) => HttpReply {
            status: StatusCode::OK,
            text,
            media,
        },
        Err(_) => HttpReply::bare(alloc, StatusCode::SERVICE_UNAVAILABLE),
    }
}

/// The program of a node: its version, and since when it serves (milliseconds).
#[derive(Clone, Copy, Drop)]
pub(crate) struct ServingSince<'a> {
    pub version: &'a str,
    pub since: u64,
}

/// A digest in lower-case hexadecimal digits.
pub(crate) fn digits_of(alloc: Global, digest: &[u8; 32]) -> Result<String, AllocError>
    ensures { IfOk result (λ digits. string_bytes digits ≡ encode_lower digest.now) }
{
    hex::encode(alloc, digest.as_slice())
}

/// The lines of the node of that site.
fn status_of(
    alloc: Global,
    site: &Site,
    serving: ServingSince<'_>,
    counts: Counts,
    queues: &[Queue<'_>],
    around: &Around,
) -> Result<Vec<u8>, AllocError> {
    let plan = digits_of(alloc, site.digest())?;
    let node = Identity {
        name: site.name(),
        plan: plan.as_str(),
        version: serving.version,
        since: serving.since,
    };
    status_lines(alloc, &node, counts, queues, around)
}

/// The lines of an instance: one of it, one for each caller who brought it, and one for each of its
/// rows.
fn instance_lines(
    alloc: Global,
    uid: &Text,
    body: bool,
    over: bool,
    origin: &Option<Origin>,
    callers: &[Text],
    rows: &[((Text, Text), Progress)],
) -> Result<Vec<u8>, AllocError>
    ensures { IfOk result (λ text.
        text.items
        ≡ instance_line uid.now body over origin.now ++ flat_map from_line callers.now
        ++ flat_map own_row_line rows.now) }
{
    let mut out = Vec::new(alloc);
    put_instance(&mut out, uid, body, over, origin)?;
    put_froms(&mut out, callers)?;
    put_own_rows(&mut out, rows)?;
    Ok(out)
}

/// Whether a row is due at that moment.
fn is_due(first: Option<u64>, now: u64) -> bool {
    match first {
        Some(due) => due <= now,
        None => false,
    }
}

/// That a node isn't well, since one wasn't visited for long.
fn late(alloc: Global, dest: &Text) -> HttpReply {
    let mut text = Vec::new(alloc);
    let status = StatusCode::SERVICE_UNAVAILABLE;
    match put_late(&mut text, dest) {
        Ok(()) => HttpReply {
            status,
            text,
            media: Media::Lines,
        },
        Err(_) => HttpReply::bare(alloc, status),
    }
}

impl<'a, R: Wait, L: Views, B: Sharing> DeskClerk<'a, R, L, B> {
    /// The rows that are wanted, as many as are asked for: those that the book has at one moment.
    ///
    /// Errors: Store, Memory.
    fn page_of(&self, wanted: &Wanted) -> Result<Seq<((Text, Text), Progress)>, LedgerFault>
        ensures { Reading L.site L.book L.bodies L.stands L.failed B.site B.first
            (λ l answer. Reads answer (λ all.
            all ≡ page_wanted (map.entries (L.book l).rows) wanted.now)) result }
    {
        let (rt, alloc, desk) = (self.rt, self.alloc, self.desk);
        let stage = wanted.stage;
        match &wanted.after {
            Some(after) => desk.page(rt, &wanted.dest, stage, after, wanted.limit),
            None => desk.page(rt, &wanted.dest, stage, &Text::empty(alloc), wanted.limit),
        }
    }

    /// A page of the rows that the form asks for.
    pub(crate) fn read_rows(&self, form: &[u8]) -> HttpReply {
        let alloc = self.alloc;
        let wanted = match wanted_of(alloc, form) {
            Ok(wanted) => wanted,
            Err(fault) => return misread(alloc, fault),
        };
        match self.page_of(&wanted) {
            Ok(rows) => reply_with(alloc, row_lines(alloc, rows.as_slice()), Media::Lines),
            Err(fault) => refused_by_ledger(alloc, fault),
        }
    }

    /// What is told of an instance: whether its data set is there, whether its rows are over, who
    /// brought it, and its rows. The lock is given back between one and the next.
    ///
    /// Errors: Store, Memory.
    fn parts_of(
        &self,
        uid: &Text,
    ) -> Result<(bool, bool, Seq<Text>, Seq<((Text, Text), Progress)>), LedgerFault>
        ensures { IfOk result (λ parts. AreParts L.site L.book L.bodies L.stands L.failed B.site
            B.first uid.now parts.0 parts.1 parts.2 parts.3) }
    {
        let (rt, desk) = (self.rt, self.desk);
        let body = desk.has_body(rt, uid)?;
        let over = desk.is_over(rt, uid)?;
        let callers = desk.callers_of(rt, uid)?;
        let rows = desk.rows_of(rt, uid)?;
        Ok((body, over, callers, rows))
    }

    /// The lines of an instance that is there.
    ///
    /// Errors: Store, Memory.
    fn lines_of(&self, uid: &Text) -> Result<Vec<u8>, LedgerFault>
        ensures { IfOk result (λ text.
            IsTold L.site L.book L.bodies L.stands L.failed B.site B.first uid.now text.items) }
    {
        let (body, over, callers, rows) = self.parts_of(uid)?;
        let origin = self.desk.origin_of(self.rt, uid)?;
        let text = instance_lines(
            self.alloc,
            uid,
            body,
            over,
            &origin,
            callers.as_slice(),
            rows.as_slice(),
        )?;
        Ok(text)
    }

    /// What the node has of an instance; None where it has none of that UID.
    ///
    /// Errors: Store, Memory.
    fn instance_text(&self, uid: &Text) -> Result<Option<Vec<u8>>, LedgerFault>
        ensures { IfOk result (λ found. MatchOption found
            (IsMissing L.site L.book L.bodies L.stands L.failed B.site B.first uid.now)
            (λ text. IsTold L.site L.book L.bodies L.stands L.failed B.site B.first uid.now
            text.items)) }
    {
        let (rt, desk) = (self.rt, self.desk);
        if !desk.has(rt, uid)? {
            return Ok(None);
        }
        match self.lines_of(uid) {
            Ok(text) => Ok(Some(text)),
            Err(fault) => Err(fault),
        }
    }

    /// What the node has of the instance that a path names.
    pub(crate) fn read_instance(&self, path: &str) -> HttpReply {
        let alloc = self.alloc;
        let uid = match instance_of(alloc, path) {
            Ok(uid) => uid,
            Err(fault) => return misread(alloc, fault),
        };
        match self.instance_text(&uid) {
            Ok(Some(text)) => reply_with(alloc, Ok(text), Media::Lines),
            Ok(None) => HttpReply::of_fault(alloc, StatusCode::NOT_FOUND, "Instance"),
            Err(fault) => refused_by_ledger(alloc, fault),
        }
    }
}

impl<'a, R: Wait, L: Views, B: Sharing, H: House> NodeReader<'a, R, L, B, H> {
    /// How many rows are on their way to each hop. The lock is taken once for each.
    ///
    /// Errors: Store, Memory.
    fn queues_of(&self) -> Result<Vec<Queue<'a>>, LedgerFault>
        ensures { IfOk result (λ queues.
            mapped (λ q. q.dest.now) queues.items ≡ mapped (λ hop. hop.dest) self.now.hops.now) }
    {
        let (rt, desk, hops, house) = (self.clerk.rt, self.clerk.desk, self.hops, self.house);
        let mut queues = Vec::with_capacity(self.clerk.alloc, hops.len())?;
        for hop in hops {
            let tally = desk.tally(rt, &hop.dest)?;
            let waited = self.waited(&hop.dest, tally.waiting)?;
            let (visit, visits) = (house.visited(&hop.dest), house.visits(&hop.dest));
            queues.push(queue_of(&hop.dest, tally, waited, visit, visits))?;
        }
        Ok(queues)
    }

    /// What a node has, its queues, and what goes on around it. The lock is held while it is
    /// counted, and given back between one hop and the next.
    ///
    /// Errors: Store, Memory.
    pub(crate) fn count_all(&self) -> Result<(Counts, Vec<Queue<'a>>, Around), LedgerFault>
        ensures { IfOk result (λ all.
            mapped (λ q. q.dest.now) all.1.items ≡ mapped (λ hop. hop.dest) self.now.hops.now) }
    {
        let counts = counts_of(self.clerk.desk.totals(self.clerk.rt)?);
        let queues = self.queues_of()?;
        let around = self.house.around(self.moment)?;
        Ok((counts, queues, around))
    }

    /// What a node is, has, and what goes on around it, as lines.
    pub(crate) fn read_status(&self, serving: ServingSince<'_>) -> HttpReply {
        let alloc = self.clerk.alloc;
        let (counts, queues, around) = match self.count_all() {
            Ok(all) => all,
            Err(fault) => return refused_by_ledger(alloc, fault),
        };
        let text = status_of(
            alloc,
            self.clerk.desk.site(),
            serving,
            counts,
            queues.as_slice(),
            &around,
        );
        reply_with(alloc, text, Media::Lines)
    }

    /// What a node has, and what goes on around it, as figures.
    pub(crate) fn read_figures(&self) -> HttpReply {
        let alloc = self.clerk.alloc;
        let (counts, queues, around) = match self.count_all() {
            Ok(all) => all,
            Err(fault) => return refused_by_ledger(alloc, fault),
        };
        let text = figure_lines(alloc, counts, queues.as_slice(), &around);
        reply_with(alloc, text, Media::Figures)
    }

    /// The first node to which a row is due, and which wasn't visited for long.
    ///
    /// Errors: Store, Memory.
    fn late_hop(&self) -> Result<Option<&'a Text>, LedgerFault> {
        let (rt, desk, hops) = (self.clerk.rt, self.clerk.desk, self.hops);
        let (house, now) = (self.house, self.moment);
        for hop in hops {
            if house.is_quiet(&hop.dest, now) && is_due(desk.first_due(rt, &hop.dest)?, now) {
                return Ok(Some(&hop.dest));
            }
        }
        Ok(None)
    }

    /// Whether the node is well: its ledger can be read, it could be written to last, and no node
    /// to which a row is due is left alone.
    pub(crate) fn read_health(&self) -> HttpReply {
        let (rt, alloc, desk) = (self.clerk.rt, self.clerk.alloc, self.clerk.desk);
        if self.house.is_failing() {
            return refused_by_ledger(alloc, LedgerFault::Store);
        }
        if let Err(fault) = desk.has(rt, desk.site().name()) {
            return refused_by_ledger(alloc, fault);
        }
        match self.late_hop() {
            Ok(None) => reply_with(alloc, well_line(alloc), Media::Lines),
            Ok(Some(dest)) => late(alloc, dest),
            Err(fault) => refused_by_ledger(alloc, fault),
        }
    }
}
