//! A service that answers requests of a node's control connection.
ghost use Rattle.std.specs.List.{list_any};
ghost use Rattle.std.specs.Prelude.{◌≡◌, ◌↔◌, IsTrue, codes};
ghost use Rattle.http.specs.Request.{body_of};
ghost use Rattle.dr_run_answer.specs.Answers.{done_line, fault_line};
ghost use Rattle.dr_run_control.specs.Consoles.{Answers, Comes, Goes, Tells, gives_order};
ghost use Rattle.dr_run_control.specs.Consoles.{TellsCopy, goes_to};
ghost use Rattle.dr_run_control.specs.Replies.{IsToldIn, line_of_answer, line_of_backup};
ghost use Rattle.dr_run_control.specs.Replies.{status_of_answer, status_of_backup};
ghost use Rattle.dr_run_request.specs.declared.route.Route.TheVariants as RouteValue;

use crate::reads::{DeskClerk, NodeReader, ServingSince};
use crate::reply::{HttpReply, Media, misread, refusal, refused_by_ledger, respond, uncopied};
use bytes::Bytes;
use dr_base::Text;
use dr_desk::{Pass, SharedDesk, Sharing};
use dr_ledger::LedgerFault;
use dr_ledger_timed::Timing;
use dr_ledger_views::Views;
use dr_run_answer::{Brought, OpenAssociation, Recent, ResponseCount, Visited, Visits, put_done};
use dr_run_backup::BackupFault;
use dr_run_open::NextHop;
use dr_run_request::{
    Access, Browser, Order, Refused, Route, admit, copy_of, is_of_page, order_of, reason_of,
};
use dr_session::Clock;
use http::{Request, StatusCode};
use http_server::{Response, Service};
use std::alloc::{AllocError, Global};
use std::sync::Wait;

/// What goes on around the desk: associations that are open, what each caller has brought since the
/// node serves, what came within the last hour, which responses each caller was sent, and for how
/// long the ledger was locked.
#[derive(Drop)]
pub struct Around {
    pub associations: Vec<OpenAssociation>,
    pub brought: Vec<Brought>,
    pub recents: Vec<Recent>,
    pub responses: Vec<ResponseCount>,
    pub lock: Timing,
}

/// From where rows to a node are to be looked up.
#[derive(Drop)]
pub struct RowSearch {
    /// How often all of them had to be looked up again.
    pub round: u64,
    /// The UID behind which the next ones are.
    pub after: Text,
}

/// The node around the desk: it is told of what is done there, and tells what the desk doesn't
/// know.
pub trait House {
    ghost use Rattle.std.specs.Prelude.{ℕ, List, Result};
    ghost use Rattle.dr_run_backup.specs.declared.fault.BackupFault.{BackupFault as FaultValue};

    // What came of a copy of the ledger to that path.
    ghost copies: { Self → List ℕ → Result (Unit {0}) FaultValue → Type 0 };

    /// Copies the node's ledger to that path. All calls of the desk may wait meanwhile, so none may
    /// be under way.
    ///
    /// Errors: those of `BackupFault`.
    fn back_up(&self, path: &Text) -> Result<(), BackupFault>
        ensures { copies self.now path.now result };

    /// An order was done, or refused by the ledger; with the reason that was given for it.
    fn acted(&self, order: &Order, reason: Option<&Text>, fault: Option<LedgerFault>);

    /// The node is to end in order.
    fn stop(&self);

    /// A request was refused.
    fn refused(&self, why: Refused);

    /// The last visit to a node that ended.
    fn visited(&self, dest: &Text) -> Option<Visited>;

    /// In which ways the visits to a node ended.
    fn visits(&self, dest: &Text) -> Visits;

    /// From where rows to a node are to be looked up that may wait and aren't noted; None where all
    /// are. It is asked where rows wait.
    ///
    /// Errors: want of memory.
    fn search_rows(&self, dest: &Text) -> Result<Option<RowSearch>, AllocError>;

    /// In that round of a search, rows to a node were noted up to a UID; all, where it is None.
    fn note_search(&self, dest: &Text, round: u64, last: Option<Text>);

    /// A row to a node waits, of an instance that came at that moment, or since the node serves
    /// where nobody knows. Where it is noted, the earlier moment stays.
    ///
    /// Errors: want of memory.
    fn note_waiting(&self, dest: &Text, uid: &Text, moment: Option<u64>) -> Result<(), AllocError>;

    /// A row to a node doesn't wait any more.
    fn note_gone(&self, dest: &Text, uid: &Text);

    /// Of the rows to a node that are noted, the UID of the one that waits longest, and since when.
    ///
    /// Errors: want of memory.
    fn longest(&self, dest: &Text) -> Result<Option<(Text, u64)>, AllocError>;

    /// What goes on around the desk, at that moment.
    ///
    /// Errors: want of memory.
    fn around(&self, now: u64) -> Result<Around, AllocError>;

    /// Whether no visit to a node is under way, and none has ended for ten minutes, at that moment.
    fn is_quiet(&self, dest: &Text, now: u64) -> bool;

    /// Whether the store failed when it was written to last.
    fn is_failing(&self) -> bool;
}

/// Answers requests: by the access it is given, over a desk that is shared, with a pass of its own.
#[derive(Drop)]
pub struct Console<'a, R: Wait, L: Views, B: Sharing, C: Clock, H: House> {
    pub rt: &'a R,
    pub alloc: Global,
    pub desk: &'a SharedDesk<L, B>,
    pub pass: &'a mut Pass<B>,
    pub access: &'a Access,
    /// What a browser gives that may act; None where none may.
    pub browser: &'a Option<Browser>,
    pub hops: &'a [NextHop],
    /// The version of the node's program.
    pub version: &'a str,
    /// Since when the node serves, in milliseconds.
    pub since: u64,
    pub clock: &'a C,
    pub house: &'a H,
}

/// The line of an act that was done; where there is no memory for it, none.
fn done_text(alloc: Global) -> Vec<u8>
    ensures { IsToldIn done_line result.items }
{
    let mut text = Vec::new(alloc);
    match put_done(&mut text) {
        Ok(()) => text,
        Err(_) => Vec::new(alloc),
    }
}

/// The reply to an act that was done.
fn done(alloc: Global) -> HttpReply
    ensures status { result.status ≡ 200 }
    ensures text { IsToldIn done_line result.text.items }
{
    HttpReply {
        status: StatusCode::OK,
        text: done_text(alloc),
        media: Media::Lines,
    }
}

/// The reply to what came of an order.
fn answered(alloc: Global, answer: Result<(), LedgerFault>) -> HttpReply
    ensures status { result.status ≡ status_of_answer answer }
    ensures text { IsToldIn (line_of_answer answer) result.text.items }
{
    match answer {
        Ok(()) => done(alloc),
        Err(fault) => refused_by_ledger(alloc, fault),
    }
}

/// The reply where who is to be visited is none to whom this node sends.
fn nowhere(alloc: Global) -> HttpReply
    ensures status { result.status ≡ 404 }
    ensures text { IsToldIn (fault_line (codes "Hop")) result.text.items }
{
    HttpReply::of_fault(alloc, StatusCode::NOT_FOUND, "Hop")
}

/// The reply to what came of a copy.
fn told_of_copy(alloc: Global, came: Result<(), BackupFault>) -> HttpReply
    ensures status { result.status ≡ status_of_backup came }
    ensures text { IsToldIn (line_of_backup came) result.text.items }
{
    match came {
        Ok(()) => done(alloc),
        Err(fault) => uncopied(alloc, fault),
    }
}

/// Whether the node sends to that one.
fn is_hop(hops: &[NextHop], dest: &Text) -> bool
    ensures { result ≡ list_any (goes_to dest.now) hops.now }
{
    hops.iter().any(|hop| hop.dest == *dest)
}

/// Whether who is to be visited is a node to which this one sends.
fn goes(hops: &[NextHop], order: &Order) -> bool
    ensures { IsTrue result ↔ Goes hops.now order.now }
{
    match order {
        Order::Visit(dest) => is_hop(hops, dest),
        Order::Requeue(_) => true,
        Order::RequeueAll(_) => true,
        Order::GiveUp(_) => true,
        Order::Forget(_) => true,
    }
}

/// Whether the node is told what to do by a form.
fn gives_order(route: Route) -> bool
    ensures { result ≡ gives_order route }
{
    match route {
        Route::Requeue | Route::GiveUp | Route::Forget | Route::Visit => true,
        Route::Page | Route::Status | Route::Rows | Route::Instance | Route::Journal => false,
        Route::Metrics | Route::Health | Route::Backup | Route::Stop => false,
    }
}

/// What stands behind the `?` of a request.
fn query_of(request: &Request<Bytes>) -> &[u8] {
    match request.uri().query() {
        Some(query) => query.as_bytes(),
        None => b"".as_slice(),
    }
}

impl<'a, R: Wait, L: Views, B: Sharing, C: Clock, H: House> Console<'a, R, L, B, C, H> {
    /// Who works at its desk.
    fn clerk(&self) -> DeskClerk<'a, R, L, B> {
        DeskClerk {
            rt: self.rt,
            alloc: self.alloc,
            desk: self.desk,
        }
    }

    /// Who looks after the node at this moment.
    fn reader(&self) -> NodeReader<'a, R, L, B, H> {
        NodeReader {
            clerk: self.clerk(),
            hops: self.hops,
            house: self.house,
            moment: self.clock.now(),
        }
    }

    /// Copies the ledger to the path that a form names.
    fn back_up(&self, form: &[u8]) -> HttpReply
        ensures { TellsCopy (H.copies self.now.house.now) form.now result.status
            result.text.items }
    {
        match copy_of(self.alloc, form) {
            Ok(path) => told_of_copy(self.alloc, self.house.back_up(&path)),
            Err(fault) => misread(self.alloc, fault),
        }
    }

    /// The reply to what changes no row.
    fn look(&self, route: Route, request: &Request<Bytes>) -> HttpReply
        ensures stops { route ≡ RouteValue.Stop
            → (result.status ≡ 200) × IsToldIn done_line result.text.items }
        ensures copied { route ≡ RouteValue.Backup
            → TellsCopy (H.copies self.now.house.now) (body_of request.now) result.status
            result.text.items }
    {
        let (version, since) = (self.version, self.since);
        let node = self.reader();
        match route {
            Route::Page => node.read_page(since, self.browser),
            Route::Rows => node.clerk.read_rows(query_of(request)),
            Route::Instance => node.clerk.read_instance(request.uri().path()),
            Route::Journal => node.clerk.read_journal(query_of(request)),
            Route::Status => node.read_status(ServingSince { version, since }),
            Route::Metrics => node.read_figures(),
            Route::Backup => self.back_up(request.body().as_slice()),
            Route::Stop => {
                self.house.stop();
                done(self.alloc)
            }
            Route::Health => node.read_health(),
            Route::Requeue | Route::GiveUp | Route::Forget | Route::Visit => node.read_health(),
        }
    }

    /// Does what is ordered.
    fn do_order(&mut self, order: &Order, reason: Option<&Text>) -> HttpReply
        ensures comes { Comes L.site L.book L.stands L.failed B.site B.first
            self.old.hops.now order.now result.status result.text.items
            self.old.pass.now.made.count self.old.pass.now.receipts.items
            self.new.pass.now.made.count self.new.pass.now.receipts.items }
        ensures access { (self.new.access.now ≡ self.old.access.now)
            × (self.new.browser.now ≡ self.old.browser.now)
            × (self.new.hops.now ≡ self.old.hops.now) }
    {
        if goes(self.hops, order) {
            let (clerk, now) = (self.clerk(), self.clock.now());
            let answer = clerk.act(self.pass, order, now);
            self.house.acted(order, reason, answer.err());
            return answered(self.alloc, answer);
        }
        nowhere(self.alloc)
    }

    /// Does what the form of a route orders.
    fn obey(&mut self, route: Route, form: &[u8]) -> HttpReply
        ensures tells { Tells L.site L.book L.stands L.failed B.site B.first
            self.old.hops.now route form.now result.status result.text.items
            self.old.pass.now.made.count self.old.pass.now.receipts.items
            self.new.pass.now.made.count self.new.pass.now.receipts.items }
        ensures access { (self.new.access.now ≡ self.old.access.now)
            × (self.new.browser.now ≡ self.old.browser.now)
            × (self.new.hops.now ≡ self.old.hops.now) }
    {
        let order = match order_of(self.alloc, route, form) {
            Ok(order) => order,
            Err(fault) => return misread(self.alloc, fault),
        };
        let reason = reason_of(self.alloc, form).unwrap_or(None);
        self.do_order(&order, reason.as_ref())
    }

    /// The reply to a request: an order is done where it may, and what mayn't is refused.
    fn answer(&mut self, request: &Request<Bytes>) -> HttpReply
        ensures answers { Answers L.site L.book L.stands L.failed B.site B.first
            (H.copies self.old.house.now)
            self.old.access.now self.old.browser.now self.old.hops.now request.now
            result.status result.text.items
            self.old.pass.now.made.count self.old.pass.now.receipts.items
            self.new.pass.now.made.count self.new.pass.now.receipts.items }
        ensures access { (self.new.access.now ≡ self.old.access.now)
            × (self.new.browser.now ≡ self.old.browser.now)
            × (self.new.hops.now ≡ self.old.hops.now) }
    {
        let route = match admit(self.access, self.browser, request) {
            Ok(route) => route,
            Err(why) => {
                self.house.refused(why);
                return refusal(self.alloc, why);
            }
        };
        if gives_order(route) {
            return self.obey(route, request.body().as_slice());
        }
        self.look(route, request)
    }
}

impl<'a, R: Wait, L: Views, B: Sharing, C: Clock, H: House> Service for Console<'a, R, L, B, C, H> {
    ghost use Rattle.std.specs.Prelude.{◌≡◌};
    ghost use Rattle.dr_run_control.specs.Consoles.{Answers};

    ghost answers = { λ s request response t.
        Answers L.site L.book L.stands L.failed B.site B.first (H.copies s.house.now)
        s.access.now s.browser.now s.hops.now request response.status response.body.items
        s.pass.now.made.count s.pass.now.receipts.items
        t.pass.now.made.count t.pass.now.receipts.items
        × (t.access.now ≡ s.access.now) × (t.browser.now ≡ s.browser.now)
        × (t.hops.now ≡ s.hops.now) };

    fn call(
        &mut self,
        request: &Request<Bytes>,
        response: &mut Response,
    ) -> Result<(), AllocError> {
        let reply = self.answer(request);
        respond(response, reply, is_of_page(request.body().as_slice()));
        Ok(())
    }
}
