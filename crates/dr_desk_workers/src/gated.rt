//! A link that passes a gate when a reply was sent, and a door before an association is accepted,
//! and that asks for room before it reads.
ghost use Rattle.std.specs.Prelude.{◌≡◌, ◌⊎◌, ◌≤◌, ◌^◌, ◌↔◌, ℕ, IsTrue, None, true, false};
ghost use Rattle.std.specs.Option.{ForSome};
ghost use Rattle.std.specs.Sync.Mutex.{mutex_guard_value};
ghost use Rattle.dr_ledger.specs.Replies.{HasRisen};
ghost use Rattle.dr_session.specs.Links.{Counts, IsLinkFault};
ghost use Rattle.dr_desk_workers.specs.Hearing.{HearsInside, IsAcceptance, KeepsTurn};

use crate::ahead::Ahead;
use crate::asked::tell_answer;
use crate::counts::SessionCounts;
use crate::door::{Door, Guest, Outside};
use crate::gate::{Gate, Point};
use crate::room::Room;
use crate::said::status_said;
use crate::share::Share;
use dr_pdu::AssociateRq;
use dr_session::{Heard, Link, is_fault};
use std::alloc::Global;
use std::sync::ledger::Ledger;
use std::sync::{Mutex, MutexGuard, Wait};
use std::{mem, time};

/// A connection's link. After a write that was done the gate is passed once for each arrival that
/// was answered and whose reply wasn't sent before. It counts as open from the moment at which a
/// worker took it, however long it waited for one. Where the gate is over, a fault is heard.
///
/// While it has its turn at the door no other connection has, and the others that it counted are
/// those that are open. It has it from when these are counted. What is heard first leaves the turn;
/// to wait for more ends it, and so does what is written, whatever it is. An acceptance is written
/// only after its association was let in, and who is in stays so until the link is left. Where
/// there is no room for what comes, this is heard before each read, until it is answered.
#[derive(Drop)]
pub struct GatedLink<'a, R: Wait + time::Clock, K: Link + Drop, G: Gate, D: Ledger> {
    pub rt: &'a R,
    pub alloc: Global,
    pub link: K,
    pub ahead: Ahead,
    pub request: Option<AssociateRq>,
    pub turn: Option<MutexGuard<'a, Door<D>>>,
    pub asked: bool,
    pub guest: Guest<D>,
    pub others: usize,
    pub gate: &'a G,
    pub session: u64,
    pub counts: &'a SessionCounts,
    pub room: &'a Room,
    pub share: Share,
    pub warned: bool,
    pub taken: u64,
    pub failures: u64,
    pub ghost early: { taken ≤ 2 ^ 62 },
    pub ghost counted: { ForSome turn (λ door. (mutex_guard_value door).tally.total ≡ others) },
    pub ghost outside: { ForSome turn (λ door. guest.inside ≡ false) },
}

/// A link whose session is told how many other associations are open.
pub trait CountingLink: Link {
    ghost counted: { Self → ℕ };

    fn others(&self) -> usize
        ensures { result ≡ counted self.now };
}

/// Whether the bytes are an A-ASSOCIATE-AC, by their type.
fn is_acceptance(bytes: &[u8]) -> bool
    ensures { IsTrue result ↔ IsAcceptance bytes.now }
{
    match bytes {
        [kind, ..] => *kind == 2,
        [] => false,
    }
}

/// Lets an association in, if it is its turn and there is room; says whether it did.
fn let_in<D: Ledger>(turn: Option<MutexGuard<'_, Door<D>>>, guest: &mut Guest<D>) -> bool
    requires { ForSome turn (λ door. guest.old.inside ≡ false) }
    ensures enters { result ≡ true → guest.new.inside ≡ true }
    ensures stays { guest.old.inside ≡ true → guest.new.inside ≡ true }
{
    match turn {
        Some(turn) => {
            let mut turn = turn;
            turn.enter(guest)
        }
        None => false,
    }
}

impl<'a, R: Wait + time::Clock, K: Link + Drop, G: Gate, D: Ledger> GatedLink<'a, R, K, G, D> {
    /// One failure more.
    fn fail(&mut self)
        ensures counted { HasRisen self.old.failures self.new.failures }
        ensures grows { self.old.failures ≤ self.new.failures }
        ensures link { (self.new.link ≡ self.old.link)
            × (self.new.ahead ≡ self.old.ahead)
            × (self.new.guest.inside ≡ self.old.guest.inside) }
        ensures turn { (self.new.turn ≡ self.old.turn) × (self.new.asked ≡ self.old.asked) }
    {
        self.failures = self.failures.saturating_add(1);
    }

    /// What comes next: what was heard ahead, or what the link hears.
    fn hear(&mut self) -> Heard
        ensures hears { HearsInside K.hears self.old.ahead self.old.link self.old.guest.inside
            result self.new.ahead self.new.link self.new.guest.inside }
        ensures counts { Counts (IsLinkFault result) self.old.failures self.new.failures }
        ensures turn { (self.new.turn ≡ self.old.turn) × (self.new.asked ≡ self.old.asked) }
    {
        let heard = match self.ahead.take() {
            Some(heard) => heard,
            None => self.link.recv(),
        };
        if is_fault(&heard) {
            self.fail();
        }
        self.note(&heard);
        heard
    }

    /// Counts the bytes that were heard.
    fn note(&mut self, heard: &Heard)
        ensures same { (self.new.link ≡ self.old.link)
            × (self.new.ahead ≡ self.old.ahead)
            × (self.new.failures ≡ self.old.failures)
            × (self.new.guest.inside ≡ self.old.guest.inside) }
        ensures turn { (self.new.turn ≡ self.old.turn) × (self.new.asked ≡ self.old.asked) }
    {
        if let Heard::Bytes(bytes) = heard {
            self.share.note(bytes.as_bytes().len());
        }
    }

    /// Whether it has to be told, before the next read, that there is no room for it.
    fn is_crowded(&mut self) -> bool
        ensures same { (self.new.link ≡ self.old.link)
            × (self.new.ahead ≡ self.old.ahead)
            × (self.new.failures ≡ self.old.failures)
            × (self.new.guest.inside ≡ self.old.guest.inside) }
        ensures turn { (self.new.turn ≡ self.old.turn) × (self.new.asked ≡ self.old.asked) }
    {
        let (known, warned) = (self.share.is_crowded(), self.warned);
        self.warned = !warned && !self.share.has_room(self.rt, self.room);
        if self.warned && !known {
            self.gate.crowded(self.session);
        }
        self.warned
    }

    /// Tells, once, how the association was answered that was asked for.
    fn tell_answer(&mut self, bytes: &[u8])
        ensures same { (self.new.link ≡ self.old.link)
            × (self.new.failures ≡ self.old.failures)
            × (self.new.guest.inside ≡ self.old.guest.inside) }
        ensures turn { (self.new.turn ≡ self.old.turn) × (self.new.asked ≡ self.old.asked) }
    {
        let request = mem::replace(&mut self.request, None);
        tell_answer(self.alloc, self.gate, self.session, request, bytes);
    }

    /// Tells the status of the response that was sent, if these bytes are one.
    fn tell_status(&self, bytes: &[u8]) {
        if let Ok(Some(status)) = status_said(self.alloc, bytes) {
            self.gate.responded(self.session, status);
        }
    }

    /// It has answered: what it held is free again.
    fn clear(&mut self)
        ensures same { (self.new.link ≡ self.old.link)
            × (self.new.failures ≡ self.old.failures)
            × (self.new.guest.inside ≡ self.old.guest.inside) }
        ensures turn { (self.new.turn ≡ self.old.turn) × (self.new.asked ≡ self.old.asked) }
    {
        self.share.clear(self.rt, self.room);
        self.warned = false;
    }

    /// Its turn at the door ends where more is waited for than the request.
    fn wait_turn(&mut self)
        ensures same { (self.new.link ≡ self.old.link)
            × (self.new.ahead ≡ self.old.ahead)
            × (self.new.failures ≡ self.old.failures)
            × (self.new.guest.inside ≡ self.old.guest.inside) }
        ensures turn { KeepsTurn self.old.asked self.old.turn self.new.turn }
        ensures asked { self.new.asked ≡ true }
    {
        if self.asked {
            self.end_turn();
        }
        self.asked = true;
    }

    /// Its turn at the door is over.
    fn end_turn(&mut self)
        ensures same { (self.new.link ≡ self.old.link)
            × (self.new.ahead ≡ self.old.ahead)
            × (self.new.failures ≡ self.old.failures)
            × (self.new.guest.inside ≡ self.old.guest.inside) }
        ensures turn { (self.new.turn ≡ None) × (self.new.asked ≡ self.old.asked) }
    {
        drop(mem::replace(&mut self.turn, None));
    }

    /// Ends its turn at the door, and lets the association in, if these bytes accept it; says
    /// whether they may be written.
    fn passes_door(&mut self, bytes: &[u8]) -> bool
        ensures enters { result ≡ true → IsAcceptance bytes.now → self.new.guest.inside ≡ true }
        ensures stays { self.old.guest.inside ≡ true → self.new.guest.inside ≡ true }
        ensures link { (self.new.link ≡ self.old.link)
            × (self.new.failures ≡ self.old.failures) }
        ensures turn { (self.new.turn ≡ None) × (self.new.asked ≡ self.old.asked) }
    {
        let turn = mem::replace(&mut self.turn, None);
        if !is_acceptance(bytes) {
            drop(turn);
            return true;
        }
        let_in(turn, &mut self.guest)
    }

    /// It is over: all that it held is free again, its turn too, and its association isn't open any
    /// more. Its guest is outside: it counts none at the door.
    pub fn leave(self, door: &Mutex<Door<D>>) -> Outside<D>
        ensures { result.guest.inside ≡ false }
    {
        let mut link = self;
        link.clear();
        link.end_turn();
        door.lock(link.rt).leave(link.guest)
    }
}

impl<'a, R: Wait + time::Clock, K: Link + Drop, G: Gate, D: Ledger> Link
    for GatedLink<'a, R, K, G, D> {
    ghost use Rattle.std.specs.Prelude.{◌≡◌, None, true};
    ghost use Rattle.dr_desk_workers.specs.Hearing.{HearsInside, KeepsTurn, SendsInside};

    ghost hears = { λ s heard t. HearsInside K.hears s.ahead s.link s.guest.inside heard t.ahead
        t.link t.guest.inside
        × KeepsTurn s.asked s.turn t.turn × (t.asked ≡ true) };

    ghost sends = { λ s bytes sent t. SendsInside K.sends s.link s.guest.inside bytes sent t.link
        t.guest.inside
        × (t.turn ≡ None) × (t.asked ≡ s.asked) };

    ghost closes = { λ s t. K.closes s.link t.link × (t.guest.inside ≡ s.guest.inside)
        × (t.turn ≡ s.turn) × (t.asked ≡ s.asked) };

    ghost failed = { λ s. s.failures };

    ghost opened_at = { λ s. s.taken };

    fn opened(&self) -> u64 {
        self.taken
    }

    fn recv(&mut self) -> Heard {
        self.wait_turn();
        if self.gate.is_over() {
            self.fail();
            return Heard::Fault;
        }
        if self.is_crowded() {
            return Heard::Crowded;
        }
        self.hear()
    }

    fn send(&mut self, bytes: &[u8]) -> bool {
        if !self.passes_door(bytes) {
            self.fail();
            return false;
        }
        let sent = self.link.send(bytes);
        if !sent {
            self.fail();
            return false;
        }
        for _ in 0..self.counts.take_unanswered() {
            self.gate.at(self.session, Point::Answered);
        }
        self.tell_answer(bytes);
        self.tell_status(bytes);
        self.clear();
        true
    }

    fn close(&mut self) {
        self.link.close();
    }

    fn failures(&self) -> u64 {
        self.failures
    }
}

impl<'a, R: Wait + time::Clock, K: Link + Drop, G: Gate, D: Ledger> CountingLink
    for GatedLink<'a, R, K, G, D> {
    ghost counted = { λ s. s.others };

    fn others(&self) -> usize {
        self.others
    }
}
