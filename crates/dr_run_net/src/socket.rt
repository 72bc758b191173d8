//! One end of a TCP connection, as the link of an association.
ghost use Rattle.std.specs.Prelude.{◌≡◌, ◌⊎◌, ◌≤◌, ◌<◌, ◌+◌, ◌^◌, false, IfOk, None, Some, length};
ghost use Rattle.std.specs.Prelude.{MatchBool, take};
ghost use Rattle.std.specs.Io.KnownBytes.{ReadConsumes};
ghost use Rattle.dr_ledger.specs.Replies.{HasRisen};
ghost use Rattle.dr_session.specs.Links.{Counts, IsLinkFault};
ghost use Rattle.dr_session.specs.declared.ends.Heard.TheVariants as came;
ghost use Rattle.dr_run_net.specs.Hearing.{Hears, IsAwaited, IsSilent, IsSwift, IsWidened, ear};
ghost use Rattle.dr_run_net.specs.declared.window.Window.{Window as WindowValue};

use crate::limits::{Cut, Limits};
use crate::pacing::{is_past, is_slow, widen};
use crate::quiet::is_quiet;
use crate::window::Window;
use crate::writing::write_in_time;
use dr_base::Text;
use dr_session::{Clock, Heard, Link};
use std::alloc::{AllocError, Global};
use std::io;
use std::io::{Read, Write};
use std::net::{OpenStream, Shutdown};
use std::time::Duration;

/// A late mark comes so many milliseconds behind the last one.
const MARK: u64 = 1_000;

/// A call of the system that writes ends after so many milliseconds, also where it took nothing.
const TURN: u64 = 1_000;

/// The most bytes that one read takes.
const PIECE: usize = 65_536;

/// One end of a connection, with the clock by which it counts. `marked` is the moment of its last
/// late mark, `rested` that since which no message is under way; both begin with the moment at
/// which it was opened. A message is under way from its first byte until something is written: an
/// end writes, or closes, as soon as a message is whole.
#[derive(Drop)]
pub struct Socket<'a, S: Read + Write + OpenStream + Drop, C: Clock> {
    pub(crate) alloc: Global,
    pub(crate) stream: S,
    pub(crate) clock: &'a C,
    pub(crate) limits: Limits,
    pub(crate) cut: &'a Cut,
    pub(crate) piece: Vec<u8>,
    pub(crate) opened: u64,
    pub(crate) marked: u64,
    pub(crate) rested: u64,
    pub(crate) window: Option<Window>,
    pub(crate) warned: bool,
    pub(crate) failures: u64,
    pub ghost early: { opened ≤ 2 ^ 62 },
    pub ghost room: { 0 < length piece.items },
}

/// Room for one read.
fn empty_piece(alloc: Global) -> Result<Vec<u8>, AllocError>
    ensures { IfOk result (λ piece. 0 < length piece.items) }
{
    let piece = vec![in alloc; 0u8; PIECE]?;
    Ok(piece)
}

impl<'a, S: Read + Write + OpenStream + Drop, C: Clock> Socket<'a, S, C> {
    /// The end of a connection that is open from now on. What it writes goes out at once; its reads
    /// and writes don't wait for ever.
    ///
    /// Errors: the system refuses one of these settings; want of memory.
    pub fn new(
        alloc: Global,
        stream: S,
        clock: &'a C,
        limits: Limits,
        cut: &'a Cut,
    ) -> io::Result<Socket<'a, S, C>>
        ensures stream { IfOk result (λ s. s.stream ≡ stream) }
        ensures opened { IfOk result (λ s.
            C.tells clock.now s.opened × (s.marked ≡ s.opened) × (s.rested ≡ s.opened)) }
        ensures limits { IfOk result (λ s.
            (s.limits ≡ limits) × (s.window ≡ None) × (s.warned ≡ false)) }
        ensures faultless { IfOk result (λ s. s.failures ≡ 0) }
    {
        stream.set_nodelay(true)?;
        stream.set_read_timeout(Some(Duration::from_millis(MARK)))?;
        stream.set_write_timeout(Some(Duration::from_millis(TURN)))?;
        let piece = empty_piece(alloc)?;
        let opened = clock.now();
        Ok(Socket {
            alloc,
            stream,
            clock,
            limits,
            cut,
            piece,
            opened,
            marked: opened,
            rested: opened,
            window: None,
            warned: false,
            failures: 0,
        })
    }

    /// One failure more.
    fn fail(&mut self)
        ensures counted { HasRisen self.old.failures self.new.failures }
        ensures grows { self.old.failures ≤ self.new.failures }
        ensures stream { self.new.stream ≡ self.old.stream }
        ensures opened { self.new.opened ≡ self.old.opened }
    {
        self.failures = self.failures.saturating_add(1);
    }

    /// A late mark at that moment.
    fn mark(&mut self, now: u64) -> Heard
        ensures late { result ≡ came.Late }
        ensures marked { self.new.marked ≡ now }
        ensures stream { (self.new.stream ≡ self.old.stream)
            × (self.new.rested ≡ self.old.rested)
            × (self.new.window ≡ self.old.window)
            × (self.new.warned ≡ self.old.warned) }
        ensures failures { self.new.failures ≡ self.old.failures }
    {
        self.marked = now;
        Heard::Late
    }

    /// The other side was silent for too long at that moment, or brought too little: both begin to
    /// count anew.
    fn tire(&mut self, now: u64) -> Heard
        ensures idle { result ≡ came.Idle }
        ensures anew { (self.new.rested ≡ now) × (self.new.window ≡ None) }
        ensures stream { self.new.stream ≡ self.old.stream }
        ensures warned { self.new.warned ≡ self.old.warned }
        ensures failures { self.new.failures ≡ self.old.failures }
    {
        self.rested = now;
        self.window = None;
        Heard::Idle
    }

    /// All links are cut: the end is warned once, and then hears a fault.
    fn cut_off(&mut self, now: u64) -> Heard
        requires told { C.tells self.old.clock.now now }
        ensures hears { Hears (C.tells self.old.clock.now) self.old.limits
            (ear (S.remaining self.old.stream) self.old.marked self.old.rested self.old.window
            self.old.warned)
            result
            (ear (S.remaining self.new.stream) self.new.marked self.new.rested self.new.window
            self.new.warned) }
        ensures counts { Counts (IsLinkFault result) self.old.failures self.new.failures }
    {
        if self.warned {
            self.fail();
            return Heard::Fault;
        }
        let heard = self.tire(now);
        self.warned = true;
        heard
    }

    /// Nothing came in time: a late mark, or silence where nothing came for too long.
    fn wait_on(&mut self) -> Heard
        ensures hears { Hears (C.tells self.old.clock.now) self.old.limits
            (ear (S.remaining self.old.stream) self.old.marked self.old.rested self.old.window
            self.old.warned)
            result
            (ear (S.remaining self.new.stream) self.new.marked self.new.rested self.new.window
            self.new.warned) }
        ensures counts { Counts (IsLinkFault result) self.old.failures self.new.failures }
    {
        let now = self.clock.now();
        if self.is_idle(now) {
            return self.tire(now);
        }
        self.mark(now)
    }

    /// Whether nothing has come for too long between two messages.
    fn is_idle(&self, now: u64) -> bool
        ensures { MatchBool result
            (IsSilent self.now.limits.idle now self.now.rested self.now.window)
            (IsAwaited self.now.limits.idle now self.now.rested self.now.window) }
    {
        match self.window {
            Some(_) => false,
            None => is_past(self.rested, self.limits.idle, now),
        }
    }

    /// One read into the room.
    fn read(&mut self) -> io::Result<usize>
        ensures within { IfOk result (λ count. count ≤ length self.new.piece.items) }
        ensures consumed { ReadConsumes (S.remaining self.old.stream) (S.remaining self.new.stream)
            result self.new.piece.items }
        ensures same { (self.new.marked ≡ self.old.marked)
            × (self.new.rested ≡ self.old.rested)
            × (self.new.window ≡ self.old.window)
            × (self.new.warned ≡ self.old.warned)
            × (self.new.limits ≡ self.old.limits)
            × (self.new.failures ≡ self.old.failures)
            × (self.new.clock ≡ self.old.clock) }
    {
        let Socket { stream, piece, .. } = self;
        stream.read(piece.as_mut_slice())
    }

    /// So many bytes, which were read into the room at that moment.
    fn hear(&mut self, count: usize, now: u64) -> Heard
        requires { count ≤ length self.old.piece.items }
        ensures heard { (result ≡ came.Bytes (take count self.old.piece.items))
            ⊎ (result ≡ came.Memory) }
        ensures window { (window : WindowValue)
            × (self.new.window ≡ Some window)
            × IsWidened now count self.old.window window }
        ensures same { (self.new.stream ≡ self.old.stream)
            × (self.new.marked ≡ self.old.marked)
            × (self.new.rested ≡ self.old.rested)
            × (self.new.warned ≡ self.old.warned)
            × (self.new.failures ≡ self.old.failures) }
    {
        self.window = Some(widen(self.window, count, now));
        match Text::copy_of(self.alloc, &self.piece.as_slice()[..count]) {
            Ok(bytes) => Heard::Bytes(bytes),
            Err(AllocError) => Heard::Memory,
        }
    }

    /// What comes next, where no late mark is due.
    fn hear_next(&mut self, now: u64) -> Heard
        requires told { C.tells self.old.clock.now now }
        requires soon { now < self.old.marked + 1000 }
        requires swift { IsSwift self.old.limits.message now self.old.window }
        ensures hears { Hears (C.tells self.old.clock.now) self.old.limits
            (ear (S.remaining self.old.stream) self.old.marked self.old.rested self.old.window
            self.old.warned)
            result
            (ear (S.remaining self.new.stream) self.new.marked self.new.rested self.new.window
            self.new.warned) }
        ensures counts { Counts (IsLinkFault result) self.old.failures self.new.failures }
    {
        match self.read() {
            Ok(0) => Heard::End,
            Ok(count) => self.hear(count, now),
            Err(error) => self.miss(&error),
        }
    }

    /// A read that failed: since nothing came in time, or else a fault.
    fn miss(&mut self, error: &io::Error) -> Heard
        ensures hears { Hears (C.tells self.old.clock.now) self.old.limits
            (ear (S.remaining self.old.stream) self.old.marked self.old.rested self.old.window
            self.old.warned)
            result
            (ear (S.remaining self.new.stream) self.new.marked self.new.rested self.new.window
            self.new.warned) }
        ensures counts { Counts (IsLinkFault result) self.old.failures self.new.failures }
    {
        if is_quiet(error) {
            return self.wait_on();
        }
        self.fail();
        Heard::Fault
    }
}

impl<'a, S: Read + Write + OpenStream + Drop, C: Clock> Link for Socket<'a, S, C> {
    ghost use Rattle.std.specs.Prelude.{◌≡◌, true};
    ghost use Rattle.std.specs.Io.KnownBytes.{Appends, Keeps};
    ghost use Rattle.dr_run_net.specs.Hearing.{Hears, ear};

    ghost hears = { λ s heard t. Hears (C.tells s.clock.now) s.limits
        (ear (S.remaining s.stream) s.marked s.rested s.window s.warned) heard
        (ear (S.remaining t.stream) t.marked t.rested t.window t.warned) };

    ghost sends = { λ s bytes sent t.
        sent ≡ true → Appends (S.contents s.stream) (S.contents t.stream) bytes };

    ghost closes = { λ s t. t.stream ≡ s.stream };

    ghost failed = { λ s. s.failures };

    ghost opened_at = { λ s. s.opened };

    fn opened(&self) -> u64 {
        self.opened
    }

    /// Silence where a message under way brings too little, or, once, where all links are cut, and
    /// then a fault; a late mark where the last one is a second behind; else what is read.
    fn recv(&mut self) -> Heard {
        let now = self.clock.now();
        if self.cut.is_made() {
            return self.cut_off(now);
        }
        if is_slow(self.window, self.limits.message, now) {
            return self.tire(now);
        }
        if now.saturating_sub(self.marked) >= MARK {
            return self.mark(now);
        }
        self.hear_next(now)
    }

    fn send(&mut self, bytes: &[u8]) -> bool {
        let (limit, cut, clock) = (self.limits.write, self.cut, self.clock);
        if !write_in_time(&mut self.stream, bytes, limit, cut, clock) {
            self.fail();
            return false;
        }
        self.window = None;
        self.rested = self.clock.now();
        true
    }

    /// Both directions end. That the other side was first is no failure.
    fn close(&mut self) {
        let _ended = self.stream.shutdown(Shutdown::Both);
    }

    fn failures(&self) -> u64 {
        self.failures
    }
}
