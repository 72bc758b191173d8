//! Threads that serve connections, each with a pass of its own.
ghost use denote.Param.Send.{IsSend, IsSync};
ghost use Rattle.std.specs.Prelude.{◌≤◌, ◌<◌, ◌≡◌, ◌+◌, ◌-◌, ◌^◌, IfOk, length, vec_len};
ghost use Rattle.dr_session.specs.Ends.{accepting, begins};
ghost use Rattle.dr_session.specs.Links.{EndsAs, place};
ghost use Rattle.dr_session.specs.declared.wishes.Kind.TheVariants as kinds;
ghost use Rattle.dr_desk_workers.specs.Turns.{HasTurn, RunsInTurn};

use crate::ahead::ahead_of;
use crate::asked::request_in;
use crate::bounds::Bounds;
use crate::connection::Connection;
use crate::counts::SessionCounts;
use crate::door::{Outside, PARTS};
use crate::gate::{Gate, Point, REQUEST};
use crate::gated::{CountingLink, GatedLink};
use crate::port::SessionPort;
use crate::share::Share;
use crossbeam_channel::Receiver;
use dr_desk::{Pass, SharedDesk, Sharing, TooManyPasses};
use dr_ledger::Ledger;
use dr_session::{Clock, DeskPort, Ended, LAST_MOMENT, Link, SessionFault, receive};
use dr_site::Site;
use std::alloc::{AllocError, Global};
use std::marker::Brand;
use std::sync::ledger::Blank;
use std::sync::{Wait, ledger};
use std::thread::Threads;
use std::{thread, time};
use thiserror::Error;

/// Why no connection was taken.
#[derive(Clone, Copy, PartialEq, Eq, Debug, Error)]
pub enum WorkersFault {
    #[error("J2 TooManyPasses")]
    TooManyPasses,
    #[error("Memory")]
    Memory,
}

impl From<AllocError> for WorkersFault {
    fn from(_: AllocError) -> WorkersFault {
        WorkersFault::Memory
    }
}

impl From<TooManyPasses> for WorkersFault {
    fn from(_: TooManyPasses) -> WorkersFault {
        WorkersFault::TooManyPasses
    }
}

/// What the workers share of the node: its desk, and who is told of what they do.
#[derive(Drop)]
struct Workshop<'a, R: Wait, L: Ledger, B: Sharing, G: Gate> {
    rt: &'a R,
    alloc: Global,
    desk: &'a SharedDesk<L, B>,
    gate: &'a G,
}

/// Runs up to n workers, 1 to 264, on the connections of a channel until it is closed and empty,
/// and gives back n passes, one for each. All passes are made before any connection is taken. A
/// worker's thread is started where none of those that have begun waits for a connection. Where the
/// system gives no thread, the gate is told, the thread of the caller serves, and no more are
/// started. Each connection is served with one session, of which no fault ends another.
///
/// At most 256 associations are open at a time. A request is answered once it is there whole. The
/// others that are open are counted, the request is answered, and its association is counted in, in
/// one step under the lock of a `Door`; it is counted out when its session has ended, after its
/// last write. Where more is waited for than the request, the lock is let go first, and nothing is
/// accepted any more. The number that a session is told is that of the others: the door's, which is
/// the sum of what each worker counts, one while its association is open and none else
/// (`Gate::counted`). So with more than 256 workers one is left that rejects what is too much.
///
/// All associations together hold at most `memory` bytes of data sets. One for which there is no
/// room waits for it for a second; then what it brought is let go, and it is answered A700H.
///
/// Errors: TooManyPasses, Memory; then no connection was taken.
pub fn workers<
    R: Threads + Wait + Sync + time::Clock,
    L: Ledger + Send,
    B: Sharing + Send + Sync,
    K: Link + Drop + Send,
    C: Clock + Drop + Send,
    G: Gate + Sync,
>(
    rt: &R,
    alloc: Global,
    n: usize,
    memory: u64,
    connections: &Receiver<Connection<K, C>>,
    desk: &SharedDesk<L, B>,
    gate: &G,
) -> Result<Vec<Pass<B>>, WorkersFault>
    requires { (1 ≤ n) × (n ≤ 264) }
    ensures { IfOk result (λ passes. vec_len passes ≡ n) }
{
    let mut passes = Vec::with_capacity(alloc, n)?;
    for _i in 0..n {
        let pass = desk.pass(rt, alloc)?;
        passes.push_reserved(pass);
    }
    let workshop = Workshop {
        rt,
        alloc,
        desk,
        gate,
    };
    let (blank, room) = (Blank::new(PARTS), passes.as_mut_slice());
    workshop.serve_all::<K, C, Brand>(memory, connections, room, blank)?;
    Ok(passes)
}

impl<
    'a,
    R: Threads + Wait + Sync + time::Clock,
    L: Ledger + Send,
    B: Sharing + Send + Sync,
    G: Gate + Sync,
> Workshop<'a, R, L, B, G> {
    /// Runs workers with a pass for each: behind a door of the brand D, so that no guest of another
    /// door can be handed in.
    fn serve_all<K: Link + Drop + Send, C: Clock + Drop + Send, D: ledger::Ledger + Send>(
        &self,
        memory: u64,
        connections: &Receiver<Connection<K, C>>,
        passes: &mut [Pass<B>],
        blank: Blank,
    ) -> Result<(), AllocError>
        requires blank { (blank.name ≡ D.name) × (blank.parts ≡ D.parts) × (D.parts ≡ 265) }
        requires few { length passes.old ≤ 264 }
    {
        let (bounds, guests) = Bounds::<D>::new(self.alloc, blank, passes.len(), memory)?;
        self.start_as_needed(&bounds, connections, passes, guests);
        Ok(())
    }

    /// Starts a worker, in a thread of its own, whenever no other waits for a connection, one for
    /// each pass at most, until the channel is closed and empty and all of them are back.
    fn start_as_needed<K: Link + Drop + Send, C: Clock + Drop + Send, D: ledger::Ledger + Send>(
        &self,
        bounds: &Bounds<D>,
        connections: &Receiver<Connection<K, C>>,
        passes: &mut [Pass<B>],
        guests: Vec<Outside<D>>,
    ) {
        thread::scope(
            thread::scope_env(),
            self.rt,
            move |scope|
                requires { IsSync R.row × IsSend L.row × IsSend B.row × IsSync B.row × IsSend K.row
                    × IsSend C.row × IsSync G.row × IsSend D.row }
            {
                let mut begun = 0usize;
                for (pass, guest) in passes.iter_mut().zip(guests) {
                    if !bounds.staff.admit(self.rt) {
                        return;
                    }
                    let started = scope.spawn(move || self.work(bounds, connections, guest, pass));
                    if let Err(refused) = started {
                        self.gate.lacks(begun);
                        (refused.value)();
                        return;
                    }
                    begun = begun.saturating_add(1);
                }
            },
        );
    }
}

/// From when on the session's own timer counts, so that it is over when the caller's time is, which
/// begins when a worker takes its connection.
fn counted_from(taken: u64, awaits: u64) -> u64
    ensures early { result ≤ 2 ^ 62 }
    ensures counted { taken + awaits < 2 ^ 62 → result ≡ taken + awaits - 30000 }
{
    taken
        .saturating_add(awaits)
        .saturating_sub(REQUEST)
        .min(LAST_MOMENT)
}

/// A session on a link that has counted the other associations: it is told just their number.
fn receive_counted<K: CountingLink, P: DeskPort, C: Clock>(
    alloc: Global,
    link: &mut K,
    site: &Site,
    port: &mut P,
    clock: &C,
) -> Result<Ended, SessionFault>
    ensures { EndsAs K.hears K.sends K.closes P.step (C.tells clock.now) (K.counted link.old)
        kinds.Receive result
        (place link.old port.old
        (begins site.now.max_pdu (accepting site.now (K.opened_at link.old)))) link.new port.new }
{
    let others = link.others();
    receive(alloc, link, site, port, clock, others)
}

impl<'a, R: Wait + time::Clock, L: Ledger, B: Sharing, G: Gate> Workshop<'a, R, L, B, G> {
    /// Serves until the channel is closed and empty.
    fn work<K: Link + Drop, C: Clock + Drop, D: ledger::Ledger>(
        &self,
        bounds: &Bounds<D>,
        connections: &Receiver<Connection<K, C>>,
        guest: Outside<D>,
        pass: &mut Pass<B>,
    ) {
        let (rt, staff, mut guest) = (self.rt, &bounds.staff, guest);
        for connection in connections.iter(rt) {
            staff.take(rt);
            guest = self.serve(bounds, connection, guest, pass);
            staff.give_back(rt);
        }
        staff.end(rt);
    }

    /// Serves one connection to its end, however the session ends. The session counts from this
    /// moment, and its length from that at which the connection came. The guest is outside again.
    fn serve<K: Link + Drop, C: Clock + Drop, D: ledger::Ledger>(
        &self,
        bounds: &Bounds<D>,
        connection: Connection<K, C>,
        guest: Outside<D>,
        pass: &mut Pass<B>,
    ) -> Outside<D> {
        let Connection {
            session,
            link,
            clock,
        } = connection;
        self.gate.at(session, Point::Taken);
        let counts = SessionCounts::new(session);
        let opened = link.opened();
        let (ended, guest) = self.receive_gated(bounds, link, &clock, &counts, guest, pass);
        self.gate.ended(
            session,
            ended,
            counts.tally(clock.now().saturating_sub(opened)),
        );
        guest
    }

    /// A link behind a gate, once what comes first is there, and it is its turn at the door: it has
    /// the turn, and what is ahead of its session is what its own connection brought.
    fn at_the_door<K: Link + Drop, C: Clock, D: ledger::Ledger>(
        &'a self,
        bounds: &'a Bounds<D>,
        link: K,
        clock: &C,
        counts: &'a SessionCounts,
        guest: Outside<D>,
    ) -> GatedLink<'a, R, K, G, D>
        ensures { HasTurn K.hears link result }
    {
        let (rt, alloc, gate, session) = (self.rt, self.alloc, self.gate, counts.session);
        let (mut link, taken) = (link, clock.now());
        let ahead = ahead_of(alloc, &mut link, gate, clock, taken);
        let request = request_in(alloc, &ahead);
        let taken = counted_from(taken, gate.awaits());
        let turn = bounds.door.lock(rt);
        let others = turn.count();
        gate.counted(session, others, &turn);
        GatedLink {
            rt,
            alloc,
            link,
            ahead,
            request,
            turn: Some(turn),
            asked: false,
            guest: guest.into_guest(),
            others,
            gate,
            session,
            counts,
            room: &bounds.room,
            share: Share::new(),
            warned: false,
            taken,
            failures: 0,
        }
    }

    /// A session behind a gate, on a link of the connection that has its turn at the door, and
    /// beside as many others as that link counted. Who was let in is counted out when the session
    /// has ended.
    fn receive_gated<K: Link + Drop, C: Clock, D: ledger::Ledger>(
        &'a self,
        bounds: &'a Bounds<D>,
        link: K,
        clock: &C,
        counts: &SessionCounts,
        guest: Outside<D>,
        pass: &mut Pass<B>,
    ) -> (Result<Ended, SessionFault>, Outside<D>)
        ensures { RunsInTurn K.hears ⟦<GatedLink<'a, R, K, G, D> as Link>⟧.hears
            ⟦<GatedLink<'a, R, K, G, D> as Link>⟧.sends
            ⟦<GatedLink<'a, R, K, G, D> as Link>⟧.closes
            ⟦<SessionPort<'a, R, L, B, G> as DeskPort>⟧.step (C.tells clock.now)
            (λ port. port.pass.now) self.now.desk.now.site link pass.old result.0 }
    {
        let (rt, alloc, desk) = (self.rt, self.alloc, self.desk);
        let (gate, session) = (self.gate, counts.session);
        let mut link = self.at_the_door(bounds, link, clock, counts, guest);
        let mut port = SessionPort {
            rt,
            alloc,
            desk,
            pass,
            gate,
            session,
            counts,
        };
        let ended = receive_counted(alloc, &mut link, desk.site(), &mut port, clock);
        (ended, link.leave(&bounds.door))
    }
}
