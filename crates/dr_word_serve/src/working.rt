//! What a node may be asked to do with its ledger.
ghost use Rattle.std.specs.Prelude.{IfOk};
ghost use Rattle.dr_word_serve.specs.Sending.{VisitsBy};
ghost use Rattle.dr_word_serve.specs.Working.{Works};

use crate::running::serve_files;
use crate::submitting::send_files;
use crate::surrounding::System;
use dr_run_backup::Backups;
use dr_run_files::{Failure, Files, NodeFiles};
use dr_run_net::Network;
use dr_run_open::{Ledgers, Status};
use dr_run_serve::{Ending, OwnPort, Tallied};
use dr_session::{Clock, DeskPort};
use dr_word_line::Duty;
use dr_word_list::{GivenUp, HeldRow, LedgerClerk, Registry};
use log::Log;
use std::alloc::Global;
use std::io::Write;
use std::sync::Wait;
use std::thread::Threads;
use std::time;

/// Does what is asked of a node, whose plan, certificate and ledger are in these files.
///
/// Errors: Stream, File.
pub fn work_files<
    'a,
    R: Threads + Wait + Sync + time::Clock,
    F: Files + Backups + Sync,
    O: Ledgers,
    N: Network + Sync,
    C: Clock + Sync,
    G: Log + Sync,
    U: Ending,
    W: Write,
    E: Write,
>(
    rt: &R,
    alloc: Global,
    system: System<'_, F, O, N, C, G, U>,
    given: NodeFiles<'a>,
    duty: Duty<'a>,
    output: &mut W,
    faults: &mut E,
) -> Result<Status, Failure<'a>>
where
    O::Ledger: Send,
    N::Socket: Send,
    N::Listener: Sync,
    ensures { IfOk result
        (Works (F.holds system.entry.files.now) (O.opens system.entry.ledgers.now) O.Ledger.site
        O.Ledger.book O.Ledger.stands
        (VisitsBy (N.connects system.entry.network.now) N.Socket.hears N.Socket.sends
        N.Socket.closes ⟦<OwnPort<O::Ledger> as DeskPort>⟧.step
        ⟦<OwnPort<O::Ledger> as Tallied>⟧.finds (C.tells system.entry.clock.now))
        (C.tells system.entry.clock.now) given.entry duty.entry (W.contents output.old)
        (W.contents output.new)) }
{
    let (files, ledgers) = (system.files, system.ledgers);
    let registry = Registry { files, ledgers };
    let clerk = LedgerClerk {
        output,
        faults,
        registry,
    };
    match duty {
        Duty::Make => clerk.make(alloc, given),
        Duty::MakeWithData => clerk.make_with_data(alloc, given),
        Duty::List => clerk.list(alloc, given),
        Duty::ListLong => clerk.list_long(alloc, given),
        Duty::Summary => clerk.summarize(alloc, given),
        Duty::RequeueAll(dest) => clerk.requeue_all(alloc, given, dest),
        Duty::Requeue(uid, dest) => clerk.requeue(alloc, given, HeldRow { uid, dest }),
        Duty::GiveUp(uid, dest) => {
            let now = system.clock.now();
            clerk.give_up(alloc, given, GivenUp { uid, dest, now })
        }
        Duty::Forget(uid) => clerk.forget(alloc, given, uid),
        Duty::Send(file) => {
            let LedgerClerk { output, faults, .. } = clerk;
            send_files(alloc, system, given, file, output, faults)
        }
        Duty::Serve(serving) => {
            let LedgerClerk { output, faults, .. } = clerk;
            serve_files(rt, alloc, system, given, serving, output, faults)
        }
    }
}
