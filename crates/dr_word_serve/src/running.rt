//! The word `serve`.
ghost use Rattle.dr_run_open.specs.declared.ledgers.Making.TheVariants.{Allowed, Never};
ghost use Rattle.std.specs.Prelude.{cond, option_map};
ghost use Rattle.std.specs.Prelude.{◌≡◌, ◌*◌, max, IfErr, IfOk, MatchResult, Result};
ghost use Rattle.dr_base.specs.Texts.{Text as Words};
ghost use Rattle.dr_run_open.specs.Ends.{Ends};
ghost use Rattle.dr_run_open.specs.declared.halt.Halt.{Halt as HaltValue};
ghost use Rattle.dr_word_serve.specs.Serving.{Grew, IsUnheard, IsUnserved, Serves};

use crate::surrounding::System;
use dr_base::Text;
use dr_ledger::LedgerFault;
use dr_ledger_report::report_of;
use dr_ledger_views::Views;
use dr_plan_model::Listens;
use dr_run_backup::Backups;
use dr_run_files::{Failure, Files, NodeFiles};
use dr_run_net::{Limits, Listening, Network};
use dr_run_open::{Halt, Ledgers, Making, NextHop, Opened, Status, finish, hops_of, open_node};
use dr_run_report::{OwnPaths, Paths, test_path};
use dr_run_serve::{
    ControlPlace, ControlPort, Ending, FileMonitor, Means, Monitor, ServeFault, StopSign, Terms,
    serve,
};
use dr_run_shown::Escaped;
use dr_session::{Clock, Link};
use dr_site::Site;
use dr_word_line::{Serving, Verbosity, Waits};
use log::{LevelFilter, Log, Logged, info};
use std::alloc::{AllocError, Global};
use std::io::{ErrorKind, Write};
use std::sync::{Arc, Wait};
use std::thread::Threads;
use std::{io, time};

/// The events that are logged.
fn level_of(verbosity: Verbosity) -> LevelFilter {
    match verbosity {
        Verbosity::Errors => LevelFilter::Error,
        Verbosity::Events => LevelFilter::Info,
        Verbosity::Everything => LevelFilter::Debug,
    }
}

/// Why a node that served has no report.
fn unserved<'a>(fault: ServeFault) -> Halt<'a>
    ensures { IsUnserved result }
{
    match fault {
        ServeFault::Receipt => Halt::Receipt,
        ServeFault::Store => Halt::Refused(LedgerFault::Store),
        ServeFault::Memory => Halt::Memory,
    }
}

/// What binds to the address of a node, where it has one.
///
/// Errors: Failed with the node's name where it listens nowhere, or its address can't be bound to.
fn bind_node<'a, N: Network>(
    alloc: Global,
    network: &N,
    listens: &Listens,
    node: &'a str,
) -> Result<N::Listener, Failure<'a>> {
    let Some(address) = listens.door() else {
        return Err(Failure::File(node, io::Error::new(ErrorKind::InvalidInput, "Nowhere")));
    };
    match network.listen(alloc, address) {
        Ok(listener) => Ok(listener),
        Err(error) => Err(Failure::File(node, error)),
    }
}

/// Where the site's node listens, by the sealed plan.
///
/// Errors: NoNode; Failed with the node's name where it listens nowhere, or its address can't be
/// bound to.
fn listen_at<'a, L: Views + Drop, N: Network>(
    alloc: Global,
    opened: &Opened<L>,
    network: &N,
    node: &'a str,
) -> Result<N::Listener, Halt<'a>>
    ensures { IfErr result (IsUnheard opened.now.sealed.plan opened.now.site.name) }
{
    let Some(node_there) = opened.sealed.plan().node(opened.site.name()) else {
        return Err(Halt::NoNode);
    };
    match bind_node(alloc, network, &node_there.listens, node) {
        Ok(listener) => Ok(listener),
        Err(failure) => Err(Halt::Failed(failure)),
    }
}

/// Serves on a ledger of the site; the report of what it then has, and the ledger.
///
/// Errors: Receipt, Refused with Store or Memory, Memory.
fn serve_ledger<
    'a,
    R: Threads + Wait + Sync + time::Clock,
    L: Views + Drop + Send,
    K: Link + Drop + Send,
    D: Listening<Socket = K> + Sync,
    N: Network + Sync,
    C: Clock + Sync,
    G: Monitor + Sync,
>(
    rt: &R,
    alloc: Global,
    ledger: L,
    site: Site,
    hops: Vec<NextHop>,
    terms: Terms<'_>,
    means: Means<'_, D, N, C, G>,
) -> Result<(Text, L), Halt<'a>>
where
    N::Socket: Send,
    N::Listener: Sync,
    requires { L.site ledger ≡ site }
    ensures { MatchResult result
        (λ told. L.stands told.1 → Grew site site.name (L.book ledger) (L.book told.1) told.0)
        IsUnserved }
{
    let Ok(name) = site.name().clone() else {
        drop(ledger);
        drop(site);
        drop(hops);
        return Err(Halt::Memory);
    };
    let served = serve::<R, L, K, D, N, C, G>(rt, alloc, ledger, site, hops, terms, means);
    let mut ledger = match served {
        Ok(ledger) => ledger,
        Err(fault) => return Err(unserved(fault)),
    };
    match report_of(alloc, &name, &mut ledger) {
        Ok(report) => Ok((report, ledger)),
        Err(fault) => {
            drop(ledger);
            Err(Halt::Refused(fault))
        }
    }
}

/// Serves by these means on the ledger of a node that was opened; the report of what it then has,
/// and the ledger.
///
/// Errors: Receipt, Refused with Store or Memory, Memory.
fn serve_opened<
    'a,
    R: Threads + Wait + Sync + time::Clock,
    L: Views + Drop + Send,
    K: Link + Drop + Send,
    D: Listening<Socket = K> + Sync,
    N: Network + Sync,
    C: Clock + Sync,
    G: Monitor + Sync,
>(
    rt: &R,
    alloc: Global,
    opened: Opened<L>,
    terms: Terms<'_>,
    means: Means<'_, D, N, C, G>,
) -> Result<(Text, L), Halt<'a>>
where
    N::Socket: Send,
    N::Listener: Sync,
    requires { L.site opened.ledger ≡ opened.site }
    ensures { MatchResult result
        (λ told. L.stands told.1
        → Grew opened.site opened.site.name (L.book opened.ledger) (L.book told.1) told.0)
        IsUnserved }
{
    let Ok(hops) = hops_of(alloc, &opened.site, opened.sealed.plan()) else {
        drop(opened);
        return Err(Halt::Memory);
    };
    let Opened {
        sealed,
        site,
        ledger,
    } = opened;
    drop(sealed);
    serve_ledger::<R, L, K, D, N, C, G>(rt, alloc, ledger, site, hops, terms, means)
}

/// Tells that a node serves so many associations, by how many threads, with how many megabytes for
/// data sets, how many seconds it waits for its peers, and when it forgets.
fn tell_serving<G: Monitor>(log: &G, given: NodeFiles<'_>, serving: Serving<'_>, workers: usize) {
    let (node, ledger) = (
        Escaped(given.node.as_bytes()),
        Escaped(given.ledger.as_bytes()),
    );
    let links = serving.links;
    info!(log; target: "node", "serves node=\"{node}\" ledger=\"{ledger}\" associations={links}");
    let Waits {
        connect,
        request,
        write,
        message,
        idle,
    } = serving.waits;
    let memory = serving.memory;
    info!(
        log; target: "node",
        "limits workers={workers} memory={memory} connect={connect} request={request} write={write} message={message} idle={idle}"
    );
    match serving.forget_after {
        Some(days) => info!(log; target: "node", "forgets after={days} unit=days"),
        None => info!(log; target: "node", "forgets nothing"),
    }
}

/// Whether a node that serves may make its ledger's file.
fn making_of(serving: Serving<'_>) -> Making
    ensures { result ≡ cond serving.entry.must_exist Never Allowed }
{
    if serving.must_exist {
        return Making::Never;
    }
    Making::Allowed
}

/// So many milliseconds, of 1 s at least.
fn milliseconds(seconds: u32) -> u64
    ensures { result ≡ 1000 * max 1 seconds }
{
    u64::from(seconds.max(1)) * 1_000
}

/// The limits of a node's links.
fn limits_of(waits: Waits) -> Limits
    ensures { result ≡ record {
      connect = 1000 * max 1 waits.connect;
      write = 1000 * max 1 waits.write;
      message = 1000 * max 1 waits.message;
      idle = 1000 * max 1 waits.idle;
    } }
{
    Limits {
        connect: milliseconds(waits.connect),
        write: milliseconds(waits.write),
        message: milliseconds(waits.message),
        idle: milliseconds(waits.idle),
    }
}

/// So many days in milliseconds; None for ever.
fn span_of(days: Option<u32>) -> Option<u64>
    ensures { result ≡ option_map (λ n. 86400000 * n) days }
{
    match days {
        Some(days) => Some(u64::from(days) * 86_400_000),
        None => None,
    }
}

/// On what terms a node serves that may be asked to end.
fn terms_of<'x>(
    serving: Serving<'_>,
    stop: &'x StopSign,
    control: Option<&'x ControlPort>,
) -> Terms<'x> {
    Terms::new(
        u64::from(serving.links),
        usize::from(serving.workers),
        u64::from(serving.memory) * 1_000_000,
        stop,
        control,
    )
    .forgetting(span_of(serving.forget_after))
    .awaiting(milliseconds(serving.waits.request))
}

/// Opens a node and serves at its address, seen by a monitor; the report of what it then has.
///
/// Errors: those of `open_node`; Failed with the node's name where it listens nowhere, or its
/// address can't be bound to; those of `serve_opened`.
fn serve_node<
    'a,
    R: Threads + Wait + Sync + time::Clock,
    F: Files,
    O: Ledgers,
    N: Network + Sync,
    C: Clock + Sync,
    G,
    U,
    M: Monitor + Sync,
>(
    rt: &R,
    alloc: Global,
    system: System<'_, F, O, N, C, G, U>,
    monitor: &M,
    given: NodeFiles<'a>,
    serving: Serving<'a>,
    terms: Terms<'_>,
) -> Result<Text, Halt<'a>>
where
    O::Ledger: Send,
    N::Socket: Send,
    N::Listener: Sync,
    ensures { Serves (F.holds system.entry.files.now given.entry.plan.now)
        (F.holds system.entry.files.now given.entry.certificate.now)
        (O.opens system.entry.ledgers.now given.entry.ledger.now) O.Ledger.site O.Ledger.book
        O.Ledger.stands given.entry.node.now result }
{
    let opened = open_node(
        alloc,
        system.files,
        system.ledgers,
        given,
        making_of(serving),
    )?;
    let network = system.network.within(limits_of(serving.waits));
    let listener = match listen_at(alloc, &opened, &network, given.node) {
        Ok(listener) => listener,
        Err(halt) => {
            drop(opened);
            return Err(halt);
        }
    };
    tell_serving(monitor, given, serving, terms.workers());
    let means = Means {
        listener: &listener,
        network: &network,
        clock: system.clock,
        log: monitor,
    };
    let served = serve_opened::<R, O::Ledger, N::Socket, N::Listener, N, C, M>(
        rt, alloc, opened, terms, means,
    );
    match served {
        Ok((report, ledger)) => {
            drop(ledger);
            Ok(report)
        }
        Err(halt) => Err(halt),
    }
}

/// Tests, before anything is opened, that a report takes no place of the node's own files, nor that
/// of a file that isn't a report.
///
/// Errors: File, with the report's path.
fn test_report<'a, P: Paths>(
    alloc: Global,
    paths: &P,
    given: NodeFiles<'a>,
    report: Option<&'a str>,
) -> Result<(), Failure<'a>> {
    let Some(path) = report else {
        return Ok(());
    };
    let own = OwnPaths {
        plan: given.plan,
        certificate: given.certificate,
        ledger: given.ledger,
    };
    match test_path(alloc, paths, own, path) {
        Ok(()) => Ok(()),
        Err(error) => Err(Failure::File(path, error)),
    }
}

/// What asks the node to end: the end of the input, if that is wanted.
///
/// Errors: Stream, where there is no memory, or no thread for the input.
fn stop_of<'a, U: Ending>(
    alloc: Global,
    serving: Serving<'a>,
    ending: &U,
) -> Result<Arc<StopSign, Global>, Failure<'a>> {
    let Ok(stop) = Arc::new(alloc, StopSign::new()) else {
        return Err(Failure::Stream(io::Error::from(AllocError)));
    };
    if !serving.until_input_ends {
        return Ok(stop);
    }
    let Ok(watched) = Arc::try_clone(&stop) else {
        return Err(Failure::Stream(io::Error::from(AllocError)));
    };
    match ending.watch(watched) {
        Ok(()) => Ok(stop),
        Err(error) => Err(Failure::Stream(error)),
    }
}

/// Listens where the node may be asked and told to act, if it may.
///
/// Errors: File with the address, where nothing listens there, or its token is refused.
fn control_of<'a, U: Ending>(
    alloc: Global,
    serving: Serving<'a>,
    ending: &U,
) -> Result<Option<ControlPort>, Failure<'a>> {
    let Some(control) = serving.control else {
        return Ok(None);
    };
    let place = ControlPlace {
        at: control.at,
        token: control.token,
        host: control.host,
        is_for_anyone: control.is_for_anyone,
    };
    match ending.open_control(alloc, place) {
        Ok(port) => Ok(Some(port)),
        Err(error) => Err(Failure::File(control.at, error)),
    }
}

/// Opens a node and serves at its address, until its input or who asks over its control connection
/// ends it, where either may; the report of what it then has.
///
/// Errors: Stream where the system gives no thread for the input; File with the control's address,
/// where nothing may listen there. The others are those of `serve_node`.
fn serve_until_ended<
    'a,
    R: Threads + Wait + Sync + time::Clock,
    F: Files,
    O: Ledgers,
    N: Network + Sync,
    C: Clock + Sync,
    G,
    U: Ending,
    M: Monitor + Sync,
>(
    rt: &R,
    alloc: Global,
    system: System<'_, F, O, N, C, G, U>,
    monitor: &M,
    given: NodeFiles<'a>,
    serving: Serving<'a>,
) -> Result<Result<Text, Halt<'a>>, Failure<'a>>
where
    O::Ledger: Send,
    N::Socket: Send,
    N::Listener: Sync,
    ensures { IfOk result (Serves (F.holds system.entry.files.now given.entry.plan.now)
        (F.holds system.entry.files.now given.entry.certificate.now)
        (O.opens system.entry.ledgers.now given.entry.ledger.now) O.Ledger.site O.Ledger.book
        O.Ledger.stands given.entry.node.now) }
{
    let stop = stop_of(alloc, serving, system.ending)?;
    let control = control_of(alloc, serving, system.ending)?;
    let terms = terms_of(serving, stop.as_ref(), control.as_ref());
    let came = serve_node(rt, alloc, system, monitor, given, serving, terms);
    drop(control);
    Ok(came)
}

/// Serves at the address of a node, whose plan, certificate and ledger are in these files, and
/// sends what is due. After so many connections (for 0 never), or where that is asked for when the
/// input has ended, the node's report is printed. Events are logged as they happen; where a file is
/// named for it, the report is written there too, at most every ten seconds. Where an address is
/// named for it, the node may be asked there what it has, and told to act.
///
/// Errors: Stream, also where the system gives no thread for the input; File; File with the node's
/// name where it listens nowhere or its address can't be bound to, with the report's path where no
/// report may be written there, and with the control's address where nothing may listen there.
pub fn serve_files<
    'a,
    R: Threads + Wait + Sync + time::Clock,
    F: Files + Backups + Sync,
    O: Ledgers,
    N: Network + Sync,
    C: Clock + Sync,
    G: Log + Sync,
    U: Ending,
    W: Write,
    E: Write,
>(
    rt: &R,
    alloc: Global,
    system: System<'_, F, O, N, C, G, U>,
    given: NodeFiles<'a>,
    serving: Serving<'a>,
    output: &mut W,
    faults: &mut E,
) -> Result<Status, Failure<'a>>
where
    O::Ledger: Send,
    N::Socket: Send,
    N::Listener: Sync,
    ensures { IfOk result (λ status. (came : Result Words HaltValue)
        × Serves (F.holds system.entry.files.now given.entry.plan.now)
        (F.holds system.entry.files.now given.entry.certificate.now)
        (O.opens system.entry.ledgers.now given.entry.ledger.now) O.Ledger.site O.Ledger.book
        O.Ledger.stands given.entry.node.now came
        × Ends came (W.contents output.old) (W.contents output.new) status) }
{
    test_report(alloc, system.files, given, serving.report)?;
    let logged = Logged::new((), level_of(serving.verbosity), system.log);
    let monitor = FileMonitor {
        log: &logged,
        files: system.files,
        path: serving.report,
        ledger: given.ledger,
    };
    let came = serve_until_ended(rt, alloc, system, &monitor, given, serving)?;
    finish(came, output, faults)
}
