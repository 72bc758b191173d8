//! The word `send`.
ghost use Rattle.std.specs.Prelude.{◌≡◌, IfOk, MatchResult, Ok, Result};
ghost use Rattle.std.specs.declared.option.Option.{Option};
ghost use Rattle.std.specs.Io.KnownBytes.{Appends};
ghost use Rattle.dr_base.specs.Texts.{Text as Words};
ghost use Rattle.dr_route.specs.Routes.{local};
ghost use Rattle.dr_ledger.specs.Items.{instance_of};
ghost use Rattle.dr_ledger.specs.Replies.{Arrives};
ghost use Rattle.dr_ledger.specs.SiteRoutes.{site_routing};
ghost use Rattle.dr_ledger.specs.declared.item.Arrived.{Arrived as ArrivedValue};
ghost use Rattle.dr_run_open.specs.Ends.{Ends};
ghost use Rattle.dr_run_open.specs.Hops.{hops_from};
ghost use Rattle.dr_run_open.specs.declared.halt.Halt.{Halt as HaltValue};
ghost use Rattle.dr_word_serve.specs.Sending.{IsUnsent, ReadsFrom, ReportsVisited, Sends, SentFrom};
ghost use Rattle.dr_word_serve.specs.Sending.{VisitsBy, arrived_line};

use crate::surrounding::System;
use dr_base::Text;
use dr_ledger::{Arrived, Item, Ledger, LedgerFault};
use dr_ledger_report::report_of;
use dr_run_files::{Failure, Files, NodeFiles, read_file};
use dr_run_net::Network;
use dr_run_open::{
    Halt, Ledgers, Making, NextHop, Opened, Status, finish, hops_of, item_of, open_node,
};
use dr_run_serve::{OwnPort, Tallied, visit_each};
use dr_session::{Clock, DeskPort};
use dr_site::Site;
use std::alloc::Global;
use std::io::Write;

/// A node that sends: its part of the plan, and where it sends.
#[derive(Clone, Copy)]
struct SendingNode<'a> {
    site: &'a Site,
    hops: &'a [NextHop],
}

/// What is printed of an arrival.
fn word_of(arrived: Arrived) -> &'static [u8]
    ensures { result.now ≡ arrived_line arrived }
{
    match arrived {
        Arrived::New => b"new\n",
        Arrived::Again => b"again\n",
    }
}

/// The instance in a Part 10 file.
///
/// Errors: NoInstance; Failed where the file isn't read.
fn read_instance<'a, F: Files>(alloc: Global, files: &F, file: &'a str) -> Result<Item, Halt<'a>>
    ensures { ReadsFrom (F.holds files.now file.now) result }
{
    let text = read_file(alloc, files, file)?;
    match item_of(alloc, text.as_slice()) {
        Ok(item) => Ok(item),
        Err(fault) => Err(Halt::NoInstance(fault)),
    }
}

/// Brings an instance to the node's ledger, as one that enters there.
///
/// Errors: those of `arrive`.
fn submit<L: Ledger>(alloc: Global, ledger: &mut L, item: Item) -> Result<Arrived, LedgerFault>
    ensures { IfOk result (λ arrived. L.stands ledger.new
        → Arrives (site_routing (L.site ledger.old)) local (instance_of item)
        (L.book ledger.old) (Ok arrived) (L.book ledger.new)) }
{
    let local = Text::copy_of(alloc, b"-")?;
    ledger.arrive(&local, item)
}

/// Brings an instance to the node's ledger, and prints what that answers.
///
/// Errors: Refused; Failed where the output failed.
fn take_in<'a, L: Ledger, W: Write>(
    alloc: Global,
    ledger: &mut L,
    item: Item,
    output: &mut W,
) -> Result<(), Halt<'a>>
    ensures { MatchResult result
        (λ done. (arrived : ArrivedValue)
        × (L.stands ledger.new
        → Arrives (site_routing (L.site ledger.old)) local (instance_of item)
        (L.book ledger.old) (Ok arrived) (L.book ledger.new))
        × Appends (W.contents output.old) (W.contents output.new) (arrived_line arrived)) IsUnsent }
{
    let arrived = match submit(alloc, ledger, item) {
        Ok(arrived) => arrived,
        Err(fault) => return Err(Halt::Refused(fault)),
    };
    match output.write_all(word_of(arrived)) {
        Ok(()) => Ok(()),
        Err(error) => Err(Halt::Failed(Failure::Stream(error))),
    }
}

/// Visits each hop of the node once, and reports then what its ledger has.
///
/// Errors: those of a visit; Store, Memory.
fn send_due<L: Ledger, N: Network, C: Clock>(
    alloc: Global,
    site: &Site,
    hops: &[NextHop],
    network: &N,
    port: &mut OwnPort<L>,
    clock: &C,
) -> Result<Text, LedgerFault>
    ensures { IfOk result
        (ReportsVisited L.book L.stands
        (VisitsBy (N.connects network.now) N.Socket.hears N.Socket.sends N.Socket.closes
        ⟦<OwnPort<L> as DeskPort>⟧.step ⟦<OwnPort<L> as Tallied>⟧.finds (C.tells clock.now))
        site.now hops.now port.old) }
{
    visit_each(alloc, site, hops, network, port, clock)?;
    let report = report_of(alloc, site.name(), &mut port.desk.ledger)?;
    Ok(report)
}

/// Sends an instance that enters at the node of a ledger: it is brought to it, what that answers is
/// printed, and each hop with a due row is visited once.
///
/// Errors: Refused; Failed where the output failed.
fn send_ledger<'a, L: Ledger + Drop, N: Network, C: Clock, W: Write>(
    alloc: Global,
    node: SendingNode<'_>,
    ledger: L,
    item: Item,
    network: &N,
    clock: &C,
    output: &mut W,
) -> Result<Text, Halt<'a>>
    requires { L.site ledger ≡ node.site.now }
    ensures { MatchResult result
        (λ report. SentFrom L.book L.stands
        (VisitsBy (N.connects network.now) N.Socket.hears N.Socket.sends N.Socket.closes
        ⟦<OwnPort<L> as DeskPort>⟧.step ⟦<OwnPort<L> as Tallied>⟧.finds (C.tells clock.now))
        node.entry.site.now node.entry.hops.now item ledger report (W.contents output.old)
        (W.contents output.new)) IsUnsent }
{
    let mut port = OwnPort::new(ledger);
    take_in(alloc, &mut port.desk.ledger, item, output)?;
    match send_due(alloc, node.site, node.hops, network, &mut port, clock) {
        Ok(report) => Ok(report),
        Err(fault) => Err(Halt::Refused(fault)),
    }
}

/// Sends an instance that enters at a node that was opened.
///
/// Errors: Refused; Memory; Failed where the output failed.
fn send_opened<'a, L: Ledger + Drop, N: Network, C: Clock, W: Write>(
    alloc: Global,
    opened: Opened<L>,
    item: Item,
    network: &N,
    clock: &C,
    output: &mut W,
) -> Result<Text, Halt<'a>>
    requires { L.site opened.ledger ≡ opened.site }
    ensures { MatchResult result
        (λ report. SentFrom L.book L.stands
        (VisitsBy (N.connects network.now) N.Socket.hears N.Socket.sends N.Socket.closes
        ⟦<OwnPort<L> as DeskPort>⟧.step ⟦<OwnPort<L> as Tallied>⟧.finds (C.tells clock.now))
        opened.site (hops_from opened.site opened.sealed.plan.nodes) item opened.ledger report
        (W.contents output.old) (W.contents output.new)) IsUnsent }
{
    let Ok(hops) = hops_of(alloc, &opened.site, opened.sealed.plan()) else {
        drop(opened);
        drop(item);
        return Err(Halt::Memory);
    };
    let Opened {
        sealed,
        site,
        ledger,
    } = opened;
    drop(sealed);
    let node = SendingNode {
        site: &site,
        hops: hops.as_slice(),
    };
    let sent = send_ledger(alloc, node, ledger, item, network, clock, output);
    drop(site);
    sent
}

/// Opens a node, and sends the instance in a Part 10 file, which enters there.
///
/// Errors: those of `open_node`, `read_instance` and `send_opened`.
fn send_node<'a, F: Files, O: Ledgers, N: Network, C: Clock, G, U, W: Write>(
    alloc: Global,
    system: System<'_, F, O, N, C, G, U>,
    given: NodeFiles<'a>,
    file: &'a str,
    output: &mut W,
) -> Result<Text, Halt<'a>>
    ensures { Sends (F.holds system.entry.files.now given.entry.plan.now)
        (F.holds system.entry.files.now given.entry.certificate.now)
        (F.holds system.entry.files.now file.now)
        (O.opens system.entry.ledgers.now given.entry.ledger.now) O.Ledger.site O.Ledger.book
        O.Ledger.stands
        (VisitsBy (N.connects system.entry.network.now) N.Socket.hears N.Socket.sends
        N.Socket.closes ⟦<OwnPort<O::Ledger> as DeskPort>⟧.step
        ⟦<OwnPort<O::Ledger> as Tallied>⟧.finds (C.tells system.entry.clock.now))
        given.entry.node.now result (W.contents output.old) (W.contents output.new) }
{
    let opened = open_node(alloc, system.files, system.ledgers, given, Making::Allowed)?;
    let item = match read_instance(alloc, system.files, file) {
        Ok(item) => item,
        Err(halt) => {
            drop(opened);
            return Err(halt);
        }
    };
    send_opened(alloc, opened, item, system.network, system.clock, output)
}

/// Brings the instance in a Part 10 file to a node, whose plan, certificate and ledger are in these
/// files, and prints `new` or `again`; visits each hop with a due row once, and prints what the
/// node then has.
///
/// Errors: Stream, File.
pub fn send_files<'a, F: Files, O: Ledgers, N: Network, C: Clock, G, U, W: Write, E: Write>(
    alloc: Global,
    system: System<'_, F, O, N, C, G, U>,
    given: NodeFiles<'a>,
    file: &'a str,
    output: &mut W,
    faults: &mut E,
) -> Result<Status, Failure<'a>>
    ensures { IfOk result (λ status. (came : Result Words HaltValue)
        × (mid : Option Words)
        × Sends (F.holds system.entry.files.now given.entry.plan.now)
        (F.holds system.entry.files.now given.entry.certificate.now)
        (F.holds system.entry.files.now file.now)
        (O.opens system.entry.ledgers.now given.entry.ledger.now) O.Ledger.site O.Ledger.book
        O.Ledger.stands
        (VisitsBy (N.connects system.entry.network.now) N.Socket.hears N.Socket.sends
        N.Socket.closes ⟦<OwnPort<O::Ledger> as DeskPort>⟧.step
        ⟦<OwnPort<O::Ledger> as Tallied>⟧.finds (C.tells system.entry.clock.now))
        given.entry.node.now came (W.contents output.old) mid
        × Ends came mid (W.contents output.new) status) }
{
    let came = send_node(alloc, system, given, file, output);
    finish(came, output, faults)
}
