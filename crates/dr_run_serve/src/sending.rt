//! Visits to several hops, one after the other.
ghost use Rattle.dr_run_serve.specs.Rounds.{VisitsEach};
ghost use Rattle.dr_run_serve.specs.Visits.{Visits};

use crate::tallied::Tallied;
use crate::visit::visit_hop;
use dr_ledger::LedgerFault;
use dr_run_net::Network;
use dr_run_open::NextHop;
use dr_session::Clock;
use dr_site::Site;
use std::alloc::Global;

/// Visits each hop of the site once, in order.
///
/// Errors: those of a visit; then the hops behind it aren't visited.
pub fn visit_each<N: Network, P: Tallied, C: Clock>(
    alloc: Global,
    site: &Site,
    hops: &[NextHop],
    network: &N,
    port: &mut P,
    clock: &C,
) -> Result<(), LedgerFault>
    ensures { VisitsEach
        (λ hop s came t. Visits (N.connects network.now) N.Socket.hears N.Socket.sends
        N.Socket.closes P.step P.finds P.taken (C.tells clock.now) site.now hop.dest hop.address
        s came t)
        hops.now port.old result port.new }
{
    for hop in hops {
        let _visited = visit_hop(alloc, site, hop, network, port, clock)?;
    }
    Ok(())
}
