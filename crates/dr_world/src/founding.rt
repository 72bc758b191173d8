//! How a world begins.
ghost use Rattle.std.specs.Prelude.{◌≡◌, ◌≢◌, [], IfErr, IfOk, None, OnOk, length, true, false};
ghost use Rattle.std.specs.Vec.{vec_len};
ghost use Rattle.std.specs.FinMap as map;
ghost use Rattle.dr_ledger.specs.Replies.{HasRisen};
ghost use Rattle.dr_world.specs.Founding.{AreFounded, Founds, HasCause, IsUnfit};
ghost use Rattle.dr_world.specs.Founding.{IsUnfitAt, SaysEmpty, SaysFilled, SomeIsUnfit};
ghost use Rattle.dr_world.specs.declared.fault.WorldFault.TheVariants.{Store as StoreFault};
ghost use Rattle.dr_world.specs.declared.fault.WorldFault.TheVariants.{WrongLedgers as WrongFault};
ghost use Rattle.dr_world.specs.declared.fault.WorldFault.TheVariants.{HalfAdopted as HalfFault};
ghost use Rattle.dr_world.specs.Runs.{IsReached};

use crate::fault::WorldFault;
use crate::world::World;
use dr_base::Text;
use dr_cert::Sealed;
use dr_ledger::{Ledger, LedgerFault, Refusing};
use dr_node::Node;
use dr_plan_model::names_of;
use dr_site::Site;
use std::alloc::Global;
use std::collections::BTreeMap;

/// Whether a ledger has nothing yet: its journal has no line.
///
/// Errors: Store, Memory.
fn is_empty<L: Ledger>(ledger: &mut L) -> Result<bool, WorldFault>
    ensures empty { IfOk result (λ empty.
        L.stands ledger.new → SaysEmpty (L.book ledger.new) empty) }
    ensures filled { IfOk result (λ empty.
        empty ≡ false → SaysFilled L.trusts L.stands L.book ledger.old) }
    ensures wrong { result ≢ Err WrongFault }
    ensures whole { result ≢ Err HalfFault }
    ensures failed { result ≡ Err StoreFault
        → HasRisen (L.failed ledger.old) (L.failed ledger.new) }
    ensures armed { L.armed ledger.new ≡ L.armed ledger.old }
    ensures site { L.site ledger.new ≡ L.site ledger.old }
{
    match ledger.lines() {
        Ok(lines) => Ok(lines.is_empty()),
        Err(LedgerFault::Store) => Err(WorldFault::Store),
        // a reading call has no other fault than want of memory
        Err(_) => Err(WorldFault::Memory),
    }
}

/// A site's node over a ledger of that site that has nothing yet.
fn found<L: Ledger + Drop>(
    alloc: Global,
    site: Site,
    ledger: L,
) -> Result<Node<Refusing<L>>, WorldFault>
    ensures site { IfOk result (λ n. L.site n.desk.ledger.ledger ≡ site) }
    ensures links { IfOk result (λ n. n.links ≡ map.empty) }
    ensures armed { IfOk result (λ n. n.desk.ledger.refusals.is_due ≡ false) }
    ensures empty { IfOk result (λ n.
        L.stands n.desk.ledger.ledger → SaysEmpty (L.book n.desk.ledger.ledger) true) }
    ensures unfit { IfErr result (IsUnfit L.trusts L.stands L.book L.site L.failed site ledger) }
{
    let mut ledger = ledger;
    if !ledger.is_of(&site) {
        drop(ledger);
        drop(site);
        return Err(WorldFault::WrongLedgers);
    }
    match is_empty(&mut ledger) {
        Ok(true) => {
            let node = Node::new(alloc, site, Refusing::new(ledger))?;
            Ok(node)
        }
        Ok(false) => {
            drop(ledger);
            drop(site);
            Err(WorldFault::WrongLedgers)
        }
        Err(fault) => {
            drop(ledger);
            drop(site);
            Err(fault)
        }
    }
}

/// The node of that name over its ledger is one more.
pub(crate) fn seat<L: Ledger + Drop>(
    alloc: Global,
    sealed: &Sealed,
    name: &Text,
    ledger: L,
    nodes: &mut BTreeMap<Text, Node<Refusing<L>>>,
) -> Result<(), WorldFault>
    ensures founds { OnOk result
        (Founds sealed.now.plan sealed.now.certificate name.now nodes.old nodes.new) }
    ensures unfit { IfErr result
        (IsUnfitAt (IsUnfit L.trusts L.stands L.book L.site L.failed) sealed.now.plan
        sealed.now.certificate name.now ledger) }
{
    // each name here is a node's, so that want of memory is all that can be in the way
    let Ok(site) = Site::of(alloc, sealed, name) else {
        drop(ledger);
        return Err(WorldFault::Memory);
    };
    let node = found(alloc, site, ledger)?;
    let name = name.clone()?;
    drop(nodes.insert(name, node)?);
    Ok(())
}

/// Each node over the ledger at its place.
fn seat_all<L: Ledger + Drop>(
    alloc: Global,
    sealed: &Sealed,
    names: &[Text],
    ledgers: Vec<L>,
) -> Result<BTreeMap<Text, Node<Refusing<L>>>, WorldFault>
    requires { length names.now ≡ vec_len ledgers }
    ensures founded { IfOk result (AreFounded sealed.now.plan sealed.now.certificate names.now) }
    ensures unfit { IfErr result
        (SomeIsUnfit (IsUnfit L.trusts L.stands L.book L.site L.failed) sealed.now.plan
        sealed.now.certificate names.now ledgers.items) }
{
    let mut nodes = BTreeMap::new(alloc);
    let mut place = 0;
    for ledger in ledgers {
        seat(alloc, sealed, &names[place], ledger, &mut nodes)?;
        place += 1;
    }
    Ok(nodes)
}

impl<L: Ledger + Drop> World<Refusing<L>> {
    /// The nodes of a plan at time 0, without a link, each over the ledger at its place: one for
    /// each node, by the byte order of the nodes' names. Each can be told to refuse.
    ///
    /// Errors: WrongLedgers, where there is another number of them, one that isn't empty, or one
    /// that is of another site; Store, where a ledger's store fails; Memory. No ledger is given
    /// back.
    pub fn with(
        alloc: Global,
        sealed: &Sealed,
        ledgers: Vec<L>,
    ) -> Result<World<Refusing<L>>, WorldFault>
        ensures reached { IfOk result (IsReached sealed.now.plan sealed.now.certificate []) }
        ensures whole { IfOk result (λ world. world.lost ≡ None) }
        ensures cause { IfErr result
            (HasCause (IsUnfit L.trusts L.stands L.book L.site L.failed) sealed.now.plan
            sealed.now.certificate ledgers.items) }
    {
        let names = names_of(alloc, sealed.plan())?;
        if names.len() != ledgers.len() {
            return Err(WorldFault::WrongLedgers);
        }
        let nodes = seat_all(alloc, sealed, names.as_slice(), ledgers)?;
        Ok(World::of_nodes(alloc, nodes))
    }
}
