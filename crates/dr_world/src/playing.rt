//! Steps, changes of plan and what other products write and do, played from the beginning, over
//! ledgers in memory.
ghost use Rattle.std.specs.Prelude.{◌≡◌, ◌⊎◌, ◌↔◌, ◌∷◌, ◌++◌, [], Contains, IfErr, IfOk, IsTrue};
ghost use Rattle.std.specs.Prelude.{List, None, OnOk, Some, length};
ghost use Rattle.std.specs.Vec.{vec_len};
ghost use Rattle.dr_base.specs.Texts.{Text as Words};
ghost use Rattle.dr_plan_model.specs.Plans.{NamesNoNode};
ghost use Rattle.dr_world.specs.Orders.{AreOrdered, IsChangeOrder, IsOrderedRun, IsPassedOver};
ghost use Rattle.dr_world.specs.Orders.{IsRefusalOrder, NotesOrder, OrdersChange, OrdersRefusal};
ghost use Rattle.dr_world.specs.Played.{EndsEarly, IsChange, PlaysAll, PlaysOn};
ghost use Rattle.dr_world.specs.Whole.{contents};
ghost use Rattle.dr_world.specs.declared.changing.Change.{Change as ChangeValue};
ghost use Rattle.dr_world.specs.declared.deed.Deed.{Deed as DeedValue};
ghost use Rattle.dr_world.specs.declared.deed.Deed.TheVariants as deeds_of;
ghost use Rattle.dr_world.specs.declared.order.WorldOrder.TheVariants as orders_of;
ghost use Rattle.dr_world_script.specs.declared.foreign.Foreign.TheVariants as foreign_of;
ghost use Rattle.dr_world.specs.declared.fault.WorldFault.{WorldFault as FaultValue};
ghost use Rattle.dr_world.specs.declared.fault.WorldFault.TheVariants.{Memory as MemoryFault};
ghost use Rattle.dr_world.specs.declared.fault.WorldFault.TheVariants.{WrongLedgers as WrongFault};

use crate::changing::Change;
use crate::deed::Deed;
use crate::fault::WorldFault;
use crate::order::{RefusedForeign, Spoken, WorldOrder};
use crate::steps::StepNote;
use crate::world::World;
use dr_base::{Octets, Seq, Text};
use dr_cert::Sealed;
use dr_ledger::{Item, Refusing};
use dr_ledger_memory::MemoryLedger;
use dr_plan_model::names_of;
use dr_site::{Site, SiteFault};
use dr_world_script::{Foreign, Side, Step};
use std::alloc::Global;

/// A world after what was done to it, and what was noted of that.
#[derive(Drop)]
pub struct PlayedWorld {
    pub world: World<Refusing<MemoryLedger>>,
    pub notes: PlayNotes,
}

/// What is noted while orders are played.
#[derive(Drop)]
pub struct PlayNotes {
    /// The nodes that are other makers' products, in the order in which that was told.
    pub others: Seq<Text>,
    /// What the changes of plan came to, in order.
    pub changes: Seq<Change>,
    /// What other makers' products were told and didn't do, in order.
    pub refusals: Seq<RefusedForeign>,
}

/// A ledger in memory for each of these nodes.
fn ledgers_of(
    alloc: Global,
    sealed: &Sealed,
    names: &[Text],
) -> Result<Vec<MemoryLedger>, WorldFault>
    ensures each { IfOk result (λ ledgers. vec_len ledgers ≡ length names.now) }
    ensures why { IfErr result (λ fault. (fault ≡ MemoryFault)
        ⊎ ((fault ≡ WrongFault)
        × (name : Words)
        × Contains names.now name
        × NamesNoNode sealed.now.plan name)) }
{
    let mut ledgers = Vec::new(alloc);
    for name in names {
        let site = match Site::of(alloc, sealed, name) {
            Ok(site) => site,
            Err(SiteFault::NoNode) => return Err(WorldFault::WrongLedgers),
            Err(SiteFault::Memory) => return Err(WorldFault::Memory),
        };
        ledgers.push(MemoryLedger::new(alloc, site))?;
    }
    Ok(ledgers)
}

/// All nodes are to take this plan; one that joins begins with nothing.
fn change_to(
    alloc: Global,
    world: &mut World<Refusing<MemoryLedger>>,
    next: &Sealed,
) -> Result<Change, WorldFault>
    ensures plays { IfOk result (λ change.
        PlaysOn (deeds_of.Adopt next.now) (change ∷ []) world.old world.new) }
    ensures whole { IfOk result (λ change. world.new.lost ≡ None) }
    ensures early { IfErr result (EndsEarly (Unit {0})) }
{
    let names = world.joining(next.plan())?;
    let ledgers = ledgers_of(alloc, next, names.as_slice())?;
    match world.adopt(next, ledgers) {
        Ok(change) => Ok(change),
        Err(WorldFault::Memory) => Err(WorldFault::Memory),
        // each ledger is a new one of its node's site, so that a store is all else that can fail
        Err(_) => Err(WorldFault::HalfAdopted),
    }
}

/// One step.
fn take_step(world: &mut World<Refusing<MemoryLedger>>, step: &Step) -> Result<StepNote, WorldFault>
    requires { world.old.lost ≡ None }
    ensures plays { IfOk result (λ note.
        PlaysOn (deeds_of.Step step.now) [] world.old world.new) }
    ensures whole { IfOk result (λ note. world.new.lost ≡ None) }
    ensures memory { IfErr result (λ fault. fault ≡ MemoryFault) }
    ensures lost { IfErr result (λ fault. (own : FaultValue) × (world.new.lost ≡ Some own)) }
{
    match world.step(step) {
        Ok(note) => Ok(note),
        // a store in memory fails only where it is told to, so that memory is all that can lack
        Err(_) => Err(WorldFault::Memory),
    }
}

/// One deed; what a change of plan comes to is added.
fn do_deed(
    alloc: Global,
    world: &mut World<Refusing<MemoryLedger>>,
    deed: &Deed,
    changes: &mut Seq<Change>,
) -> Result<(), WorldFault>
    requires { world.old.lost ≡ None }
    ensures plays { OnOk result
        ((told : List ChangeValue)
        × (changes.new ≡ changes.old ++ told)
        × PlaysOn deed.now told world.old world.new) }
    ensures whole { OnOk result (world.new.lost ≡ None) }
    ensures early { IfErr result (EndsEarly (IsChange deed.now)) }
{
    match deed {
        Deed::Step(step) => {
            let _note = take_step(world, step)?;
            Ok(())
        }
        Deed::Adopt(next) => {
            let change = change_to(alloc, world, next)?;
            changes.push(change)?;
            Ok(())
        }
        Deed::Bytes { link, side, bytes } => {
            let _note = world.write(*link, *side, bytes)?;
            Ok(())
        }
    }
}

/// Whether a deed isn't done, since these nodes are other makers' products.
fn is_passed_over(world: &World<Refusing<MemoryLedger>>, others: &[Text], deed: &Deed) -> bool
    ensures { IsTrue result ↔ IsPassedOver others.now (contents world.now) deed.now }
{
    match deed {
        Deed::Step(step) => world.is_others(others, step),
        Deed::Adopt(_) | Deed::Bytes { .. } => false,
    }
}

/// A deed, unless it is one of another maker's product.
fn do_own(
    alloc: Global,
    world: &mut World<Refusing<MemoryLedger>>,
    deed: &Deed,
    notes: &mut PlayNotes,
) -> Result<(), WorldFault>
    requires { world.old.lost ≡ None }
    ensures plays { OnOk result
        (NotesOrder notes.old world.old (orders_of.Deed deed.now) notes.new world.new) }
    ensures whole { OnOk result (world.new.lost ≡ None) }
    ensures early { IfErr result (EndsEarly (IsChange deed.now)) }
{
    if is_passed_over(world, notes.others.as_slice(), deed) {
        return Ok(());
    }
    match do_deed(alloc, world, deed, &mut notes.changes) {
        Ok(()) => Ok(()),
        Err(fault) => Err(fault),
    }
}

/// What another maker's product writes at an end of a link.
fn speak(
    world: &mut World<Refusing<MemoryLedger>>,
    link: u64,
    side: Side,
    bytes: &Octets,
) -> Result<(), WorldFault>
    requires { world.old.lost ≡ None }
    ensures plays { OnOk result
        (PlaysAll (deeds_of.Bytes link side bytes.now ∷ []) [] world.old world.new) }
    ensures whole { OnOk result (world.new.lost ≡ None) }
    ensures memory { IfErr result (λ fault. fault ≡ MemoryFault) }
{
    let _note = world.write(link, side, bytes)?;
    Ok(())
}

/// A caller of another make stores an item.
fn do_store(
    world: &mut World<Refusing<MemoryLedger>>,
    link: u64,
    item: &Item,
    notes: &mut PlayNotes,
) -> Result<(), WorldFault>
    requires { world.old.lost ≡ None }
    ensures plays { OnOk result
        (NotesOrder notes.old world.old (orders_of.Foreign (foreign_of.Store link item.now))
        notes.new world.new) }
    ensures whole { OnOk result (world.new.lost ≡ None) }
    ensures memory { IfErr result (λ fault. fault ≡ MemoryFault) }
{
    let spoken = world.store_of(notes.others.as_slice(), link, item)?;
    match spoken {
        Spoken::Writes(bytes) => match speak(world, link, Side::Requestor, &bytes) {
            Ok(()) => Ok(()),
            Err(fault) => Err(fault),
        },
        Spoken::Refuses(why) => {
            notes.refusals.push(RefusedForeign::Store { link, why })?;
            Ok(())
        }
    }
}

/// A receiver of another make answers.
fn do_answer(
    world: &mut World<Refusing<MemoryLedger>>,
    link: u64,
    status: u16,
    notes: &mut PlayNotes,
) -> Result<(), WorldFault>
    requires { world.old.lost ≡ None }
    ensures plays { OnOk result
        (NotesOrder notes.old world.old (orders_of.Foreign (foreign_of.Answer link status))
        notes.new world.new) }
    ensures whole { OnOk result (world.new.lost ≡ None) }
    ensures memory { IfErr result (λ fault. fault ≡ MemoryFault) }
{
    let spoken = world.answer_of(notes.others.as_slice(), link, status)?;
    match spoken {
        Spoken::Writes(bytes) => match speak(world, link, Side::Acceptor, &bytes) {
            Ok(()) => Ok(()),
            Err(fault) => Err(fault),
        },
        Spoken::Refuses(why) => {
            notes.refusals.push(RefusedForeign::Answer { link, why })?;
            Ok(())
        }
    }
}

/// A node is another maker's product.
fn do_node(
    world: &mut World<Refusing<MemoryLedger>>,
    node: &Text,
    notes: &mut PlayNotes,
) -> Result<(), WorldFault>
    requires { world.old.lost ≡ None }
    ensures plays { OnOk result
        (NotesOrder notes.old world.old (orders_of.Foreign (foreign_of.Node node.now)) notes.new
        world.new) }
    ensures whole { OnOk result (world.new.lost ≡ None) }
    ensures memory { IfErr result (λ fault. fault ≡ MemoryFault) }
{
    let name = node.clone()?;
    if world.has_node(node) {
        notes.others.push(name)?;
        return Ok(());
    }
    notes.refusals.push(RefusedForeign::Node { node: name })?;
    Ok(())
}

/// What concerns other makers' products.
fn do_foreign(
    world: &mut World<Refusing<MemoryLedger>>,
    foreign: &Foreign,
    notes: &mut PlayNotes,
) -> Result<(), WorldFault>
    requires { world.old.lost ≡ None }
    ensures plays { OnOk result
        (NotesOrder notes.old world.old (orders_of.Foreign foreign.now) notes.new world.new) }
    ensures whole { OnOk result (world.new.lost ≡ None) }
    ensures memory { IfErr result (λ fault. fault ≡ MemoryFault) }
{
    match foreign {
        Foreign::Node { node } => do_node(world, node, notes),
        Foreign::Store { link, item } => do_store(world, *link, item, notes),
        Foreign::Answer { link, status } => do_answer(world, *link, *status, notes),
    }
}

/// One order, and what is noted of it.
fn do_order(
    alloc: Global,
    world: &mut World<Refusing<MemoryLedger>>,
    order: &WorldOrder,
    notes: &mut PlayNotes,
) -> Result<(), WorldFault>
    requires { world.old.lost ≡ None }
    ensures plays { OnOk result
        (NotesOrder notes.old world.old order.now notes.new world.new) }
    ensures whole { OnOk result (world.new.lost ≡ None) }
    ensures early { IfErr result (EndsEarly (IsChangeOrder order.now)) }
{
    match order {
        WorldOrder::Deed(deed) => do_own(alloc, world, deed, notes),
        WorldOrder::Foreign(foreign) => do_foreign(world, foreign, notes),
    }
}

/// Nothing is noted.
fn no_notes(alloc: Global) -> PlayNotes
    ensures { result ≡ record { others = []; changes = []; refusals = [] } }
{
    PlayNotes {
        others: Seq::new(alloc),
        changes: Seq::new(alloc),
        refusals: Seq::new(alloc),
    }
}

/// These orders, one after the other, and what is noted of them.
fn do_all(
    alloc: Global,
    world: &mut World<Refusing<MemoryLedger>>,
    orders: &[WorldOrder],
) -> Result<PlayNotes, WorldFault>
    requires { world.old.lost ≡ None }
    ensures plays { IfOk result (λ notes. (deeds : List DeedValue)
        × AreOrdered [] world.old orders.now deeds notes.changes notes.refusals notes.others
        world.new) }
    ensures early { IfErr result (EndsEarly (OrdersChange orders.now)) }
{
    let mut notes = no_notes(alloc);
    for order in orders {
        do_order(alloc, world, order, &mut notes)?;
    }
    Ok(notes)
}

/// Whether an order tells a store to refuse.
fn is_refusal(order: &WorldOrder) -> bool
    ensures { IsTrue result ↔ IsRefusalOrder order.now }
{
    match order {
        WorldOrder::Deed(Deed::Step(Step::RefuseStore { .. })) => true,
        _ => false,
    }
}

/// Whether one of the orders does.
fn has_refusal(orders: &[WorldOrder]) -> bool
    ensures { IsTrue result ↔ OrdersRefusal orders.now }
{
    for order in orders {
        if is_refusal(order) {
            return true;
        }
    }
    false
}

/// Why not all of these orders are played. Where no store is told to refuse, none fails, and memory
/// is all that can lack.
fn cause_of(fault: WorldFault, orders: &[WorldOrder]) -> WorldFault
    requires { EndsEarly (OrdersChange orders.now) fault }
    ensures early { EndsEarly (OrdersChange orders.now × OrdersRefusal orders.now) result }
    ensures told { OrdersRefusal orders.now → result ≡ fault }
{
    if has_refusal(orders) {
        return fault;
    }
    WorldFault::Memory
}

/// These orders, one after the other, and what is noted of them.
fn play_all(
    alloc: Global,
    world: &mut World<Refusing<MemoryLedger>>,
    orders: &[WorldOrder],
) -> Result<PlayNotes, WorldFault>
    requires { world.old.lost ≡ None }
    ensures plays { IfOk result (λ notes. (deeds : List DeedValue)
        × AreOrdered [] world.old orders.now deeds notes.changes notes.refusals notes.others
        world.new) }
    ensures early { IfErr result
        (EndsEarly (OrdersChange orders.now × OrdersRefusal orders.now)) }
{
    match do_all(alloc, world, orders) {
        Ok(notes) => Ok(notes),
        Err(fault) => Err(cause_of(fault, orders)),
    }
}

/// The world of a sealed plan after these orders, from the beginning: each node over a ledger in
/// memory, which can be told to refuse.
///
/// Errors: HalfAdopted, where a node that was told to refuse is to take another plan, so only where
/// one order tells a store to refuse and one is a change of plan; Memory.
pub fn run(alloc: Global, sealed: &Sealed, orders: &[WorldOrder]) -> Result<PlayedWorld, WorldFault>
    ensures runs { IfOk result (λ run. IsOrderedRun sealed.now.plan sealed.now.certificate
        orders.now run.notes.changes run.notes.refusals run.notes.others run.world) }
    ensures early { IfErr result
        (EndsEarly (OrdersChange orders.now × OrdersRefusal orders.now)) }
{
    let plan = sealed.plan();
    let _certificate = sealed.certificate();
    let names = names_of(alloc, plan)?;
    let ledgers = ledgers_of(alloc, sealed, names.as_slice())?;
    // each ledger is a new one of its node's site, so that want of memory is all that can be in the
    // way
    let Ok(world) = World::with(alloc, sealed, ledgers) else {
        return Err(WorldFault::Memory);
    };
    let mut world = world;
    let notes = play_all(alloc, &mut world, orders)?;
    Ok(PlayedWorld { world, notes })
}
