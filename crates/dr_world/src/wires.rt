//! What is between the two ends of a link.
ghost use Rattle.std.specs.Prelude.{◌≡◌, ◌++◌, ◌∷◌, [], IfOk, OnOk, drop, take};
ghost use Rattle.dr_world_tie.specs.Channels.{bytes_of};
ghost use Rattle.dr_world.specs.Closed.{AreLost};
ghost use Rattle.dr_world.specs.Ends.{AreWritten, name_at, named, wire_at};
ghost use Rattle.dr_world.specs.Moved.{AreTaken};
ghost use Rattle.dr_world.specs.Others.{AreRewritten};

use bytes::BytesMut;
use dr_base::{Octets, Text};
use dr_session::LinkAction;
use dr_world_script::Side;
use std::alloc::{AllocError, Global};

/// A link between two nodes: its ends' names and what is under way.
#[derive(Drop)]
pub struct Wires {
    /// The node that asked for the association.
    pub caller: Text,
    /// The node that was called.
    pub receiver: Text,
    /// The bytes that were written to the caller and not yet moved, first to last.
    pub to_caller: BytesMut,
    /// The bytes that were written to the receiver and not yet moved, first to last.
    pub to_receiver: BytesMut,
}

impl Wires {
    /// Between those nodes, with nothing on the wires.
    pub fn between(alloc: Global, caller: &Text, receiver: &Text) -> Result<Wires, AllocError>
        ensures caller { IfOk result (λ w. w.caller ≡ caller.now) }
        ensures receiver { IfOk result (λ w. w.receiver ≡ receiver.now) }
        ensures to_caller { IfOk result (λ w. w.to_caller.items ≡ []) }
        ensures to_receiver { IfOk result (λ w. w.to_receiver.items ≡ []) }
    {
        let caller = caller.clone()?;
        let receiver = receiver.clone()?;
        Ok(Wires {
            caller,
            receiver,
            to_caller: BytesMut::new(alloc),
            to_receiver: BytesMut::new(alloc),
        })
    }

    /// The node of that side.
    pub fn name(&self, side: Side) -> &Text
        ensures { result.now ≡ name_at (named side) self.now }
    {
        match side {
            Side::Requestor => &self.caller,
            Side::Acceptor => &self.receiver,
        }
    }

    /// What is on its way to that side.
    pub fn wire(&self, side: Side) -> &[u8]
        ensures { result.now ≡ wire_at (named side) self.now }
    {
        match side {
            Side::Requestor => self.to_caller.as_slice(),
            Side::Acceptor => self.to_receiver.as_slice(),
        }
    }

    /// The first bytes that are on their way to that side, so many or all, are taken off its wire.
    pub fn take(&mut self, alloc: Global, side: Side, count: usize) -> Result<Octets, AllocError>
        ensures piece { IfOk result (λ piece. piece ≡ take count (wire_at (named side) self.old)) }
        ensures taken { IfOk result (λ piece. AreTaken (named side) count self.old self.new) }
    {
        match side {
            Side::Requestor => take_front(alloc, &mut self.to_caller, count),
            Side::Acceptor => take_front(alloc, &mut self.to_receiver, count),
        }
    }

    /// What is under way is lost.
    pub fn lose(&mut self)
        ensures { AreLost self.old self.new }
    {
        self.to_caller.clear();
        self.to_receiver.clear();
    }

    /// What is on its way from that side is these bytes, in the place of what was.
    pub fn rewrite(&mut self, side: Side, bytes: &Octets) -> Result<(), AllocError>
        ensures { OnOk result (AreRewritten (named side) bytes.now self.old self.new) }
    {
        match side {
            Side::Requestor => replace(&mut self.to_receiver, bytes),
            Side::Acceptor => replace(&mut self.to_caller, bytes),
        }
    }

    /// What that side does: it goes onto the other one's wire.
    pub fn write(&mut self, side: Side, actions: &[LinkAction]) -> Result<(), AllocError>
        ensures { OnOk result (AreWritten (named side) 0 actions.now self.old self.new) }
    {
        match side {
            Side::Requestor => put(&mut self.to_receiver, actions),
            Side::Acceptor => put(&mut self.to_caller, actions),
        }
    }
}

/// The first bytes of a wire, so many or all, taken off it. No other byte is moved; where all are
/// taken, all of the wire's room is free again.
fn take_front(alloc: Global, wire: &mut BytesMut, count: usize) -> Result<Octets, AllocError>
    ensures piece { IfOk result (λ piece. piece ≡ take count wire.old.items) }
    ensures rest { IfOk result (λ piece. wire.new.items ≡ drop count wire.old.items) }
{
    if wire.len() <= count {
        let piece = Octets::copy_of(alloc, wire.as_slice())?;
        wire.clear();
        return Ok(piece);
    }
    let piece = Octets::copy_of(alloc, &wire.as_slice()[..count])?;
    wire.advance(count);
    Ok(piece)
}

/// These bytes are on a wire, in the place of what was.
fn replace(wire: &mut BytesMut, bytes: &Octets) -> Result<(), AllocError>
    ensures { OnOk result (wire.new.items ≡ bytes.now) }
{
    wire.clear();
    wire.extend_from_slice(bytes.as_bytes())
}

/// What is written goes behind what is there.
fn put(wire: &mut BytesMut, actions: &[LinkAction]) -> Result<(), AllocError>
    ensures { OnOk result (wire.new.items ≡ wire.old.items ++ bytes_of actions.now) }
{
    for action in actions {
        put_one(wire, action)?;
    }
    Ok(())
}

/// The same of one action; a close writes nothing.
fn put_one(wire: &mut BytesMut, action: &LinkAction) -> Result<(), AllocError>
    ensures { OnOk result (wire.new.items ≡ wire.old.items ++ bytes_of (action.now ∷ [])) }
{
    match action {
        LinkAction::Write(bytes) => wire.extend_from_slice(bytes.as_bytes()),
        LinkAction::Close => Ok(()),
    }
}
