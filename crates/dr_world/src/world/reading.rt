//! Bytes that come to an end of a link.
ghost use Rattle.std.specs.Prelude.{◌≡◌, IfOk};
ghost use Rattle.std.specs.BTreeMap as tree;
ghost use Rattle.std.specs.Ordering.{nat_cmp};
ghost use Rattle.dr_base.specs.Texts.{text_cmp};
ghost use Rattle.dr_world_tie.specs.ByteWorlds.{Move};
ghost use Rattle.dr_world.specs.Ends.{named, opposite};
ghost use Rattle.dr_world.specs.Moved.{Hears, IsMoveDue, IsDueAt, IsMovable, kept_at};
ghost use Rattle.dr_world.specs.Whole.{StepsTo};

use crate::calls::{input_at, is_over_at};
use crate::fault::WorldFault;
use crate::fronts::{MoveDue, movable};
use crate::steps::StepNote;
use crate::wires::Wires;
use crate::world::{World, ended};
use dr_base::Text;
use dr_ledger::Ledger;
use dr_node::{LinkEvent, Node};
use dr_session::Heard;
use dr_world_script::Side;
use std::collections::BTreeMap;

impl<L: Ledger> World<L> {
    /// At most so many bytes that are on their way to the reader of a link come to it, and none
    /// beyond the end of the PDU at their front. Where nothing is on its way and the other end is
    /// over, the reader hears that the connection has ended (PS3.8 table 9-10, event 17). Skipped
    /// where there is no link of that number, no byte is asked for, the reader is over, or nothing
    /// is on its way and the other end isn't over.
    ///
    /// Errors: Memory.
    pub(super) fn move_bytes(
        &mut self,
        link: u64,
        reader: Side,
        most: u64,
    ) -> Result<StepNote, WorldFault>
        ensures { IfOk result (λ note.
            StepsTo (Move link (named reader) most) self.old note self.new) }
    {
        match self.due(link, reader, most) {
            MoveDue::Nothing => Ok(StepNote::Skipped),
            MoveDue::End => {
                let _note = self.meet(link, reader, ended())?;
                Ok(StepNote::Done)
            }
            MoveDue::Bytes(count) => {
                let note = self.hear(link, reader, count)?;
                Ok(note)
            }
        }
    }

    /// What a Move of at most so many bytes finds to do.
    fn due(&self, link: u64, reader: Side, most: u64) -> MoveDue
        ensures { IsMoveDue (tree.get nat_cmp self.now.wires link) self.now.nodes link
            (named reader) most result }
    {
        let Some(wires) = self.wires.get(&link) else {
            return MoveDue::Nothing;
        };
        due_at(&self.nodes, wires, link, reader, most)
    }

    /// So many of the first bytes on their way to the reader come to it, and what it writes goes
    /// onto the other one's wire.
    fn hear(&mut self, link: u64, reader: Side, count: usize) -> Result<StepNote, WorldFault>
        ensures { IfOk result (λ note. Hears link (named reader) count self.old note self.new) }
    {
        let now = self.time.moment();
        let Some(wires) = self.wires.get_mut(&link) else {
            return Ok(StepNote::Skipped);
        };
        let piece = wires.take(self.alloc, reader, count)?;
        let event = LinkEvent::Heard(Heard::Bytes(piece));
        let actions = input_at(&mut self.nodes, wires.name(reader), link, event, now)?;
        wires.write(reader, actions.as_slice())?;
        Ok(StepNote::Done)
    }
}

/// What a Move of at most so many bytes finds to do at a link with these wires.
fn due_at<L: Ledger>(
    nodes: &BTreeMap<Text, Node<L>>,
    wires: &Wires,
    link: u64,
    reader: Side,
    most: u64,
) -> MoveDue
    ensures { IsDueAt nodes.now link (named reader) most wires.now result }
{
    if most == 0 {
        return MoveDue::Nothing;
    }
    if is_over_at(nodes, wires.name(reader), link) {
        return MoveDue::Nothing;
    }
    let wire = wires.wire(reader);
    if !wire.is_empty() {
        return MoveDue::Bytes(movable_at(nodes, wires.name(reader), link, wire, most));
    }
    if is_over_at(nodes, wires.name(other_than(reader)), link) {
        return MoveDue::End;
    }
    MoveDue::Nothing
}

/// How many of at most so many bytes of a wire may come to the end of a link at the node of that
/// name.
fn movable_at<L: Ledger>(
    nodes: &BTreeMap<Text, Node<L>>,
    name: &Text,
    link: u64,
    wire: &[u8],
    most: u64,
) -> usize
    ensures { IsMovable (kept_at link (tree.get text_cmp nodes.now name.now)) wire.now most result }
{
    let Some(node) = nodes.get(name) else {
        return movable(&[], wire, most);
    };
    let Some(side) = node.side(link) else {
        return movable(&[], wire, most);
    };
    movable(side.end.kept(), wire, most)
}

/// The other end.
fn other_than(side: Side) -> Side
    ensures { named result ≡ opposite (named side) }
{
    match side {
        Side::Requestor => Side::Acceptor,
        Side::Acceptor => Side::Requestor,
    }
}
