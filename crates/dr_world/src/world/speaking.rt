//! What other makers' products do in a world, and what isn't done for them.
ghost use Rattle.std.specs.Prelude.{◌≡◌, ◌↔◌, IfOk, IsTrue, is_some};
ghost use Rattle.dr_world.specs.Ends.{named};
ghost use Rattle.dr_world.specs.Orders.{AnswersAs, IsOthers, IsOthersEnd, StoresAs};
ghost use Rattle.dr_world.specs.Whole.{contents};

use crate::order::{ForeignRefusal, Spoken};
use crate::speaking::{answer_text, asked_at, context_at, is_among, store_text};
use crate::world::World;
use dr_base::Text;
use dr_ledger::{Item, Ledger};
use dr_world_script::{Side, Step};
use std::alloc::AllocError;

impl<L: Ledger> World<L> {
    /// Whether that end of a link is at one of these nodes.
    fn is_others_end(&self, others: &[Text], link: u64, side: Side) -> bool
        ensures { IsTrue result ↔ IsOthersEnd others.now (contents self.now) link (named side) }
    {
        let Some(wires) = self.wires.get(&link) else {
            return false;
        };
        is_among(others, wires.name(side))
    }

    /// Whether the step is one that one of these nodes takes, or that is taken at its end of a
    /// link. That a connection is opened or lost, that a node comes up again and that time passes
    /// is none: these happen to other makers' products, too. It takes no memory.
    pub fn is_others(&self, others: &[Text], step: &Step) -> bool
        ensures { IsTrue result ↔ IsOthers others.now (contents self.now) step.now }
    {
        match step {
            Step::Submit { node, .. }
            | Step::Requeue { node, .. }
            | Step::Drop { node, .. }
            | Step::Forget { node, .. }
            | Step::RefuseStore { node } => is_among(others, node),
            Step::Away { from, .. } => is_among(others, from),
            Step::Push { link } | Step::Release { link } => {
                self.is_others_end(others, *link, Side::Requestor)
            }
            Step::Abort { link, side } | Step::Late { link, side } => {
                self.is_others_end(others, *link, *side)
            }
            Step::Move { link, reader, .. } => self.is_others_end(others, *link, *reader),
            Step::Open { .. } | Step::Close { .. } | Step::Restart { .. } | Step::Tick { .. } => {
                false
            }
        }
    }

    /// Whether a node has that name. It takes no memory.
    pub fn has_node(&self, name: &Text) -> bool
        ensures { result ≡ is_some ((contents self.now).seats name.now) }
    {
        self.nodes.contains_key(name)
    }

    /// What is on its way from the caller of a link, where it is one of these nodes and the
    /// receiver isn't, once it stores the item: what was, and a C-STORE-RQ (PS3.7 9.1.1) with
    /// message id 1 over the presentation context that the receiver has accepted for it, whether or
    /// not that association is still there.
    ///
    /// Errors: AllocError.
    pub fn store_of(&self, others: &[Text], link: u64, item: &Item) -> Result<Spoken, AllocError>
        ensures { IfOk result (StoresAs others.now (contents self.now) link item.now) }
    {
        let Some(wires) = self.wires.get(&link) else {
            return Ok(Spoken::Refuses(ForeignRefusal::NoLink));
        };
        if !is_among(others, &wires.caller) {
            return Ok(Spoken::Refuses(ForeignRefusal::NotForeign));
        }
        if is_among(others, &wires.receiver) {
            return Ok(Spoken::Refuses(ForeignRefusal::BothForeign));
        }
        let Some(context) = context_at(&self.nodes, &wires.receiver, link, item) else {
            return Ok(Spoken::Refuses(ForeignRefusal::NoContext));
        };
        let front = wires.wire(Side::Acceptor);
        let bytes = store_text(self.alloc, front, context, item)?;
        Ok(Spoken::Writes(bytes))
    }

    /// What is on its way from the receiver of a link, where it is one of these nodes and the
    /// caller isn't, once it answers the request whose response the caller awaits: what was, and a
    /// C-STORE-RSP with that status (PS3.7 9.1.1).
    ///
    /// Errors: AllocError.
    pub fn answer_of(&self, others: &[Text], link: u64, status: u16) -> Result<Spoken, AllocError>
        ensures { IfOk result (AnswersAs others.now (contents self.now) link status) }
    {
        let Some(wires) = self.wires.get(&link) else {
            return Ok(Spoken::Refuses(ForeignRefusal::NoLink));
        };
        if !is_among(others, &wires.receiver) {
            return Ok(Spoken::Refuses(ForeignRefusal::NotForeign));
        }
        if is_among(others, &wires.caller) {
            return Ok(Spoken::Refuses(ForeignRefusal::BothForeign));
        }
        let Some(asked) = asked_at(&self.nodes, &wires.caller, link) else {
            return Ok(Spoken::Refuses(ForeignRefusal::NotAsked));
        };
        let front = wires.wire(Side::Requestor);
        let bytes = answer_text(self.alloc, front, asked, status)?;
        Ok(Spoken::Writes(bytes))
    }
}
