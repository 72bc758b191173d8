//! The message world: what nodes that route instances do to one another, without bytes; and what
//! holds of it after any events.
//!
//! A world has a time, a book for each node, and links with at most one thing under way each
//! (`specs/Worlds.antt`). An event leads from one world to another (`specs/Events.antt`). Nothing
//! here runs: the crate has definitions, and functions without a body whose contracts are theorems
//! about them.
#![tactic(auto)]

pub mod laws;

ghost use Rattle.dr_world_model.specs.Among.{HeadlineHoldsAmong};
ghost use Rattle.dr_world_model.specs.Theorem.{HeadlineHolds, HeadlineHoldsOf, KeptStaysKept};

use dr_cert::Sealed;

/// The headline. Over every sound plan, after every list of events and adoptions from the start:
/// nothing was refused for want of a presentation context, each arrival lies within its rank of its
/// source, what was answered with success is there, and each acknowledged instance is kept,
/// unchanged, at each of its destinations, or queued on the way to it, or a person gave it up
/// there, by name.
pub fn headline()
    ensures { HeadlineHolds }
{}

/// Where the checker said yes: the headline, of each plan that is sealed with its certificate.
pub fn headline_of(sealed: &Sealed)
    ensures { HeadlineHoldsOf sealed.now.plan }
{
    let _plan = sealed.plan();
}

/// What a node has and keeps lasts, unchanged, through further events and adoptions; journals only
/// grow at their end.
pub fn kept_stays_kept()
    ensures { KeptStaysKept }
{}

/// The headline of our nodes, whichever those are, among other makers' products that do whatever
/// they want: nothing was refused for want of a presentation context between two of ours, each
/// arrival at one of ours lies within its rank of where it entered our nodes, what one of ours
/// answered with success it had, and each instance that one of ours acknowledged is kept,
/// unchanged, at each of its destinations, or queued at one of ours on the way to it, or a person
/// gave it up there, by name, or another product on the way answered with success.
pub fn headline_among()
    ensures { HeadlineHoldsAmong }
{}
