//! Whether hops are among others.
ghost use Rattle.std.specs.Prelude.{◌≡◌, ◌↔◌, Contains, IsTrue, false, option_copied};
ghost use Rattle.std.specs.List.Sorted.{IsSorted};
ghost use Rattle.dr_world_audit.specs.Comparing.{FirstUnanswered, FirstUnsent, IsUnanswered};
ghost use Rattle.dr_world_audit.specs.Comparing.{IsUnsent};
ghost use Rattle.dr_world_audit.specs.Orders.{hop_cmp};
ghost use Rattle.dr_world_audit.specs.declared.hop.AuditHop.{AuditHop as Held};

use crate::place::HopPlace;
use dr_base::Text;
use dr_route::is_local;
use std::collections::BTreeSet;

/// The hops in their order.
pub fn in_order<'a>(hops: Vec<HopPlace<'a>>) -> Vec<HopPlace<'a>>
    ensures same { (h : Held) → Contains result.items h ↔ Contains hops.entry.items h }
    ensures ordered { IsSorted hop_cmp result.items }
{
    let mut hops = hops;
    hops.sort_unstable();
    hops
}

/// Whether the hop is one of these, which are in their order: a binary search.
fn is_among<'a>(hop: &HopPlace<'a>, hops: &[HopPlace<'a>]) -> bool
    requires { IsSorted hop_cmp hops.now }
    ensures { IsTrue result ↔ Contains hops.now hop.now }
{
    match hops.binary_search(hop) {
        Ok(_place) => true,
        Err(_place) => false,
    }
}

/// Whether the name is one of these.
pub fn is_ours(name: &Text, ours: &BTreeSet<Text>) -> bool
    ensures { IsTrue result ↔ Contains ours.now.keys name.now }
{
    ours.contains(name)
}

/// The first hop that one of ours notes as done to another and that didn't come there.
pub fn first_unanswered<'d, 'a>(
    ours: &BTreeSet<Text>,
    done: &'d [HopPlace<'a>],
    came: &[HopPlace<'a>],
) -> Option<&'d HopPlace<'a>>
    requires { IsSorted hop_cmp came.now }
    ensures { FirstUnanswered ours.now.keys done.now came.now (option_copied result) }
{
    for hop in done {
        if is_unanswered(ours, hop, came) {
            return Some(hop);
        }
    }
    None
}

/// Whether the hop is to another of ours and didn't come there.
fn is_unanswered<'a>(ours: &BTreeSet<Text>, hop: &HopPlace<'a>, came: &[HopPlace<'a>]) -> bool
    requires { IsSorted hop_cmp came.now }
    ensures yes { IsTrue result → IsUnanswered ours.now.keys came.now hop.now }
    ensures no { result ≡ false → IsUnanswered ours.now.keys came.now hop.now → ⊥ }
{
    if !is_ours(hop.to_node(), ours) {
        return false;
    }
    !is_among(hop, came)
}

/// The first hop that came from another of ours and that wasn't to go on there.
pub fn first_unsent<'c, 'a>(
    ours: &BTreeSet<Text>,
    came: &'c [HopPlace<'a>],
    sent: &[HopPlace<'a>],
) -> Option<&'c HopPlace<'a>>
    requires { IsSorted hop_cmp sent.now }
    ensures { FirstUnsent ours.now.keys came.now sent.now (option_copied result) }
{
    for hop in came {
        if is_unsent(ours, hop, sent) {
            return Some(hop);
        }
    }
    None
}

/// Whether the hop came from another of ours and wasn't to go on there.
fn is_unsent<'a>(ours: &BTreeSet<Text>, hop: &HopPlace<'a>, sent: &[HopPlace<'a>]) -> bool
    requires { IsSorted hop_cmp sent.now }
    ensures yes { IsTrue result → IsUnsent ours.now.keys sent.now hop.now }
    ensures no { result ≡ false → IsUnsent ours.now.keys sent.now hop.now → ⊥ }
{
    if is_local(hop.from_node()) || !is_ours(hop.from_node(), ours) {
        return false;
    }
    !is_among(hop, sent)
}
