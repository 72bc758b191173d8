//! Instances between two nodes, as lines of journals say them: mostly by reference.
ghost use Rattle.std.specs.Prelude.{◌≡◌, IfOk};
ghost use Rattle.std.proofs.Common.{refl};
ghost use Rattle.std.specs.Cmp.{eq_by_cmp_equiv, partial_equiv_from_equiv, po};
ghost use Rattle.std.specs.Ordering.{as_partial_cmp, eq_by_cmp};
ghost use Rattle.dr_world_audit.specs.Hops.{hop_of as hop_at};
ghost use Rattle.dr_world_audit.specs.Orders.{hop_cmp, rest_cmp};
ghost use Rattle.dr_world_audit.specs.contracts.hop.AuditHopOrd.TheImpl.Laws.{total-law};

use crate::hop::{AuditHop, hop_of};
use dr_base::Text;
use dr_base::heap::boxed;
use dr_ledger::Instance;
use dr_route::Key;
use std::alloc::{AllocError, Global};
use std::cmp::Ordering;
use std::marker::Model;

/// How a hop is held.
#[derive(Drop)]
enum HopForm<'a> {
    /// Its texts stand in lines of journals.
    Line {
        from: &'a Text,
        to: &'a Text,
        instance: &'a Instance,
    },
    /// It has texts of its own.
    Own(Box<AuditHop>),
}

/// A hop that takes next to no memory, since its texts stand in lines of journals, wherever there
/// are lines that have them. Contracts see the hop itself.
#[derive(Drop)]
pub struct HopPlace<'a> {
    form: HopForm<'a>,
}

impl<'a> Model for HopPlace<'a> {
    ghost use Rattle.dr_world_audit.specs.declared.hop.AuditHop.{AuditHop as Held};
    ghost use Rattle.dr_world_audit.specs.Seen.{hop_seen};

    ghost Value = { Held };

    ghost view = { λ p. hop_seen p.form };
}

impl<'a> HopPlace<'a> {
    /// The hop of this instance between these nodes.
    pub fn of_line(from: &'a Text, to: &'a Text, instance: &'a Instance) -> HopPlace<'a>
        ensures { result ≡ hop_at (from.now, to.now, instance.now) }
    {
        HopPlace {
            form: HopForm::Line { from, to, instance },
        }
    }

    /// The same with texts of its own.
    pub fn of_copy(
        alloc: Global,
        from: &Text,
        to: &Text,
        instance: &Instance,
    ) -> Result<HopPlace<'a>, AllocError>
        ensures { IfOk result (λ p. p ≡ hop_at (from.now, to.now, instance.now)) }
    {
        let hop = boxed(alloc, hop_of(alloc, from, to, instance)?)?;
        Ok(HopPlace {
            form: HopForm::Own(hop),
        })
    }

    pub fn uid(&self) -> &Text
        ensures { result.now ≡ self.now.uid }
    {
        match &self.form {
            HopForm::Line { instance, .. } => &instance.uid,
            HopForm::Own(hop) => &hop.as_ref().uid,
        }
    }

    pub fn from_node(&self) -> &Text
        ensures { result.now ≡ self.now.from }
    {
        match &self.form {
            HopForm::Line { from, .. } => from,
            HopForm::Own(hop) => &hop.as_ref().from,
        }
    }

    pub fn to_node(&self) -> &Text
        ensures { result.now ≡ self.now.to }
    {
        match &self.form {
            HopForm::Line { to, .. } => to,
            HopForm::Own(hop) => &hop.as_ref().to,
        }
    }

    fn key(&self) -> &Key
        ensures { result.now ≡ self.now.key }
    {
        match &self.form {
            HopForm::Line { instance, .. } => &instance.key,
            HopForm::Own(hop) => &hop.as_ref().key,
        }
    }

    fn size(&self) -> u64
        ensures { result ≡ self.now.size }
    {
        match &self.form {
            HopForm::Line { instance, .. } => instance.size,
            HopForm::Own(hop) => hop.as_ref().size,
        }
    }

    fn digest(&self) -> &[u8]
        ensures { result.now ≡ self.now.digest }
    {
        match &self.form {
            HopForm::Line { instance, .. } => &instance.digest,
            HopForm::Own(hop) => hop.as_ref().digest.as_bytes(),
        }
    }
}

/// How the one hop compares to the other, of one UID.
fn compared_beyond<'a>(hop: &HopPlace<'a>, other: &HopPlace<'a>) -> Ordering
    ensures { result ≡ rest_cmp hop.now other.now }
{
    hop.from_node().cmp(other.from_node()).then(
        hop.to_node().cmp(other.to_node()).then(
            hop.key().cmp(other.key()).then(
                hop.size()
                    .cmp(&other.size())
                    .then(hop.digest().cmp(other.digest())),
            ),
        ),
    )
}

/// How the one hop compares to the other. What is beyond the UID is read only where this is the
/// same.
fn compared<'a>(hop: &HopPlace<'a>, other: &HopPlace<'a>) -> Ordering
    ensures { result ≡ hop_cmp hop.now other.now }
{
    match hop.uid().cmp(other.uid()) {
        Ordering::Less => Ordering::Less,
        Ordering::Equal => compared_beyond(hop, other),
        Ordering::Greater => Ordering::Greater,
    }
}

impl<'a> PartialEq for HopPlace<'a> {
    ghost eq = { eq_by_cmp hop_cmp };

    ghost laws = { partial_equiv_from_equiv (eq_by_cmp_equiv total-law) };

    fn eq(&self, other: &HopPlace<'a>) -> bool {
        compared(self, other).is_eq()
    }
}

impl<'a> Eq for HopPlace<'a> {
    ghost laws = { eq_by_cmp_equiv total-law };
}

impl<'a> PartialOrd for HopPlace<'a> {
    ghost partial_cmp = { as_partial_cmp hop_cmp };

    ghost laws = { po total-law (λ x y. refl) };

    fn partial_cmp(&self, other: &HopPlace<'a>) -> Option<Ordering> {
        Some(compared(self, other))
    }
}

impl<'a> Ord for HopPlace<'a> {
    ghost cmp = { hop_cmp };

    ghost total = { total-law };

    ghost matches_partial_cmp = { λ x y. refl };

    ghost matches_eq = { λ x y. refl };

    fn cmp(&self, other: &HopPlace<'a>) -> Ordering {
        compared(self, other)
    }
}
