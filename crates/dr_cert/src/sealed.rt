//! A plan that is sealed with its certificate.
ghost use Rattle.std.specs.Prelude.{◌≡◌, IfOk};
ghost use Rattle.dr_plan_model.specs.Plans.{IsWellFormed};
ghost use Rattle.dr_plan_sound.specs.Soundness.{IsSound};
ghost use Rattle.dr_plan_sound.specs.Certificates.{IsCertificateOf};

use crate::fault::CertFault;
use crate::index::{index_of, rank_of};
use crate::place::StopPlace;
use crate::verify::{test_lines, test_order};
use dr_base::Text;
use dr_base::heap::boxed;
use dr_plan_model::Plan;
use dr_plan_model::literals::literals;
use dr_plan_sound::copies::{copy_certificate, copy_lines};
use dr_plan_sound::{Certificate, Line};
use dr_route::copies::copy_literals;
use dr_route::{Key, Literals, cell_of};
use std::alloc::{AllocError, Global};
use std::marker::Model;

/// A plan and its certificate, with what finds a line of it: the plan's literals, and the lines by
/// their stops.
#[derive(Drop)]
struct SealedParts {
    plan: Plan,
    certificate: Certificate,
    literals: Literals,
    index: Vec<Line>,
}

/// A plan with its certificate. None can be made but of a sound plan with just its certificate. It
/// moves as a pointer.
#[derive(Drop)]
pub struct Sealed {
    parts: Box<SealedParts>,
}

impl Model for Sealed {
    ghost use Rattle.dr_cert.specs.Sealing.{Certified, IsSealed};

    ghost Value = { Certified };

    ghost view = { λ s.
        record { plan = s.parts.value.plan; certificate = s.parts.value.certificate } };

    ghost invariant = { λ s. IsSealed s.parts.value.plan s.parts.value.certificate
        s.parts.value.literals s.parts.value.index.items };
}

impl Sealed {
    ghost use Rattle.dr_cert.specs.Refusing.{Seals};
    ghost use Rattle.dr_cert.specs.Sealing.{IsRankIn};

    /// Seals the plan with its certificate, which is trusted for nothing: each rank is tested
    /// against the plan, and so are the lines and the hops. The faults are tested one after
    /// another, each over the whole certificate: OtherPlan; Order (of lines and hops); MissingLine,
    /// NoContext and DeadEnd of what a walk from an entry comes to; Order (of a line to which none
    /// comes); WrongRank; HopList.
    pub fn new(alloc: Global, plan: Plan, certificate: Certificate) -> Result<Sealed, CertFault>
        ensures { Seals plan certificate result }
    {
        test_order(alloc, &plan, &certificate)?;
        let index = index_of(alloc, certificate.lines.as_slice())?;
        test_lines(alloc, &plan, &certificate, index.as_slice())?;
        let literals = literals(alloc, &plan)?;
        let parts = SealedParts {
            plan,
            certificate,
            literals,
            index,
        };
        let parts = boxed(alloc, parts)?;
        Ok(Sealed { parts })
    }

    /// A copy of it.
    pub fn copy(&self) -> Result<Sealed, AllocError>
        ensures { IfOk result (λ sealed. sealed ≡ self.now) }
    {
        let own = self.parts.as_ref();
        let parts = SealedParts {
            plan: own.plan.copy()?,
            certificate: copy_certificate(&own.certificate)?,
            literals: copy_literals(&own.literals)?,
            index: copy_lines(&own.index)?,
        };
        let parts = boxed(*Box::allocator(&self.parts), parts)?;
        Ok(Sealed { parts })
    }

    /// The plan, which is sound.
    pub fn plan(&self) -> &Plan
        ensures same { result.now ≡ self.now.plan }
        ensures well_formed { IsWellFormed self.now.plan }
        ensures sound { IsSound self.now.plan }
    {
        &self.parts.as_ref().plan
    }

    /// The certificate of the plan.
    pub fn certificate(&self) -> &Certificate
        ensures same { result.now ≡ self.now.certificate }
        ensures own { IsCertificateOf self.now.plan self.now.certificate }
    {
        &self.parts.as_ref().certificate
    }

    /// How many hops an instance of the key may still make from the node to which the caller brings
    /// it, at most; None where no walk from an entry brings it there. It takes no memory: a binary
    /// search over the lines.
    pub fn rank(&self, caller: &Text, node: &Text, key: &Key) -> Option<u32>
        ensures { IsRankIn self.now.plan key.now caller.now node.now result }
    {
        let parts = self.parts.as_ref();
        let stop = StopPlace::new(caller, node, cell_of(&parts.literals, key));
        match rank_of(parts.index.as_slice(), &stop) {
            Some(rank) => Some(rank),
            None => None,
        }
    }
}
