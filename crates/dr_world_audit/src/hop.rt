//! Instances between two nodes.
ghost use Rattle.std.specs.Prelude.{◌≡◌, IfOk};
ghost use Rattle.dr_world_audit.specs.Hops.{hop_of as hop_at};

use dr_base::Text;
use dr_ledger::Instance;
use dr_route::Key;
use std::alloc::{AllocError, Global};

/// An instance on its way from the one node to the other. Hops are compared by the UID first, by
/// which most differ.
#[derive(PartialEq, Eq, PartialOrd, Ord, Drop)]
pub struct AuditHop {
    pub uid: Text,
    pub from: Text,
    pub to: Text,
    pub key: Key,
    pub size: u64,
    pub digest: Text,
}

/// The instance on its way between these nodes.
pub fn hop_of(
    alloc: Global,
    from: &Text,
    to: &Text,
    instance: &Instance,
) -> Result<AuditHop, AllocError>
    ensures { IfOk result (λ h. h ≡ hop_at (from.now, to.now, instance.now)) }
{
    Ok(AuditHop {
        uid: instance.uid.clone()?,
        from: from.clone()?,
        to: to.clone()?,
        key: instance.key.clone()?,
        size: instance.size,
        digest: Text::copy_of(alloc, &instance.digest)?,
    })
}
