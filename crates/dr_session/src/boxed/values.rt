//! The values that a core is hearing.
ghost use Rattle.std.specs.Prelude.{IfOk};
ghost use Rattle.dr_session.specs.Fits.{ToldFits};
ghost use Rattle.dr_session.specs.Plays.{TellsValueTo};

use super::BoxedCore;
use crate::ends::Told;
use crate::telling::tell_value;
use dr_pdu::Pdv;
use std::alloc::{AllocError, Global};

impl BoxedCore {
    /// What a value comes to where data is taken, and the end after it.
    pub(crate) fn tell_value(self, alloc: Global, pdv: Pdv) -> Result<(Told, BoxedCore), AllocError>
        ensures tells { IfOk result (λ r. TellsValueTo self pdv r.0 r.1) }
        ensures fits { IfOk result (λ r. ToldFits r.0) }
    {
        let mut core = self.core;
        let told = tell_value(alloc, pdv, core.as_mut())?;
        Ok((told, BoxedCore { core }))
    }
}
