//! A core on the heap, and each change of it.
ghost use Rattle.std.specs.Prelude.{◌≡◌, IfOk};

mod changes;
mod phases;
mod values;

use crate::ends::Core;
use dr_base::Text;
use std::alloc::{AllocError, Global};
use std::marker::Model;

/// One end without the bytes that it keeps, on the heap: at each input a core goes through a dozen
/// calls, and so it moves as a pointer. Contracts see the core.
#[derive(Drop)]
pub struct BoxedCore {
    core: Box<Core>,
}

impl Model for BoxedCore {
    ghost use Rattle.dr_session.specs.declared.ends.Core.{Core};

    ghost Value = { Core };

    ghost view = { λ b. b.core.value };
}

impl BoxedCore {
    /// Puts a core on the heap.
    pub(crate) fn new(alloc: Global, core: Core) -> Result<BoxedCore, AllocError>
        ensures { IfOk result (λ b. b ≡ core) }
    {
        let core = Box::new(alloc, core)?;
        Ok(BoxedCore { core })
    }

    /// The other end's title.
    pub(crate) fn peer(&self) -> &Text
        ensures { result.now ≡ self.now.peer }
    {
        &self.core.as_ref().peer
    }

    /// The core by reference.
    pub(crate) fn as_core(&self) -> &Core
        ensures { result.now ≡ self.now }
    {
        self.core.as_ref()
    }
}
