//! The messages that an end is hearing, with the scans of their data sets.
ghost use Rattle.std.specs.Prelude.{◌≡◌, IfOk, IfSome};
ghost use Rattle.dr_dimse.specs.Taking.{Idle, TakesValue, let_go};
ghost use Rattle.dr_dimse.specs.Written.{CommandFits};
ghost use Rattle.dr_dimse_scan.specs.Stores.{HasScan, message_of};

use dr_base::Syntax;
use dr_dimse::{Awaited, DimseFault};
use dr_dimse_scan::{HeardMessage, Hearing};
use dr_pdu::Pdv;
use std::alloc::Global;
use std::marker::Model;

/// An assembly in which the command whose data set is under way is one that was read, so that it
/// can be answered. The data set of a C-STORE-RQ is scanned while it comes. Contracts see it as the
/// assembly.
#[derive(Drop)]
pub struct Listener {
    hearing: Hearing,
}

impl Model for Listener {
    ghost use Rattle.dr_dimse.specs.Taking.{Assembling};
    ghost use Rattle.dr_session.specs.Fits.{StageFits};

    ghost Value = { Assembling };

    ghost view = { λ l. l.hearing };

    ghost invariant = { λ l. StageFits l.hearing.stage };
}

impl Listener {
    /// Nothing is under way; it takes no memory.
    pub(crate) fn new(alloc: Global, awaited: Awaited) -> Listener
        ensures { result ≡ record { awaited = awaited; stage = Idle } }
    {
        Listener {
            hearing: Hearing::new(alloc, awaited),
        }
    }

    /// Other commands are awaited from now on.
    pub(crate) fn await_other(&mut self, awaited: Awaited)
        ensures { self.new ≡ record { awaited = awaited; stage = self.old.stage } }
    {
        self.hearing.set_awaited(awaited);
    }

    /// Lets the bytes of the data set that is under way go, if one is.
    pub(crate) fn let_data_go(&mut self)
        ensures { self.new
            ≡ record { awaited = self.old.awaited; stage = let_go self.old.stage } }
    {
        self.hearing.let_data_go();
    }

    /// One more value, as the assembly takes it, of a context with that transfer syntax. The
    /// command of a message that it ends can be written, and the scan that comes with it has heard
    /// its data set.
    pub(crate) fn take(
        &mut self,
        pdv: Pdv,
        syntax: Option<Syntax>,
    ) -> Result<Option<HeardMessage>, DimseFault>
        ensures awaited { self.new.awaited ≡ self.old.awaited }
        ensures takes { TakesValue self.old.awaited self.old.stage pdv (message_of result)
            self.new.stage }
        ensures fits { IfOk result (λ ended. IfSome ended (λ h. CommandFits h.message.command)) }
        ensures scans { IfOk result (λ ended. IfSome ended (λ h. HasScan syntax h)) }
    {
        self.hearing.take(pdv, syntax)
    }
}
