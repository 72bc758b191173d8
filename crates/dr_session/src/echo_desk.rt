//! The desk of an echo, and what an echo comes to.
ghost use Rattle.dr_session.specs.Links.{EchoStep};

use crate::ends::Ended;
use crate::port::DeskPort;
use dr_base::Text;
use dr_ledger::{Arrived, Item, LedgerFault, NextRow, Outcome};

/// It keeps the status of the response that settles the echo. Nothing is due there, and nothing
/// arrives.
#[derive(Drop)]
pub(crate) struct EchoDesk {
    pub status: Option<u16>,
}

/// How an echo ended, and the status of the response; none where no response came or the context
/// wasn't accepted.
#[derive(Clone, Copy, PartialEq, Eq, Debug)]
pub struct Echoed {
    pub ended: Ended,
    pub status: Option<u16>,
}

impl DeskPort for EchoDesk {
    ghost use Rattle.dr_session.specs.Links.{EchoStep};

    ghost step = { EchoStep };

    fn arrive(&mut self, _caller: &Text, _item: Item) -> Result<Arrived, LedgerFault> {
        Err(LedgerFault::NoLine)
    }

    fn next(&mut self, _dest: &Text, _now: u64) -> Result<Option<NextRow>, LedgerFault> {
        Ok(None)
    }

    fn due(&mut self, _dest: &Text, _now: u64) -> Result<Option<Text>, LedgerFault> {
        Ok(None)
    }

    fn settle(
        &mut self,
        _uid: &Text,
        _dest: &Text,
        outcome: Outcome,
        _now: u64,
    ) -> Result<(), LedgerFault> {
        match outcome {
            Outcome::Status(status) => {
                self.status = Some(status);
                Ok(())
            }
            Outcome::Broken => Ok(()),
            Outcome::NoContext => Ok(()),
            Outcome::Unreadable => Ok(()),
        }
    }
}
