//! The ledgers of all nodes, changed one after the other.
ghost use Rattle.std.specs.Prelude.{◌≡◌, All, MatchResult};
ghost use Rattle.dr_word_adopt.specs.Changings.{IsChanged, IsKept, LeavesLedger, MayChange};
ghost use Rattle.dr_base.specs.Lists.{Each};
ghost use Rattle.dr_word_adopt.specs.Changings.{OnlyFirstAreChanged};

use crate::change::Halted;
use crate::standing::Standing;
use dr_cert::Sealed;
use dr_ledger::{Ledger, LedgerFault};
use dr_run_open::Halt;

/// Has a ledger that may be changed adopt the next plan; one that is of it already stays as it is.
///
/// Errors: Store, Memory; then its owner and its book are as they were.
fn change<L: Ledger + Drop>(standing: &mut Standing<L>, next: &Sealed) -> Result<(), LedgerFault>
    requires { MayChange L.site L.book L.stands next.now standing.old }
    ensures { MatchResult result
        (λ _. IsChanged L.site L.book L.stands next.now standing.old standing.new)
        (λ _. IsKept L.site L.book L.stands next.now standing.old standing.new) }
{
    match standing {
        Standing::Over(_) => Ok(()),
        Standing::Ready(ledger, own) => {
            let own = own.copy()?;
            ledger.adopt(next, own)
        }
    }
}

/// The refusal of the ledger of a node.
fn refused_at<'a, L: Ledger + Drop>(standing: &Standing<L>, fault: LedgerFault) -> Halted<'a>
    ensures { LeavesLedger result.halt }
{
    match standing {
        Standing::Over(_) => Halted::from(Halt::Refused(fault)),
        Standing::Ready(_, own) => Halted::at(own.name(), Halt::Refused(fault)),
    }
}

/// Changes all ledgers, in their order, up to the first that refuses.
///
/// Errors: Refused with Store or Memory, at the node.
pub fn change_all<'a, L: Ledger + Drop>(
    all: &mut [Standing<L>],
    next: &Sealed,
) -> Result<(), Halted<'a>>
    requires { All (MayChange L.site L.book L.stands next.now) all.old }
    ensures { MatchResult result
        (λ _. Each (IsChanged L.site L.book L.stands next.now) all.old all.new)
        (λ stop. LeavesLedger stop.halt
        × OnlyFirstAreChanged L.site L.book L.stands next.now all.old all.new) }
{
    for standing in all.iter_mut() {
        match change(standing, next) {
            Ok(()) => {}
            Err(fault) => return Err(refused_at(standing, fault)),
        }
    }
    Ok(())
}
