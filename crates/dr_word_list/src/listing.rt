//! The word `list`.
ghost use Rattle.std.specs.Prelude.{◌≡◌, IfOk};
ghost use Rattle.dr_ledger_report.specs.Reports.{IsReportOf};

use dr_base::Text;
use dr_ledger::{Ledger, LedgerFault};
use dr_ledger_report::report_of;
use dr_run_open::Opened;
use std::alloc::Global;

/// The report of a node that was opened.
///
/// Errors: Store, Memory.
pub(crate) fn list_opened<L: Ledger + Drop>(
    alloc: Global,
    opened: &mut Opened<L>,
) -> Result<Text, LedgerFault>
    ensures report { IfOk result (λ text. L.stands opened.new.ledger
        → IsReportOf opened.old.site.name (L.book opened.new.ledger) text) }
    ensures same { L.stands opened.new.ledger
        → L.book opened.new.ledger ≡ L.book opened.old.ledger }
{
    report_of(alloc, opened.site.name(), &mut opened.ledger)
}
