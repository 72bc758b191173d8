//! Laws of reports.
ghost use Rattle.dr_ledger_report.specs.Laws.{ReportOfANode};

/// The report of a node.
pub fn a_report_is_printed_so()
    ensures { ReportOfANode }
{}
