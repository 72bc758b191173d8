//! What a node has, as it is printed.
ghost use Rattle.std.specs.Prelude.{◌≡◌, ◌++◌, IfOk};
ghost use Rattle.dr_ledger_report.specs.Reports.{IsReportOf, name_line, report_of as report};

use crate::lines::{put_name, put_report};
use dr_base::{Seq, Text};
use dr_ledger::{Ledger, LedgerFault, Progress};
use std::alloc::{AllocError, Global};

/// The report of a node whose ledger lists this, and has so many lines.
pub fn report_text(
    alloc: Global,
    name: &Text,
    arrivals: &Seq<(Text, Text)>,
    kept: &Seq<(Text, u64)>,
    rows: &Seq<((Text, Text), Progress)>,
    lines: u64,
) -> Result<Text, AllocError>
    ensures { IfOk result (λ text.
        text ≡ name_line name.now ++ report arrivals.now kept.now rows.now lines) }
{
    let mut out = Vec::new(alloc);
    put_name(&mut out, name)?;
    put_report(
        &mut out,
        arrivals.as_slice(),
        kept.as_slice(),
        rows.as_slice(),
        lines,
    )?;
    Ok(Text::from_vec(out))
}

/// The report of a node with this ledger, which is only read.
///
/// Errors: Store, Memory.
pub fn report_of<L: Ledger>(alloc: Global, name: &Text, ledger: &mut L) -> Result<Text, LedgerFault>
    ensures report { IfOk result (λ text.
        L.stands ledger.new → IsReportOf name.now (L.book ledger.new) text) }
    ensures same { L.stands ledger.new → L.book ledger.new ≡ L.book ledger.old }
    ensures stood { L.stands ledger.new → L.stands ledger.old }
{
    let arrivals = ledger.arrivals()?;
    let kept = ledger.kept()?;
    let rows = ledger.rows()?;
    let lines = ledger.lines()?;
    let count = lines.len() as u64;
    let text = report_text(alloc, name, &arrivals, &kept, &rows, count)?;
    Ok(text)
}
