//! The journal of one of ours, read to its end.
ghost use Rattle.std.specs.Prelude.{◌≡◌, map as mapped};
ghost use Rattle.dr_ledger_history.specs.Lines.{line_of};
ghost use Rattle.dr_world_audit.specs.Readings.{Reads};

use crate::fault::{JournalFault, of_history};
use crate::replay::{count_past, tell_past, tell_since};
use crate::standing::stand_all;
use crate::trail::{Trail, arrivals_of};
use dr_base::Text;
use dr_cert::Sealed;
use dr_ledger_history::JournalLine;
use dr_site::Site;
use std::alloc::Global;

/// Reads the journal of the node of that name: notes what it says of instances between nodes.
///
/// Errors: NoCall where it is no history of the node; Unfit where the plan has no hop for a row
/// that was carried over; Memory.
pub fn read_journal<'a>(
    alloc: Global,
    sealed: &Sealed,
    site: &Site,
    name: &'a Text,
    lines: &'a [JournalLine],
    trail: &mut Trail<'a>,
) -> Result<(), JournalFault>
    requires { site.now.name ≡ name.now }
    ensures { Reads sealed.now.plan site.now (mapped line_of lines.now) trail.old trail.new result }
{
    let (past, since) = lines.split_at(count_past(lines));
    let told = match tell_past(alloc, past) {
        Ok(told) => told,
        Err(fault) => return Err(of_history(fault)),
    };
    match stand_all(alloc, (sealed, name), &told, past, &mut trail.sent) {
        Ok(()) => {}
        Err(fault) => return Err(fault),
    }
    let known = arrivals_of(alloc, lines)?;
    match tell_since(alloc, site, name, &known, since, told, trail) {
        Ok(_all) => Ok(()),
        Err(fault) => Err(of_history(fault)),
    }
}
