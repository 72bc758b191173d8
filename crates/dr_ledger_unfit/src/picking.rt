//! The unfit ones of listed rows.
ghost use Rattle.std.specs.Prelude.{◌≡◌, ◌++◌, ◌∷◌, [], MatchBool, OnOk};
ghost use Rattle.dr_ledger.specs.Books.{is_queued};
ghost use Rattle.dr_ledger.specs.Replies.{Reads};
ghost use Rattle.dr_ledger_history.specs.Contents.{content};
ghost use Rattle.dr_ledger_unfit.specs.Unfit.{ArePicked, IsFitRow, IsUnfitRow};

use dr_base::Text;
use dr_cert::Sealed;
use dr_ledger::{LedgerFault, Progress};
use dr_ledger_history::History;
use std::alloc::{AllocError, Global};

/// Whether a row waits or is held, and the next plan doesn't go on with it.
///
/// Errors: Store, where the row is of no instance.
fn is_unfit(
    next: &Sealed,
    name: &Text,
    history: &History,
    row: &((Text, Text), Progress),
) -> Result<bool, LedgerFault>
    ensures { Reads result (λ unfit. MatchBool unfit
        (IsUnfitRow next.now.plan name.now (content history.now.parts).items row.now)
        (IsFitRow next.now.plan name.now (content history.now.parts).items row.now)) }
{
    if !row.1.is_queued() {
        return Ok(false);
    }
    let Some(item) = history.item(&row.0.0) else {
        return Err(LedgerFault::Store);
    };
    match next.rank(name, &row.0.1, &item.key) {
        Some(_) => Ok(false),
        None => Ok(true),
    }
}

/// Adds a copy of the row's place, where it is unfit.
fn add_if(found: &mut Vec<(Text, Text)>, unfit: bool, at: &(Text, Text)) -> Result<(), AllocError>
    ensures { OnOk result (MatchBool unfit (found.new.items ≡ found.old.items ++ at.now ∷ [])
        (found.new.items ≡ found.old.items)) }
{
    if unfit {
        let uid = at.0.clone()?;
        let dest = at.1.clone()?;
        found.push((uid, dest))?;
        return Ok(());
    }
    Ok(())
}

/// Those of these rows that wait or are held and that the next plan doesn't go on with.
///
/// Errors: Store, where a row is of no instance; Memory.
pub fn pick_unfit(
    alloc: Global,
    next: &Sealed,
    name: &Text,
    history: &History,
    rows: &[((Text, Text), Progress)],
) -> Result<Vec<(Text, Text)>, LedgerFault>
    ensures { Reads result (λ found.
        ArePicked (IsUnfitRow next.now.plan name.now (content history.now.parts).items)
        (IsFitRow next.now.plan name.now (content history.now.parts).items) rows.now
        found.items) }
{
    let mut found = Vec::new(alloc);
    for row in rows {
        let unfit = is_unfit(next, name, history, row)?;
        add_if(&mut found, unfit, &row.0)?;
    }
    Ok(found)
}
