//! Letting go of what is of one uid: its rows, its arrivals and its instance. What is of others is
//! passed over.
ghost use Rattle.std.specs.Prelude.{◌≡◌, ◌↔◌, ◌++◌, ◌∷◌, [], IfOk, IsTrue, OnOk};
ghost use Rattle.std.specs.FinMap as map;
ghost use Rattle.std.specs.FinSet as set;
ghost use Rattle.dr_base.specs.Texts.{text_cmp};
ghost use Rattle.dr_ledger.specs.Books.{is_other};
ghost use Rattle.dr_ledger.specs.Pairs.{pair_cmp};
ghost use Rattle.dr_ledger_history.specs.Leaving.{AreLetGo, IsCallerFrom, IsRowOf};
ghost use Rattle.dr_ledger_history.specs.Trees.{as_map, as_set};

use dr_base::Text;
use dr_ledger::{Instance, Progress};
use std::alloc::{AllocError, Global};
use std::collections::{BTreeMap, BTreeSet};

/// The first row of the uid, if there is one: where it stands, and how far it is.
fn row_of(
    alloc: Global,
    rows: &BTreeMap<(Text, Text), Progress>,
    uid: &Text,
) -> Result<Option<((Text, Text), Progress)>, AllocError>
    ensures { IfOk result (IsRowOf uid.now (as_map pair_cmp rows.now)) }
{
    let start = (uid.clone()?, Text::empty(alloc));
    let mut rest = rows.range(start..);
    let Some((at, row)) = rest.next() else {
        return Ok(None);
    };
    if is_of(at, uid) {
        let uid = at.0.clone()?;
        let dest = at.1.clone()?;
        return Ok(Some(((uid, dest), *row)));
    }
    Ok(None)
}

/// Whether the row is of the uid.
fn is_of(at: &(Text, Text), uid: &Text) -> bool
    ensures { IsTrue result ↔ (at.now.0 ≡ uid.now) }
{
    at.0 == *uid
}

/// Takes the rows of the uid out until one waits or is held; whether none did.
pub fn let_rows_go(
    alloc: Global,
    rows: &mut BTreeMap<(Text, Text), Progress>,
    uid: &Text,
) -> Result<bool, AllocError>
    ensures { IfOk result (λ all.
        AreLetGo uid.now (as_map pair_cmp rows.old) all (as_map pair_cmp rows.new)) }
{
    'rows: loop {
        let Some((at, row)) = row_of(alloc, rows, uid)? else {
            return Ok(true);
        };
        if row.is_queued() {
            return Ok(false);
        }
        rows.remove(&at);
    }
}

/// The first caller from that one on, of those who brought anything.
fn caller_from(
    alloc: Global,
    arrivals: &BTreeSet<(Text, Text)>,
    from: &Text,
) -> Result<Option<Text>, AllocError>
    ensures { IfOk result (IsCallerFrom from.now arrivals.now) }
{
    let start = (from.clone()?, Text::empty(alloc));
    let mut rest = arrivals.range(start..);
    let Some(first) = rest.next() else {
        return Ok(None);
    };
    let caller = first.0.clone()?;
    Ok(Some(caller))
}

/// The text right after that one: none stands between them.
fn next_text(text: Text) -> Result<Text, AllocError>
    ensures { IfOk result (λ next. next ≡ text ++ 0 ∷ []) }
{
    let mut bytes = text.into_vec();
    bytes.push(0)?;
    Ok(Text::from_vec(bytes))
}

/// Takes the arrivals of the uid out. Each caller who brought anything is asked for once, and there
/// are few of them.
pub fn let_callers_go(
    alloc: Global,
    arrivals: &mut BTreeSet<(Text, Text)>,
    uid: &Text,
) -> Result<(), AllocError>
    ensures { OnOk result (as_set pair_cmp arrivals.new
        ≡ set.retain (as_set pair_cmp arrivals.old) (λ at. is_other uid.now at.1)) }
{
    let mut from = Text::empty(alloc);
    'callers: loop {
        let Some(caller) = caller_from(alloc, arrivals, &from)? else {
            return Ok(());
        };
        let at = (caller, uid.clone()?);
        arrivals.remove(&at);
        from = next_text(at.0)?;
    }
}

/// Takes the instance of the uid out.
pub fn take_item(items: &mut BTreeMap<Text, Instance>, uid: &Text)
    ensures { as_map text_cmp items.new ≡ map.remove (as_map text_cmp items.old) uid.now }
{
    let_go(items.remove(uid));
}

/// What was taken out is nobody's concern.
fn let_go<T: Drop>(_value: T) {}
