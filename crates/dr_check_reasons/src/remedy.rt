//! What makes a node accept what it refuses.
ghost use Rattle.std.specs.Prelude.{◌≡◌, ◌↔◌, IsTrue, All};
ghost use Rattle.dr_route.specs.Routes.{TakesClass};
ghost use Rattle.dr_check_reasons.specs.Reasons.{TakesPair, IsRemedy};

use dr_base::{Syntax, Text};
use dr_plan_places::first::{Look, first};
use dr_route::AcceptRow;
use dr_route::accept::{is_syntax_listed, takes_class};

/// What makes a node accept a class in a transfer syntax from a caller; indices count from 0.
#[derive(Clone, Copy, PartialEq, Eq)]
pub enum Remedy {
    /// The transfer syntax is added to this accept row.
    AddSyntax(usize),
    /// The caller is added to this accept row.
    AddCaller(usize),
    /// A row is added.
    AddRow,
}

/// A search for a row that takes a class from a caller.
#[derive(Drop)]
struct OfCaller<'a> {
    caller: &'a Text,
    class: &'a Text,
}

impl<'a> Look for OfCaller<'a> {
    type Value = AcceptRow;

    type Place = ();

    ghost is_free = { λ look row. TakesClass look.caller.now look.class.now row → ⊥ };

    ghost is_at = { λ look row _. TakesClass look.caller.now look.class.now row };

    fn look(&self, row: &AcceptRow) -> Option<()> {
        if takes_class(row, self.caller, self.class) {
            return Some(());
        }
        None
    }
}

/// A search for a row that takes a class in a transfer syntax.
#[derive(Drop)]
struct OfSyntax<'a> {
    class: &'a Text,
    syntax: Syntax,
}

/// Whether the row takes the class in the transfer syntax.
fn takes_pair(row: &AcceptRow, class: &Text, syntax: Syntax) -> bool
    ensures { IsTrue result ↔ TakesPair class.now syntax row.now }
{
    row.class == *class && is_syntax_listed(row.syntaxes.as_slice(), syntax)
}

impl<'a> Look for OfSyntax<'a> {
    type Value = AcceptRow;

    type Place = ();

    ghost is_free = { λ look row. TakesPair look.class.now look.syntax row → ⊥ };

    ghost is_at = { λ look row _. TakesPair look.class.now look.syntax row };

    fn look(&self, row: &AcceptRow) -> Option<()> {
        if takes_pair(row, self.class, self.syntax) {
            return Some(());
        }
        None
    }
}

/// What makes a node with these accept rows accept the class in that transfer syntax from the
/// caller.
pub fn remedy_of(rows: &[AcceptRow], caller: &Text, class: &Text, syntax: Syntax) -> Remedy
    ensures { IsRemedy rows.now caller.now class.now syntax result }
{
    if let Some((index, ())) = first(&OfCaller { caller, class }, rows) {
        return Remedy::AddSyntax(index);
    }
    match first(&OfSyntax { class, syntax }, rows) {
        Some((index, ())) => Remedy::AddCaller(index),
        None => Remedy::AddRow,
    }
}
