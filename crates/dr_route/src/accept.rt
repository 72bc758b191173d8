//! What a node accepts from whom.
ghost use Rattle.std.specs.Prelude.{◌≡◌, ◌↔◌, IsTrue, Contains};
ghost use Rattle.dr_route.specs.Routes.{IsCaller, TakesClass, Takes, AcceptsBy};

use dr_base::{Seq, Syntax, Text};

/// The callers that a row speaks of.
#[derive(Clone, Debug, Drop)]
pub enum Callers {
    /// Any caller; it is written `*`.
    Any,
    Listed(Seq<Text>),
}

/// A row of a node's accept list: from these callers it takes this SOP class in these transfer
/// syntaxes, of which it prefers the earlier ones.
#[derive(Clone, Debug, Drop)]
pub struct AcceptRow {
    pub from: Callers,
    pub class: Text,
    pub syntaxes: Seq<Syntax>,
}

/// Whether the text is one of them.
pub fn is_listed(texts: &[Text], text: &Text) -> bool
    ensures { IsTrue result ↔ Contains texts.now text.now }
{
    texts.contains(text)
}

/// Whether the transfer syntax is one of them.
pub fn is_syntax_listed(syntaxes: &[Syntax], syntax: Syntax) -> bool
    ensures { IsTrue result ↔ Contains syntaxes.now syntax }
{
    syntaxes.contains(&syntax)
}

/// Whether the callers have this one among them.
pub fn is_caller(callers: &Callers, caller: &Text) -> bool
    ensures { IsTrue result ↔ IsCaller callers.now caller.now }
{
    match callers {
        Callers::Any => true,
        Callers::Listed(names) => is_listed(names.as_slice(), caller),
    }
}

/// Whether the row takes the class from the caller, in whatever transfer syntaxes.
pub fn takes_class(row: &AcceptRow, caller: &Text, class: &Text) -> bool
    ensures { IsTrue result ↔ TakesClass caller.now class.now row.now }
{
    is_caller(&row.from, caller) && row.class == *class
}

/// Whether the row takes the class in that transfer syntax from the caller.
fn takes(row: &AcceptRow, caller: &Text, class: &Text, syntax: Syntax) -> bool
    ensures { IsTrue result ↔ Takes row.now caller.now class.now syntax }
{
    // Most rows are of another class, so that is tested first.
    row.class == *class
        && is_syntax_listed(row.syntaxes.as_slice(), syntax)
        && is_caller(&row.from, caller)
}

/// Whether some row takes the class in that transfer syntax from the caller.
pub fn accepts(rows: &[AcceptRow], caller: &Text, class: &Text, syntax: Syntax) -> bool
    ensures { IsTrue result ↔ AcceptsBy rows.now caller.now class.now syntax }
{
    for row in rows {
        if takes(row, caller, class, syntax) {
            return true;
        }
    }
    false
}
