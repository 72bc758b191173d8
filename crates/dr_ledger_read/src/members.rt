//! Members of which each has one of two values.
ghost use Rattle.dr_ledger_read.specs.Cutting.{Cuts, Same};
ghost use Rattle.dr_ledger_read.specs.Places.{IsKeep, IsSyntax};

use crate::pieces::after;
use dr_base::Syntax;

/// The transfer syntax of an instance.
pub fn cut_syntax(text: &[u8]) -> Option<(Syntax, &[u8])>
    ensures { Cuts Same (IsSyntax text.now) result }
{
    if let Some(rest) = after(text, b",\"syntax\":\"1.2.840.10008.1.2\"") {
        return Some((Syntax::Implicit, rest));
    }
    let rest = after(text, b",\"syntax\":\"1.2.840.10008.1.2.1\"")?;
    Some((Syntax::Explicit, rest))
}

/// Whether an instance is kept.
pub fn cut_keep(text: &[u8]) -> Option<(bool, &[u8])>
    ensures { Cuts Same (IsKeep text.now) result }
{
    if let Some(rest) = after(text, b",\"keep\":true") {
        return Some((true, rest));
    }
    let rest = after(text, b",\"keep\":false")?;
    Some((false, rest))
}
