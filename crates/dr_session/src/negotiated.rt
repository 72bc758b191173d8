//! What an end has agreed on, with a limit that fragments fit.
ghost use Rattle.std.specs.Prelude.{◌≡◌, find, option_copied};
ghost use Rattle.dr_base.specs.Standard.{verification};
ghost use Rattle.dr_base.specs.Syntaxes.{syntax_uid};
ghost use Rattle.dr_base.specs.declared.syntax.Syntax.TheVariants.{Implicit};
ghost use Rattle.dr_nego.specs.Agreeing.{IsTooSmall, context_for, is_for, pair_at};

use dr_base::{Syntax, Text};
use dr_nego::{Agreed, Pair};
use std::marker::Model;

/// Verification (PS3.4 A.4).
pub(crate) const VERIFICATION: &[u8] = b"1.2.840.10008.1.1";

/// What was agreed on, where the other side's limit is none of 1 to 7, so that messages can be
/// written within it. Contracts see it as what was agreed on.
#[derive(Drop)]
pub struct Negotiated {
    agreed: Agreed,
}

impl Model for Negotiated {
    ghost use Rattle.dr_nego.specs.Agreeing.{IsTooSmall};
    ghost use Rattle.dr_nego.specs.declared.agreed.Agreed.{Agreed as AgreedOn};

    ghost Value = { AgreedOn };

    ghost view = { λ t. t.agreed };

    ghost invariant = { λ t. IsTooSmall t.agreed.limit → ⊥ };
}

/// Whether the context is of Verification, and of the transfer syntax that an echo is written in.
fn is_for_echo(pair: &Pair) -> bool
    ensures { result ≡ is_for verification (syntax_uid Implicit) pair.now }
{
    pair.class.as_bytes() == VERIFICATION && pair.syntax.as_bytes() == Syntax::Implicit.uid()
}

impl Negotiated {
    /// What was agreed on with such a limit.
    pub(crate) fn new(agreed: Agreed) -> Negotiated
        requires { IsTooSmall agreed.limit → ⊥ }
        ensures { result ≡ agreed }
    {
        Negotiated { agreed }
    }

    /// What was agreed on, by reference.
    pub(crate) fn as_agreed(&self) -> &Agreed
        ensures same { result.now ≡ self.now }
        ensures serves { IsTooSmall result.now.limit → ⊥ }
    {
        &self.agreed
    }

    /// The id of the first accepted context of the class and the transfer syntax.
    pub(crate) fn context_for(&self, class: &Text, syntax: Syntax) -> Option<u8>
        ensures { result ≡ context_for self.now class.now (syntax_uid syntax) }
    {
        self.agreed.context_for(class, syntax)
    }

    /// The first accepted context for an echo.
    fn echo_pair(&self) -> Option<&Pair>
        ensures { option_copied result
            ≡ find (is_for verification (syntax_uid Implicit)) self.now.pairs }
    {
        self.agreed
            .pairs
            .as_slice()
            .iter()
            .find(|pair| is_for_echo(pair))
    }

    /// The id of the first accepted context for an echo. It takes no memory.
    pub(crate) fn echo_context(&self) -> Option<u8>
        ensures { result ≡ context_for self.now verification (syntax_uid Implicit) }
    {
        let Some(pair) = self.echo_pair() else {
            return None;
        };
        Some(pair.id)
    }

    /// The accepted context of that id.
    pub(crate) fn context(&self, id: u8) -> Option<&Pair>
        ensures { option_copied result ≡ pair_at self.now id }
    {
        self.agreed.context(id)
    }
}
