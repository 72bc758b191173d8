//! Lines of one kind, one behind the other.
ghost use Rattle.std.specs.Prelude.{◌<◌, ℕ, List, IfOk, length};
ghost use Rattle.dr_ledger_balance.specs.Pieces.{AreAll};

use crate::spelled::Spelled;
use dr_base::Seq;
use std::alloc::{AllocError, Global};

/// All of one kind at the front of a text, in order, and what follows them.
pub fn cut_all<S: Spelled>(alloc: Global, text: &[u8]) -> Result<(Seq<S>, &[u8]), AllocError>
    requires { (piece : S) (rest : List ℕ) → length rest < length (S.spelled piece rest) }
    ensures { IfOk result (λ all. AreAll S.fits S.spelled text.now all.0 all.1.now) }
{
    let mut pieces = Seq::new(alloc);
    let mut rest = text;
    while let Some((piece, later)) = S::cut(alloc, rest)? {
        pieces.push(piece)?;
        rest = later;
    }
    Ok((pieces, rest))
}
