//! Which lines of a journal a request wants to see.
ghost use Rattle.std.specs.Prelude.{◌≡◌, ℕ, MatchResult};
ghost use Rattle.dr_run_request.specs.Forms.{NumberOf, WantsLines};
ghost use Rattle.dr_run_request.specs.declared.lines.LinesWanted.{LinesWanted as LinesValue};
ghost use Rattle.dr_run_request.specs.declared.wanted.FormFault.TheVariants as fault;

use crate::form::value_in;
use crate::wanted::{FormFault, limit_in};
use dr_base::Text;
use dr_base::fields::read_number;
use std::alloc::Global;

/// Which lines of a journal are wanted: those behind a number, and so many of them (1 to 1,000).
#[derive(Clone, Copy, Debug)]
pub struct LinesWanted {
    pub after: u64,
    pub limit: u32,
}

/// The number of a word; 0 where there is none.
///
/// Errors: Field where it is no number of 64 bits as it is written in digits.
fn number_in(word: &Option<Text>) -> Result<u64, FormFault>
    ensures { MatchResult result
        (NumberOf word.now)
        (λ why. (why ≡ fault.Field) × ((n : ℕ) → NumberOf word.now n → ⊥)) }
{
    let Some(word) = word else {
        return Ok(0);
    };
    match read_number(word.as_bytes()) {
        Some(number) => Ok(number),
        None => Err(FormFault::Field),
    }
}

/// The lines that a form asks for.
///
/// Errors: Field where it names a number behind which none can stand, or a number of lines that
/// isn't one from 1 to 1,000; Memory.
pub fn lines_wanted_of(alloc: Global, form: &[u8]) -> Result<LinesWanted, FormFault>
    ensures { MatchResult result
        (WantsLines form.now)
        (λ why. why ≡ fault.Field → (wanted : LinesValue) → WantsLines form.now wanted → ⊥) }
{
    let after = value_in(alloc, form, "after")?;
    let limit = value_in(alloc, form, "limit")?;
    let after = number_in(&after)?;
    let limit = limit_in(&limit)?;
    Ok(LinesWanted { after, limit })
}
