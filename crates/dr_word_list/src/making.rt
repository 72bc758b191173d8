//! The word `new`.
ghost use Rattle.std.specs.Prelude.{◌≡◌, IfOk};
ghost use Rattle.dr_word_list.specs.Works.{made_line};

use dr_base::Text;
use std::alloc::{AllocError, Global};

/// The line that is printed where a ledger was made.
const MADE: &[u8] = b"made\n";

/// The line, before anything is made.
pub(crate) fn line_of(alloc: Global) -> Result<Text, AllocError>
    ensures { IfOk result (λ line. line ≡ made_line) }
{
    let line = Text::copy_of(alloc, MADE)?;
    Ok(line)
}
