//! What a balance has a list of.
ghost use Rattle.std.specs.Prelude.{◌≡◌, ℕ, List, IfOk, MatchOption};
ghost use Rattle.std.specs.declared.cmp.Ordering.{Ordering as Order};
ghost use Rattle.dr_ledger_balance.specs.Fields.{FitsField};
ghost use Rattle.dr_ledger_balance.specs.Orders.{item_cmp, row_cmp};
ghost use Rattle.dr_ledger_balance.specs.Pieces.{HasNone, IsPiece};
ghost use Rattle.dr_ledger_balance.specs.Spelling.{FitsArrival, FitsItem, FitsRow, arrival_then};
ghost use Rattle.dr_ledger_balance.specs.Spelling.{item_then, kept_then, row_then};
ghost use Rattle.dr_base.specs.Texts.{text_cmp};
ghost use Rattle.dr_ledger.specs.Pairs.{pair_cmp};

use crate::item::{cut_item, item_at};
use crate::pieces::{cut_arrival, cut_kept, cut_row};
use dr_base::Text;
use dr_ledger::{Instance, Progress};
use std::alloc::{AllocError, Global};
use std::cmp::Ordering;

/// What a balance has a list of: each has a line of its own.
pub trait Spelled: Sized + Drop {
    // which of them a program can have
    ghost fits: { Self → Type 0 };

    // its line, with what is behind it
    ghost spelled: { Self → List ℕ → List ℕ };

    // their order
    ghost order: { Self → Self → Order };

    /// The one whose line is at the front of a text.
    fn cut(alloc: Global, text: &[u8]) -> Result<Option<(Self, &[u8])>, AllocError>
        ensures { IfOk result (λ cut. MatchOption cut (HasNone fits spelled text.now)
            (λ f. IsPiece fits spelled text.now f.0 f.1.now)) };

    /// Which of them comes first.
    fn compare(&self, other: &Self) -> Ordering
        ensures { result ≡ order self.now other.now };
}

impl Spelled for Instance {
    ghost fits = { FitsItem };

    ghost spelled = { item_then };

    ghost order = { item_cmp };

    fn cut(alloc: Global, text: &[u8]) -> Result<Option<(Instance, &[u8])>, AllocError> {
        let Some((places, rest)) = cut_item(text) else {
            return Ok(None);
        };
        let item = item_at(alloc, &places)?;
        Ok(Some((item, rest)))
    }

    fn compare(&self, other: &Instance) -> Ordering {
        self.uid.cmp(&other.uid)
    }
}

impl Spelled for (Text, Text) {
    ghost fits = { FitsArrival };

    ghost spelled = { arrival_then };

    ghost order = { pair_cmp };

    fn cut(alloc: Global, text: &[u8]) -> Result<Option<((Text, Text), &[u8])>, AllocError> {
        let Some(((caller, uid), rest)) = cut_arrival(text) else {
            return Ok(None);
        };
        let caller = Text::copy_of(alloc, caller)?;
        let uid = Text::copy_of(alloc, uid)?;
        Ok(Some(((caller, uid), rest)))
    }

    fn compare(&self, other: &(Text, Text)) -> Ordering {
        self.cmp(other)
    }
}

impl Spelled for Text {
    ghost fits = { FitsField };

    ghost spelled = { kept_then };

    ghost order = { text_cmp };

    fn cut(alloc: Global, text: &[u8]) -> Result<Option<(Text, &[u8])>, AllocError> {
        let Some((uid, rest)) = cut_kept(text) else {
            return Ok(None);
        };
        let uid = Text::copy_of(alloc, uid)?;
        Ok(Some((uid, rest)))
    }

    fn compare(&self, other: &Text) -> Ordering {
        self.cmp(other)
    }
}

impl Spelled for ((Text, Text), Progress) {
    ghost fits = { FitsRow };

    ghost spelled = { row_then };

    ghost order = { row_cmp };

    fn cut(
        alloc: Global,
        text: &[u8],
    ) -> Result<Option<(((Text, Text), Progress), &[u8])>, AllocError> {
        let Some((((uid, dest), progress), rest)) = cut_row(text) else {
            return Ok(None);
        };
        let uid = Text::copy_of(alloc, uid)?;
        let dest = Text::copy_of(alloc, dest)?;
        Ok(Some((((uid, dest), progress), rest)))
    }

    fn compare(&self, other: &((Text, Text), Progress)) -> Ordering {
        self.0.cmp(&other.0)
    }
}
