//! Messages with the scans of their data sets.
ghost use Rattle.std.specs.Prelude.{◌≡◌, List, ℕ, IfSome};
ghost use Rattle.dr_base.specs.declared.syntax.Syntax.{Syntax as SyntaxName};
ghost use Rattle.dr_dataset.specs.DataSet.{Scans};
ghost use Rattle.dr_dataset.specs.Hearing.{Hears};
ghost use Rattle.dr_dimse_scan.specs.Stores.{HasScan, IsScanOf, ReadsStore, store_text};

use crate::store::text_in;
use dr_base::Syntax;
use dr_dataset::scan::attributes;
use dr_dataset::{Attributes, DataFault, Scan};
use dr_dimse::Message;
use std::alloc::Global;

/// A whole message.
#[derive(Drop)]
pub struct HeardMessage {
    /// The message.
    pub message: Message,
    /// A scan that has heard the message's data set, all of it. It may be there only where the
    /// message is a C-STORE-RQ, its data set was kept (at most 67,108,864 bytes), and its syntax
    /// was named. Where it isn't, the data set can be read at once, by
    /// `dr_dataset::scan::attributes`, with the same answers.
    pub scan: Option<Box<Scan>>,
}

impl HeardMessage {
    /// The message, and what its data set is read as: the four attributes, or the first fault
    /// (PS3.5 section 7); None where it isn't a C-STORE-RQ, its data set was too large to be kept,
    /// or no syntax is named. `syntax` is the one that was named when the message ended.
    ///
    /// Errors: `Memory` only where the data set is in order, and there is no memory for the four
    /// values.
    pub fn read(
        self,
        alloc: Global,
        syntax: Option<Syntax>,
    ) -> (Message, Option<Result<Attributes, DataFault>>)
        requires { HasScan syntax self }
        ensures message { result.0 ≡ self.message }
        ensures reads { ReadsStore syntax (store_text self.message) result.1 }
    {
        let HeardMessage { message, scan } = self;
        let found = found_in(alloc, &message, scan, syntax);
        (message, found)
    }
}

/// What the data set of a message is read as: by its scan, if there is one.
fn found_in(
    alloc: Global,
    message: &Message,
    scan: Option<Box<Scan>>,
    syntax: Option<Syntax>,
) -> Option<Result<Attributes, DataFault>>
    requires { IfSome scan (λ b. IsScanOf syntax (store_text message.now) b.value) }
    ensures { ReadsStore syntax (store_text message.now) result }
{
    let Some(syntax) = syntax else {
        return None;
    };
    let Some(text) = text_in(message) else {
        return None;
    };
    match scan {
        Some(scan) => Some(finish(alloc, scan)),
        None => Some(attributes(alloc, text, syntax)),
    }
}

/// What the scan has found, or its first fault.
fn finish(alloc: Global, scan: Box<Scan>) -> Result<Attributes, DataFault>
    ensures { (s : SyntaxName) (text : List ℕ) → Hears s text scan.value → Scans s text result }
{
    let mut scan = scan;
    scan.finish(alloc)
}
