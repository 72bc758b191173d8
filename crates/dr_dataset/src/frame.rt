//! What is open at a place of a data set.
use crate::header::Tag;
use dr_base::Syntax;

/// A sequence or an item of undefined length whose end hasn't come yet (PS3.5 section 7.5).
#[derive(Clone, Copy, Debug, PartialEq, Eq)]
pub enum OpenSequence {
    /// A sequence, with its tag and the syntax of what is inside it.
    InSequence(Tag, Syntax),
    /// An item of a sequence, with that syntax.
    InItem(Syntax),
}

/// What the places of a stack hold before anything was open.
impl Default for OpenSequence {
    fn default() -> OpenSequence {
        OpenSequence::InItem(Syntax::Implicit)
    }
}
