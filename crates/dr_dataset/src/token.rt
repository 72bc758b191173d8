//! Tokens of a data set: what an element or an item begins with, and what ends one.
use crate::header::Tag;
use dr_base::Syntax;

/// What comes next in a data set.
#[derive(Clone, Copy, Debug, PartialEq, Eq)]
pub enum Token {
    /// The header of an element; its value of that many bytes follows.
    Value(Tag, u32),
    /// The header of a sequence of undefined length, with the syntax of what is inside it.
    Sequence(Tag, Syntax),
    /// The header of an item; that many bytes follow, which aren't looked into.
    PlainItem(u32),
    /// The header of an item of undefined length.
    Item,
    /// The end of an item.
    ItemEnd,
    /// The end of the sequence with that tag.
    SequenceEnd(Tag),
}
