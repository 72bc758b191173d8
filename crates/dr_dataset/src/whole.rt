//! Elements of the top level where they stand in their text.
use crate::header::Tag;

/// An element of the top level; it has no value where its length is undefined.
#[derive(Clone, Copy)]
pub struct Whole<'a> {
    pub tag: Tag,
    pub value: Option<&'a [u8]>,
}
