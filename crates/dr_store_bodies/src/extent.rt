//! A place in a file.

/// The bytes of a file from `at` on, as many as `size` says.
#[derive(Clone, Copy, Debug, PartialEq, Eq)]
pub struct Extent {
    pub at: usize,
    pub size: usize,
}
