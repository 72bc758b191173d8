//! What shows that a row of expectations doesn't hold.
use dr_base::Text;
use dr_route::Key;

/// A key, and the node where it enters.
#[derive(Drop)]
pub struct Case {
    pub site: Text,
    pub key: Key,
}

/// What a row lacks.
#[derive(Drop)]
pub enum Lack {
    /// No key of which it speaks enters anywhere.
    Nothing,
    /// The node of that name doesn't keep this key.
    Keep(Text, Case),
    /// This key comes to the node of that name.
    Never(Text, Case),
}

/// A row that doesn't hold.
#[derive(Drop)]
pub struct Miss {
    /// The row's number; rows count from 1.
    pub row: usize,
    pub lack: Lack,
}
