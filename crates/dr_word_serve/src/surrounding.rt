//! What lies around the words of a system that runs.

/// What the words of a system that runs are given: files, what opens ledgers, a network, a clock, a
/// log, and what may end a node from without.
#[derive_where(Clone, Copy)]
pub struct System<'a, F, O, N, C, G, U> {
    pub files: &'a F,
    pub ledgers: &'a O,
    pub network: &'a N,
    pub clock: &'a C,
    pub log: &'a G,
    pub ending: &'a U,
}
