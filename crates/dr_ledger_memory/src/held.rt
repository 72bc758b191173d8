//! What a uid has.
ghost use Rattle.std.specs.Prelude.{T};
ghost use Rattle.std.specs.FinMap.{is_sorted};
ghost use Rattle.dr_base.specs.Texts.{text_cmp};

use dr_base::{Octets, Text};
use dr_ledger::{Instance, Progress};

/// What a uid has: its instance, its data set where that is needed, whether it is kept, and how far
/// it is on its way to each destination, in byte order of the destinations.
#[derive(Drop)]
pub struct Held {
    pub instance: Instance,
    pub body: Option<Octets>,
    pub is_kept: bool,
    pub rows: Vec<(Text, Progress)>,
    ghost ordered: { T (is_sorted text_cmp rows.items) },
}
