//! Whether two values are the same, part by part.
use crate::certificate::{Hop, Line};
use dr_base::same::Same;

impl Same for Line {
    fn is_same(&self, other: &Line) -> bool {
        self == other
    }
}

impl Same for Hop {
    fn is_same(&self, other: &Hop) -> bool {
        self == other
    }
}
