//! Whether two values are the same, part by part.
use crate::plan::{Flow, Values};
use dr_base::same::{Same, are_same};

impl Same for Values {
    fn is_same(&self, other: &Values) -> bool {
        match (self, other) {
            (Values::Any, Values::Any) => true,
            (Values::Listed(one), Values::Listed(two)) => one.is_same(two),
            _ => false,
        }
    }
}

impl Same for Flow {
    fn is_same(&self, other: &Flow) -> bool {
        self.at.is_same(&other.at)
            && self.to.is_same(&other.to)
            && are_same(self.classes.as_slice(), other.classes.as_slice())
            && are_same(self.syntaxes.as_slice(), other.syntaxes.as_slice())
            && self.modalities.is_same(&other.modalities)
            && self.stations.is_same(&other.stations)
    }
}
