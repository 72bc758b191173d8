//! Whether two values are the same, part by part.
use crate::accept::{AcceptRow, Callers};
use crate::cell::{FieldValues, Literals};
use crate::rule::{FieldPattern, Pattern, Rule};
use dr_base::same::{Same, are_same};

impl Same for Pattern {
    fn is_same(&self, other: &Pattern) -> bool {
        match (self, other) {
            (Pattern::Any, Pattern::Any) => true,
            (Pattern::Literal(one), Pattern::Literal(two)) => one.is_same(two),
            _ => false,
        }
    }
}

impl Same for FieldPattern {
    fn is_same(&self, other: &FieldPattern) -> bool {
        match (self, other) {
            (FieldPattern::Any, FieldPattern::Any) => true,
            (FieldPattern::Literal(one), FieldPattern::Literal(two)) => one.is_same(two),
            (FieldPattern::Prefix(one), FieldPattern::Prefix(two)) => one.is_same(two),
            _ => false,
        }
    }
}

impl Same for FieldValues {
    fn is_same(&self, other: &FieldValues) -> bool {
        are_same(self.literals.as_slice(), other.literals.as_slice())
            && are_same(self.prefixes.as_slice(), other.prefixes.as_slice())
    }
}

impl Same for Callers {
    fn is_same(&self, other: &Callers) -> bool {
        match (self, other) {
            (Callers::Any, Callers::Any) => true,
            (Callers::Listed(one), Callers::Listed(two)) => are_same(
                one.as_slice(),
                two.as_slice(),
            ),
            _ => false,
        }
    }
}

impl Same for Rule {
    fn is_same(&self, other: &Rule) -> bool {
        self.keep == other.keep
            && self.from.is_same(&other.from)
            && self.class.is_same(&other.class)
            && self.modality.is_same(&other.modality)
            && self.station.is_same(&other.station)
            && are_same(self.except.as_slice(), other.except.as_slice())
            && are_same(self.to.as_slice(), other.to.as_slice())
    }
}

impl Same for AcceptRow {
    fn is_same(&self, other: &AcceptRow) -> bool {
        self.from.is_same(&other.from)
            && self.class.is_same(&other.class)
            && are_same(self.syntaxes.as_slice(), other.syntaxes.as_slice())
    }
}

impl Same for Literals {
    fn is_same(&self, other: &Literals) -> bool {
        self.modalities.is_same(&other.modalities) && self.stations.is_same(&other.stations)
    }
}
