//! Whether two values are the same, part by part.
ghost use Rattle.std.specs.Prelude.{◌≡◌, ◌↔◌, IsTrue};

use crate::syntax::Syntax;
use crate::text::Text;

/// Values that can be compared as contracts see them.
pub trait Same {
    /// Whether the other is this value.
    fn is_same(&self, other: &Self) -> bool
        ensures { IsTrue result ↔ (self.now ≡ other.now) };
}

/// Whether two lists have the same values in the same order.
pub fn are_same<T: Same>(these: &[T], those: &[T]) -> bool
    ensures { IsTrue result ↔ (these.now ≡ those.now) }
{
    if these.len() != those.len() {
        return false;
    }
    for (i, this) in these.iter().enumerate() {
        if !this.is_same(&those[i]) {
            return false;
        }
    }
    true
}

impl Same for Text {
    fn is_same(&self, other: &Text) -> bool {
        self == other
    }
}

impl Same for Syntax {
    fn is_same(&self, other: &Syntax) -> bool {
        self == other
    }
}
