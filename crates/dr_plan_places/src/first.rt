//! The first value of a list that has a fault.
ghost use Rattle.std.specs.Prelude.{◌≡◌, ◌↔◌, IsTrue, All, MatchOption};
ghost use Rattle.dr_base.specs.Texts.{Text as Words};
ghost use Rattle.dr_plan_places.specs.Firsts.{IsFirstAt, IsFirstBad};

use dr_base::Text;

/// A search for a fault in values of one type, and for its place in such a value.
pub trait Look {
    type Value;

    type Place: Copy;

    ghost is_free: { Self → Self.Value → Type 0 };

    ghost is_at: { Self → Self.Value → Self.Place → Type 0 };

    /// Where the value has the fault, and None where it has none.
    fn look(&self, value: &Self::Value) -> Option<Self::Place>
        ensures { MatchOption result (is_free self.now value.now) (is_at self.now value.now) };
}

/// The first of the values that has the fault, by its index, and its place there.
pub fn first<L: Look>(look: &L, values: &[L::Value]) -> Option<(usize, L::Place)>
    ensures { MatchOption result (All (L.is_free look.now) values.now)
        (λ found. IsFirstAt (L.is_free look.now) (L.is_at look.now) values.now found.0 found.1) }
{
    for (index, value) in values.iter().enumerate() {
        if let Some(place) = look.look(value) {
            return Some((index, place));
        }
    }
    None
}

/// A property of texts that can be tested.
pub trait TextTest {
    ghost holds: { Self → Words → Type 0 };

    /// Whether the text has the property.
    fn test(&self, text: &Text) -> bool
        ensures { IsTrue result ↔ holds self.now text.now };
}

/// Nothing where the text has the property, and that it hasn't.
fn flaw_of<T: TextTest>(test: &T, text: &Text) -> Option<()>
    ensures { MatchOption result (T.holds test.now text.now) (λ flaw.
        T.holds test.now text.now → ⊥) }
{
    if test.test(text) {
        return None;
    }
    Some(())
}

/// The first of the texts that hasn't the property, by its index.
pub(crate) fn first_bad<T: TextTest>(test: &T, texts: &[Text]) -> Option<usize>
    ensures { MatchOption result (All (T.holds test.now) texts.now)
        (IsFirstBad (T.holds test.now) texts.now) }
{
    for (index, text) in texts.iter().enumerate() {
        if let Some(()) = flaw_of(test, text) {
            return Some(index);
        }
    }
    None
}
