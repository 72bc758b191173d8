//! The first of several items that has a property.
ghost use Rattle.std.specs.Prelude.{◌↔◌, IsTrue, MatchOption};
ghost use Rattle.dr_plan_expand.specs.Lists.{IsFirst};

/// A property of items that can be tested.
pub trait Test {
    type Item;

    ghost holds: { Self → Self.Item → Type 0 };

    /// Whether the item has the property.
    fn test(&self, item: &Self::Item) -> bool
        ensures { IsTrue result ↔ holds self.now item.now };
}

/// The first of the items that has the property.
pub fn first<'a, T: Test>(test: &T, items: &'a [T::Item]) -> Option<&'a T::Item>
    ensures { MatchOption result ((x : T.Item) → IsFirst (T.holds test.now) items.now x → ⊥)
        (λ found. IsFirst (T.holds test.now) items.now found.now) }
{
    for item in items {
        if test.test(item) {
            return Some(item);
        }
    }
    None
}
