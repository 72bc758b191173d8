//! Names that are looked for in a set.
ghost use Rattle.std.specs.Prelude.{All, Contains, MatchOption};
ghost use Rattle.dr_base.specs.Texts.{IsInByteOrder};

use dr_base::Text;
use dr_route::names::is_in_set;

/// The first of the names that isn't in the set.
pub fn first_outside<'a>(names: &'a [Text], set: &[Text]) -> Option<&'a Text>
    requires { IsInByteOrder set.now }
    ensures { MatchOption result
        (All (λ name. Contains set.now name) names.now)
        (λ name. Contains names.now name.now × (Contains set.now name.now → ⊥)) }
{
    for name in names {
        if !is_in_set(set, name) {
            return Some(name);
        }
    }
    None
}

/// The first of the names that is in the set.
pub fn first_inside<'a>(names: &'a [Text], set: &[Text]) -> Option<&'a Text>
    requires { IsInByteOrder set.now }
    ensures { MatchOption result
        (All (λ name. Contains set.now name → ⊥) names.now)
        (λ name. Contains names.now name.now × Contains set.now name.now) }
{
    for name in names {
        if is_in_set(set, name) {
            return Some(name);
        }
    }
    None
}
