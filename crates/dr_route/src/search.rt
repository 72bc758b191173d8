//! Where a text stands among texts in byte order, and the longest of them with which it begins.
ghost use Rattle.std.specs.Prelude.{◌≡◌, MatchOption, Contains};
ghost use Rattle.dr_base.specs.Texts.{IsInByteOrder};
ghost use Rattle.dr_route.specs.Cells.{IsLongest, HasNoPrefix};

use dr_base::Text;

/// The text of these bytes among texts in byte order: a binary search.
pub fn find<'a>(texts: &'a [Text], bytes: &[u8]) -> Option<&'a Text>
    requires { IsInByteOrder texts.now }
    ensures { MatchOption result (Contains texts.now bytes.now → ⊥) (λ t.
        Contains texts.now t.now × (t.now ≡ bytes.now)) }
{
    match texts.binary_search_by(|text| text.as_bytes().cmp(bytes)) {
        Ok(place) => Some(&texts[place]),
        Err(_) => None,
    }
}

/// The longest of the prefixes with which the value begins. Each beginning of the value is looked
/// for, the longest first.
pub fn longest<'a>(prefixes: &'a [Text], value: &[u8]) -> Option<&'a Text>
    requires { IsInByteOrder prefixes.now }
    ensures { MatchOption result (HasNoPrefix prefixes.now value.now) (λ p.
        IsLongest prefixes.now p.now value.now) }
{
    for fewer in 0..value.len() {
        if let Some(prefix) = find(prefixes, &value[..value.len() - fewer]) {
            return Some(prefix);
        }
    }
    find(prefixes, &[])
}
