//! A token that was given, compared with the one that is right.
ghost use Rattle.std.specs.Prelude.{◌≡◌, ◌↔◌, ◌++◌, IsTrue, codes};

/// Whether both are the same bytes. All bytes are looked at, whichever differs: how long it takes
/// tells nothing but the length.
pub(crate) fn is_same(given: &[u8], right: &[u8]) -> bool
    ensures { IsTrue result ↔ (given.now ≡ right.now) }
{
    if given.len() != right.len() {
        return false;
    }
    let mut is_same = true;
    for i in 0..right.len() {
        is_same = is_same & (given[i] == right[i]);
    }
    is_same
}

/// Whether a field's value gives that token, as a program does.
pub(crate) fn is_bearer(value: &[u8], right: &[u8]) -> bool
    ensures { IsTrue result ↔ (value.now ≡ codes "Bearer " ++ right.now) }
{
    match value.strip_prefix(b"Bearer ".as_slice()) {
        Some(given) => is_same(given, right),
        None => false,
    }
}

/// Whether a field's value gives those credentials, as a browser does.
pub(crate) fn is_basic(value: &[u8], right: &[u8]) -> bool
    ensures { IsTrue result ↔ (value.now ≡ codes "Basic " ++ right.now) }
{
    match value.strip_prefix(b"Basic ".as_slice()) {
        Some(given) => is_same(given, right),
        None => false,
    }
}
