//! How a report begins.
ghost use Rattle.std.specs.Prelude.{◌≡◌, ◌++◌, ◌↔◌, ℕ, List, IsTrue, MatchOption, take};
ghost use Rattle.dr_run_report.specs.Heads.{BeginsAsReport};

/// The first bytes of a file, as many as a report's beginning has; all, where there are fewer.
fn first_bytes(text: &[u8]) -> &[u8]
    ensures { result.now ≡ take 5 text.now }
{
    if text.len() < 5 {
        return text;
    }
    &text[..5]
}

/// What follows the front, where the text begins with it.
fn after<'a>(front: &[u8], text: &'a [u8]) -> Option<&'a [u8]>
    ensures { MatchOption result
        ((rest : List ℕ) → text.now ≡ front.now ++ rest → ⊥)
        (λ rest. text.now ≡ front.now ++ rest.now) }
{
    text.strip_prefix(front)
}

/// Whether a file with this text, or one that begins with it where there are five bytes of it, is a
/// report, or was to become one: a write that
/// was cut off, or an empty file.
pub fn begins_as_report(text: &[u8]) -> bool
    ensures { IsTrue result ↔ BeginsAsReport text.now }
{
    match after(first_bytes(text), b"node\t".as_slice()) {
        Some(_) => true,
        None => false,
    }
}
