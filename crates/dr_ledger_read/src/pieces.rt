//! What follows given bytes.
ghost use Rattle.std.specs.Prelude.{◌≡◌, ◌++◌, ℕ, List, MatchOption};

/// What follows these bytes, where the text begins with them.
pub fn after<'a>(text: &'a [u8], start: &[u8]) -> Option<&'a [u8]>
    ensures { MatchOption result ((rest : List ℕ) → text.now ≡ start.now ++ rest → ⊥)
        (λ rest. text.now ≡ start.now ++ rest.now) }
{
    text.strip_prefix(start)
}
