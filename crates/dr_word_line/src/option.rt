//! Which words are options.
ghost use Rattle.std.specs.Prelude.{◌≡◌, ◌↔◌, IsTrue};
ghost use Rattle.dr_word_line.specs.Words.{IsNoOption};

/// Whether the word is no option of the command line.
pub(crate) fn is_no_option(word: &str) -> bool
    ensures { IsTrue result ↔ IsNoOption word.now }
{
    let Some(first) = word.as_bytes().first() else {
        return true;
    };
    *first != b'-'
}

/// Whether both words are no options.
pub(crate) fn are_paths(first: &str, second: &str) -> bool
    ensures { IsTrue result ↔ (IsNoOption first.now × IsNoOption second.now) }
{
    is_no_option(first) && is_no_option(second)
}

/// Whether the word is that name, and what is behind it is no option.
pub(crate) fn is_with_path(name: &str, word: &str, path: &str) -> bool
    ensures { IsTrue result ↔ ((word.now ≡ name.now) × IsNoOption path.now) }
{
    word == name && is_no_option(path)
}

/// The same with two words behind it.
pub(crate) fn is_with_two(name: &str, word: &str, first: &str, second: &str) -> bool
    ensures { IsTrue result
        ↔ ((word.now ≡ name.now) × IsNoOption first.now × IsNoOption second.now) }
{
    word == name && is_no_option(first) && is_no_option(second)
}

/// The same with three.
pub(crate) fn is_with_three(name: &str, word: &str, first: &str, second: &str, third: &str) -> bool
    ensures { IsTrue result
        ↔ ((word.now ≡ name.now) × IsNoOption first.now × IsNoOption second.now
        × IsNoOption third.now) }
{
    word == name && is_no_option(first) && is_no_option(second) && is_no_option(third)
}
