//! What holds of all that is shown. Nothing here runs: each function's contract is a law.
ghost use Rattle.dr_run_shown.specs.Laws.{HasOneForm, IsBounded, OnlyPrintsText, PlainStands};

/// Nothing but printable text is shown, and a bounded length of it.
pub fn only_text_is_shown()
    ensures text { OnlyPrintsText }
    ensures bounded { IsBounded }
{}

/// What needs no escape stands as it is.
pub fn plain_text_stands()
    ensures { PlainStands }
{}

/// A text has one form, which no other has.
pub fn a_text_has_one_form()
    ensures { HasOneForm }
{}
