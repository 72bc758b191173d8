//! Laws of remedies.
ghost use Rattle.dr_check_reasons.specs.Laws.{AddedSyntaxIsTaken, AddedCallerIsTaken};

/// What a remedy adds to a row makes the row take what was refused.
pub fn what_is_added_is_taken()
    ensures syntax { AddedSyntaxIsTaken }
    ensures caller { AddedCallerIsTaken }
{}
