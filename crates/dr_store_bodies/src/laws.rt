//! What follows from the definitions alone.
ghost use Rattle.dr_store_bodies.specs.Laws.{GapsAreApart, HeldIsOne, SumsAreOne, FirstIsOne};

/// An extent holds one text of bytes at most.
pub fn what_is_held_is_one()
    ensures { HeldIsOne }
{}

/// What is put into a gap lies beside each extent in use.
pub fn gaps_touch_no_extent()
    ensures { GapsAreApart }
{}

/// There is one first place at most.
pub fn first_places_are_one()
    ensures { FirstIsOne }
{}

/// A data set has one list of digests.
pub fn digests_of_pieces_are_one()
    ensures { SumsAreOne }
{}
