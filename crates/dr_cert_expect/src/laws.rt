//! Laws of expectations: what a reader may take from the definitions.
ghost use Rattle.dr_cert_expect.specs.Laws.{WhatIsLackingRefutes, OneFirstMiss, TwoNodesKeep};

/// A row that lacks something doesn't hold.
pub fn what_is_lacking_refutes()
    ensures { WhatIsLackingRefutes }
{}

/// Of rows that don't all hold, one row is the first that doesn't.
pub fn rows_have_one_first_miss()
    ensures { OneFirstMiss }
{}

/// In the sample plan of two nodes it holds that the archive keeps whatever enters, and it doesn't
/// hold that nothing ever comes there.
pub fn the_archive_keeps_what_enters()
    ensures { TwoNodesKeep }
{}
