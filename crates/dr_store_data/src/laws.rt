//! What follows from the definitions alone.
ghost use Rattle.dr_store_data.specs.Laws.{HeadsAreOne, MarksAreRead, NoCellNamesTheHead};

/// What the tables have for a key and a mark says just these.
pub fn marks_are_read()
    ensures { MarksAreRead }
{}

/// A file has one mark at most.
pub fn heads_are_one()
    ensures { HeadsAreOne }
{}

/// Of a file that was opened no cell's extent begins in the head.
pub fn no_cell_names_the_head()
    ensures { NoCellNamesTheHead }
{}
