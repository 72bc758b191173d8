//! What the lists of whole tables tell of the book.
ghost use Rattle.sqlite.specs.Tree.{Trees};
ghost use Rattle.dr_store_lists.specs.Lists.{GoalsAreNames, KeysAndPrintsAreInstances};
ghost use Rattle.dr_store_lists.specs.Lists.{NotesAreLines};

/// What is known of an instance is its key with its print.
pub fn keys_and_prints_are_instances()
    ensures { (db : Trees) → KeysAndPrintsAreInstances db }
{}

/// The line of a row of journal is that of its note.
pub fn notes_are_lines()
    ensures { NotesAreLines }
{}

/// Which names a line has is told by the numbers and names of all.
pub fn goals_are_names()
    ensures { GoalsAreNames }
{}
