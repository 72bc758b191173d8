//! Laws of the tables.
ghost use Rattle.dr_store_schema.specs.Laws.{CellsSayWhatWasWritten, EmptyTablesAreEmpty};
ghost use Rattle.dr_store_schema.specs.Laws.{LinesStandAlone, StatementsAreUnderstood};
ghost use Rattle.dr_store_schema.specs.Laws.{TextsMakeTables};

/// The texts of CREATE TABLE make the tables.
pub fn texts_make_the_tables()
    ensures { TextsMakeTables }
{}

/// Over these tables each statement is understood.
pub fn statements_are_understood()
    ensures { StatementsAreUnderstood }
{}

/// Cells say what was written into them.
pub fn cells_are_read_back()
    ensures { CellsSayWhatWasWritten }
{}

/// Empty tables are the book of a node to which nothing came.
pub fn empty_tables_are_an_empty_book()
    ensures { EmptyTablesAreEmpty }
{}

/// What becomes of items changes no line.
pub fn lines_stand_alone()
    ensures { LinesStandAlone }
{}
