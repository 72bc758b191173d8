//! What follows from the definitions alone.
ghost use Rattle.dr_store_content.specs.Laws.{BytesAreOne, ContentsAreAdded, OrderDoesNotCount};
ghost use Rattle.dr_store_content.specs.Laws.{RestsAreOne, RowsAreReadBack};

/// Rows that stand together have the sum of their contents, in whatever order.
pub fn contents_are_sums()
    ensures added { ContentsAreAdded }
    ensures order { OrderDoesNotCount }
{}

/// Whoever takes the content of some rows away has that of the others.
pub fn what_is_left_is_the_rest()
    ensures { RestsAreOne }
{}

/// A number is written by 32 bytes alone.
pub fn bytes_are_of_one_number()
    ensures { BytesAreOne }
{}

/// A row's bytes are those of one row, of one table.
pub fn rows_are_read_back()
    ensures { RowsAreReadBack }
{}
