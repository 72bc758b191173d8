//! Laws of reading a sealed line. Nothing here runs: each function's contract is a law.
ghost use Rattle.dr_ledger_read.specs.Laws.{ATextIsReadInOneWay, ReadingFiguresAreRight};
ghost use Rattle.dr_ledger_read.specs.Laws.{WhatIsWrittenIsRead};

use dr_ledger_text::laws::{texts_are_of_one_line, texts_are_one_line};

/// A text is that of one line, with one number and one moment.
pub fn a_text_is_read_in_one_way()
    ensures { ATextIsReadInOneWay }
{
    texts_are_of_one_line()
}

/// What is written of a line is read again, unless memory is wanted.
pub fn what_is_written_is_read()
    ensures { WhatIsWrittenIsRead (Unit {0}) }
{
    texts_are_of_one_line()
}

/// Figures in bytes.
pub fn reading_figures_are_right()
    ensures { ReadingFiguresAreRight }
{
    texts_are_one_line()
}
