//! What the calls that write make of the book.
ghost use Rattle.dr_store_changes.specs.Laws.{ArrivalsArrive, DataSetsCome, DroppingsDrop};
ghost use Rattle.dr_store_changes.specs.Laws.{ForgettingsForget, ForgettingsLetNoDataSetGo};
ghost use Rattle.dr_store_changes.specs.Laws.{ForgettingsTakeBoth, LinesCountUp};
ghost use Rattle.dr_store_changes.specs.Laws.{RepeatsRepeat, RequeuingsRequeue, SettlingsSettle};
ghost use Rattle.dr_store_changes.specs.Laws.{WhatIsNeededStays, WhatIsNeededStaysAtADropping};
ghost use Rattle.dr_store_changes.specs.Sealing.{SealingsTakeJustLines};

/// To move a waiting row on with the line of its settling is to settle it.
pub fn settlings_settle()
    ensures { SettlingsSettle }
{}

/// To let a held row wait again with the line of its requeuing is to queue it again.
pub fn requeuings_requeue()
    ensures { RequeuingsRequeue }
{}

/// Where a data set goes just if it is needed no more, those that are there are those that are
/// needed.
pub fn what_is_needed_stays()
    ensures { WhatIsNeededStays }
{}

/// To drop a held row, with the arrivals of its instance and the line of its dropping, is to drop
/// it.
pub fn droppings_drop()
    ensures { DroppingsDrop }
{}

/// The same of a dropping: the data sets that are there are those that are needed.
pub fn what_is_needed_stays_at_a_dropping()
    ensures { WhatIsNeededStaysAtADropping }
{}

/// The line of a repeat is all that a repeat adds.
pub fn repeats_repeat()
    ensures { RepeatsRepeat }
{}

/// What a first arrival makes of the tables is what it makes of the book.
pub fn arrivals_arrive()
    ensures { ArrivalsArrive }
{}

/// Where a data set comes just if it is needed, those that are there are those that are needed.
pub fn data_sets_come()
    ensures { DataSetsCome }
{}

/// What a forgetting takes out of the tables is what it takes out of the book.
pub fn forgettings_forget()
    ensures { ForgettingsForget }
{}

/// A forgetting takes the print of what it takes out of the items.
pub fn forgettings_take_both()
    ensures { ForgettingsTakeBoth }
{}

/// With the line of a call the journal counts up from its first number, as it did before.
pub fn lines_count_up()
    ensures { LinesCountUp }
{}

/// What is over has no data set that a forgetting could let go.
pub fn forgettings_let_no_data_set_go()
    ensures { ForgettingsLetNoDataSetGo }
{}

/// What a sealing takes out of the tables it takes out of the book: its lines, and nothing else.
pub fn sealings_take_just_lines()
    ensures { SealingsTakeJustLines }
{}
