//! Laws of data sets and files, as functions that do nothing.
ghost use Rattle.std.specs.Prelude.{◌≡◌, ◌∷◌, [], List, ℕ, codes};
ghost use Rattle.std.specs.List.{flat_map};
ghost use Rattle.dr_dataset.specs.Elements.{short_letters};
ghost use Rattle.dr_dataset.specs.Worked.{ModalityIsRead, NothingIsRead, ItemIsBad};
ghost use Rattle.dr_dataset.specs.Worked.{SmallLettersAreBad};
ghost use Rattle.dr_dataset.specs.OneAnswer.{OneAnswer, SomeAnswer, OneFileAnswer};
ghost use Rattle.dr_dataset.specs.Fronts.{FrontsStay, FaultsStay};
ghost use Rattle.dr_dataset.specs.Hearing.{HearsMore, GoesOnBy};
ghost use Rattle.dr_dataset.specs.declared.hearing.Scan.{Scan as ScanValue};

/// A text has one answer: one list of elements, so one value for each of the four attributes, or
/// one first fault. Only want of memory may stand in the place of the values.
pub fn a_text_has_one_answer()
    ensures one { OneAnswer }
    ensures some { SomeAnswer }
{}

/// What was in order stays so, whatever follows, and so does each fault but `Truncated`: a data set
/// may be read while it is heard.
pub fn a_front_stays_as_it_was_read()
    ensures fronts { FrontsStay }
    ensures faults { FaultsStay }
{}

/// However a data set is cut into pieces, a scan that hears them has heard what they join to.
pub fn cuts_do_not_matter()
    ensures { (old : ScanValue) (pieces : List (List ℕ)) (new : ScanValue)
        → GoesOnBy old pieces new
        → HearsMore old (flat_map (λ piece. piece) pieces) new }
{}

/// A file has one answer.
pub fn a_file_has_one_answer()
    ensures { OneFileAnswer }
{}

/// Worked examples: texts that are data sets and texts that aren't, and the value representations
/// whose length has two bytes (PS3.5 section 7.1.2), two letters each.
pub fn worked_examples()
    ensures modality { ModalityIsRead }
    ensures nothing { NothingIsRead }
    ensures item { ItemIsBad }
    ensures letters { SmallLettersAreBad }
    ensures short_forms { flat_map (λ p. p.0 ∷ p.1 ∷ []) short_letters
        ≡ codes "AEASATCSDADSDTFDFLISLOLTPNSHSLSSSTTMUIULUS" }
{}
