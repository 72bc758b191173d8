//! Laws of changes of the plan.
ghost use Rattle.std.specs.Prelude.{List};
ghost use Rattle.dr_base.specs.Texts.{Text};
ghost use Rattle.dr_cert.specs.Sealing.{Certified};
ghost use Rattle.dr_word_adopt.specs.Adoptions.{MadeIsAdopted, OursAreAdopted};
ghost use Rattle.dr_word_adopt.specs.Changes.{UnfitLeavesAll};

use crate::shown::ShowsFiles;

/// Where a row isn't fit, no ledger that was opened has changed.
pub fn an_unfit_row_leaves_all<O: ShowsFiles>(ledgers: &O)
    ensures { (folder : Text) (old next : Certified) (others : List Text)
        → UnfitLeavesAll (O.opens ledgers.now) (O.shows ledgers.now) O.Ledger.site O.Ledger.book
        O.Ledger.stands folder old next others }
{}

/// Where all nodes went over but the others, each world of messages that has their books, and in
/// which the next plan goes on with the others', adopts the next plan.
pub fn an_adoption_of_ours_is_the_models<O: ShowsFiles>(ledgers: &O)
    ensures { (folder : Text) (old next : Certified) (others : List Text)
        → OursAreAdopted (O.opens ledgers.now) (O.shows ledgers.now) O.Ledger.site O.Ledger.book
        O.Ledger.stands folder old next others }
{}

/// Where all nodes went over, the world of messages that has their books adopts the next plan.
pub fn an_adoption_of_files_is_the_models<O: ShowsFiles>(ledgers: &O)
    ensures { (folder : Text) (old next : Certified)
        → MadeIsAdopted (O.opens ledgers.now) (O.shows ledgers.now) O.Ledger.site O.Ledger.book
        O.Ledger.stands folder old next }
{}
