//! What follows from the definitions alone. Nothing here runs: each function's contract is a law.
ghost use Rattle.dr_store_past.specs.Laws.{CrashLeavesEither, PastFiguresStand, ShowsOnePast};
ghost use Rattle.dr_store_past.specs.Laws.{WrittenGoesOn};

use dr_ledger_text::laws::texts_are_of_one_line;
use sqlite_disk::Disk;

/// A file shows one past up to a seal, whatever lines are said to be all.
pub fn a_file_shows_one_past()
    ensures { ShowsOnePast }
{
    texts_are_of_one_line()
}

/// Lines that are written behind a past go on it, up to the seal behind them. A crash leaves the
/// past as it was and those lines behind it: whichever of the two seals the tables have then, the
/// file has the lines of it.
pub fn what_is_written_goes_on<D: Disk>()
    ensures written { WrittenGoesOn D.Disk }
    ensures crash { CrashLeavesEither D.Disk }
{}

/// Figures of an example.
pub fn past_figures_stand()
    ensures { PastFiguresStand }
{}
