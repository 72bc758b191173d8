//! Whether there are ledgers.

use dr_run_open::Ledgers;

/// Ledgers of which it can be told whether one is there. Its relation says by which paths something
/// is there, and by which nothing is.
pub trait ShowsFiles: Ledgers {
    ghost use Rattle.std.specs.Prelude.{ℕ, Bool, List};

    ghost shows: { Self → List ℕ → Bool → Type 0 };

    /// Whether something is there, or it can't be told.
    fn is_there(&self, path: &str) -> bool
        ensures { shows self.now path.now result };
}
