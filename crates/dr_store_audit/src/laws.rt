//! Laws of files from before.
ghost use Rattle.dr_store_audit.specs.Older.{LastIsOlder, NoOlderIsNew, OldestHasSix};

/// A file from before that lacks no table has a ledger's but for the columns of its journal; none
/// from before has them all; the oldest have six tables.
pub fn older_files_lack_some()
    ensures last { LastIsOlder }
    ensures older { NoOlderIsNew }
    ensures oldest { OldestHasSix }
{}
