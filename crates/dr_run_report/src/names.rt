//! The names that a ledger takes in the folder of its database.
ghost use Rattle.std.specs.Prelude.{◌≡◌, ◌++◌, ◌↔◌, ℕ, List, IsTrue, MatchOption};
ghost use Rattle.dr_run_report.specs.Names.{EndsWith, IsBesideDatabase, IsLedgerName, IsOwnName};
ghost use Rattle.dr_run_report.specs.Names.{IsDataTail, IsSide, IsTail};

/// What follows the front, where the text begins with it.
fn after<'a>(front: &[u8], text: &'a [u8]) -> Option<&'a [u8]>
    ensures { MatchOption result
        ((rest : List ℕ) → text.now ≡ front.now ++ rest → ⊥)
        (λ rest. text.now ≡ front.now ++ rest.now) }
{
    text.strip_prefix(front)
}

/// What stands before the end, where the text ends with it.
fn before<'a>(end: &[u8], text: &'a [u8]) -> Option<&'a [u8]>
    ensures { MatchOption result
        ((rest : List ℕ) → text.now ≡ rest ++ end.now → ⊥)
        (λ rest. text.now ≡ rest.now ++ end.now) }
{
    text.strip_suffix(end)
}

fn is_text(this: &[u8], that: &[u8]) -> bool
    ensures { IsTrue result ↔ (this.now ≡ that.now) }
{
    this == that
}

/// Whether a file that is opened as a database has this behind its name, or one that SQLite lays
/// beside it: nothing, or what the log, the index of the log, and the journal of a rollback have.
fn is_side(side: &[u8]) -> bool
    ensures { IsTrue result ↔ IsSide side.now }
{
    if side.is_empty() {
        return true;
    }
    if is_text(side, b"-wal".as_slice()) {
        return true;
    }
    if is_text(side, b"-shm".as_slice()) {
        return true;
    }
    is_text(side, b"-journal".as_slice())
}

/// Whether the file of the data sets has this behind the database's name, or one that lies beside
/// that file.
fn is_data_tail(tail: &[u8]) -> bool
    ensures { IsTrue result ↔ IsDataTail tail.now }
{
    match after(b".data".as_slice(), tail) {
        Some(side) => is_side(side),
        None => false,
    }
}

/// Whether a file of the ledger has this behind the database's name: nothing, or what SQLite puts
/// there, or what the data sets and the journal's parts have there.
fn is_tail(tail: &[u8]) -> bool
    ensures { IsTrue result ↔ IsTail tail.now }
{
    if is_side(tail) {
        return true;
    }
    if is_data_tail(tail) {
        return true;
    }
    match after(b".journal.".as_slice(), tail) {
        Some(_) => true,
        None => false,
    }
}

/// Whether the name is that of the database or of a file that belongs to it.
fn is_own_name(database: &[u8], name: &[u8]) -> bool
    ensures { IsTrue result ↔ IsOwnName database.now name.now }
{
    match after(database, name) {
        Some(tail) => is_tail(tail),
        None => false,
    }
}

/// Whether a ledger in the database of this name takes the name, in the same folder: for itself, or
/// while it writes such a file anew.
pub fn is_ledger_name(database: &[u8], name: &[u8]) -> bool
    ensures { IsTrue result ↔ IsLedgerName database.now name.now }
{
    if is_own_name(database, name) {
        return true;
    }
    match before(b".new".as_slice(), name) {
        Some(front) => is_own_name(database, front),
        None => false,
    }
}

/// Whether a name ends so.
fn ends_with(end: &[u8], name: &[u8]) -> bool
    ensures { IsTrue result ↔ EndsWith name.now end.now }
{
    match before(end, name) {
        Some(_) => true,
        None => false,
    }
}

/// Whether the name would be taken for that of a file beside some database: its log, the index of
/// the log, the journal of a rollback, or its data sets.
pub fn is_beside_database(name: &[u8]) -> bool
    ensures { IsTrue result ↔ IsBesideDatabase name.now }
{
    if ends_with(b"-wal".as_slice(), name) {
        return true;
    }
    if ends_with(b"-shm".as_slice(), name) {
        return true;
    }
    if ends_with(b"-journal".as_slice(), name) {
        return true;
    }
    ends_with(b".data".as_slice(), name)
}
