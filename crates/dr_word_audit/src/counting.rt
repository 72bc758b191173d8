//! How many lines and rows there are of a kind.
ghost use Rattle.std.specs.Prelude.{◌≡◌, map as mapped};
ghost use Rattle.dr_ledger.specs.Books.{since_adoption};
ghost use Rattle.dr_ledger_history.specs.Lines.{line_of};
ghost use Rattle.dr_word_audit.specs.Figures.{figures, how_many_at, is_answer as is_an_answer};
ghost use Rattle.dr_word_audit.specs.Figures.{is_dropping as is_a_dropping, is_first as is_a_first};
ghost use Rattle.dr_word_audit.specs.Figures.{is_taken as is_a_taking};
ghost use Rattle.dr_word_audit.specs.Telling.{is_told, number_told};

use dr_base::Text;
use dr_ledger::{Outcome, Row, is_success};
use dr_ledger_history::JournalLine;
use dr_ledger_views::Stage;
use dr_ledger_views::listed::is_at;
use dr_word_adopt::is_among;
use dr_world_audit::count_past;

/// Of which lines there may be how many.
#[derive(Clone, Copy)]
enum LineKind {
    /// First arrivals.
    First,
    /// Rows that a person gave up.
    Dropped,
    /// Successes of nodes that aren't ours.
    Answered,
}

/// How much a node has: first arrivals under the plan in force, kept instances, rows that wait and
/// rows that are held; and under the plan in force rows that were given up, and successes of nodes
/// that aren't ours.
#[derive(Clone, Copy, Drop)]
pub struct Figures {
    pub arrivals: usize,
    pub kept: usize,
    pub waiting: usize,
    pub held: usize,
    pub dropped: usize,
    pub others: usize,
}

/// Whether the receiver has the instance.
pub fn is_taken(outcome: Outcome) -> bool
    ensures { result ≡ is_a_taking outcome }
{
    match outcome {
        Outcome::Status(status) => is_success(status),
        Outcome::Broken => false,
        Outcome::NoContext => false,
        Outcome::Unreadable => false,
    }
}

/// Whether by the line one of the others answered with success.
fn is_answer(others: &[Text], line: &JournalLine) -> bool
    ensures { result ≡ is_an_answer others.now (line_of line.now) }
{
    match line {
        JournalLine::Settling {
            uid: _,
            dest,
            outcome,
            now: _,
        } => is_taken(*outcome) && is_among(others, dest),
        JournalLine::Arrival { .. } => false,
        JournalLine::Repeat { .. } => false,
        JournalLine::Requeuing { .. } => false,
        JournalLine::Dropping { .. } => false,
        JournalLine::Forgetting { .. } => false,
        JournalLine::Adoption => false,
    }
}

/// Whether the line is of a first arrival.
fn is_first(line: &JournalLine) -> bool
    ensures { result ≡ is_a_first (line_of line.now) }
{
    matches!(line, JournalLine::Arrival { .. })
}

/// Whether by the line a person gave a row up.
fn is_dropping(line: &JournalLine) -> bool
    ensures { result ≡ is_a_dropping (line_of line.now) }
{
    matches!(line, JournalLine::Dropping { .. })
}

/// Whether the line is of this kind.
fn is_of(sort: LineKind, others: &[Text], line: &JournalLine) -> bool
    ensures { result ≡ is_told sort others.now line.now }
{
    match sort {
        LineKind::First => is_first(line),
        LineKind::Dropped => is_dropping(line),
        LineKind::Answered => is_answer(others, line),
    }
}

/// How many of the lines are of this kind.
fn how_many(sort: LineKind, others: &[Text], lines: &[JournalLine]) -> usize
    ensures { result ≡ number_told sort others.now lines.now }
{
    let mut count = 0;
    for line in lines {
        if is_of(sort, others, line) {
            count += 1;
        }
    }
    count
}

/// How many of the rows are at this stage.
fn how_many_rows(stage: Stage, rows: &[Row]) -> usize
    ensures { result ≡ how_many_at stage rows.now }
{
    let mut count = 0;
    for row in rows {
        if is_at(Some(stage), row.1) {
            count += 1;
        }
    }
    count
}

/// The lines since the last adoption.
fn since_of(lines: &[JournalLine]) -> &[JournalLine]
    ensures { mapped line_of result.now ≡ since_adoption (mapped line_of lines.now) }
{
    let (_past, since) = lines.split_at(count_past(lines));
    since
}

/// How much a node has with these lines, so many kept instances, and these rows.
pub fn figures_of(others: &[Text], lines: &[JournalLine], kept: usize, rows: &[Row]) -> Figures
    ensures { result ≡ figures others.now (mapped line_of lines.now) kept rows.now }
{
    let since = since_of(lines);
    Figures {
        arrivals: how_many(LineKind::First, others, since),
        kept,
        waiting: how_many_rows(Stage::Waiting, rows),
        held: how_many_rows(Stage::Held, rows),
        dropped: how_many(LineKind::Dropped, others, since),
        others: how_many(LineKind::Answered, others, since),
    }
}
