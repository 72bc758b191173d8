//! The document.
ghost use Rattle.std.specs.Prelude.{◌≡◌, ◌++◌, OnOk, filter, flat_map, option_copied, take};
ghost use Rattle.dr_run_page.specs.Documents.{document, figures, figures_under, head};
ghost use Rattle.dr_run_page.specs.Documents.{held_cells, held_head, held_row};
ghost use Rattle.dr_run_page.specs.Documents.{association_row, associations_head, is_held};
ghost use Rattle.dr_run_page.specs.Documents.{recent_row, recents_head};
ghost use Rattle.dr_run_page.specs.Documents.{queue_cells, queue_row, queues_head, tail};
ghost use Rattle.dr_ledger.specs.declared.item.Progress.TheVariants.{Held};

use crate::buttons::{put_buttons, put_hop_buttons};
use crate::light::light;
use crate::pieces::{Piece, put_pieces};
use dr_base::Text;
use dr_ledger::{Cause, Progress};
use dr_run_answer::{Counts, OpenAssociation, Queue, Recent};
use std::alloc::AllocError;

/// So many held rows are shown at most.
pub const SHOWN: usize = 100;

const STYLE: &str =
    "body{background:#111;color:#eee;font:1.4em sans-serif;margin:1em}h1{padding:.3em}.red{background:#b00}.amber{background:#a60}.green{background:#060}td,th{padding:.2em 1em;text-align:left}table{margin:1em 0}caption{text-align:left;font-weight:bold}button,summary{font:inherit;cursor:pointer}form,details{display:inline-block;margin-right:1em}";

/// What is shown of a node beside its rows: since when it has served, and the moment now
/// (milliseconds), how much it has, and the key that the forms of this run have, if there are any.
#[derive(Drop)]
pub struct NodeShown<'a> {
    pub name: &'a Text,
    pub since: u64,
    pub moment: u64,
    pub counts: Counts,
    pub key: Option<&'a Text>,
}

/// Adds the head.
fn put_head(out: &mut Vec<u8>, name: &Text) -> Result<(), AllocError>
    ensures { OnOk result (out.new.items ≡ out.old.items ++ head name.now) }
{
    put_pieces(
        out,
        &[
            Piece::Markup(
                "<!DOCTYPE html>\n<html lang=\"en\">\n<head>\n<meta charset=\"utf-8\">\n<meta http-equiv=\"refresh\" content=\"5\">\n<title>",
            ),
            Piece::Words(name.as_bytes()),
            Piece::Markup("</title>\n<style>"),
            Piece::Markup(STYLE),
            Piece::Markup("</style>\n</head>\n<body>\n"),
        ],
    )
}

/// Adds how much a node has that has served for so many seconds, under a light.
fn put_figures<'x>(
    out: &mut Vec<u8>,
    name: &'x Text,
    served: u64,
    counts: Counts,
    lit: &'x str,
) -> Result<(), AllocError>
    ensures { OnOk result
        (out.new.items ≡ out.old.items ++ figures_under lit.now name.now served counts) }
{
    put_pieces(
        out,
        &[
            Piece::Markup("<h1 class=\""),
            Piece::Markup(lit),
            Piece::Markup("</h1>\n<p>"),
            Piece::Words(name.as_bytes()),
            Piece::Markup(" has served for "),
            Piece::Number(served),
            Piece::Markup(" s. Arrivals: "),
            Piece::Number(counts.arrivals),
            Piece::Markup(". Kept: "),
            Piece::Number(counts.kept),
            Piece::Markup(". Lines of the journal: "),
            Piece::Number(counts.lines),
            Piece::Markup(". Failures of the store: "),
            Piece::Number(counts.failures),
            Piece::Markup(".</p>\n"),
        ],
    )
}

/// Adds the light, and how much the node has.
fn put_node(
    out: &mut Vec<u8>,
    shown: &NodeShown<'_>,
    queues: &[Queue<'_>],
) -> Result<(), AllocError>
    ensures { OnOk result
        (out.new.items
        ≡ out.old.items
        ++ figures shown.now.name.now shown.now.since shown.now.moment shown.now.counts
        queues.now) }
{
    let lit = light(shown.counts.failures, queues);
    let served = shown.moment.saturating_sub(shown.since) / 1_000;
    put_figures(out, shown.name, served, shown.counts, lit)
}

/// Adds what is shown of a next node.
fn put_queue_cells(out: &mut Vec<u8>, now: u64, queue: &Queue<'_>) -> Result<(), AllocError>
    ensures { OnOk result (out.new.items ≡ out.old.items ++ queue_cells now queue.now) }
{
    put_pieces(
        out,
        &[
            Piece::Markup("<tr><td>"),
            Piece::Words(queue.dest.as_bytes()),
            Piece::Markup("</td><td>"),
            Piece::Number(queue.waiting),
            Piece::Markup("</td><td>"),
            Piece::Waited(queue.waited),
            Piece::Markup("</td><td>"),
            Piece::Number(queue.held),
            Piece::Markup("</td><td>"),
            Piece::Number(queue.done),
            Piece::Markup("</td><td>"),
            Piece::Due(now, queue.due),
            Piece::Markup("</td><td>"),
            Piece::Visit(now, queue.visit),
            Piece::Markup("</td><td>"),
        ],
    )
}

/// Adds the row of a next node.
fn put_queue(
    out: &mut Vec<u8>,
    now: u64,
    key: Option<&Text>,
    queue: &Queue<'_>,
) -> Result<(), AllocError>
    ensures { OnOk result (out.new.items
        ≡ out.old.items ++ queue_row now (option_copied key.entry) queue.now) }
{
    put_queue_cells(out, now, queue)?;
    put_hop_buttons(out, key, queue.dest)?;
    out.extend_from_slice(b"</td></tr>\n")?;
    Ok(())
}

/// Adds a row for each next node.
fn put_queues(
    out: &mut Vec<u8>,
    now: u64,
    key: Option<&Text>,
    queues: &[Queue<'_>],
) -> Result<(), AllocError>
    ensures { OnOk result (out.new.items
        ≡ out.old.items ++ flat_map (queue_row now (option_copied key.entry)) queues.now) }
{
    for queue in queues {
        put_queue(out, now, key, queue)?;
    }
    Ok(())
}

/// Adds the row of an association.
fn put_association(
    out: &mut Vec<u8>,
    now: u64,
    association: &OpenAssociation,
) -> Result<(), AllocError>
    ensures { OnOk result (out.new.items ≡ out.old.items ++ association_row now association.now) }
{
    put_pieces(
        out,
        &[
            Piece::Markup("<tr><td>"),
            Piece::Words(association.caller.as_bytes()),
            Piece::Markup("</td><td>"),
            Piece::Ago(now, association.since),
            Piece::Markup("</td><td>"),
            Piece::Number(association.stored),
            Piece::Markup("</td><td>"),
            Piece::Number(association.again),
            Piece::Markup("</td><td>"),
            Piece::Number(association.refused),
            Piece::Markup("</td></tr>\n"),
        ],
    )
}

/// Adds a row for each association.
fn put_associations(
    out: &mut Vec<u8>,
    now: u64,
    associations: &[OpenAssociation],
) -> Result<(), AllocError>
    ensures { OnOk result (out.new.items
        ≡ out.old.items ++ flat_map (association_row now) associations.now) }
{
    for association in associations {
        put_association(out, now, association)?;
    }
    Ok(())
}

/// Adds the row of what came from a caller, of a modality.
fn put_recent(out: &mut Vec<u8>, recent: &Recent) -> Result<(), AllocError>
    ensures { OnOk result (out.new.items ≡ out.old.items ++ recent_row recent.now) }
{
    put_pieces(
        out,
        &[
            Piece::Markup("<tr><td>"),
            Piece::Words(recent.caller.as_bytes()),
            Piece::Markup("</td><td>"),
            Piece::Words(recent.modality.as_bytes()),
            Piece::Markup("</td><td>"),
            Piece::Number(recent.stored),
            Piece::Markup("</td><td>"),
            Piece::Number(recent.refused),
            Piece::Markup("</td></tr>\n"),
        ],
    )
}

/// Adds a row for each caller and modality of which something came.
fn put_recents(out: &mut Vec<u8>, recents: &[Recent]) -> Result<(), AllocError>
    ensures { OnOk result (out.new.items ≡ out.old.items ++ flat_map recent_row recents.now) }
{
    for recent in recents {
        put_recent(out, recent)?;
    }
    Ok(())
}

/// Adds what is shown of an instance that is held.
fn put_cells<'x>(
    out: &mut Vec<u8>,
    uid: &'x Text,
    dest: &'x Text,
    cause: Cause,
) -> Result<(), AllocError>
    ensures { OnOk result (out.new.items
        ≡ out.old.items ++ held_cells uid.now dest.now cause) }
{
    put_pieces(
        out,
        &[
            Piece::Markup("<tr><td>"),
            Piece::Words(uid.as_bytes()),
            Piece::Markup("</td><td>"),
            Piece::Words(dest.as_bytes()),
            Piece::Markup("</td><td>"),
            Piece::Cause(cause),
            Piece::Markup("</td><td>"),
        ],
    )
}

/// Adds the row of an instance that is held.
fn put_held(
    out: &mut Vec<u8>,
    key: Option<&Text>,
    uid: &Text,
    dest: &Text,
    cause: Cause,
) -> Result<(), AllocError>
    ensures { OnOk result (out.new.items ≡ out.old.items
        ++ held_row (option_copied key.entry) ((uid.now, dest.now), Held cause)) }
{
    put_cells(out, uid, dest, cause)?;
    put_buttons(out, key, uid, dest)?;
    out.extend_from_slice(b"</td></tr>\n")?;
    Ok(())
}

/// Adds a row for each of the first rows that are held.
fn put_all_held(
    out: &mut Vec<u8>,
    key: Option<&Text>,
    rows: &[((Text, Text), Progress)],
) -> Result<(), AllocError>
    ensures { OnOk result (out.new.items ≡ out.old.items
        ++ flat_map (held_row (option_copied key.entry)) (take 100 (filter is_held rows.now))) }
{
    let mut left = SHOWN;
    for row in rows {
        if left == 0 {
            return Ok(());
        }
        if let Progress::Held(cause) = row.1 {
            put_held(out, key, &row.0.0, &row.0.1, cause)?;
            left -= 1;
        }
    }
    Ok(())
}

/// Adds the document: what a node has, each next node with its queue, associations that are open,
/// what came within the last hour, and the first rows that are held, in the order in which they are
/// handed in.
///
/// Errors: want of memory; then a part of it may stand there.
pub fn put_document(
    out: &mut Vec<u8>,
    shown: &NodeShown<'_>,
    queues: &[Queue<'_>],
    associations: &[OpenAssociation],
    recents: &[Recent],
    rows: &[((Text, Text), Progress)],
) -> Result<(), AllocError>
    ensures { OnOk result (out.new.items ≡ out.old.items
        ++ document shown.now.name.now shown.now.since shown.now.moment shown.now.counts
        (option_copied shown.now.key) queues.now associations.now recents.now rows.now) }
{
    put_head(out, shown.name)?;
    put_node(out, shown, queues)?;
    out.extend_from_slice(
        b"<table><caption>Next nodes</caption>\n<tr><th>Node</th><th>Waiting</th><th>Oldest</th><th>Held</th><th>Done</th><th>First due</th><th>Last visit</th><th></th></tr>\n",
    )?;
    put_queues(out, shown.moment, shown.key, queues)?;
    out.extend_from_slice(
        b"</table>\n<table><caption>Open associations</caption>\n<tr><th>Caller</th><th>Since</th><th>Stored</th><th>Again</th><th>Refused</th></tr>\n",
    )?;
    put_associations(out, shown.moment, associations)?;
    out.extend_from_slice(
        b"</table>\n<table><caption>Came in the last hour</caption>\n<tr><th>Caller</th><th>Modality</th><th>Taken</th><th>Refused</th></tr>\n",
    )?;
    put_recents(out, recents)?;
    out.extend_from_slice(
        b"</table>\n<table><caption>Held, the first 100</caption>\n<tr><th>Instance</th><th>To</th><th>Why</th><th></th></tr>\n",
    )?;
    put_all_held(out, shown.key, rows)?;
    out.extend_from_slice(b"</table>\n</body>\n</html>\n")?;
    Ok(())
}
