//! The options of words, and the values that aren't like those of other words.
//!
//! What they are like is a table of constants: a function for each that makes it took a hundred
//! CPU seconds of proof.
use crate::parts::{Bound, Makes, Shape, add_all, shaped};
use crate::serve_options::ServeOption;
use clap::Arg;
use std::alloc::{AllocError, Global};

/// The options, and the values that aren't like those of other words.
#[derive(Clone, Copy)]
pub(crate) enum Choice {
    Plan,
    Syntax,
    Modality,
    Station,
    Strict,
    Json,
    AllFaults,
    DryRun,
    Without,
    Fails,
    Summary,
    Long,
    IfHeld,
    At,
    AtNeeded,
    AtEach,
    AtToken,
    Row,
    Dest,
    Uid,
    Next,
    Visited,
    Copy,
    Reason,
    Other,
    AllHeld,
    DataFile,
    File,
    /// An option of the word `serve`.
    Serve(ServeOption),
}

/// The file of `check`, which may be left out.
const PLAN: Shape = Shape::Optional((
    "PLAN",
    "the file with the plan; without it the plan is read from the standard input",
));

/// The UID of a transfer syntax, behind the SOP class of an instance whose values are given.
const SYNTAX: Shape = Shape::Optional(("SYNTAX", "the UID of its transfer syntax"));

/// Its modality.
const MODALITY: Shape = Shape::Optional((
    "MODALITY",
    "its modality; an empty word is the empty value",
));

/// Its station name.
const STATION: Shape = Shape::Optional((
    "STATION",
    "its station name; an empty word is the empty value",
));

/// The option of `lint` for a no where something looks wrong.
const STRICT: Shape = Shape::Flag(
    (
        "STRICT",
        "ends with the status 1 where something looks wrong",
    ),
    "strict",
);

/// The option of words about plans for an answer as JSON.
const JSON: Shape = Shape::Flag(
    (
        "JSON",
        "prints the answer as JSON: a list of its lines, each a list of its parts",
    ),
    "json",
);

/// The option of `check` for all faults.
const ALL_FAULTS: Shape = Shape::Flag(
    (
        "ALLFAULTS",
        "names the fault of each entry, a line each, and not the first alone",
    ),
    "all",
);

/// The option of `adopt` to change nothing.
const DRY_RUN: Shape = Shape::Flag(
    (
        "DRYRUN",
        "changes nothing, and prints each row that would be in the way",
    ),
    "dry-run",
);

/// The option of `adopt` for a node that has no ledger.
const WITHOUT: Shape = Shape::Each(
    (
        "WITHOUT",
        "a node of another maker, or one that never ran, which has no ledger; once for each",
    ),
    "without",
    "NODE",
);

/// The option of `diff` for a no where something is lost.
const FAILS: Shape = Shape::Flag(
    (
        "FAILS",
        "ends with the status 1 where an instance isn't kept any more where it was",
    ),
    "fail-on-lost",
);

/// The option of `list` for numbers alone.
const SUMMARY: Shape = Shape::Flag(("SUMMARY", "prints how many there are instead"), "summary");

/// The option of `list` for names of classes and for dates.
const LONG: Shape = Shape::Flag(("LONG", "prints names of classes and dates too"), "long");

/// The option of `list` for a no where a row is held.
const IF_HELD: Shape = Shape::Flag(
    (
        "IFHELD",
        "with --summary and --at: ends with the status 1 where a row is held",
    ),
    "fail-if-held",
);

/// Where a node that runs is asked.
const AT: Shape = Shape::Valued(
    (
        "AT",
        "in the place of DB: asks the node that runs, by its control connection there",
    ),
    "at",
    "HOST:PORT",
);

/// The same where it has to be said.
const AT_NEEDED: Shape = Shape::Required(
    (
        "AT",
        "in the place of DB: asks the node that runs, by its control connection there",
    ),
    "at",
    "HOST:PORT",
);

/// Where nodes that run are asked.
const AT_EACH: Shape = Shape::Each(
    (
        "AT",
        "in the place of DIR: the node that runs, and its control connection; once for each",
    ),
    "at",
    "NAME=HOST:PORT",
);

/// The token that a node that runs asks for.
const AT_TOKEN: Shape = Shape::Valued(
    (
        "TOKEN",
        "with --at: the file with the token, which nobody but its owner may read",
    ),
    "token",
    "FILE",
);

/// The UID of the one row that `requeue` queues again.
const ROW: Shape = Shape::Optional(("UID", "the SOP instance UID of the row"));

/// Where that row goes.
const DEST: Shape = Shape::Optional(("DEST", "the node to which it is to be sent"));

/// The UID of an instance.
const UID: Shape = Shape::Needed(("UID", "the SOP instance UID"));

/// Where a row is not to be sent.
const NEXT: Shape = Shape::Needed(("DEST", "the node to which it is not to be sent"));

/// Which node is to be visited.
const VISITED: Shape = Shape::Needed(("DEST", "the node to which it is to send"));

/// Where a ledger is copied to.
const COPY: Shape = Shape::Needed((
    "COPY",
    "the path of the copy on the node's machine, from the root; nothing may be there",
));

/// Why a row is given up.
const REASON: Shape = Shape::Valued(
    ("REASON", "with --at: why, for the node's log"),
    "reason",
    "TEXT",
);

/// The option of `audit` for a node that has no ledger here.
const OTHER: Shape = Shape::Each(
    (
        "OTHER",
        "a node of another maker, which has no ledger here; once for each",
    ),
    "other",
    "NAME",
);

/// The option of `requeue` for all held rows.
const ALL_HELD: Shape = Shape::Valued(
    ("ALL", "queues all held rows to that node again"),
    "all-held",
    "DEST",
);

/// The option of `new` for data sets in a file of their own.
const DATA_FILE: Shape = Shape::Flag(
    (
        "DATAFILE",
        "keeps its data sets in a file of their own beside DB, named DB.data",
    ),
    "data-file",
);

/// The file of an instance.
const FILE: Shape = Shape::Needed(("FILE", "a Part 10 file"));

impl Choice {
    /// What it is like.
    fn shape(self) -> Shape {
        match self {
            Choice::Plan => PLAN,
            Choice::Syntax => SYNTAX,
            Choice::Modality => MODALITY,
            Choice::Station => STATION,
            Choice::Strict => STRICT,
            Choice::Json => JSON,
            Choice::AllFaults => ALL_FAULTS,
            Choice::DryRun => DRY_RUN,
            Choice::Without => WITHOUT,
            Choice::Fails => FAILS,
            Choice::Summary => SUMMARY,
            Choice::Long => LONG,
            Choice::IfHeld => IF_HELD,
            Choice::At => AT,
            Choice::AtNeeded => AT_NEEDED,
            Choice::AtEach => AT_EACH,
            Choice::AtToken => AT_TOKEN,
            Choice::Row => ROW,
            Choice::Dest => DEST,
            Choice::Uid => UID,
            Choice::Next => NEXT,
            Choice::Visited => VISITED,
            Choice::Copy => COPY,
            Choice::Reason => REASON,
            Choice::Other => OTHER,
            Choice::AllHeld => ALL_HELD,
            Choice::DataFile => DATA_FILE,
            Choice::File => FILE,
            Choice::Serve(option) => option.shape(),
        }
    }

    /// What binds it to others.
    fn bounds(self) -> &'static [Bound] {
        match self {
            Choice::Syntax => &[Bound::Needs("STATION")],
            Choice::AllFaults => &[Bound::Excludes("JSON")],
            Choice::Long => &[Bound::Excludes("SUMMARY"), Bound::Excludes("AT")],
            Choice::IfHeld | Choice::AtToken | Choice::Reason => &[Bound::Needs("AT")],
            Choice::Row => &[Bound::Unless("ALL"), Bound::Needs("DEST")],
            Choice::AllHeld => &[Bound::Excludes("UID")],
            Choice::Serve(option) => option.bounds(),
            _ => &[],
        }
    }
}

impl<'a> Makes<Arg<'a>> for Choice {
    fn make(self, alloc: Global) -> Result<Arg<'a>, AllocError> {
        add_all(alloc, Ok(shaped(alloc, self.shape())), self.bounds())
    }
}
