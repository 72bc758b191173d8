//! The words about nodes, as clap knows them.
use crate::choices::Choice;
use crate::parts::{CERTIFICATE, LEDGER, PLAN, RUNNING, SEALED};
use crate::plan_words::CommandWord;
use crate::serve_options::ServeOption;

/// The word `list`.
pub(crate) const LIST: CommandWord = CommandWord {
    name: "list",
    about: "Prints what a node has: its arrivals, what it keeps, and what is queued",
    values: LEDGER,
    choices: &[
        Choice::Summary,
        Choice::Long,
        Choice::IfHeld,
        Choice::At,
        Choice::AtToken,
    ],
};

/// The word `requeue`.
pub(crate) const REQUEUE: CommandWord = CommandWord {
    name: "requeue",
    about: "Queues held rows of a node again",
    values: LEDGER,
    choices: &[
        Choice::Row,
        Choice::Dest,
        Choice::AllHeld,
        Choice::At,
        Choice::AtToken,
    ],
};

/// The word `new`.
pub(crate) const NEW: CommandWord = CommandWord {
    name: "new",
    about: "Makes the ledger of a node, where there is none",
    values: LEDGER,
    choices: &[Choice::DataFile],
};

/// The word `drop`.
pub(crate) const DROP: CommandWord = CommandWord {
    name: "drop",
    about: "Gives up a held row of a node: it is never sent, and the journal says so",
    values: LEDGER,
    choices: &[
        Choice::Uid,
        Choice::Next,
        Choice::At,
        Choice::AtToken,
        Choice::Reason,
    ],
};

/// The word `forget`.
pub(crate) const FORGET: CommandWord = CommandWord {
    name: "forget",
    about: "Forgets an instance that a node doesn't keep and has still to send nowhere",
    values: LEDGER,
    choices: &[Choice::Uid, Choice::At, Choice::AtToken],
};

/// The word `visit`.
pub(crate) const VISIT: CommandWord = CommandWord {
    name: "visit",
    about: "Has a node that runs visit a next node now",
    values: RUNNING,
    choices: &[Choice::Visited, Choice::AtNeeded, Choice::AtToken],
};

/// The word `backup`.
pub(crate) const BACKUP: CommandWord = CommandWord {
    name: "backup",
    about: "Copies the ledger of a node that runs, which goes on",
    values: RUNNING,
    choices: &[Choice::Copy, Choice::AtNeeded, Choice::AtToken],
};

/// The word `stop`.
pub(crate) const STOP: CommandWord = CommandWord {
    name: "stop",
    about: "Ends a node that runs, in order",
    values: RUNNING,
    choices: &[Choice::AtNeeded, Choice::AtToken],
};

/// What is said of the word `send`.
const ABOUT_SEND: &str =
    "Brings an instance to a node, sends what is due once, and prints what the node has then";

/// The word `send`.
pub(crate) const SEND: CommandWord = CommandWord {
    name: "send",
    about: ABOUT_SEND,
    values: LEDGER,
    choices: &[Choice::File],
};

/// The word `adopt`.
pub(crate) const ADOPT: CommandWord = CommandWord {
    name: "adopt",
    about: "Brings the ledgers of all nodes of a plan over to another plan, while no node runs",
    values: &[
        ("OLDPLAN", "the file with the plan in force"),
        ("OLDCERT", "the file with that plan's certificate"),
        ("PLAN", "the file with the next plan"),
        ("CERT", "the file with the next plan's certificate"),
        ("DIR", "the folder with the ledger of each node"),
    ],
    choices: &[Choice::DryRun, Choice::Without],
};

/// The word `audit`.
pub(crate) const AUDIT: CommandWord = CommandWord {
    name: "audit",
    about: "Audits the ledgers of all nodes of a plan, while no node runs",
    values: &[
        PLAN,
        CERTIFICATE,
        ("DIR", "the folder with the ledger of each node"),
    ],
    choices: &[Choice::Other, Choice::AtEach, Choice::AtToken],
};

/// The word `audit` for nodes that run.
pub(crate) const AUDIT_RUNNING: CommandWord = CommandWord {
    name: "audit",
    about: "Audits the journals of all nodes of a plan, while they run",
    values: SEALED,
    choices: &[Choice::Other, Choice::AtEach, Choice::AtToken],
};

/// What is said of the word `serve`.
const ABOUT_SERVE: &str =
    "Serves associations at a node's address and sends what is due; prints in the end what the node has";

/// The word `serve`.
pub(crate) const SERVE: CommandWord = CommandWord {
    name: "serve",
    about: ABOUT_SERVE,
    values: LEDGER,
    choices: &[
        Choice::Serve(ServeOption::Links),
        Choice::Serve(ServeOption::Log),
        Choice::Serve(ServeOption::Report),
        Choice::Serve(ServeOption::Workers),
        Choice::Serve(ServeOption::Memory),
        Choice::Serve(ServeOption::Connect),
        Choice::Serve(ServeOption::Request),
        Choice::Serve(ServeOption::Write),
        Choice::Serve(ServeOption::Message),
        Choice::Serve(ServeOption::Idle),
        Choice::Serve(ServeOption::UntilInputEnds),
        Choice::Serve(ServeOption::MustExist),
        Choice::Serve(ServeOption::ForgetAfter),
        Choice::Serve(ServeOption::ForgetNever),
        Choice::Serve(ServeOption::Control),
        Choice::Serve(ServeOption::Token),
        Choice::Serve(ServeOption::Host),
        Choice::Serve(ServeOption::Anyone),
    ],
};
