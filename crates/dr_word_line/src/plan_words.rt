//! The words about plans, as clap knows them.
use crate::choices::Choice;
use crate::parts::{CERTIFICATE, PLAN, SEALED, Value};

/// A word with values that have to be given, and with others.
#[derive(Clone, Copy)]
pub(crate) struct CommandWord {
    pub name: &'static str,
    /// What is said of it.
    pub about: &'static str,
    pub values: &'static [Value<'static>],
    pub choices: &'static [Choice],
}

/// The word `check`.
pub(crate) const CHECK: CommandWord = CommandWord {
    name: "check",
    about: "Checks a plan, and prints its certificate or what is wrong with it",
    values: &[],
    choices: &[Choice::Plan, Choice::AllFaults, Choice::Json],
};

/// The word `expand`.
pub(crate) const EXPAND: CommandWord = CommandWord {
    name: "expand",
    about: "Prints a plan of format 3 without names, sets, groups and lists",
    values: &[PLAN],
    choices: &[],
};

/// The word `import`.
pub(crate) const IMPORT: CommandWord = CommandWord {
    name: "import",
    about: "Prints a plan to begin with, for the devices of a table",
    values: &[("CSV", "the file with the table, a line for each device")],
    choices: &[],
};

/// The word `verify`.
pub(crate) const VERIFY: CommandWord = CommandWord {
    name: "verify",
    about: "Verifies that the plan is sound and that the certificate is its own",
    values: &[PLAN, ("CERT", "the file with the certificate")],
    choices: &[],
};

/// The word `simulate`.
pub(crate) const SIMULATE: CommandWord = CommandWord {
    name: "simulate",
    about: "Plays a script of steps in a world of the plan's nodes, and prints what each has then",
    values: &[PLAN, CERTIFICATE, ("SCRIPT", "the file with the script")],
    choices: &[],
};

/// The word `echo`.
pub(crate) const ECHO: CommandWord = CommandWord {
    name: "echo",
    about: "Asks a node for an echo as another one, and prints how it answers",
    values: &[
        PLAN,
        ("FROM", "the node that asks"),
        ("TO", "the node that is asked"),
    ],
    choices: &[],
};

/// What is said of the word `route`.
const ABOUT_ROUTE: &str =
    "Prints where an instance goes that enters at a node: its hops, and the nodes that keep it";

/// The word `route`.
pub(crate) const ROUTE: CommandWord = CommandWord {
    name: "route",
    about: ABOUT_ROUTE,
    values: &[
        PLAN,
        CERTIFICATE,
        ("AT", "the node at which it enters"),
        (
            "FILE|CLASS",
            "a Part 10 file, or the SOP class UID of an instance",
        ),
    ],
    choices: &[
        Choice::Syntax,
        Choice::Modality,
        Choice::Station,
        Choice::Json,
    ],
};

/// The word `graph`.
pub(crate) const GRAPH: CommandWord = CommandWord {
    name: "graph",
    about: "Prints the network of a plan as a graph for Graphviz",
    values: SEALED,
    choices: &[],
};

/// The word `lint`.
pub(crate) const LINT: CommandWord = CommandWord {
    name: "lint",
    about: "Prints what is sound in a plan and still looks wrong",
    values: SEALED,
    choices: &[Choice::Strict, Choice::Json],
};

/// The word `expect`.
pub(crate) const EXPECT: CommandWord = CommandWord {
    name: "expect",
    about: "Tests a plan against what a file expects of it, for all instances",
    values: &[
        PLAN,
        CERTIFICATE,
        ("FILE", "the file with what is expected"),
    ],
    choices: &[Choice::Json],
};

/// The word `diff`.
pub(crate) const DIFF: CommandWord = CommandWord {
    name: "diff",
    about: "Prints which instances other nodes keep by the next plan",
    values: &[
        ("PLAN", "the file with the plan in force"),
        ("CERT", "the file with that plan's certificate"),
        ("NEXTPLAN", "the file with the next plan"),
        ("NEXTCERT", "the file with the next plan's certificate"),
    ],
    choices: &[Choice::Fails, Choice::Json],
};
