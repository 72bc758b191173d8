//! The options of the word `serve`.
use crate::parts::{Bound, Shape};

#[derive(Clone, Copy)]
pub(crate) enum ServeOption {
    Links,
    Log,
    Report,
    Workers,
    Memory,
    Connect,
    Request,
    Write,
    Message,
    Idle,
    UntilInputEnds,
    MustExist,
    ForgetAfter,
    ForgetNever,
    Control,
    Token,
    Host,
    Anyone,
}

/// After how many associations `serve` ends.
const LINKS: Shape = Shape::Number(
    (
        "LINKS",
        "ends after so many associations, for 0 never (0 to 4294967295)",
    ),
    "links",
    "N",
);

/// What `serve` logs.
const LOG: Shape = Shape::Level(
    (
        "LOG",
        "what is logged on the standard error: error, info (the default) or debug",
    ),
    "log",
    "LEVEL",
);

/// Where `serve` writes what the node has.
const REPORT: Shape = Shape::Valued(
    (
        "REPORT",
        "writes what the node has to that file, at most every ten seconds",
    ),
    "report",
    "FILE",
);

/// How many threads serve.
const WORKERS: Shape = Shape::Small(
    (
        "WORKERS",
        "how many threads serve associations, 1 to 264 (the default)",
    ),
    "workers",
    "N",
);

/// How much memory data sets take.
const MEMORY: Shape = Shape::Number(
    (
        "MEMORY",
        "how much all associations hold in memory of data sets, at least 128 (1024)",
    ),
    "memory",
    "MB",
);

/// How long `serve` waits for its peers.
const CONNECT: Shape = Shape::Number(
    ("CONNECT", "gives a connect up then (10)"),
    "connect",
    "SECONDS",
);

const REQUEST: Shape = Shape::Number(
    (
        "REQUEST",
        "who connects has to have asked for an association by then, 1 to 600 (30)",
    ),
    "request",
    "SECONDS",
);

const WRITE: Shape = Shape::Number(
    (
        "WRITE",
        "a PDU that isn't taken by then ends an association (60)",
    ),
    "write",
    "SECONDS",
);

const MESSAGE: Shape = Shape::Number(
    (
        "MESSAGE",
        "64 kB of a message that has begun, or its end, have to come within that time (30)",
    ),
    "message",
    "SECONDS",
);

const IDLE: Shape = Shape::Number(
    (
        "IDLE",
        "so much silence between two messages ends an association (600)",
    ),
    "idle",
    "SECONDS",
);

/// Whether `serve` ends with its input.
const UNTIL_INPUT_ENDS: Shape = Shape::Flag(
    ("UNTIL", "ends in order when the standard input ends"),
    "until-input-ends",
);

/// Whether `serve` asks for a ledger that is there.
const MUST_EXIST: Shape = Shape::Flag(
    (
        "EXIST",
        "refuses a ledger's file that isn't there, where else one is made",
    ),
    "must-exist",
);

/// After how many days `serve` forgets.
const FORGET_AFTER: Shape = Shape::Number(
    (
        "DAYS",
        "forgets what was sent on everywhere and isn't kept after so many days (30)",
    ),
    "forget-after",
    "DAYS",
);

/// The option of `serve` to forget nothing.
const FORGET_NEVER: Shape = Shape::Flag(("NEVER", "forgets nothing"), "forget-never");

/// Where `serve` may be asked and told to act.
const CONTROL: Shape = Shape::Valued(
    (
        "CONTROL",
        "may be asked there what it has, and told to act, by HTTP",
    ),
    "control",
    "HOST:PORT",
);

/// Who may tell it to act.
const TOKEN: Shape = Shape::Valued(
    (
        "TOKEN",
        "the file with the token that an act needs; without it nothing can be acted",
    ),
    "control-token",
    "FILE",
);

/// By which name it may be called there, too.
const HOST: Shape = Shape::Valued(
    ("HOST", "one name more by which a request may call it"),
    "control-host",
    "HOST",
);

/// Whether it may be asked from other machines.
const ANYONE: Shape = Shape::Flag(
    (
        "ANYONE",
        "allows an address that other machines reach; to read needs the token then, too",
    ),
    "control-anyone",
);

impl ServeOption {
    /// What it is like.
    pub(crate) fn shape(self) -> Shape {
        match self {
            ServeOption::Links => LINKS,
            ServeOption::Log => LOG,
            ServeOption::Report => REPORT,
            ServeOption::Workers => WORKERS,
            ServeOption::Memory => MEMORY,
            ServeOption::Connect => CONNECT,
            ServeOption::Request => REQUEST,
            ServeOption::Write => WRITE,
            ServeOption::Message => MESSAGE,
            ServeOption::Idle => IDLE,
            ServeOption::UntilInputEnds => UNTIL_INPUT_ENDS,
            ServeOption::MustExist => MUST_EXIST,
            ServeOption::ForgetAfter => FORGET_AFTER,
            ServeOption::ForgetNever => FORGET_NEVER,
            ServeOption::Control => CONTROL,
            ServeOption::Token => TOKEN,
            ServeOption::Host => HOST,
            ServeOption::Anyone => ANYONE,
        }
    }

    /// What binds it to others.
    pub(crate) fn bounds(self) -> &'static [Bound] {
        match self {
            ServeOption::ForgetAfter => &[Bound::Excludes("NEVER")],
            ServeOption::Token | ServeOption::Host | ServeOption::Anyone => &[Bound::Needs(
                "CONTROL",
            )],
            _ => &[],
        }
    }
}
