//! What a command line is made of: values, and how words take them.
use clap::{Arg, ArgAction, Command, value_parser};
use std::alloc::{AllocError, Global};

/// A value's name, and what is said of it.
pub(crate) type Value<'a> = (&'a str, &'a str);

pub(crate) const PLAN: Value<'static> = ("PLAN", "the file with the plan");

pub(crate) const CERTIFICATE: Value<'static> = ("CERT", "the file with the plan's certificate");

/// What a word needs that asks about a plan.
pub(crate) const SEALED: &[Value<'static>] = &[PLAN, CERTIFICATE];

/// What a word needs that works on a node's ledger.
pub(crate) const LEDGER: &[Value<'static>] = &[
    PLAN,
    CERTIFICATE,
    ("NODE", "the node"),
    (
        "DB",
        "the file with the node's ledger, which is made where there is none",
    ),
];

/// What names a node that runs.
pub(crate) const RUNNING: &[Value<'static>] = &[PLAN, CERTIFICATE, ("NODE", "the node")];

/// How words give a value: it has a name and what is said of it, and an option has its word too,
/// and what the help calls its value.
#[derive(Clone, Copy)]
pub(crate) enum Shape {
    /// A value that has to be given.
    Needed(Value<'static>),
    /// A value that may be left out.
    Optional(Value<'static>),
    /// An option that has no value.
    Flag(Value<'static>, &'static str),
    /// An option with a value.
    Valued(Value<'static>, &'static str, &'static str),
    /// The same, which has to be given.
    Required(Value<'static>, &'static str, &'static str),
    /// The same, which may be given more than once; a value may begin with a hyphen.
    Each(Value<'static>, &'static str, &'static str),
    /// The same, whose value is a number of 32 bits.
    Number(Value<'static>, &'static str, &'static str),
    /// The same, whose value is a number of 16 bits.
    Small(Value<'static>, &'static str, &'static str),
    /// The same, whose value is a level of a log.
    Level(Value<'static>, &'static str, &'static str),
}

/// The levels of a log.
const LEVELS: &[&str] = &["error", "info", "debug"];

/// A value that words take by its place.
fn placed<'a>(alloc: Global, value: Value<'a>) -> Arg<'a> {
    Arg::new(alloc, value.0)
        .action(ArgAction::Set)
        .help(value.1)
}

/// An option that has no value.
fn flag<'a>(alloc: Global, value: Value<'a>, word: &'a str) -> Arg<'a> {
    Arg::new(alloc, value.0)
        .long(word)
        .action(ArgAction::SetTrue)
        .help(value.1)
}

/// An option with a value.
fn option<'a>(alloc: Global, value: Value<'a>, word: &'a str, called: &'a str) -> Arg<'a> {
    placed(alloc, value).long(word).value_name(called)
}

/// What clap is told of such a value.
pub(crate) fn shaped<'a>(alloc: Global, shape: Shape) -> Arg<'a> {
    match shape {
        Shape::Needed(value) => placed(alloc, value).required(true),
        Shape::Optional(value) => placed(alloc, value),
        Shape::Flag(value, word) => flag(alloc, value, word),
        Shape::Valued(value, word, called) => option(alloc, value, word, called),
        Shape::Required(value, word, called) => option(alloc, value, word, called).required(true),
        Shape::Each(value, word, called) => option(alloc, value, word, called)
            .action(ArgAction::Append)
            .allow_hyphen_values(true),
        Shape::Number(value, word, called) => option(alloc, value, word, called).value_parser(
            value_parser!(u32),
        ),
        Shape::Small(value, word, called) => option(alloc, value, word, called).value_parser(
            value_parser!(u16),
        ),
        Shape::Level(value, word, called) => option(alloc, value, word, called).value_parser(
            LEVELS,
        ),
    }
}

/// Whether the value is the name of a node, which may begin with a hyphen.
fn names_a_node(value: &str) -> bool {
    match value {
        "AT" | "NODE" | "FROM" | "TO" => true,
        _ => false,
    }
}

/// What takes a part by value and comes back with it: a word takes its values and options, the line
/// its words. The functions that may fail know such a value by this trait alone, whatever is in it.
pub(crate) trait Takes<P>: Sized + Drop {
    fn take(self, part: P) -> Result<Self, AllocError>;
}

impl<'a> Takes<Arg<'a>> for Command<'a> {
    fn take(self, part: Arg<'a>) -> Result<Command<'a>, AllocError> {
        self.arg(part)
    }
}

impl<'a> Takes<Command<'a>> for Command<'a> {
    fn take(self, part: Command<'a>) -> Result<Command<'a>, AllocError> {
        self.subcommand(part)
    }
}

/// What binds a value to another one.
#[derive(Clone, Copy, Drop)]
pub(crate) enum Bound {
    /// It says nothing without that one.
    Needs(&'static str),
    /// It isn't given beside that one.
    Excludes(&'static str),
    /// It has to be given where that one isn't.
    Unless(&'static str),
}

impl<'a> Takes<Bound> for Arg<'a> {
    fn take(self, bound: Bound) -> Result<Arg<'a>, AllocError> {
        match bound {
            Bound::Needs(other) => self.requires_arg(other),
            Bound::Excludes(other) => self.conflicts_with(other),
            Bound::Unless(other) => self.required_unless_present(other),
        }
    }
}

/// What names a part.
pub(crate) trait Makes<P>: Copy {
    fn make(self, alloc: Global) -> Result<P, AllocError>;
}

impl<'a> Makes<Arg<'a>> for Value<'a> {
    fn make(self, alloc: Global) -> Result<Arg<'a>, AllocError> {
        Ok(
            placed(alloc, self)
                .required(true)
                .allow_hyphen_values(names_a_node(self.0)),
        )
    }
}

impl Makes<Bound> for Bound {
    fn make(self, _alloc: Global) -> Result<Bound, AllocError> {
        Ok(self)
    }
}

/// One part more.
fn add<W: Takes<P>, P: Drop>(whole: W, part: Result<P, AllocError>) -> Result<W, AllocError> {
    whole.take(part?)
}

/// The whole with all of these parts.
pub(crate) fn add_all<W: Takes<P>, P: Drop, N: Makes<P>>(
    alloc: Global,
    whole: Result<W, AllocError>,
    names: &[N],
) -> Result<W, AllocError> {
    let mut whole = whole?;
    for name in names {
        whole = add(whole, name.make(alloc))?;
    }
    Ok(whole)
}

/// The whole with the parts of both lists.
pub(crate) fn add_both<W: Takes<P>, P: Drop, N: Makes<P>, M: Makes<P>>(
    alloc: Global,
    whole: W,
    names: &[N],
    others: &[M],
) -> Result<W, AllocError> {
    add_all(alloc, add_all(alloc, Ok(whole), names), others)
}
