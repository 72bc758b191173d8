//! The command line as clap knows it: its words in their order.
use crate::node_words::{
    ADOPT, AUDIT, AUDIT_RUNNING, BACKUP, DROP, FORGET, LIST, NEW, REQUEUE, SEND, SERVE, STOP, VISIT,
};
use crate::parts::{Makes, RUNNING, add_all, add_both};
use crate::plan_words::{
    CHECK, CommandWord, DIFF, ECHO, EXPAND, EXPECT, GRAPH, IMPORT, LINT, ROUTE, SIMULATE, VERIFY,
};
use crate::words::VERSION;
use clap::Command;
use std::alloc::{AllocError, Global};

/// A word, or the program, with nothing in it yet.
fn called<'a>(alloc: Global, name: &'a str, about: &'a str) -> Command<'a> {
    Command::new(alloc, name).about(about)
}

/// The program, with no word yet.
fn program<'a>(alloc: Global) -> Result<Command<'a>, AllocError> {
    called(alloc, "dr_router", "A DICOM store-and-forward router")
        .version(VERSION)
        .no_binary_name(true)
        .subcommand_required(true)
        .bin_name("dr_router")
}

/// The words, in the order in which the help shows them: those about plans, and those about nodes.
#[derive(Clone, Copy)]
enum Verb {
    Check,
    Expand,
    Import,
    Verify,
    Route,
    Graph,
    Lint,
    Expect,
    Diff,
    Simulate,
    Echo,
    New,
    Serve,
    Send,
    List,
    Requeue,
    Drop,
    Forget,
    Visit,
    Backup,
    Stop,
    Adopt,
    Audit,
    /// The same word of a node that runs, which has no value for a ledger.
    AtList,
    AtRequeue,
    AtDrop,
    AtForget,
    AtAudit,
}

const VERBS: &[Verb] = &[
    Verb::Check,
    Verb::Expand,
    Verb::Import,
    Verb::Verify,
    Verb::Route,
    Verb::Graph,
    Verb::Lint,
    Verb::Expect,
    Verb::Diff,
    Verb::Simulate,
    Verb::Echo,
    Verb::New,
    Verb::Serve,
    Verb::Send,
    Verb::List,
    Verb::Requeue,
    Verb::Drop,
    Verb::Forget,
    Verb::Visit,
    Verb::Backup,
    Verb::Stop,
    Verb::Adopt,
    Verb::Audit,
];

/// The words for a node that runs.
const RUNNING_VERBS: &[Verb] = &[
    Verb::AtList,
    Verb::AtRequeue,
    Verb::AtDrop,
    Verb::AtForget,
    Verb::Visit,
    Verb::Backup,
    Verb::Stop,
    Verb::AtAudit,
];

/// The same word of a node that runs.
fn at_running(word: CommandWord) -> CommandWord {
    CommandWord {
        values: RUNNING,
        ..word
    }
}

impl Verb {
    fn word(self) -> CommandWord {
        match self {
            Verb::Check => CHECK,
            Verb::Expand => EXPAND,
            Verb::Import => IMPORT,
            Verb::Verify => VERIFY,
            Verb::Route => ROUTE,
            Verb::Graph => GRAPH,
            Verb::Lint => LINT,
            Verb::Expect => EXPECT,
            Verb::Diff => DIFF,
            Verb::Simulate => SIMULATE,
            Verb::Echo => ECHO,
            Verb::New => NEW,
            Verb::Serve => SERVE,
            Verb::Send => SEND,
            Verb::List => LIST,
            Verb::Requeue => REQUEUE,
            Verb::Drop => DROP,
            Verb::Forget => FORGET,
            Verb::Visit => VISIT,
            Verb::Backup => BACKUP,
            Verb::Stop => STOP,
            Verb::Adopt => ADOPT,
            Verb::Audit => AUDIT,
            Verb::AtList => at_running(LIST),
            Verb::AtRequeue => at_running(REQUEUE),
            Verb::AtDrop => at_running(DROP),
            Verb::AtForget => at_running(FORGET),
            Verb::AtAudit => AUDIT_RUNNING,
        }
    }
}

/// That word, as clap knows it.
fn make_word<'a>(alloc: Global, word: CommandWord) -> Result<Command<'a>, AllocError> {
    add_both(
        alloc,
        called(alloc, word.name, word.about),
        word.values,
        word.choices,
    )
}

impl<'a> Makes<Command<'a>> for Verb {
    fn make(self, alloc: Global) -> Result<Command<'a>, AllocError> {
        make_word(alloc, self.word())
    }
}

/// The words of the program, or those for a node that runs.
fn verbs_of(is_running: bool) -> &'static [Verb] {
    if is_running {
        return RUNNING_VERBS;
    }
    VERBS
}

/// The command line of the program, or that of words with `--at`.
pub(crate) fn command_line<'a>(alloc: Global, is_running: bool) -> Result<Command<'a>, AllocError> {
    add_all(alloc, program(alloc), verbs_of(is_running))
}
