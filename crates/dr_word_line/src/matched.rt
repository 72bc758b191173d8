//! What clap makes of words: options, help, and what the program doesn't know.

use crate::command_line::command_line;
use crate::words::{
    Controlled, Duty, Errand, KeyWords, NextPlan, PlanChange, Question, RunningNode, RunningNodes,
    Serving, SiteFiles, Task, USUAL_DAYS, USUAL_MEMORY, USUAL_WAITS, USUAL_WORKERS, Verbosity,
    Waits,
};
use clap::{ArgMatches, Command};
use dr_run_files::NodeFiles;
use std::alloc::{AllocError, Global};

/// Where what is to go, as clap has read it: an instance with four values, or the one in a file.
fn route_of<'a>(given: &ArgMatches<'a>) -> Question<'a> {
    let at = given.get_str("AT").unwrap_or("");
    let first = given.get_str("FILE|CLASS").unwrap_or("");
    let Some(syntax) = given.get_str("SYNTAX") else {
        return Question::RouteOfFile(at, first);
    };
    let key = KeyWords {
        class: first,
        syntax,
        modality: given.get_str("MODALITY").unwrap_or(""),
        station: given.get_str("STATION").unwrap_or(""),
    };
    Question::RouteOfKey(at, key)
}

/// The next plan, as clap has read it.
fn next_of<'a>(given: &ArgMatches<'a>) -> NextPlan<'a> {
    NextPlan {
        plan: given.get_str("NEXTPLAN").unwrap_or(""),
        certificate: given.get_str("NEXTCERT").unwrap_or(""),
        fails_on_lost: given.get_flag("FAILS"),
    }
}

/// The question that a word asks about a plan and its certificate, if it asks one.
fn question_of<'a>(name: &str, given: &ArgMatches<'a>) -> Option<Question<'a>> {
    match name {
        "route" => Some(route_of(given)),
        "graph" => Some(Question::Graph),
        "lint" if given.get_flag("STRICT") => Some(Question::StrictLint),
        "lint" => Some(Question::Lint),
        "diff" => Some(Question::Diff(next_of(given))),
        "expect" => Some(Question::Expect(given.get_str("FILE").unwrap_or(""))),
        _ => None,
    }
}

/// Whether the answer to a question is asked for as JSON, as clap has read it.
fn wants_json(name: &str, given: &ArgMatches<'_>) -> bool {
    match name {
        "route" | "lint" | "diff" | "expect" => given.get_flag("JSON"),
        _ => false,
    }
}

/// What a question about a plan and its certificate asks for, as clap has read it.
fn ask<'a>(
    name: &str,
    given: &ArgMatches<'a>,
    plan: &'a str,
    certificate: &'a str,
    question: Question<'a>,
) -> Task<'a> {
    if wants_json(name, given) {
        return Task::QuestionAsJson(plan, certificate, question);
    }
    Task::Question(plan, certificate, question)
}

/// What `check` asks for where all faults are to be named, as clap has read it.
fn check_all_of<'a>(given: &ArgMatches<'a>) -> Task<'a> {
    match given.get_str("PLAN") {
        Some(plan) => Task::CheckAllOfFile(plan),
        None => Task::CheckAllOfInput,
    }
}

/// What `check` asks for, as clap has read it.
fn check_of<'a>(given: &ArgMatches<'a>) -> Task<'a> {
    if given.get_flag("ALLFAULTS") {
        return check_all_of(given);
    }
    let is_json = given.get_flag("JSON");
    match given.get_str("PLAN") {
        Some(plan) if is_json => Task::CheckFileAsJson(plan),
        Some(plan) => Task::CheckFile(plan),
        None if is_json => Task::CheckInputAsJson,
        None => Task::CheckInput,
    }
}

/// What `adopt` asks for, as clap has read it.
fn adopt_of<'a>(alloc: Global, given: &ArgMatches<'a>) -> Result<Task<'a>, AllocError> {
    let change = change_of(given);
    let others = named_by(alloc, given, "WITHOUT")?;
    if given.get_flag("DRYRUN") {
        return Ok(Task::Rehearse(change, others));
    }
    Ok(Task::AdoptAmong(change, others))
}

/// How long a node is to wait for its peers, as clap has read it.
fn waits_of(given: &ArgMatches<'_>) -> Waits {
    Waits {
        connect: given.get_one("CONNECT").unwrap_or(USUAL_WAITS.connect),
        request: given.get_one("REQUEST").unwrap_or(USUAL_WAITS.request),
        write: given.get_one("WRITE").unwrap_or(USUAL_WAITS.write),
        message: given.get_one("MESSAGE").unwrap_or(USUAL_WAITS.message),
        idle: given.get_one("IDLE").unwrap_or(USUAL_WAITS.idle),
    }
}

/// After how many days a node is to forget what is over, as clap has read it.
fn days_of(given: &ArgMatches<'_>) -> Option<u32> {
    if given.get_flag("NEVER") {
        return None;
    }
    Some(given.get_one("DAYS").unwrap_or(USUAL_DAYS))
}

/// Where a node may be asked and told to act, as clap has read it, if it may.
fn control_of<'a>(given: &ArgMatches<'a>) -> Option<Controlled<'a>> {
    match given.get_str("CONTROL") {
        Some(at) => Some(Controlled {
            at,
            token: given.get_str("TOKEN"),
            host: given.get_str("HOST"),
            is_for_anyone: given.get_flag("ANYONE"),
        }),
        None => None,
    }
}

/// How a node is to serve, as clap has read it.
fn serving_of<'a>(given: &ArgMatches<'a>) -> Serving<'a> {
    let verbosity = match given.get_str("LOG") {
        Some("error") => Verbosity::Errors,
        Some("debug") => Verbosity::Everything,
        _ => Verbosity::Events,
    };
    Serving {
        links: given.get_one("LINKS").unwrap_or(0),
        verbosity,
        report: given.get_str("REPORT"),
        workers: given.get_one("WORKERS").unwrap_or(USUAL_WORKERS),
        memory: given.get_one("MEMORY").unwrap_or(USUAL_MEMORY),
        forget_after: days_of(given),
        waits: waits_of(given),
        until_input_ends: given.get_flag("UNTIL"),
        must_exist: given.get_flag("EXIST"),
        control: control_of(given),
    }
}

/// The UID of an instance, as clap has read it.
fn uid_of<'a>(given: &ArgMatches<'a>) -> &'a str {
    given.get_str("UID").unwrap_or("")
}

/// The node to which a row is to be sent, as clap has read it.
fn dest_of<'a>(given: &ArgMatches<'a>) -> &'a str {
    given.get_str("DEST").unwrap_or("")
}

/// Which held rows are to be queued again, as clap has read it.
fn requeue_of<'a>(given: &ArgMatches<'a>) -> Duty<'a> {
    match given.get_str("ALL") {
        Some(all) => Duty::RequeueAll(all),
        None => Duty::Requeue(uid_of(given), dest_of(given)),
    }
}

/// What a word asks a node to do, as clap has read it, if it asks that.
fn duty_of<'a>(name: &str, given: &ArgMatches<'a>) -> Option<Duty<'a>> {
    match name {
        "new" if given.get_flag("DATAFILE") => Some(Duty::MakeWithData),
        "new" => Some(Duty::Make),
        "list" if given.get_flag("SUMMARY") => Some(Duty::Summary),
        "list" if given.get_flag("LONG") => Some(Duty::ListLong),
        "list" => Some(Duty::List),
        "requeue" => Some(requeue_of(given)),
        "drop" => Some(Duty::GiveUp(uid_of(given), dest_of(given))),
        "forget" => Some(Duty::Forget(uid_of(given))),
        "send" => Some(Duty::Send(given.get_str("FILE").unwrap_or(""))),
        "serve" => Some(Duty::Serve(serving_of(given))),
        _ => None,
    }
}

/// What `echo` asks for, as clap has read it.
fn echo_of<'a>(given: &ArgMatches<'a>, plan: &'a str) -> Task<'a> {
    let caller = given.get_str("FROM").unwrap_or("");
    let called = given.get_str("TO").unwrap_or("");
    Task::Echo(plan, caller, called)
}

/// What clap makes of words that name a plan and its certificate.
fn read_certified<'a>(name: &str, given: &ArgMatches<'a>, plan: &'a str) -> Task<'a> {
    let certificate = given.get_str("CERT").unwrap_or("");
    if let Some(question) = question_of(name, given) {
        return ask(name, given, plan, certificate, question);
    }
    if let Some(duty) = duty_of(name, given) {
        let node = given.get_str("NODE").unwrap_or("");
        let ledger = given.get_str("DB").unwrap_or("");
        let files = NodeFiles {
            plan,
            certificate,
            node,
            ledger,
        };
        return Task::AtNode(files, duty);
    }
    if name == "verify" {
        return Task::Verify(plan, certificate);
    }
    Task::Simulate(plan, certificate, given.get_str("SCRIPT").unwrap_or(""))
}

/// Which plans and which folder are named, as clap has read it.
fn change_of<'a>(given: &ArgMatches<'a>) -> PlanChange<'a> {
    PlanChange {
        plan: given.get_str("OLDPLAN").unwrap_or(""),
        certificate: given.get_str("OLDCERT").unwrap_or(""),
        next_plan: given.get_str("PLAN").unwrap_or(""),
        next_certificate: given.get_str("CERT").unwrap_or(""),
        folder: given.get_str("DIR").unwrap_or(""),
    }
}

/// Which nodes are named by an option, as clap has read it.
fn named_by<'a>(
    alloc: Global,
    given: &ArgMatches<'a>,
    option: &str,
) -> Result<Vec<&'a str>, AllocError> {
    let mut names = Vec::new(alloc);
    if let Some(named) = given.get_strs(option) {
        names.extend_from_slice(named)?;
    }
    Ok(names)
}

/// Which nodes are of other makers, as clap has read it.
fn others_of<'a>(alloc: Global, given: &ArgMatches<'a>) -> Result<Vec<&'a str>, AllocError> {
    named_by(alloc, given, "OTHER")
}

/// Which ledgers are to be audited, as clap has read it.
fn audit_of<'a>(alloc: Global, given: &ArgMatches<'a>) -> Result<Task<'a>, AllocError> {
    let files = SiteFiles {
        plan: given.get_str("PLAN").unwrap_or(""),
        certificate: given.get_str("CERT").unwrap_or(""),
        folder: given.get_str("DIR").unwrap_or(""),
    };
    let others = others_of(alloc, given)?;
    Ok(Task::AuditAmong(files, others))
}

/// What a word asks of a node that runs, as clap has read it.
fn errand_of<'a>(name: &str, given: &ArgMatches<'a>) -> Errand<'a> {
    match name {
        "list" if given.get_flag("IFHELD") => Errand::StrictSummary,
        "list" if given.get_flag("SUMMARY") => Errand::Summary,
        "list" => Errand::List,
        "requeue" => match given.get_str("ALL") {
            Some(all) => Errand::RequeueAll(all),
            None => Errand::Requeue(uid_of(given), dest_of(given)),
        },
        "drop" => match given.get_str("REASON") {
            Some(reason) => Errand::GiveUpFor(uid_of(given), dest_of(given), reason),
            None => Errand::GiveUp(uid_of(given), dest_of(given)),
        },
        "forget" => Errand::Forget(uid_of(given)),
        "visit" => Errand::Visit(dest_of(given)),
        "backup" => Errand::Backup(given.get_str("COPY").unwrap_or("")),
        _ => Errand::Stop,
    }
}

/// Whether the words are about a node that runs.
fn names_running(words: &[&str]) -> bool {
    for word in words {
        if *word == "--at" || word.as_bytes().starts_with(b"--at=") {
            return true;
        }
    }
    false
}

/// The nodes of a plan of which these run, and these are of other makers, as clap has read it.
fn nodes_of<'a>(
    given: &ArgMatches<'a>,
    running: Vec<&'a str>,
    others: Vec<&'a str>,
) -> RunningNodes<'a> {
    RunningNodes {
        plan: given.get_str("PLAN").unwrap_or(""),
        certificate: given.get_str("CERT").unwrap_or(""),
        running,
        others,
        token: given.get_str("TOKEN"),
    }
}

/// Which nodes that run are to be audited, as clap has read it.
fn audit_at<'a>(alloc: Global, given: &ArgMatches<'a>) -> Result<Task<'a>, AllocError> {
    let others = others_of(alloc, given)?;
    match named_by(alloc, given, "AT") {
        Ok(running) => Ok(Task::AuditRunning(nodes_of(given, running, others))),
        Err(fault) => {
            drop(others);
            Err(fault)
        }
    }
}

/// Which node that runs is named, as clap has read it.
fn running_of<'a>(given: &ArgMatches<'a>) -> RunningNode<'a> {
    RunningNode {
        plan: given.get_str("PLAN").unwrap_or(""),
        certificate: given.get_str("CERT").unwrap_or(""),
        node: given.get_str("NODE").unwrap_or(""),
        at: given.get_str("AT").unwrap_or(""),
        token: given.get_str("TOKEN"),
    }
}

/// What a word about a node that runs asks for, as clap has read it.
fn read_running_word<'a>(
    alloc: Global,
    name: &str,
    given: &ArgMatches<'a>,
) -> Result<Task<'a>, AllocError> {
    match name {
        "audit" => audit_at(alloc, given),
        _ => Ok(Task::AtRunning(running_of(given), errand_of(name, given))),
    }
}

/// What a word about a plan asks for, as clap has read it.
fn read_planned<'a>(
    alloc: Global,
    name: &str,
    given: &ArgMatches<'a>,
    plan: &'a str,
) -> Result<Task<'a>, AllocError> {
    match name {
        "expand" => Ok(Task::Expand(plan)),
        "echo" => Ok(echo_of(given, plan)),
        "adopt" => adopt_of(alloc, given),
        "audit" => audit_of(alloc, given),
        _ => Ok(read_certified(name, given, plan)),
    }
}

/// What a word asks for, as clap has read it.
fn read_word<'a>(
    alloc: Global,
    name: &str,
    given: &ArgMatches<'a>,
) -> Result<Task<'a>, AllocError> {
    match name {
        "check" => Ok(check_of(given)),
        "import" => Ok(Task::Import(given.get_str("CSV").unwrap_or(""))),
        _ => match given.get_str("PLAN") {
            Some(plan) => read_planned(alloc, name, given, plan),
            None => Ok(Task::CheckInput),
        },
    }
}

/// What the word that clap has found asks for.
fn read_matches<'a>(
    alloc: Global,
    matches: &ArgMatches<'a>,
    is_running: bool,
) -> Result<Task<'a>, AllocError> {
    match matches.subcommand() {
        Some((name, given)) if is_running => read_running_word(alloc, name, given),
        Some((name, given)) => read_word(alloc, name, given),
        None => Ok(Task::CheckInput),
    }
}

/// What clap makes of the words by this command line.
fn read_by<'a>(
    alloc: Global,
    line: Command<'a>,
    words: &'a [&'a str],
    is_running: bool,
) -> Result<Task<'a>, AllocError> {
    match line.try_get_matches_from(words) {
        Ok(matches) => {
            let asked = read_matches(alloc, &matches, is_running);
            drop(matches);
            asked
        }
        Err(error) => Ok(Task::Told(error)),
    }
}

/// What clap makes of the words: options, help, and what the program doesn't know.
pub(crate) fn read_others<'a>(alloc: Global, words: &'a [&'a str]) -> Result<Task<'a>, AllocError> {
    let is_running = names_running(words);
    let line = command_line(alloc, is_running)?;
    read_by(alloc, line, words, is_running)
}
