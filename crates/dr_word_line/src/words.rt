//! What the words of the command line ask for.
use clap::Error;
use dr_run_files::NodeFiles;

/// The version of the program.
pub const VERSION: &str = "0.3.0";

/// The four values of an instance by which it is routed, as words: the SOP class UID, the UID of
/// the transfer syntax, the modality and the station name.
#[derive(Clone, Copy, Drop)]
pub struct KeyWords<'a> {
    pub class: &'a str,
    pub syntax: &'a str,
    pub modality: &'a str,
    pub station: &'a str,
}

/// The next plan with its certificate, by their paths.
#[derive(Clone, Copy, Drop)]
pub struct NextPlan<'a> {
    pub plan: &'a str,
    pub certificate: &'a str,
    /// Whether it is a no where an instance isn't kept any more where it was.
    pub fails_on_lost: bool,
}

/// What may be asked of a plan with its certificate.
#[derive(Clone, Copy, Drop)]
pub enum Question<'a> {
    /// Where an instance with these values goes that enters at the node of that name.
    RouteOfKey(&'a str, KeyWords<'a>),
    /// Where the instance in a Part 10 file goes that enters at the node of that name.
    RouteOfFile(&'a str, &'a str),
    /// How the network looks.
    Graph,
    /// What is sound and still looks wrong.
    Lint,
    /// The same, where a finding is a no.
    StrictLint,
    /// Whether it does what this file expects of it.
    Expect(&'a str),
    /// What changes from it to the next plan.
    Diff(NextPlan<'a>),
}

/// What names two plans and where the nodes' ledgers are: the paths of the plan in force, of its
/// certificate, of the next plan, of that one's certificate, and of the folder that holds each
/// node's ledger.
#[derive(Clone, Copy, Drop)]
pub struct PlanChange<'a> {
    pub plan: &'a str,
    pub certificate: &'a str,
    pub next_plan: &'a str,
    pub next_certificate: &'a str,
    pub folder: &'a str,
}

/// What names a plan and where its nodes' ledgers are: the paths of the plan, of its certificate,
/// and of the folder that holds each node's ledger.
#[derive(Clone, Copy, Drop)]
pub struct SiteFiles<'a> {
    pub plan: &'a str,
    pub certificate: &'a str,
    pub folder: &'a str,
}

/// Which events a node that serves logs.
#[derive(Clone, Copy, PartialEq, Eq, Drop)]
pub enum Verbosity {
    /// Those that need somebody's care alone.
    Errors,
    /// Associations, what was refused, and visits to next nodes too.
    Events,
    /// Each arrival too.
    Everything,
}

/// How long a node that serves waits for its peers, in seconds: for a connect, for a caller's whole
/// request, for a PDU to be taken, for 64 kB of a message or its end, and for the next message.
#[derive(Clone, Copy, PartialEq, Eq, Drop)]
pub struct Waits {
    pub connect: u32,
    pub request: u32,
    pub write: u32,
    pub message: u32,
    pub idle: u32,
}

/// How long it waits where nothing else is asked for.
pub(crate) const USUAL_WAITS: Waits = Waits {
    connect: 10,
    request: 30,
    write: 60,
    message: 30,
    idle: 600,
};

/// How many threads serve where nothing else is asked for.
pub(crate) const USUAL_WORKERS: u16 = 264;

/// How many megabytes of data sets associations hold where nothing else is asked for.
pub(crate) const USUAL_MEMORY: u32 = 1024;

/// After how many days what is over is forgotten where nothing else is asked for.
pub(crate) const USUAL_DAYS: u32 = 30;

/// Where a node that serves may be asked what it has, and told to act.
#[derive(Clone, Copy, Drop)]
pub struct Controlled<'a> {
    /// The address, as `host:port`.
    pub at: &'a str,
    /// The path of the file with the token; without one nothing can be acted.
    pub token: Option<&'a str>,
    /// One name more by which a request may call it.
    pub host: Option<&'a str>,
    /// Whether the address may be another than loopback.
    pub is_for_anyone: bool,
}

/// How a node is to serve.
#[derive(Clone, Copy, Drop)]
pub struct Serving<'a> {
    /// After how many associations it ends; for 0 never.
    pub links: u32,
    /// What it logs.
    pub verbosity: Verbosity,
    /// The path of a file to which it writes what it has, now and then.
    pub report: Option<&'a str>,
    /// How many threads serve associations.
    pub workers: u16,
    /// How much memory all associations together hold of data sets, in megabytes (10^6 bytes).
    pub memory: u32,
    /// After how many days it forgets what is over; None for never.
    pub forget_after: Option<u32>,
    /// How long it waits for its peers.
    pub waits: Waits,
    /// Whether it ends, in order, when the standard input does.
    pub until_input_ends: bool,
    /// Whether its ledger's file has to be there.
    pub must_exist: bool,
    /// Where it may be asked and told to act, if it may.
    pub control: Option<Controlled<'a>>,
}

/// What a node may be asked to do with its ledger.
#[derive(Clone, Copy, Drop)]
pub enum Duty<'a> {
    /// To make it, where none is, with its data sets in its tables.
    Make,
    /// The same with its data sets in a file of their own beside it.
    MakeWithData,
    /// To print what it has.
    List,
    /// The same with names of classes and with dates.
    ListLong,
    /// To print how much it has.
    Summary,
    /// To queue again the held row of the instance of this UID to that node.
    Requeue(&'a str, &'a str),
    /// To queue again all held rows to that node.
    RequeueAll(&'a str),
    /// To give up the held row of the instance of this UID to that node.
    GiveUp(&'a str, &'a str),
    /// To forget the instance of this UID, which is over.
    Forget(&'a str),
    /// To take in the instance in a Part 10 file, and to send what is due.
    Send(&'a str),
    /// To serve associations and send what is due.
    Serve(Serving<'a>),
}

/// What names a node that runs: the paths of its plan and of that one's certificate, its name, the
/// address (`host:port`) at which it may be asked, and the path of the file with the token that an
/// act needs, where one is given.
#[derive(Clone, Copy, Drop)]
pub struct RunningNode<'a> {
    pub plan: &'a str,
    pub certificate: &'a str,
    pub node: &'a str,
    pub at: &'a str,
    pub token: Option<&'a str>,
}

/// What a node that runs may be asked, and told to do.
#[derive(Clone, Copy, Drop)]
pub enum Errand<'a> {
    /// To print what it has.
    List,
    /// To print how much it has.
    Summary,
    /// The same, where a held row is a no.
    StrictSummary,
    /// To queue again the held row of the instance of this UID to that node.
    Requeue(&'a str, &'a str),
    /// To queue again all held rows to that node.
    RequeueAll(&'a str),
    /// To give up the held row of the instance of this UID to that node.
    GiveUp(&'a str, &'a str),
    /// The same for this reason, which the node's log keeps.
    GiveUpFor(&'a str, &'a str, &'a str),
    /// To forget the instance of this UID, which is over.
    Forget(&'a str),
    /// To visit that node now.
    Visit(&'a str),
    /// To copy its ledger to a file of that path.
    Backup(&'a str),
    /// To end in order.
    Stop,
}

/// All nodes of a plan, of which some run: the paths of the plan and its certificate, the names of
/// those that run, each with the address of its control connection behind a `=`, the names of those
/// that are of other makers, and the path of the token.
#[derive(Drop)]
pub struct RunningNodes<'a> {
    pub plan: &'a str,
    pub certificate: &'a str,
    pub running: Vec<&'a str>,
    pub others: Vec<&'a str>,
    pub token: Option<&'a str>,
}

/// What the words ask for.
#[derive(Drop)]
pub enum Task<'a> {
    /// To check the plan whose text is on the standard input.
    CheckInput,
    /// To check the plan whose text is in this file.
    CheckFile(&'a str),
    /// To print the text that is read for the plan in this file.
    Expand(&'a str),
    /// To print a plan to begin with, for the devices of the table in this file.
    Import(&'a str),
    /// To verify, for the plan whose text is in the first file, the certificate whose text is in
    /// the second.
    Verify(&'a str, &'a str),
    /// To play the script in the third file in a world of the nodes of the plan in the first, whose
    /// certificate is in the second.
    Simulate(&'a str, &'a str, &'a str),
    /// To ask for an echo, from the node of the first name to that of the second, of the plan in
    /// the file.
    Echo(&'a str, &'a str, &'a str),
    /// To answer a question about the plan in the first file, whose certificate is in the second.
    Question(&'a str, &'a str, Question<'a>),
    /// To do as `CheckInput` says, and to print the answer as JSON.
    CheckInputAsJson,
    /// The same as `CheckFile` says.
    CheckFileAsJson(&'a str),
    /// To do as `CheckInput` says, and to name each fault that is found.
    CheckAllOfInput,
    /// The same as `CheckFile` says.
    CheckAllOfFile(&'a str),
    /// The same as `Question` says.
    QuestionAsJson(&'a str, &'a str, Question<'a>),
    /// To do this at a node that has these files.
    AtNode(NodeFiles<'a>, Duty<'a>),
    /// To ask this of a node that runs, or to tell it.
    AtRunning(RunningNode<'a>, Errand<'a>),
    /// To bring the ledgers of all nodes of a plan over to another plan.
    Adopt(PlanChange<'a>),
    /// The same of all nodes but those of these names, which have no ledger.
    AdoptAmong(PlanChange<'a>, Vec<&'a str>),
    /// To say what that would come to, and to change nothing.
    Rehearse(PlanChange<'a>, Vec<&'a str>),
    /// To audit the ledgers of all nodes of a plan.
    Audit(SiteFiles<'a>),
    /// The same of all nodes but those of these names, which are of other makers.
    AuditAmong(SiteFiles<'a>, Vec<&'a str>),
    /// To audit the journals of nodes that run.
    AuditRunning(RunningNodes<'a>),
    /// Help, or nothing that the program knows.
    Told(Error),
}
