//! What is answered to a question.
ghost use Rattle.std.specs.Prelude.{◌≡◌};
ghost use Rattle.dr_word_route.specs.declared.reply.Response.TheVariants.{Printed};
ghost use Rattle.dr_word_route.specs.Replies.{status_for};
ghost use Rattle.dr_word_route.specs.Runs.{strict_status as strictly};

use dr_base::Text;
use dr_dataset::FileFault;
use dr_ledger::ItemFault;
use dr_run_open::Status;
use thiserror::Error;

/// Why a question isn't answered.
#[derive(Clone, Copy, Debug, Error)]
pub enum Unanswered {
    /// The plan has no node of that name.
    #[error("NoNode")]
    NoNode,
    /// The file is none that can be read, or the transfer syntax none in which instances are
    /// routed.
    #[error("{0}")]
    File(FileFault),
    /// The file's data set is no item.
    #[error("{0}")]
    Item(ItemFault),
    /// There was no memory.
    #[error("Memory")]
    Memory,
}

/// What is answered to a question.
#[derive(Drop)]
pub enum Response {
    /// What was asked for.
    Printed(Text),
    /// No flow at the node fits the instance.
    NoLine,
    /// Why there is no answer.
    Refused(Unanswered),
}

/// Success where the text is empty, else refused.
fn status_of_findings(text: &Text) -> Status
    ensures { result ≡ strictly (Printed text.now) }
{
    match text.as_bytes() {
        [] => Status::Success,
        _ => Status::Refused,
    }
}

impl Response {
    /// The status with which the program ends, where the reply is told.
    pub fn status(&self) -> Status
        ensures { result ≡ status_for self.now }
    {
        match self {
            Response::Printed(_) => Status::Success,
            Response::NoLine => Status::Refused,
            Response::Refused(Unanswered::Memory) => Status::Memory,
            Response::Refused(_) => Status::Refused,
        }
    }

    /// The status with which the program ends where a reply is to say nothing: refused where it
    /// says something.
    pub fn strict_status(&self) -> Status
        ensures { result ≡ strictly self.now }
    {
        match self {
            Response::Printed(text) => status_of_findings(text),
            Response::NoLine => self.status(),
            Response::Refused(_) => self.status(),
        }
    }
}
