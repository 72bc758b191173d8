//! How a visit ended, as it is told and counted.
ghost use Rattle.std.specs.Prelude.{◌≡◌};
ghost use Rattle.dr_run_serve.specs.Ends.{end_as, end_of, with_one, word_of};

use crate::visit::Visit;
use dr_run_answer::Visits;
use dr_session::Ended;

/// How a visit ended at which something was due.
#[derive(Clone, Copy)]
pub enum VisitEnd {
    Released,
    Rejected,
    Aborted,
    Closed,
    /// There was no connection.
    Unreached,
    /// It didn't end as an association does.
    Failed,
    /// The ledger couldn't tell what is due, or note what came of it.
    Ledger,
}

impl VisitEnd {
    /// How a visit ended at which an association ended so.
    fn with(ended: Ended) -> VisitEnd
        ensures { result ≡ end_as ended }
    {
        match ended {
            Ended::Released => VisitEnd::Released,
            Ended::Rejected(_) => VisitEnd::Rejected,
            Ended::Aborted => VisitEnd::Aborted,
            Ended::Closed => VisitEnd::Closed,
        }
    }

    /// How a visit ended; None where nothing was due.
    pub fn of(visit: &Visit) -> Option<VisitEnd>
        ensures { result ≡ end_of visit.now }
    {
        match visit {
            Visit::Idle => None,
            Visit::Unreached(_) => Some(VisitEnd::Unreached),
            Visit::Ended(ended) => Some(VisitEnd::with(*ended)),
            Visit::Failed(_) => Some(VisitEnd::Failed),
        }
    }

    /// The same, in a word.
    pub fn word(self) -> &'static str
        ensures { result.now ≡ word_of self }
    {
        match self {
            VisitEnd::Released => "released",
            VisitEnd::Rejected => "rejected",
            VisitEnd::Aborted => "aborted",
            VisitEnd::Closed => "closed",
            VisitEnd::Unreached => "unreached",
            VisitEnd::Failed => "failed",
            VisitEnd::Ledger => "ledger",
        }
    }

    /// How visits ended, with one more that ended so.
    pub fn counted(self, visits: Visits) -> Visits
        ensures { result ≡ with_one visits self }
    {
        match self {
            VisitEnd::Released => Visits {
                released: visits.released.saturating_add(1),
                ..visits
            },
            VisitEnd::Rejected => Visits {
                rejected: visits.rejected.saturating_add(1),
                ..visits
            },
            VisitEnd::Aborted => Visits {
                aborted: visits.aborted.saturating_add(1),
                ..visits
            },
            VisitEnd::Closed => Visits {
                closed: visits.closed.saturating_add(1),
                ..visits
            },
            VisitEnd::Unreached => Visits {
                unreached: visits.unreached.saturating_add(1),
                ..visits
            },
            VisitEnd::Failed | VisitEnd::Ledger => Visits {
                failed: visits.failed.saturating_add(1),
                ..visits
            },
        }
    }
}
