//! What a site's own journals show: the four claims of the headline, of books and journals alone.
//!
//! The message world speaks of what happens (`dr_world_model`). Who comes afterwards has the files
//! of nodes that stand still, and nothing else. Where each of their journals is a history of its
//! node, and they match (`specs/Journals.antt`), the four claims hold of their books. Nothing here
//! runs.
#![tactic(auto)]

pub mod laws;

ghost use Rattle.dr_world_journals.specs.Theorem.{AllJournalsShowTheHeadline};
ghost use Rattle.dr_world_journals.specs.Theorem.{AllRunsLeaveMatchingJournals};
ghost use Rattle.dr_world_journals.specs.Theorem.{MatchingJournalsShowTheHeadline};
ghost use Rattle.dr_world_journals.specs.Theorem.{RunsLeaveMatchingJournals};

/// Over each sound plan, whichever nodes are ours: where each of their journals is a history of its
/// node and they match, the four claims hold of their books, without a word on what happened.
pub fn journals_show_the_headline()
    ensures among { MatchingJournalsShowTheHeadline }
    ensures all { AllJournalsShowTheHeadline }
{}

/// After every list of events, among other makers' products too, the journals are histories and
/// match. So whoever tests them refuses no run.
pub fn runs_leave_matching_journals()
    ensures among { RunsLeaveMatchingJournals }
    ensures all { AllRunsLeaveMatchingJournals }
{}
