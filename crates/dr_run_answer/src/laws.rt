//! What holds of all answers. Nothing here runs: each function's contract is a law.
ghost use Rattle.dr_run_answer.specs.Laws.{LinesAreWrittenSo, NotedIsCounted, NotedIsKept};
ghost use Rattle.dr_run_answer.specs.Laws.{NothingIsCounted, OldIsLetGo, RecentIsWhatCame};
ghost use Rattle.dr_run_answer.specs.Laws.{RespondedIsCounted, ResponsesAreWrittenSo};
ghost use Rattle.dr_run_answer.specs.Laws.{TimesAreWrittenSo, TriesAreTold};

/// Lines are written so.
pub fn lines_are_written_so()
    ensures { LinesAreWrittenSo }
{}

/// Times are written so.
pub fn times_are_written_so()
    ensures { TimesAreWrittenSo }
{}

/// What a try in vain leaves of a row tells when that was.
pub fn tries_are_told()
    ensures { TriesAreTold }
{}

/// What is noted of an instance counts: for its caller, and for its minute as long as an hour has
/// it.
pub fn what_is_noted_counts()
    ensures nothing { NothingIsCounted }
    ensures callers { NotedIsCounted }
    ensures minutes { NotedIsKept }
    ensures old { OldIsLetGo }
    ensures recent { RecentIsWhatCame }
{}

/// No response that is noted is lost, and each counts once.
pub fn responses_are_counted()
    ensures counted { RespondedIsCounted }
    ensures written { ResponsesAreWrittenSo }
{}
