//! What holds of all requests. Nothing here runs: each function's contract is a law.
ghost use Rattle.dr_run_request.specs.Laws.{ElseProgramsAct, IsAnsweredOnce, OnlyPostsAct};
ghost use Rattle.dr_run_request.specs.Laws.{LimitsAreRight, OrdersDiffer, PagesAreBounded};
ghost use Rattle.dr_run_request.specs.Laws.{PathsDiffer, WantsDiffer};

/// A request is answered in one way.
pub fn a_request_has_one_answer()
    ensures { IsAnsweredOnce }
{
    paths_differ();
}

/// Nothing acts but a POST with the token, to a host that is allowed; one of a browser has the key
/// of the page, too.
pub fn only_a_post_with_the_token_acts()
    ensures posts { OnlyPostsAct }
    ensures programs { ElseProgramsAct }
{}

/// Each path is of one route.
pub fn paths_differ()
    ensures { PathsDiffer }
{}

/// What a form orders is one thing.
pub fn orders_differ()
    ensures { OrdersDiffer }
{}

/// What a form asks for is one thing, and a page of bounded size.
pub fn wants_differ()
    ensures one { WantsDiffer }
    ensures bounded { PagesAreBounded }
{}

/// Figures of the numbers of rows that may be asked for.
pub fn limits_are_right()
    ensures { LimitsAreRight }
{}
