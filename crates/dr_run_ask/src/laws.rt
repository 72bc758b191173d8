//! What holds of all that is asked and told. Nothing here runs: each function's contract is a law.
ghost use Rattle.dr_run_ask.specs.Laws.{CallsAreRoutes, FormsAreRead};

/// Each call has the path and the method of what it means at the node.
pub fn calls_are_routes()
    ensures { CallsAreRoutes }
{}

/// The node reads in each form what was written into it.
pub fn forms_are_read()
    ensures { FormsAreRead }
{}
