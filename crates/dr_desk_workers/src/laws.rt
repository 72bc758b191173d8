//! What holds of all that workers say. Nothing here runs: each function's contract is a law.
ghost use Rattle.dr_desk_workers.specs.Said.{OneStatus, ResponsesSayTheirStatus};

/// What a session writes as a response says the status of just that response, and bytes say one
/// status at most: so what the gate is told of a response that was sent is its status.
pub fn responses_say_their_status()
    ensures one { OneStatus }
    ensures responses { ResponsesSayTheirStatus }
{}
