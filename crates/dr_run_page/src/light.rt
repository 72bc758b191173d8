//! The light of a page: whether a person is wanted.
ghost use Rattle.std.specs.Prelude.{◌≡◌};
ghost use Rattle.dr_run_page.specs.Documents.{is_any, is_busy, is_stuck, light, light_of};

use dr_run_answer::Queue;

/// Whether rows to one of the nodes wait.
fn is_any_busy(queues: &[Queue<'_>]) -> bool
    ensures { result ≡ is_any is_busy queues.now }
{
    for queue in queues {
        if 0 < queue.waiting {
            return true;
        }
    }
    false
}

/// Whether rows to one of the nodes are held.
fn is_any_stuck(queues: &[Queue<'_>]) -> bool
    ensures { result ≡ is_any is_stuck queues.now }
{
    for queue in queues {
        if 0 < queue.held {
            return true;
        }
    }
    false
}

/// The class and the words of the light.
fn light_of(failed: bool, stuck: bool, busy: bool) -> &'static str
    ensures { result.now ≡ light_of failed stuck busy }
{
    if failed {
        return "red\">The store has failed";
    }
    if stuck {
        return "red\">Rows are held";
    }
    if busy {
        return "amber\">Rows wait";
    }
    "green\">Nothing is held, and nothing waits"
}

/// The light of a node whose store has failed so often.
pub(crate) fn light(failures: u64, queues: &[Queue<'_>]) -> &'static str
    ensures { result.now ≡ light failures queues.now }
{
    light_of(0 < failures, is_any_stuck(queues), is_any_busy(queues))
}
