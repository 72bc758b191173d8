//! What happens at a link.
use dr_session::Heard;

/// What happens at this node's side of a link.
#[derive(Drop)]
pub enum LinkEvent {
    /// It comes over the link.
    Heard(Heard),
    /// The node aborts.
    Abort,
    /// The node asks for the release.
    Release,
}
