//! What a message that is under way has brought.
ghost use Rattle.std.specs.Prelude.{◌<◌};

/// Since when so many bytes came of a message that is under way.
#[derive(Clone, Copy, PartialEq, Eq)]
pub struct Window {
    pub since: u64,
    pub brought: u64,
    pub ghost few: { brought < 65536 },
}
