//! What a change of the plan comes to.
ghost use Rattle.std.specs.Prelude.{◌≡◌};

use dr_base::Text;
use dr_run_open::Halt;
use std::alloc::AllocError;

/// What a change of the plan at all nodes comes to.
#[derive(Drop)]
pub enum Changeover {
    /// All ledgers are of the next plan.
    Made,
    /// No ledger has changed: at the first node, its first row with which the next plan doesn't go
    /// on is that of the instance of the second text to the node of the third.
    Unfit(Text, Text, Text),
}

/// A row with which the next plan doesn't go on: at which node, of which instance, and where to.
#[derive(Drop)]
pub struct UnfitRow {
    pub node: Text,
    pub uid: Text,
    pub dest: Text,
}

/// Why a word about all nodes comes to nothing, or only to its beginning, and at which node that
/// is, where it is at one.
#[derive(Drop)]
pub struct Halted<'a> {
    pub halt: Halt<'a>,
    pub node: Option<Text>,
}

impl<'a> From<Halt<'a>> for Halted<'a> {
    ghost use Rattle.std.specs.Prelude.{◌≡◌};

    ghost from_gives = { λ halt stop. stop.halt ≡ halt };

    fn from(halt: Halt<'a>) -> Halted<'a> {
        Halted { halt, node: None }
    }
}

impl<'a> From<AllocError> for Halted<'a> {
    ghost use Rattle.std.specs.Prelude.{◌≡◌};
    ghost use Rattle.dr_run_open.specs.declared.halt.Halt.TheVariants.{Memory};

    ghost from_gives = { λ _ stop. stop.halt ≡ Memory };

    fn from(_: AllocError) -> Halted<'a> {
        Halted {
            halt: Halt::Memory,
            node: None,
        }
    }
}

impl<'a> Halted<'a> {
    /// The halt, at the node of that name; where there is no memory for the name the halt is told
    /// without it.
    pub fn at(name: &Text, halt: Halt<'a>) -> Halted<'a>
        ensures { result.halt ≡ halt.entry }
    {
        let node = name.clone().ok();
        Halted { halt, node }
    }
}
