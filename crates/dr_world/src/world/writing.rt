//! What another maker's product writes at an end of a link.
ghost use Rattle.std.specs.Prelude.{◌≡◌, [], IfErr, IfOk, None, Some, Err};
ghost use Rattle.dr_world.specs.Ends.{named};
ghost use Rattle.dr_world.specs.Others.{WritesAt};
ghost use Rattle.dr_world.specs.Played.{PlaysOn};
ghost use Rattle.dr_world.specs.declared.deed.Deed.TheVariants as deeds;
ghost use Rattle.dr_world.specs.declared.fault.WorldFault.{WorldFault as FaultValue};
ghost use Rattle.dr_world.specs.declared.fault.WorldFault.TheVariants.{Memory as MemoryFault};

use crate::fault::WorldFault;
use crate::steps::StepNote;
use crate::world::World;
use dr_base::Octets;
use dr_ledger::Ledger;
use dr_world_script::Side;

impl<L: Ledger> World<L> {
    /// Another product writes at that end of a link: what is on its way from there is these bytes
    /// now, and nothing else. The end that a node of the plan has there does nothing, and goes on
    /// as if it had written it. Skipped where there is no link of that number. After a fault, also
    /// of a step, each further call answers that fault.
    ///
    /// Errors: Memory.
    pub fn write(&mut self, link: u64, side: Side, bytes: &Octets) -> Result<StepNote, WorldFault>
        ensures writes { IfOk result (λ note.
            WritesAt link (named side) bytes.now self.old note self.new) }
        ensures plays { IfOk result (λ note.
            PlaysOn (deeds.Bytes link side bytes.now) [] self.old self.new) }
        ensures lost { (fault : FaultValue) → self.old.lost ≡ Some fault
            → (result ≡ Err fault) × (self.new ≡ self.old) }
        ensures after { (fault : FaultValue) → result ≡ Err fault → self.new.lost ≡ Some fault }
        ensures memory { self.old.lost ≡ None → IfErr result (λ fault. fault ≡ MemoryFault) }
        ensures whole { IfOk result (λ note. self.new.lost ≡ None) }
    {
        if let Some(fault) = self.lost {
            return Err(fault);
        }
        let Ok(note) = self.set_wire(link, side, bytes) else {
            self.lost = Some(WorldFault::Memory);
            return Err(WorldFault::Memory);
        };
        self.lost = None;
        Ok(note)
    }

    /// The same, where no fault ended an earlier call.
    fn set_wire(&mut self, link: u64, side: Side, bytes: &Octets) -> Result<StepNote, WorldFault>
        ensures { IfOk result (λ note.
            WritesAt link (named side) bytes.now self.old note self.new) }
    {
        let Some(wires) = self.wires.get_mut(&link) else {
            return Ok(StepNote::Skipped);
        };
        wires.rewrite(side, bytes)?;
        Ok(StepNote::Done)
    }
}
