//! The text to which a text of format 3 expands.
ghost use Rattle.std.specs.Prelude.{◌≡◌, ◌↔◌, IsTrue, IfOk, IfErr};
ghost use Rattle.toml.specs.View.{table_view};
ghost use Rattle.dr_plan_expand.specs.Expanding.{StandsFor, IsOwn, ExpandsTo, Fails};
ghost use Rattle.dr_plan_expand.specs.Tables.{IsShortPlan};
ghost use Rattle.dr_plan_expand.specs.Meanings.{Means};
ghost use Rattle.dr_plan_expand.specs.Amounts.{IsWithin};
ghost use Rattle.dr_plan_text.specs.declared.words.PlanText.{PlanText as Written};
ghost use Rattle.dr_plan_expand.specs.declared.short.ShortPlan.{ShortPlan as Short};
ghost use Rattle.dr_plan_expand.specs.declared.fault.ExpandFault.TheVariants.{Field, Limit};
ghost use Rattle.dr_plan_expand.specs.declared.fault.ExpandFault.TheVariants.{Unknown};

use crate::amount::is_within;
use crate::fault::ExpandFault;
use crate::meant::meant;
use crate::spell::spell;
use crate::tables::ShortPlanTable;
use dr_base::Text;
use dr_base::same::Same;
use dr_plan_text::form::TableForm;
use std::alloc::{AllocError, Global};
use toml::Table;

/// The text for which the root table of a text of format 3 stands.
fn stand_in(alloc: Global, root: &Table) -> Result<Text, ExpandFault>
    ensures ok { IfOk result (StandsFor (table_view root.now)) }
    ensures field { IfErr result (λ e.
        e ≡ Field → (short : Short) → IsShortPlan (table_view root.now) short → ⊥) }
    ensures limit { IfErr result (λ e. e ≡ Limit → (short : Short)
        × IsShortPlan (table_view root.now) short
        × (IsWithin short → ⊥)) }
    ensures unknown { IfErr result (λ e. e ≡ Unknown → (short : Short)
        × IsShortPlan (table_view root.now) short
        × IsWithin short
        × ((plan : Written) → Means short plan → ⊥)) }
{
    let short = ShortPlanTable::read_table(alloc, root)?;
    if !is_within(&short) {
        return Err(ExpandFault::Limit);
    }
    let plan = meant(alloc, &short)?;
    let text = spell(alloc, &plan)?;
    Ok(text)
}

/// Whether the text is its own expansion.
fn is_own(alloc: Global, core: &Text) -> Result<bool, AllocError>
    ensures { IfOk result (λ b. IsTrue b ↔ IsOwn core.now) }
{
    let root = match toml::table_from_slice(alloc, core.as_bytes()) {
        Ok(root) => root,
        Err(fault) if fault.is_memory() => return Err(AllocError),
        Err(_) => return Ok(false),
    };
    match stand_in(alloc, &root) {
        Ok(again) => Ok(again.is_same(core)),
        Err(fault) => match fault {
            ExpandFault::Field => Ok(false),
            ExpandFault::Limit => Ok(false),
            ExpandFault::Unknown => Ok(false),
            ExpandFault::Memory => Err(AllocError),
        },
    }
}

/// The text to which the root table of a text of format 3 expands, which is its own expansion.
///
/// Errors: Field where the tables say no plan of format 3, or one that no text spells (as with a
/// control character); Limit where it stands for more than a plan may, which is counted before
/// anything is made of it; Unknown where a set, a group or a class is one that nobody defines;
/// Memory.
pub fn expand(alloc: Global, root: &Table) -> Result<Text, ExpandFault>
    ensures ok { IfOk result (ExpandsTo (table_view root.now)) }
    ensures fails { IfErr result (Fails (table_view root.now)) }
{
    let core = stand_in(alloc, root)?;
    if !is_own(alloc, &core)? {
        return Err(ExpandFault::Field);
    }
    Ok(core)
}
