//! All tables in which the words of a plan of format 3 are looked up.
ghost use Rattle.std.specs.Prelude.{◌≡◌, MatchOption};
ghost use Rattle.dr_base.specs.Texts.{Text as Words};
ghost use Rattle.dr_plan_expand.specs.Meanings.{lookups_of};
ghost use Rattle.dr_plan_expand.specs.Seen.{IsStandard, seen};
ghost use Rattle.dr_plan_expand.specs.Standard.{class_tables};
ghost use Rattle.dr_plan_expand.specs.Words.{Calls};

use crate::classes::{classes_1, classes_2, classes_3, classes_4, classes_5};
use crate::known::{SetTable, Table};
use crate::meant::Tables;
use crate::named::name_of;
use crate::short::ShortPlan;
use crate::syntaxes::syntaxes_1;
use crate::usual::{usual_sets_1, usual_sets_2, usual_sets_3, usual_sets_4, usual_sets_5};

/// The tables of the standard and of the product, all parts of each.
#[derive(Clone, Copy)]
pub struct StandardTables {
    classes: [Table; 5],
    usual: [SetTable; 5],
    syntaxes: [Table; 1],
}

/// All parts of the tables, in order.
pub fn standard_tables() -> StandardTables
    ensures { IsStandard result }
{
    StandardTables {
        classes: [
            classes_1(),
            classes_2(),
            classes_3(),
            classes_4(),
            classes_5(),
        ],
        usual: [
            usual_sets_1(),
            usual_sets_2(),
            usual_sets_3(),
            usual_sets_4(),
            usual_sets_5(),
        ],
        syntaxes: [syntaxes_1()],
    }
}

/// What the standard calls the storage class of this UID.
pub fn class_name(uid: &[u8]) -> Option<&'static str>
    ensures { MatchOption result ((name : Words) → Calls class_tables uid.now name → ⊥)
        (λ name. Calls class_tables uid.now name.now) }
{
    let standard = standard_tables();
    name_of(&standard.classes, uid)
}

/// What the words of the plan are looked up in: the tables, and the sets and groups that the plan
/// itself defines.
pub fn tables_of<'a>(standard: &'a StandardTables, short: &'a ShortPlan) -> Tables<'a>
    requires { IsStandard standard.now }
    ensures { seen result ≡ lookups_of short.now }
{
    Tables {
        classes: &standard.classes,
        usual: &standard.usual,
        syntaxes: &standard.syntaxes,
        sets: short.sets.as_slice(),
        groups: short.groups.as_slice(),
    }
}
