//! What is done at each entry.
ghost use Rattle.std.specs.Prelude.{◌≡◌, IfOk};
ghost use Rattle.dr_base.specs.Texts.{Text as Words};
ghost use Rattle.dr_route.specs.Laws.{key_of};
ghost use Rattle.dr_route.specs.declared.cell.OwnedCell.{OwnedCell as CellValue};
ghost use Rattle.dr_plan_model.specs.Networks.{Network};
ghost use Rattle.dr_plan_model.specs.Laws.{IsCellOf};
ghost use Rattle.dr_plan_model.specs.Walks.{IsEntry};
ghost use Rattle.dr_plan_entries.specs.Visiting.{AfterVisit};

use dr_base::Text;
use dr_route::OwnedCell;
use std::alloc::AllocError;

/// Visits entries one after another, until it has seen enough.
pub trait EntryVisitor {
    /// What ends the visits.
    type Finding: Drop;

    /// The plan whose entries are visited.
    ghost plan: { Self → Network };

    /// It can go on.
    ghost is_ready: { Self → Type 0 };

    /// It has done its work at the site, for the keys of the cell.
    ghost has_visited: { Self → Words → CellValue → Type 0 };

    /// What it finds is true of its plan, at the site and for the keys of the cell.
    ghost shows: { Self → Self.Finding → Words → CellValue → Type 0 };

    /// Visits one entry, and goes on unless it finds something.
    fn visit(&mut self, site: &Text, cell: &OwnedCell) -> Result<Option<Self::Finding>, AllocError>
        requires ready { is_ready self.old }
        requires cell { IsCellOf (plan self.old) cell.now }
        requires entry { IsEntry (plan self.old) site.now (key_of cell.now) }
        ensures { IfOk result
            (AfterVisit plan is_ready has_visited shows site.now cell.now self.old self.new) };
}
