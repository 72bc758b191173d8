//! Which desk is shared: what its passes are tied to.
ghost use Rattle.std.specs.Prelude.{ℕ, List, []};
ghost use Rattle.dr_ledger.specs.Books.{Line};
ghost use Rattle.dr_desk.specs.Sharings.{nobody};
ghost use Rattle.dr_site.specs.Parts.{Part};

use std::marker::Brand;
use std::sync::ledger;

/// One sharing of a desk. The type of a shared desk and of its passes names it, so that no pass of
/// another desk can be handed in. A sharing is cut into parts, of which each pass has one
/// (`std::sync::ledger`). It is called at `Brand`, and each call picks what these are.
pub trait Sharing: ledger::Ledger {
    // Its parts: one for each pass, and one that stays.
    ghost all: { ℕ };

    // The lines that the desk had when it was shared.
    ghost first: { List Line };

    // The site of the desk's ledger.
    ghost site: { Part };
}

impl Sharing for Brand {
    ghost all = { 65536 };

    ghost first = { [] };

    ghost site = { nobody };
}
