//! The tables of a text of expectations.
ghost use Rattle.std.specs.Prelude.{◌≡◌, ◌↔◌, IfOk, IfErr, IsTrue, List};
ghost use Rattle.toml.specs.View.{table_view};
ghost use Rattle.dr_plan_expect.specs.Tables.{IsExpectTable, IsExpectRoot};
ghost use Rattle.dr_base.specs.Syntaxes.{IsSyntax};
ghost use Rattle.dr_plan_expect.specs.declared.words.Expectation.{Expectation as Expected};
ghost use Rattle.dr_plan_text.specs.declared.fault.ReadFault.TheVariants.{Field};

use crate::words::Expectation;
use dr_base::{Seq, Syntax};
use dr_plan_text::fault::ReadFault;
use dr_plan_text::fields::{AnyText, ClassPattern, Formed, NamePattern, PatternOf, TextForm};
use dr_plan_text::form::{ListOf, SomeOf, TableForm, TableOf, defaulted, has_only, required};
use dr_plan_text::values::AnyValue;
use dr_route::{FieldPattern, Pattern};
use std::alloc::Global;
use toml::Table;

/// The UID of one of the two transfer syntaxes that are routed.
pub struct SyntaxUid;

impl TextForm for SyntaxUid {
    ghost is_formed = { IsSyntax };

    fn test(text: &[u8]) -> bool {
        Syntax::of_uid(text).is_some()
    }
}

/// A row, `[[expect]]`.
pub struct ExpectTable;

impl TableForm for ExpectTable {
    type Output = Expectation;

    ghost is_table = { IsExpectTable };

    fn read_table(alloc: Global, table: &Table) -> Result<Expectation, ReadFault> {
        if !has_only(
            table,
            &[
                "at", "class", "syntax", "modality", "station", "keep", "never",
            ],
        ) {
            return Err(ReadFault::Field);
        }
        Ok(Expectation {
            at: defaulted::<NamePattern>(alloc, table, "at", Pattern::Any)?,
            class: defaulted::<ClassPattern>(alloc, table, "class", Pattern::Any)?,
            syntax: defaulted::<PatternOf<Formed<SyntaxUid>>>(
                alloc,
                table,
                "syntax",
                Pattern::Any,
            )?,
            modality: defaulted::<AnyValue>(alloc, table, "modality", FieldPattern::Any)?,
            station: defaulted::<AnyValue>(alloc, table, "station", FieldPattern::Any)?,
            keep: defaulted::<ListOf<AnyText>>(alloc, table, "keep", Seq::new(alloc))?,
            never: defaulted::<ListOf<AnyText>>(alloc, table, "never", Seq::new(alloc))?,
        })
    }
}

/// The rows of the root table: one or more.
pub fn read_root(alloc: Global, root: &Table) -> Result<Seq<Expectation>, ReadFault>
    ensures ok { IfOk result (IsExpectRoot (table_view root.now)) }
    ensures field { IfErr result (λ e.
        e ≡ Field → (rows : List Expected) → IsExpectRoot (table_view root.now) rows → ⊥) }
{
    if !has_only(root, &["expect"]) {
        return Err(ReadFault::Field);
    }
    let rows = required::<SomeOf<TableOf<ExpectTable>>>(alloc, root, "expect")?;
    Ok(rows)
}
