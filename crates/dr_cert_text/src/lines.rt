//! The row of a line.
ghost use Rattle.std.specs.Prelude.{MatchOption, codes};
ghost use Rattle.dr_plan_sound.specs.Printed.{printed_line};
ghost use Rattle.dr_cert_text.specs.Cuts.{Lacks};
ghost use Rattle.dr_cert_text.specs.Fields.{AreLineFields};
ghost use Rattle.dr_cert_text.specs.Printable.{IsPrintableLine};
ghost use Rattle.dr_cert_text.specs.Reading.{HasNone};

use crate::fault::CertificateFault;
use crate::fields::{field_before_tab, read_field};
use crate::printed::{Printed, add_part};
use dr_base::fields::{add_field, add_number, read_small_number};
use dr_base::{Syntax, Text};
use dr_plan_sound::{Line, Stop};
use dr_route::OwnedCell;
use std::alloc::{AllocError, Global};

/// The fields of a line, before they are copied.
#[derive(Drop)]
pub struct LineFields<'a> {
    pub caller: &'a [u8],
    pub node: &'a [u8],
    pub class: &'a [u8],
    pub syntax: Syntax,
    pub modality: &'a [u8],
    pub station: &'a [u8],
    pub rank: u32,
}

/// The fields of a line; None where no line is printed so.
fn cut_line(row: &[u8]) -> Option<LineFields<'_>>
    requires { Lacks 10 row.now }
    ensures { MatchOption result (HasNone printed_line IsPrintableLine row.now)
        (AreLineFields row.now) }
{
    let (caller, after_caller) = field_before_tab(row)?;
    let (node, after_node) = field_before_tab(after_caller)?;
    let (class, after_class) = field_before_tab(after_node)?;
    let (uid, after_uid) = field_before_tab(after_class)?;
    let (modality, after_modality) = field_before_tab(after_uid)?;
    let (station, digits) = field_before_tab(after_modality)?;
    let syntax = Syntax::of_uid(uid)?;
    let rank = read_small_number(digits)?;
    Some(LineFields {
        caller,
        node,
        class,
        syntax,
        modality,
        station,
        rank,
    })
}

impl Printed for Line {
    ghost word = { codes "line" };

    ghost printed = { printed_line };

    ghost printable = { IsPrintableLine };

    fn row_start() -> &'static [u8] {
        b"line\t"
    }

    fn print(&self, out: &mut Vec<u8>) -> Result<(), AllocError> {
        let stop = &self.stop;
        let cell = &stop.cell;
        out.extend_from_slice(stop.caller.as_bytes())?;
        add_field(out, stop.node.as_bytes())?;
        add_field(out, cell.class.as_bytes())?;
        add_field(out, cell.syntax.uid())?;
        add_part(out, &cell.modality)?;
        add_part(out, &cell.station)?;
        add_number(out, u64::from(self.rank))
    }

    fn read(alloc: Global, fields: &[u8]) -> Result<Line, CertificateFault> {
        let Some(found) = cut_line(fields) else {
            return Err(CertificateFault::Text);
        };
        let class = Text::copy_of(alloc, found.class)?;
        let modality = read_field(alloc, found.modality)?;
        let station = read_field(alloc, found.station)?;
        let cell = OwnedCell {
            class,
            syntax: found.syntax,
            modality,
            station,
        };
        let caller = Text::copy_of(alloc, found.caller)?;
        let node = Text::copy_of(alloc, found.node)?;
        let stop = Stop { caller, node, cell };
        Ok(Line {
            stop,
            rank: found.rank,
        })
    }
}
