//! The row of a hop.
ghost use Rattle.std.specs.Prelude.{MatchOption, codes};
ghost use Rattle.dr_plan_sound.specs.Printed.{printed_hop};
ghost use Rattle.dr_cert_text.specs.Cuts.{Lacks};
ghost use Rattle.dr_cert_text.specs.Fields.{AreHopFields};
ghost use Rattle.dr_cert_text.specs.Printable.{IsPrintableHop};
ghost use Rattle.dr_cert_text.specs.Reading.{HasNone};

use crate::fault::CertificateFault;
use crate::fields::field_before_tab;
use crate::printed::Printed;
use dr_base::fields::{add_field, add_number, read_small_number};
use dr_base::{Syntax, Text};
use dr_plan_sound::Hop;
use std::alloc::{AllocError, Global};

const MAX_ID: u32 = 255;

/// The fields of a hop, before they are copied.
#[derive(Drop)]
pub struct HopFields<'a> {
    pub from: &'a [u8],
    pub to: &'a [u8],
    pub id: u8,
    pub class: &'a [u8],
    pub syntax: Syntax,
}

/// The fields of a hop; None where no hop is printed so.
fn cut_hop(row: &[u8]) -> Option<HopFields<'_>>
    requires { Lacks 10 row.now }
    ensures { MatchOption result (HasNone printed_hop IsPrintableHop row.now)
        (AreHopFields row.now) }
{
    let (from, after_from) = field_before_tab(row)?;
    let (to, after_to) = field_before_tab(after_from)?;
    let (digits, after_id) = field_before_tab(after_to)?;
    let (class, uid) = field_before_tab(after_id)?;
    let number = read_small_number(digits)?;
    if number > MAX_ID {
        return None;
    }
    let syntax = Syntax::of_uid(uid)?;
    Some(HopFields {
        from,
        to,
        id: number as u8,
        class,
        syntax,
    })
}

impl Printed for Hop {
    ghost word = { codes "hop" };

    ghost printed = { printed_hop };

    ghost printable = { IsPrintableHop };

    fn row_start() -> &'static [u8] {
        b"hop\t"
    }

    fn print(&self, out: &mut Vec<u8>) -> Result<(), AllocError> {
        out.extend_from_slice(self.from.as_bytes())?;
        add_field(out, self.to.as_bytes())?;
        add_number(out, u64::from(self.id))?;
        add_field(out, self.class.as_bytes())?;
        add_field(out, self.syntax.uid())
    }

    fn read(alloc: Global, fields: &[u8]) -> Result<Hop, CertificateFault> {
        let Some(found) = cut_hop(fields) else {
            return Err(CertificateFault::Text);
        };
        let from = Text::copy_of(alloc, found.from)?;
        let to = Text::copy_of(alloc, found.to)?;
        let class = Text::copy_of(alloc, found.class)?;
        Ok(Hop {
            from,
            to,
            id: found.id,
            class,
            syntax: found.syntax,
        })
    }
}
