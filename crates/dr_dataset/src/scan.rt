//! One pass over a data set.
ghost use Rattle.std.specs.Prelude.{◌≡◌, ◌≢◌, [], List, IfOk, IfErr, unwrap_or};
ghost use Rattle.std.specs.Option.{option_copied};
ghost use Rattle.dr_dataset.specs.Elements.{Element};
ghost use Rattle.dr_base.specs.Padding.{trimmed};
ghost use Rattle.dr_dataset.specs.DataSet.{IsDataSet, FirstFault, Scans};
ghost use Rattle.dr_dataset.specs.Wholes.{AreFound, AreValues};

use crate::fault::DataFault;
use crate::found::{ElementsFound, bytes_of};
use crate::scanner::Scanner;
use crate::values::Attributes;
use dr_base::padding::trimmed;
use dr_base::{Syntax, Text};
use std::alloc::{AllocError, Global};

fn found_in(text: &[u8], syntax: Syntax) -> Result<ElementsFound<'_>, DataFault>
    ensures ok { IfOk result (λ f.
        (es : List Element) × IsDataSet syntax text.now es × AreFound f es) }
    ensures err { IfErr result (λ fault.
        (fault ≢ DataFault.Memory) × FirstFault syntax text.now fault) }
{
    let mut scanner = Scanner::new(syntax);
    let mut found = ElementsFound::nothing();
    let mut rest = text;
    'tokens: while !scanner.is_at_end(rest) {
        let (element, after) = scanner.advance(rest)?;
        found = found.with(element);
        rest = after;
    }
    Ok(found)
}

fn text_of(alloc: Global, value: Option<&[u8]>) -> Result<Text, AllocError>
    ensures { IfOk result (λ t. t ≡ trimmed (unwrap_or (option_copied value.entry) [])) }
{
    Text::copy_of(alloc, trimmed(bytes_of(value)))
}

fn values_of(alloc: Global, found: ElementsFound<'_>) -> Result<Attributes, AllocError>
    ensures { IfOk result (λ a. AreValues found.entry a) }
{
    Ok(Attributes {
        class: text_of(alloc, found.class)?,
        instance: text_of(alloc, found.instance)?,
        modality: text_of(alloc, found.modality)?,
        station: text_of(alloc, found.station)?,
    })
}

/// The four attributes of a data set, or its first fault (PS3.5 section 7). A value of defined
/// length is skipped, and at most 32 sequences may be open. It takes memory for the four values
/// alone, at the end.
pub fn attributes(alloc: Global, text: &[u8], syntax: Syntax) -> Result<Attributes, DataFault>
    ensures { Scans syntax text.now result }
{
    let found = found_in(text, syntax)?;
    let Ok(values) = values_of(alloc, found) else {
        return Err(DataFault::Memory);
    };
    Ok(values)
}
