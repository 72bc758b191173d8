//! Part 10 files (PS3.10 section 7.1): where the data set starts, and its syntax.
ghost use Rattle.std.specs.Prelude.{◌≡◌, ◌≢◌, ℕ, List, [], MatchOption, IfOk, IfErr, IfSome};
ghost use Rattle.std.specs.Prelude.{unwrap_or, codes, length, ◌≤◌};
ghost use Rattle.std.specs.Bool.{MatchBool};
ghost use Rattle.std.specs.Option.{option_copied};
ghost use Rattle.dr_dataset.specs.declared.header.Tag.{Tag as TagName};
ghost use Rattle.dr_dataset.specs.Elements.{StartsTag};
ghost use Rattle.dr_base.specs.Padding.{unpadded};
ghost use Rattle.dr_dataset.specs.Reading.{tag_of};
ghost use Rattle.dr_dataset.specs.Files.{IsFile, IsMeta, EndsMeta, ReadsFile};

use crate::fault::FileFault;
use crate::found::{bytes_of, first_of};
use crate::header::tag_at;
use crate::scanner::Scanner;
use crate::values::Part10;
use dr_base::Syntax;
use dr_base::padding::unpadded;

const META_GROUP: u16 = 0x0002;

const TRANSFER_SYNTAX_UID: u16 = 0x0010;

fn is_dicom(mark: &[u8]) -> bool
    ensures { MatchBool result (mark.now ≡ codes "DICM") (mark.now ≢ codes "DICM") }
{
    mark == b"DICM".as_slice()
}

/// What follows the preamble of 128 bytes and `DICM`.
fn behind_prefix(text: &[u8]) -> Option<&[u8]>
    ensures { MatchOption result ((rest : List ℕ) → IsFile text.now rest → ⊥)
        (λ rest. IsFile text.now rest.now) }
{
    let Some((_, marked)) = text.split_at_checked(128) else {
        return None;
    };
    let Some((mark, rest)) = marked.split_at_checked(4) else {
        return None;
    };
    if !is_dicom(mark) {
        return None;
    }
    Some(rest)
}

/// Whether an element of the file meta information comes next.
fn is_meta_next(text: &[u8]) -> bool
    ensures { MatchBool result
        ((t : TagName) × (rest : List ℕ) × StartsTag text.now t rest × (t.group ≡ META_GROUP))
        ((t : TagName) (rest : List ℕ) → StartsTag text.now t rest → t.group ≢ META_GROUP) }
{
    let Some((tag, _)) = tag_at(text) else {
        return false;
    };
    tag.group == META_GROUP
}

/// Whether the text ends inside a tag.
fn is_cut_tag(text: &[u8]) -> bool
    ensures { MatchBool result ((text.now ≢ []) × (tag_of text.now ≡ None))
        (text.now ≢ [] → tag_of text.now ≢ None) }
{
    if text.is_empty() {
        return false;
    }
    tag_at(text).is_none()
}

/// The transfer syntax UID, with its padding, and the data set behind the file meta information.
fn meta_at(text: &[u8]) -> Option<(&[u8], &[u8])>
    ensures meta { MatchOption result ((name behind : List ℕ) → IsMeta text.now name behind → ⊥)
        (λ r. IsMeta text.now (unpadded r.0.now) r.1.now) }
    ensures within { IfSome result (λ r. length r.1.now ≤ length text.now) }
{
    let mut scanner = Scanner::new(Syntax::Explicit);
    let mut name = None;
    let mut rest = text;
    'elements: while is_meta_next(rest) {
        let Ok((element, after)) = scanner.element(rest) else {
            return None;
        };
        let is_name = element.tag.is(META_GROUP, TRANSFER_SYNTAX_UID);
        name = first_of(name, is_name, bytes_of(element.value));
        rest = after;
    }
    if is_cut_tag(rest) {
        return None;
    }
    let Some(name) = name else {
        return None;
    };
    Some((name, rest))
}

/// The syntax of a Part 10 file's data set, and where it starts. It takes no memory.
pub fn part10(text: &[u8]) -> Result<Part10, FileFault>
    ensures { ReadsFile text.now result }
{
    let Some(rest) = behind_prefix(text) else {
        return Err(FileFault::NotDicom);
    };
    let Some((name, behind)) = meta_at(rest) else {
        return Err(FileFault::Meta);
    };
    let Some(syntax) = Syntax::of_uid(unpadded(name)) else {
        return Err(FileFault::OtherSyntax);
    };
    let start = text.len() - behind.len();
    Ok(Part10 { syntax, start })
}
