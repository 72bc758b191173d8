//! What a request names: a row, or those rows that it wants to see.
ghost use Rattle.std.specs.Prelude.{◌≡◌, ℕ, IfNone, IfOk, IfSome, MatchOption};
ghost use Rattle.std.specs.Prelude.{MatchResult};
ghost use Rattle.std.specs.Prelude.{◌↔◌, Option, IsTrue, Some, codes, decimal};
ghost use Rattle.dr_run_request.specs.Forms.{IsLimit, LimitOf, NamesInstance, NamesRow, StageOf};
ghost use Rattle.dr_run_request.specs.Forms.{Wants, value_in, word_of};
ghost use Rattle.dr_base.specs.Texts.{Text as TextValue};
ghost use Rattle.dr_run_request.specs.declared.wanted.FormFault.TheVariants as fault;
ghost use Rattle.dr_run_request.specs.declared.wanted.RowName.{RowName as RowNameValue};
ghost use Rattle.dr_ledger_views.specs.declared.stage.Stage.{Stage as StageValue};
ghost use Rattle.dr_run_request.specs.declared.wanted.Wanted.{Wanted as WantedValue};

use crate::form::{raw_value, value_in};
use dr_base::Text;
use dr_base::fields::read_small_number;
use dr_ledger_views::Stage;
use percent_encoding::percent_decode;
use std::alloc::{AllocError, Global};

/// So many rows are asked for where no number is named, and at most where one is.
const MOST_ROWS: u32 = 1_000;

/// A row: of which instance, and where to.
#[derive(Debug, Drop)]
pub struct RowName {
    pub uid: Text,
    pub dest: Text,
}

/// Which rows are wanted: those to a node, at a stage if one is named, behind a UID if one is
/// named, and so many of them (1 to 1,000).
#[derive(Debug, Drop)]
pub struct Wanted {
    pub dest: Text,
    pub stage: Option<Stage>,
    pub after: Option<Text>,
    pub limit: u32,
}

/// Why a form says nothing that is understood.
#[derive(Clone, Copy, PartialEq, Eq)]
pub enum FormFault {
    /// A field is lacking, or says what none may.
    Field,
    Memory,
}

impl From<AllocError> for FormFault {
    ghost use Rattle.dr_run_request.specs.declared.wanted.FormFault.TheVariants.{Memory};

    ghost from_gives = { λ _ e. e ≡ Memory };

    fn from(_: AllocError) -> FormFault {
        FormFault::Memory
    }
}

/// The row that a form names.
///
/// Errors: Field where it hasn't both names; Memory.
pub fn row_of(alloc: Global, form: &[u8]) -> Result<RowName, FormFault>
    ensures { MatchResult result
        (NamesRow form.now)
        (λ why. why ≡ fault.Field → (row : RowNameValue) → NamesRow form.now row → ⊥) }
{
    let uid = value_in(alloc, form, "uid")?;
    let dest = value_in(alloc, form, "dest")?;
    match (uid, dest) {
        (Some(uid), Some(dest)) => Ok(RowName { uid, dest }),
        _ => Err(FormFault::Field),
    }
}

/// What the field of that name says.
///
/// Errors: Field where there is none; Memory.
fn named_in(alloc: Global, form: &[u8], name: &str) -> Result<Text, FormFault>
    ensures { MatchResult result
        (λ value. value_in form.now name.now ≡ Some value)
        (λ why. why ≡ fault.Field
        → (value : TextValue) → value_in form.now name.now ≡ Some value → ⊥) }
{
    match value_in(alloc, form, name)? {
        Some(value) => Ok(value),
        None => Err(FormFault::Field),
    }
}

/// The instance that a form names.
///
/// Errors: Field where it names none; Memory.
pub(crate) fn uid_of(alloc: Global, form: &[u8]) -> Result<Text, FormFault>
    ensures { MatchResult result
        (λ uid. value_in form.now (codes "uid") ≡ Some uid)
        (λ why. why ≡ fault.Field
        → (uid : TextValue) → value_in form.now (codes "uid") ≡ Some uid → ⊥) }
{
    named_in(alloc, form, "uid")
}

/// The destination that a form names.
///
/// Errors: Field where it names none; Memory.
pub(crate) fn dest_of(alloc: Global, form: &[u8]) -> Result<Text, FormFault>
    ensures { MatchResult result
        (λ dest. value_in form.now (codes "dest") ≡ Some dest)
        (λ why. why ≡ fault.Field
        → (dest : TextValue) → value_in form.now (codes "dest") ≡ Some dest → ⊥) }
{
    named_in(alloc, form, "dest")
}

/// The path of the copy that a form asks for.
///
/// Errors: Field where it names none; Memory.
pub fn copy_of(alloc: Global, form: &[u8]) -> Result<Text, FormFault>
    ensures { MatchResult result
        (λ path. value_in form.now (codes "copy") ≡ Some path)
        (λ why. why ≡ fault.Field
        → (path : TextValue) → value_in form.now (codes "copy") ≡ Some path → ⊥) }
{
    named_in(alloc, form, "copy")
}

/// Why something is to be done, where a form says so.
///
/// Errors: want of memory.
pub fn reason_of(alloc: Global, form: &[u8]) -> Result<Option<Text>, AllocError>
    ensures { IfOk result (λ reason. reason ≡ value_in form.now (codes "reason")) }
{
    value_in(alloc, form, "reason")
}

/// Whether a form says that it is one of a page.
pub fn is_of_page(form: &[u8]) -> bool {
    raw_value(form, "key").is_some()
}

/// The instance that a path names.
///
/// Errors: Field where it names none; Memory.
pub fn instance_of(alloc: Global, path: &str) -> Result<Text, FormFault>
    ensures { MatchResult result
        (NamesInstance path.now)
        (λ why. why ≡ fault.Field → (uid : TextValue) → NamesInstance path.now uid → ⊥) }
{
    let Some(written) = path.as_bytes().strip_prefix(b"/instance/".as_slice()) else {
        return Err(FormFault::Field);
    };
    let mut uid = Vec::new(alloc);
    percent_decode(written).append_to(&mut uid)?;
    Ok(Text::from_vec(uid))
}

/// The stage of that word.
fn stage_of(word: &[u8]) -> Option<Stage>
    ensures found { IfSome result (λ stage. word.now ≡ word_of stage) }
    ensures none { IfNone result ((stage : StageValue) → word.now ≡ word_of stage → ⊥) }
{
    if word == b"waiting".as_slice() {
        return Some(Stage::Waiting);
    }
    if word == b"held".as_slice() {
        return Some(Stage::Held);
    }
    if word == b"done".as_slice() {
        return Some(Stage::Done);
    }
    if word == b"dropped".as_slice() {
        return Some(Stage::Dropped);
    }
    None
}

/// The stage that a form names, or none where it names none.
///
/// Errors: Field where no stage has that word.
fn stage_in(word: &Option<Text>) -> Result<Option<Stage>, FormFault>
    ensures { MatchResult result
        (StageOf word.now)
        (λ why. (why ≡ fault.Field) × ((stage : Option StageValue) → StageOf word.now stage → ⊥)) }
{
    let Some(word) = word else {
        return Ok(None);
    };
    match stage_of(word.as_bytes()) {
        Some(stage) => Ok(Some(stage)),
        None => Err(FormFault::Field),
    }
}

/// Whether so many rows may be on a page.
fn is_limit(number: u32) -> bool
    ensures { IsTrue result ↔ IsLimit number }
{
    1 <= number && number <= MOST_ROWS
}

/// How many rows a word asks for.
///
/// Errors: Field where it is no number from 1 to 1,000 as it is written in digits.
fn limit_of(word: &[u8]) -> Result<u32, FormFault>
    ensures { MatchResult result
        (λ limit. (word.now ≡ decimal limit) × IsLimit limit)
        (λ why. (why ≡ fault.Field)
        × ((n : ℕ) → IsLimit n → word.now ≡ decimal n → ⊥)) }
{
    let Some(number) = read_small_number(word) else {
        return Err(FormFault::Field);
    };
    if is_limit(number) {
        return Ok(number);
    }
    Err(FormFault::Field)
}

/// How many rows a form asks for: a whole page where it names no number.
///
/// Errors: Field where it names what is no number from 1 to 1,000.
pub(crate) fn limit_in(word: &Option<Text>) -> Result<u32, FormFault>
    ensures { MatchResult result
        (LimitOf word.now)
        (λ why. (why ≡ fault.Field) × ((n : ℕ) → LimitOf word.now n → ⊥)) }
{
    match word {
        Some(word) => limit_of(word.as_bytes()),
        None => Ok(MOST_ROWS),
    }
}

/// The rows that a form asks for.
///
/// Errors: Field where it names no destination, a stage that there isn't, or a number of rows that
/// isn't one from 1 to 1,000; Memory.
pub fn wanted_of(alloc: Global, form: &[u8]) -> Result<Wanted, FormFault>
    ensures { MatchResult result
        (Wants form.now)
        (λ why. why ≡ fault.Field → (wanted : WantedValue) → Wants form.now wanted → ⊥) }
{
    let dest = value_in(alloc, form, "dest")?;
    let word = value_in(alloc, form, "state")?;
    let after = value_in(alloc, form, "after")?;
    let number = value_in(alloc, form, "limit")?;
    let stage = stage_in(&word)?;
    let limit = limit_in(&number)?;
    match dest {
        Some(dest) => Ok(Wanted {
            dest,
            stage,
            after,
            limit,
        }),
        None => Err(FormFault::Field),
    }
}
