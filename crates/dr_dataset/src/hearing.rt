//! A data set that is read while it is heard, in constant memory.
ghost use Rattle.std.specs.Prelude.{true, ◌≡◌, ◌≢◌, ◌<◌, ◌≤◌, ◌+◌, ◌∷◌, ◌++◌, ℕ, [], List, length};
ghost use Rattle.std.specs.Prelude.{IfOk, MatchResult};
ghost use Rattle.std.specs.Bool.{MatchBool};
ghost use Rattle.dr_base.specs.declared.syntax.Syntax.{Syntax as SyntaxName};
ghost use Rattle.dr_dataset.specs.declared.fault.DataFault.{DataFault as FaultName};
ghost use Rattle.dr_dataset.specs.declared.header.Tag.{Tag as TagName};
ghost use Rattle.std.specs.Prelude.{Option as OptionName};
ghost use Rattle.dr_dataset.specs.DataSet.{Scans, FirstFault};
ghost use Rattle.dr_dataset.specs.Hearing.{Hears, HasFailed, Finishes, IsInOrderSoFar, HearsMore};
ghost use Rattle.dr_dataset.specs.Hearing.{Begun, is_kept, text_of_slot, AreSlots};

use crate::caught::{Caught, Kept};
use crate::fault::DataFault;
use crate::header::Tag;
use crate::scanner::{Scanner, is_key};
use crate::token::Token;
use crate::values::Attributes;
use arrayvec::ArrayVec;
use dr_base::padding::trimmed;
use dr_base::{Syntax, Text};
use std::alloc::{AllocError, Global};

/// Where a scan is.
#[derive(Clone, Copy)]
pub enum ScanPlace {
    /// Between tokens or inside a header.
    InHeader,
    /// Behind the header of an element with that tag, or of an item; so many bytes of its value are
    /// missing.
    InValue(Option<Tag>, u32),
    /// A fault has shown.
    Failed(DataFault),
}

/// A scan of a data set that comes in pieces. It keeps the bytes of one header, what is open, and
/// the four values.
#[derive(Drop)]
pub struct Scan {
    scanner: Scanner,
    place: ScanPlace,
    header: ArrayVec<u8, 12>,
    value: Kept,
    found: Caught,
}

impl Scan {
    /// A scan that has heard nothing.
    pub fn new(syntax: Syntax) -> Scan
        ensures { Hears syntax [] result }
    {
        Scan {
            scanner: Scanner::new(syntax),
            place: ScanPlace::InHeader,
            header: ArrayVec::new(),
            value: ArrayVec::new(),
            found: Caught::nothing(),
        }
    }

    /// Hears the next piece. The first fault is answered as soon as it shows, and by each later
    /// call too; it takes no memory.
    pub fn feed(&mut self, piece: &[u8]) -> Result<(), DataFault>
        ensures hears { HearsMore self.old piece.now self.new }
        ensures first { (s : SyntaxName) (text : List ℕ)
            → Hears s text self.old
            → MatchResult result
            (λ _. IsInOrderSoFar s (text ++ piece.now)) (FirstFault s (text ++ piece.now)) }
        ensures answer { MatchResult result (λ _. (f : FaultName) → ¬ HasFailed self.new f)
            (HasFailed self.new) }
        ensures again { (f : FaultName) → HasFailed self.old f → result ≡ Err f }
    {
        let mut rest = piece;
        'pieces: while !rest.is_empty() {
            rest = self.take(rest);
        }
        match self.place {
            ScanPlace::Failed(fault) => Err(fault),
            _ => Ok(()),
        }
    }

    /// The four attributes of what was heard, or its first fault. A fault but `Memory` stays: every
    /// later call answers it again. After `Memory`, and after the attributes, the scan is as
    /// before.
    pub fn finish(&mut self, alloc: Global) -> Result<Attributes, DataFault>
        ensures scans { (s : SyntaxName) (text : List ℕ)
            → Hears s text self.old → Scans s text result }
        ensures behind { Finishes self.old result self.new }
        ensures again { (f : FaultName) → HasFailed self.old f → result ≡ Err f }
    {
        self.settle();
        if let ScanPlace::Failed(fault) = self.place {
            return Err(fault);
        }
        if !self.is_at_end() {
            self.place = ScanPlace::Failed(DataFault::Truncated);
            return Err(DataFault::Truncated);
        }
        let Ok(values) = values_of(alloc, &self.found) else {
            return Err(DataFault::Memory);
        };
        Ok(values)
    }

    /// Takes some bytes of the piece, and gives the others back.
    fn take<'a>(&mut self, piece: &'a [u8]) -> &'a [u8]
        requires { piece.now ≢ [] }
        ensures { (taken : List ℕ) × (piece.now ≡ taken ++ result.now) × (taken ≢ [])
            × HearsMore self.old taken self.new
            × ((f : FaultName) → HasFailed self.old f → HasFailed self.new f) }
    {
        self.settle();
        match self.place {
            ScanPlace::Failed(_) => &[],
            ScanPlace::InValue(tag, missing) => self.take_value(piece, tag, missing),
            ScanPlace::InHeader => self.take_header(piece),
        }
    }

    /// Behind the last byte of a value its element is whole.
    fn settle(&mut self)
        ensures hears { (s : SyntaxName) (text : List ℕ)
            → Hears s text self.old → Hears s text self.new }
        ensures settled { (t : OptionName TagName) → self.new.place ≢ ScanPlace.InValue t 0 }
        ensures failed { (f : FaultName) → HasFailed self.old f → HasFailed self.new f }
    {
        let ScanPlace::InValue(tag, missing) = self.place else {
            return;
        };
        if missing > 0 {
            return;
        }
        let Some(tag) = tag else {
            self.place = ScanPlace::InHeader;
            return;
        };
        let whole = self.scanner.at_top(tag, Some(self.value.as_slice()));
        self.found.note(whole);
        self.place = ScanPlace::InHeader;
    }

    /// Takes bytes of the value.
    fn take_value<'a>(&mut self, piece: &'a [u8], tag: Option<Tag>, missing: u32) -> &'a [u8]
        requires some { piece.now ≢ [] }
        requires awaited { 0 < missing }
        ensures { (taken : List ℕ) × (piece.now ≡ taken ++ result.now) × (taken ≢ [])
            × (self.old.place ≡ ScanPlace.InValue tag missing → HearsMore self.old taken self.new) }
    {
        let count = piece.len().min(missing as usize);
        let (bytes, rest) = piece.split_at(count);
        let is_kept = self.keeps(tag);
        keep_more(&mut self.value, is_kept, bytes);
        self.place = ScanPlace::InValue(tag, missing - count as u32);
        rest
    }

    /// Whether the bytes of the value are kept.
    fn keeps(&self, tag: Option<Tag>) -> bool
        ensures { result ≡ is_kept self.now.scanner.stack tag }
    {
        match tag {
            None => false,
            Some(tag) => self.scanner.is_at_top() && is_key(tag),
        }
    }

    /// Takes the header, or a byte of it.
    fn take_header<'a>(&mut self, piece: &'a [u8]) -> &'a [u8]
        requires { piece.now ≢ [] }
        ensures { (taken : List ℕ) × (piece.now ≡ taken ++ result.now) × (taken ≢ [])
            × (self.old.place ≡ ScanPlace.InHeader → HearsMore self.old taken self.new) }
    {
        if self.header.is_empty() {
            return self.take_first(piece);
        }
        self.take_one(piece)
    }

    /// Takes the header at once if all of it is there, or else a byte of it.
    fn take_first<'a>(&mut self, piece: &'a [u8]) -> &'a [u8]
        requires some { piece.now ≢ [] }
        requires fresh { self.old.header.items ≡ [] }
        ensures { (taken : List ℕ) × (piece.now ≡ taken ++ result.now) × (taken ≢ [])
            × (self.old.place ≡ ScanPlace.InHeader → HearsMore self.old taken self.new) }
    {
        let Ok((token, rest)) = self.scanner.step(piece) else {
            return self.take_one(piece);
        };
        self.begin(token);
        rest
    }

    /// Takes a byte of the header.
    fn take_one<'a>(&mut self, piece: &'a [u8]) -> &'a [u8]
        requires { piece.now ≢ [] }
        ensures { (taken : List ℕ) × (piece.now ≡ taken ++ result.now) × (taken ≢ [])
            × (self.old.place ≡ ScanPlace.InHeader → HearsMore self.old taken self.new) }
    {
        let [byte, rest @ ..] = piece else {
            return piece;
        };
        self.take_byte(*byte);
        rest
    }

    fn take_byte(&mut self, byte: u8)
        ensures { self.old.place ≡ ScanPlace.InHeader → HearsMore self.old (byte ∷ []) self.new }
    {
        if self.header.is_full() {
            return;
        }
        self.header.push(byte);
        let token = match self.scanner.step(self.header.as_slice()) {
            Ok((token, _)) => token,
            Err(fault) => {
                if let DataFault::Truncated = fault {
                    return;
                }
                self.place = ScanPlace::Failed(fault);
                return;
            }
        };
        self.header.clear();
        self.begin(token);
    }

    /// Behind a header: its value comes, or it has none.
    fn begin(&mut self, token: Token)
        ensures { (s : SyntaxName) (text : List ℕ)
            → Begun s text token self.old
            → Hears s text self.new }
    {
        match token {
            Token::Value(tag, len) => self.await_value(Some(tag), len),
            Token::PlainItem(len) => self.await_value(None, len),
            Token::SequenceEnd(tag) => {
                let whole = self.scanner.at_top(tag, None);
                self.found.note(whole);
            }
            Token::Sequence(_, _) | Token::Item | Token::ItemEnd => {}
        }
    }

    fn await_value(&mut self, tag: Option<Tag>, len: u32)
        ensures { self.new
            ≡ record self.old { place = ScanPlace.InValue tag len; value = record { items = [] } } }
    {
        self.value.clear();
        self.place = ScanPlace::InValue(tag, len);
    }

    /// Whether the data set may end here.
    fn is_at_end(&self) -> bool
        ensures { MatchBool result
            ((self.now.place ≡ ScanPlace.InHeader)
            × (self.now.header.items ≡ [])
            × (self.now.scanner.stack ≡ []))
            (self.now.place ≡ ScanPlace.InHeader
            → self.now.header.items ≡ []
            → self.now.scanner.stack ≢ []) }
    {
        let ScanPlace::InHeader = self.place else {
            return false;
        };
        self.scanner.is_at_end(self.header.as_slice())
    }
}

fn keep_more(value: &mut Kept, is_kept: bool, bytes: &[u8])
    ensures { is_kept ≡ true → length value.old.items + length bytes.now ≤ 1024
        → value.new.items ≡ value.old.items ++ bytes.now }
{
    if is_kept {
        let _ = value.try_extend_from_slice(bytes);
    }
}

fn text_of(alloc: Global, slot: &Option<Kept>) -> Result<Text, AllocError>
    ensures { IfOk result (λ t. t ≡ text_of_slot slot.now) }
{
    match slot {
        None => Ok(Text::empty(alloc)),
        Some(bytes) => Text::copy_of(alloc, trimmed(bytes.as_slice())),
    }
}

fn values_of(alloc: Global, found: &Caught) -> Result<Attributes, AllocError>
    ensures { IfOk result (λ a. AreSlots found.now a) }
{
    Ok(Attributes {
        class: text_of(alloc, &found.class)?,
        instance: text_of(alloc, &found.instance)?,
        modality: text_of(alloc, &found.modality)?,
        station: text_of(alloc, &found.station)?,
    })
}
