//! The scanner: it takes a data set token by token, and knows what is open.
ghost use Rattle.std.specs.Prelude.{◌≡◌, ◌≢◌, ◌==◌, ◌<◌, ◌≤◌, ◌++◌, ℕ, List, [], length, IsTrue};
ghost use Rattle.std.specs.Prelude.{MatchOption, IfOk, IfErr};
ghost use Rattle.std.specs.Bool.{MatchBool};
ghost use Rattle.std.specs.Option.{option_copied};
ghost use Rattle.dr_dataset.specs.Elements.{Element};
ghost use Rattle.dr_dataset.specs.DataSet.{is_key, in_force, Opens, ShowsFault, StartsTop};
ghost use Rattle.dr_dataset.specs.Wholes.{whole, elements_of, element_of, FailsAtOnce};
ghost use Rattle.dr_dataset.specs.Reading.{Gives, long_of};
ghost use Rattle.dr_dataset.specs.Tokens.{is_nested, is_full, element_token, item_token, end_token};
ghost use Rattle.dr_dataset.specs.Tokens.{open_item_token, token_of, open_behind};

use crate::fault::DataFault;
use crate::frame::OpenSequence;
use crate::header::{Tag, UNDEFINED, form_at, long_at, syntax_inside, tag_at};
use crate::stack::Stack;
use crate::token::Token;
use crate::whole::Whole;
use dr_base::Syntax;

const ITEM_GROUP: u16 = 0xFFFE;

const ITEM: Tag = Tag {
    group: ITEM_GROUP,
    element: 0xE000,
};

const ITEM_END: Tag = Tag {
    group: ITEM_GROUP,
    element: 0xE00D,
};

const SEQUENCE_END: Tag = Tag {
    group: ITEM_GROUP,
    element: 0xE0DD,
};

/// The longest value of one of the four attributes, in bytes.
const LONGEST_KEY: u32 = 1024;

/// The tag of one of the four attributes.
pub fn is_key(tag: Tag) -> bool
    ensures { result ≡ is_key tag }
{
    tag.group == 8 && matches!(tag.element, 0x16 | 0x18 | 0x60 | 0x1010)
}

/// The header of an element, behind its tag.
fn element_at<'a>(
    text: &'a [u8],
    tag: Tag,
    syntax: Syntax,
    at_top: bool,
    is_full: bool,
) -> Result<(Token, &'a [u8]), DataFault>
    ensures { Gives result (element_token syntax at_top is_full tag text.now) }
{
    if tag.group == ITEM_GROUP {
        return Err(DataFault::BadLength);
    }
    let (form, rest) = form_at(text, syntax)?;
    if form.len == UNDEFINED {
        let Some(inside) = syntax_inside(syntax, form.vr) else {
            return Err(DataFault::BadLength);
        };
        if is_full {
            return Err(DataFault::TooDeep);
        }
        return Ok((Token::Sequence(tag, inside), rest));
    }
    if at_top && is_key(tag) && form.len > LONGEST_KEY {
        return Err(DataFault::BadLength);
    }
    Ok((Token::Value(tag, form.len), rest))
}

/// The end of an item or a sequence, behind its tag; its length isn't tested.
fn end_at(text: &[u8], end: Token) -> Result<(Token, &[u8]), DataFault>
    ensures { Gives result (end_token end (long_of text.now)) }
{
    let Some((_, rest)) = long_at(text) else {
        return Err(DataFault::Truncated);
    };
    Ok((end, rest))
}

/// An item, or the end of the sequence with that tag.
fn item_at<'a>(text: &'a [u8], tag: Tag, sequence: Tag) -> Result<(Token, &'a [u8]), DataFault>
    ensures { Gives result (item_token sequence tag text.now) }
{
    if tag == SEQUENCE_END {
        return end_at(text, Token::SequenceEnd(sequence));
    }
    if tag != ITEM {
        return Err(DataFault::BadLength);
    }
    let Some((len, rest)) = long_at(text) else {
        return Err(DataFault::Truncated);
    };
    if len == UNDEFINED {
        return Ok((Token::Item, rest));
    }
    Ok((Token::PlainItem(len), rest))
}

/// What stands at a place of a data set: its syntax and what is open, in constant memory.
#[derive(Drop)]
pub struct Scanner {
    pub syntax: Syntax,
    pub stack: Stack,
    ghost nested: { IsTrue (is_nested stack) },
}

impl Scanner {
    /// At the start of a data set.
    pub fn new(syntax: Syntax) -> Scanner
        ensures syntax { result.syntax ≡ syntax }
        ensures nothing_open { result.stack ≡ [] }
    {
        Scanner {
            syntax,
            stack: Stack::new(),
        }
    }

    /// The header or end that the text begins with, and what follows.
    fn token_at<'a>(&self, text: &'a [u8]) -> Result<(Token, &'a [u8]), DataFault>
        ensures { Gives result (token_of self.now.syntax self.now.stack text.now) }
    {
        let Some((tag, rest)) = tag_at(text) else {
            return Err(DataFault::Truncated);
        };
        match self.stack.top() {
            None => element_at(rest, tag, self.syntax, true, false),
            Some(OpenSequence::InSequence(sequence, _)) => item_at(rest, tag, sequence),
            Some(OpenSequence::InItem(_)) if tag == ITEM_END => end_at(rest, Token::ItemEnd),
            Some(OpenSequence::InItem(inside)) => {
                element_at(rest, tag, inside, false, self.stack.is_full())
            }
        }
    }

    /// Takes the header or end that the text begins with: what it is, and what follows. After a
    /// fault the scanner is as before, and `Truncated` means that more bytes are needed to tell.
    pub fn step<'a>(&mut self, text: &'a [u8]) -> Result<(Token, &'a [u8]), DataFault>
        ensures syntax { self.new.syntax ≡ self.old.syntax }
        ensures ok { IfOk result (λ r.
            (token_of self.old.syntax self.old.stack text.now ≡ Ok (r.0, r.1.now))
            × (self.new.stack ≡ open_behind self.old.syntax r.0 self.old.stack)) }
        ensures err { IfErr result (λ f. (token_of self.old.syntax self.old.stack text.now ≡ Err f)
            × (self.new.stack ≡ self.old.stack)) }
    {
        let (token, rest) = self.token_at(text)?;
        match token {
            Token::Value(_, _) | Token::PlainItem(_) => {}
            Token::Sequence(tag, inside) => self.stack.push(OpenSequence::InSequence(tag, inside)),
            Token::Item => {
                let inside = self.syntax_in_force();
                self.stack.push(OpenSequence::InItem(inside));
            }
            Token::ItemEnd | Token::SequenceEnd(_) => {
                let _ = self.stack.pop();
            }
        }
        Ok((token, rest))
    }

    /// Takes one token with its value, and gives the element of the top level that ends there, if
    /// one does. The front of the text that is in order grows by the token.
    pub fn advance<'a>(
        &mut self,
        text: &'a [u8],
    ) -> Result<(Option<Whole<'a>>, &'a [u8]), DataFault>
        ensures syntax { self.new.syntax ≡ self.old.syntax }
        ensures ok { IfOk result (λ r. (front : List ℕ) (es : List Element)
            → Opens self.old.syntax self.old.stack front es text.now
            → Opens self.old.syntax self.new.stack front (es ++ elements_of r.0) r.1.now) }
        ensures whole { IfOk result (λ r.
            MatchOption r.0 (self.new.stack ≢ []) (λ _. self.new.stack ≡ [])) }
        ensures shorter { IfOk result (λ r. length r.1.now < length text.now) }
        ensures err { IfErr result (λ fault. (fault ≢ DataFault.Memory)
            × ((text.now ≡ [] → self.old.stack ≢ [])
            → ShowsFault self.old.syntax self.old.stack text.now fault)) }
    {
        let (token, rest) = self.step(text)?;
        match token {
            Token::Value(tag, len) => {
                let Some((value, rest)) = rest.split_at_checked(len as usize) else {
                    return Err(DataFault::Truncated);
                };
                Ok((self.at_top(tag, Some(value)), rest))
            }
            Token::PlainItem(len) => {
                let Some((_, rest)) = rest.split_at_checked(len as usize) else {
                    return Err(DataFault::Truncated);
                };
                Ok((None, rest))
            }
            Token::SequenceEnd(tag) => Ok((self.at_top(tag, None), rest)),
            Token::Sequence(_, _) | Token::Item | Token::ItemEnd => Ok((None, rest)),
        }
    }

    /// The element of the top level that the text begins with, and what follows.
    pub fn element<'a>(&mut self, text: &'a [u8]) -> Result<(Whole<'a>, &'a [u8]), DataFault>
        requires nothing_open { self.old.stack ≡ [] }
        requires more { text.now ≢ [] }
        ensures syntax { self.new.syntax ≡ self.old.syntax }
        ensures ok { IfOk result (λ r. (self.new.stack ≡ [])
            × StartsTop self.old.syntax text.now (element_of r.0) r.1.now) }
        ensures shorter { IfOk result (λ r. length r.1.now < length text.now) }
        ensures err { IfErr result (λ fault. (fault ≢ DataFault.Memory)
            × FailsAtOnce self.old.syntax text.now fault) }
    {
        let mut rest = text;
        'tokens: loop {
            let (whole, after) = self.advance(rest)?;
            if let Some(whole) = whole {
                return Ok((whole, after));
            }
            rest = after;
        }
    }

    /// Whether the data set may end here: nothing is left and nothing is open.
    pub fn is_at_end(&self, rest: &[u8]) -> bool
        ensures { MatchBool result ((rest.now ≡ []) × (self.now.stack ≡ []))
            (rest.now ≡ [] → self.now.stack ≢ []) }
    {
        rest.is_empty() && self.stack.is_empty()
    }

    /// Whether nothing is open.
    pub fn is_at_top(&self) -> bool
        ensures { result ≡ (length self.now.stack == 0) }
    {
        self.stack.is_empty()
    }

    /// An element that ends here, if it is one of the top level.
    pub fn at_top<'a>(&self, tag: Tag, value: Option<&'a [u8]>) -> Option<Whole<'a>>
        ensures element { elements_of result
            ≡ whole self.now.stack tag (option_copied value.entry) }
        ensures is_top { MatchOption result (self.now.stack ≢ []) (λ _. self.now.stack ≡ []) }
    {
        if !self.stack.is_empty() {
            return None;
        }
        Some(Whole { tag, value })
    }

    fn syntax_in_force(&self) -> Syntax
        ensures { result ≡ in_force self.now.syntax self.now.stack }
    {
        match self.stack.top() {
            None => self.syntax,
            Some(OpenSequence::InSequence(_, inside)) | Some(OpenSequence::InItem(inside)) =>
                inside,
        }
    }
}
