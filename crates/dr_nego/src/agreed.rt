//! What both sides of an association agreed on.
ghost use Rattle.std.specs.Prelude.{◌≡◌, find, option_copied};
ghost use Rattle.dr_base.specs.Syntaxes.{syntax_uid};
ghost use Rattle.dr_nego.specs.Agreeing.{is_for, context_for, pair_at};

use dr_base::{Seq, Syntax, Text};

/// An accepted presentation context: its id, the class, and the transfer syntax's UID.
#[derive(Debug, Drop)]
pub struct Pair {
    pub id: u8,
    pub class: Text,
    pub syntax: Text,
}

/// The accepted contexts in the order of the request, and the greatest length field, in bytes, of a
/// P-DATA-TF that the other side takes; 0 is no limit.
#[derive(Debug, Drop)]
pub struct Agreed {
    pub pairs: Seq<Pair>,
    pub limit: u32,
}

/// Whether the context is of that class and transfer syntax.
fn is_for(pair: &Pair, class: &Text, syntax: Syntax) -> bool
    ensures { result ≡ is_for class.now (syntax_uid syntax) pair.now }
{
    pair.class == *class && pair.syntax.as_bytes() == syntax.uid()
}

impl Agreed {
    /// The first accepted context of the class and the transfer syntax.
    fn pair_for(&self, class: &Text, syntax: Syntax) -> Option<&Pair>
        ensures { option_copied result
            ≡ find (is_for class.now (syntax_uid syntax)) self.now.pairs }
    {
        self.pairs
            .as_slice()
            .iter()
            .find(|pair| is_for(pair, class, syntax))
    }

    /// The id of the first accepted context of the class and the transfer syntax, which is the
    /// least one where the ids rise, as those of a proposal do. It takes no memory.
    pub fn context_for(&self, class: &Text, syntax: Syntax) -> Option<u8>
        ensures { result ≡ context_for self.now class.now (syntax_uid syntax) }
    {
        let Some(pair) = self.pair_for(class, syntax) else {
            return None;
        };
        Some(pair.id)
    }

    /// The accepted context of that id.
    pub fn context(&self, id: u8) -> Option<&Pair>
        ensures { option_copied result ≡ pair_at self.now id }
    {
        self.pairs.as_slice().iter().find(|pair| pair.id == id)
    }
}
