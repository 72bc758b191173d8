//! The two transfer syntaxes in which instances are stored and sent.
ghost use Rattle.std.specs.Prelude.{◌≡◌, ◌≢◌, MatchOption};
ghost use Rattle.dr_base.specs.Syntaxes.{syntax_uid, NamesNoSyntax};

/// A transfer syntax (PS3.5 section 10.1): Implicit or Explicit VR Little Endian, uncompressed.
/// The order of the two is the byte order of their UIDs.
#[derive(Clone, Copy, PartialEq, Eq, PartialOrd, Ord, Debug)]
pub enum Syntax {
    /// Implicit VR Little Endian, `1.2.840.10008.1.2` (PS3.5 A.1).
    Implicit,
    /// Explicit VR Little Endian, `1.2.840.10008.1.2.1` (PS3.5 A.2).
    Explicit,
}

impl Syntax {
    /// Its UID, without padding.
    pub fn uid(self) -> &'static [u8]
        ensures { result.now ≡ syntax_uid self }
    {
        match self {
            Syntax::Implicit => b"1.2.840.10008.1.2",
            Syntax::Explicit => b"1.2.840.10008.1.2.1",
        }
    }

    /// The transfer syntax of this UID (without padding), and None where it is neither.
    pub fn of_uid(uid: &[u8]) -> Option<Syntax>
        ensures { MatchOption result (NamesNoSyntax uid.now) (λ syntax.
            uid.now ≡ syntax_uid syntax) }
    {
        if uid == b"1.2.840.10008.1.2".as_slice() {
            return Some(Syntax::Implicit);
        }
        if uid == b"1.2.840.10008.1.2.1".as_slice() {
            return Some(Syntax::Explicit);
        }
        None
    }
}
