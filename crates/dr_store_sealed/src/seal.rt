//! How far sealed lines go.
ghost use Rattle.std.specs.Prelude.{◌≡◌, ◌↔◌, ◌+◌, ◌^◌, ◌≤◌, IfSome, IfNone, IsTrue};
ghost use Rattle.dr_store_sealed.specs.Seals.{first_seal, full, turned};

/// A file with so many bytes takes no more lines.
pub const FULL: usize = 64_000_000;

/// The bytes of the longest line.
pub const LONGEST: usize = 65_536;

/// How far sealed lines go.
#[derive(Clone, Copy, Debug, PartialEq, Eq)]
pub struct Seal {
    /// How many they are, in all files.
    pub count: u64,
    /// The chain of the last, or 32 zeros where there is none.
    pub chain: [u8; 32],
    /// The number of the file that has the last.
    pub number: u64,
    /// Where it ends in that file, in bytes.
    pub offset: usize,
}

impl Seal {
    /// The seal of no lines.
    pub fn first() -> Seal
        ensures { result ≡ first_seal }
    {
        Seal {
            count: 0,
            chain: [0; 32],
            number: 0,
            offset: 0,
        }
    }

    /// Whether its file takes no more lines.
    pub fn is_full(&self) -> bool
        ensures { IsTrue result ↔ (full ≤ self.now.offset) }
    {
        self.offset >= FULL
    }

    /// The same at the beginning of the next file, unless no number is left for one.
    pub fn turn(&self) -> Option<Seal>
        ensures next { IfSome result (λ seal. seal ≡ turned self.now) }
        ensures none { IfNone result (self.now.number + 1 ≡ 2 ^ 64) }
    {
        let number = self.number.checked_add(1)?;
        Some(Seal {
            count: self.count,
            chain: self.chain,
            number,
            offset: 0,
        })
    }
}

/// Whether both are one seal.
pub fn are_one(seal: &Seal, other: &Seal) -> bool
    ensures { IsTrue result ↔ (seal.now ≡ other.now) }
{
    seal == other
}
