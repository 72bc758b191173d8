//! Numbers of 256 bits.
ghost use Rattle.std.specs.Prelude.{◌≡◌, ◌≤◌, ◌+◌, ◌%◌, ◌^◌, take, drop};
ghost use Rattle.std.specs.Int.{w64, from_le_bytes};
ghost use Rattle.dr_store_content.specs.Contents.{amount, number_of};

/// What rows come to: the sum of the SHA-256 of each, modulo 2^256.
#[derive(Clone, Copy, Debug, PartialEq, Eq)]
pub struct Content {
    /// The lowest 64 bits.
    first: u64,
    second: u64,
    third: u64,
    /// The highest 64 bits.
    fourth: u64,
}

/// Eight bytes from there on, as a number, the lowest first.
fn part(bytes: &[u8; 32], at: usize) -> u64
    requires { at ≤ 24 }
    ensures { result ≡ from_le_bytes w64 (take 8 (drop at bytes.now)) }
{
    let mut eight = [0; 8];
    eight.copy_from_slice(&bytes[at..at + 8]);
    u64::from_le_bytes(eight)
}

impl Content {
    /// The content of no rows.
    pub fn none() -> Content
        ensures { amount result ≡ 0 }
    {
        Content {
            first: 0,
            second: 0,
            third: 0,
            fourth: 0,
        }
    }

    /// The content that is written so, the lowest byte first.
    pub fn of_bytes(bytes: &[u8; 32]) -> Content
        ensures { amount result ≡ number_of bytes.now }
    {
        Content {
            first: part(bytes, 0),
            second: part(bytes, 8),
            third: part(bytes, 16),
            fourth: part(bytes, 24),
        }
    }

    /// The content as bytes, the lowest first.
    pub fn bytes(self) -> [u8; 32]
        ensures { number_of result ≡ amount self }
    {
        let mut bytes = [0; 32];
        bytes[0..8].copy_from_slice(&self.first.to_le_bytes());
        bytes[8..16].copy_from_slice(&self.second.to_le_bytes());
        bytes[16..24].copy_from_slice(&self.third.to_le_bytes());
        bytes[24..32].copy_from_slice(&self.fourth.to_le_bytes());
        bytes
    }

    /// The content of these rows and those of the other, together.
    pub fn plus(self, other: Content) -> Content
        ensures { amount result ≡ (amount self + amount other) % 2 ^ 256 }
    {
        let (first, carry) = self.first.carrying_add(other.first, false);
        let (second, carry) = self.second.carrying_add(other.second, carry);
        let (third, carry) = self.third.carrying_add(other.third, carry);
        let (fourth, _) = self.fourth.carrying_add(other.fourth, carry);
        Content {
            first,
            second,
            third,
            fourth,
        }
    }

    /// The content of these rows without those of the other.
    pub fn less(self, other: Content) -> Content
        ensures { (amount result + amount other) % 2 ^ 256 ≡ amount self }
    {
        let (first, borrow) = self.first.borrowing_sub(other.first, false);
        let (second, borrow) = self.second.borrowing_sub(other.second, borrow);
        let (third, borrow) = self.third.borrowing_sub(other.third, borrow);
        let (fourth, _) = self.fourth.borrowing_sub(other.fourth, borrow);
        Content {
            first,
            second,
            third,
            fourth,
        }
    }
}
