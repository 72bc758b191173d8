//! How many of the bytes that are on their way to a reader may come to it at once.
ghost use Rattle.std.specs.Prelude.{◌≡◌, ℕ, ◌++◌, get_or, length};
ghost use Rattle.dr_world.specs.Moved.{IsFewer, IsLeftOf, IsMovable, IsUpTo, TellsLength};
ghost use Rattle.dr_world.specs.Moved.{told_length};

/// What a Move of bytes finds to do at its reader.
#[derive(Clone, Copy, PartialEq, Eq, Debug)]
pub enum MoveDue {
    Nothing,
    /// The reader hears that the connection has ended.
    End,
    /// So many of the wire's first bytes come to the reader.
    Bytes(usize),
}

/// The byte at that place of what a reader keeps and of its wire behind that; 0 where there is
/// none.
fn byte_at(kept: &[u8], wire: &[u8], place: usize) -> u8
    ensures { result ≡ get_or (kept.now ++ wire.now) place 0 }
{
    if place < kept.len() {
        return kept[place];
    }
    let place = place - kept.len();
    if place < wire.len() {
        return wire[place];
    }
    0
}

/// How long the PDU at the front is, in bytes, by its length field (PS3.8 9.3.1).
fn length_of_front(kept: &[u8], wire: &[u8]) -> usize
    ensures tells { TellsLength (kept.now ++ wire.now) result }
    ensures told { result ≡ told_length (kept.now ++ wire.now) }
{
    let field = [
        byte_at(kept, wire, 2),
        byte_at(kept, wire, 3),
        byte_at(kept, wire, 4),
        byte_at(kept, wire, 5),
    ];
    u32::from_be_bytes(field) as usize + 6
}

/// How many bytes of a wire belong to the PDU at the front, whose first bytes the reader keeps. All
/// of them where the PDU's last byte isn't there.
fn left_of(kept: &[u8], wire: &[u8]) -> usize
    ensures left { IsLeftOf kept.now wire.now result }
    ensures told { IsUpTo (told_length (kept.now ++ wire.now)) (length kept.now)
        (length wire.now) result }
{
    let length = length_of_front(kept, wire);
    if length <= kept.len() {
        return wire.len();
    }
    let left = length - kept.len();
    if wire.len() < left {
        return wire.len();
    }
    left
}

/// How many of at most so many bytes of a wire may come to its reader, which keeps these: as many
/// as there are, and none beyond the PDU at the front.
pub fn movable(kept: &[u8], wire: &[u8], most: u64) -> usize
    ensures movable { IsMovable kept.now wire.now most result }
    ensures told { (left : ℕ)
        × IsUpTo (told_length (kept.now ++ wire.now)) (length kept.now) (length wire.now) left
        × IsFewer most left result }
{
    let there = left_of(kept, wire);
    if most < there as u64 {
        return most as usize;
    }
    there
}
