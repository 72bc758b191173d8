//! UIDs (PS3.5 section 9.1).
ghost use Rattle.std.specs.Prelude.{◌≤◌, ◌↔◌, IsTrue};
ghost use Rattle.std.specs.List.{AllByRecursion};
ghost use Rattle.dr_base.specs.Uids.{IsUid};

/// Whether it is a UID as it is taken here: 1 to 64 bytes from 21H to 7EH.
pub fn is_uid(text: &[u8]) -> bool
    ensures { IsTrue result ↔ IsUid text.now }
{
    if text.is_empty() || text.len() > 64 {
        return false;
    }
    are_graphic(text)
}

fn are_graphic(text: &[u8]) -> bool
    ensures { IsTrue result ↔ AllByRecursion (λ b. (0x21 ≤ b) × (b ≤ 0x7E)) text.now }
{
    text.iter().all(|byte| byte.is_ascii_graphic())
}
