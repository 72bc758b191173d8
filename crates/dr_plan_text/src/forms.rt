//! The forms of classes, literals, prefixes and addresses.
ghost use Rattle.std.specs.Prelude.{◌≡◌, ◌↔◌, IsTrue, IfSome, IfNone, MatchOption, Contains, All};
ghost use Rattle.std.specs.Prelude.{◌≢◌, ◌≤◌, ◌<◌};
ghost use Rattle.std.specs.Str.Parse.{digits_value};
ghost use Rattle.dr_plan_text.specs.Splits.{SplitsAtLast, IsPort};
ghost use Rattle.dr_plan_model.specs.Formed.{IsTrimmed, IsClass, IsLiteral, IsPrefix, IsAddress};

/// Whether no space stands at its start, nor at its end.
pub fn is_trimmed(text: &[u8]) -> bool
    ensures { IsTrue result ↔ IsTrimmed text.now }
{
    if text.is_empty() {
        return true;
    }
    if text[0] == b' ' {
        return false;
    }
    text[text.len() - 1] != b' '
}

/// Whether it is 1 to 64 digits and dots, as a SOP class UID is.
pub fn is_class(text: &[u8]) -> bool
    ensures { IsTrue result ↔ IsClass text.now }
{
    !text.is_empty() && text.len() <= 64 && text.iter().all(|b| b.is_ascii_digit() || *b == b'.')
}

/// Whether each byte is printable and no asterisk.
fn is_plain(text: &[u8]) -> bool
    ensures { IsTrue result ↔ All (λ byte. (32 ≤ byte) × (byte < 127) × (byte ≢ 42)) text.now }
{
    text.iter().all(|b| *b >= 32 && *b < 127 && *b != b'*')
}

/// Whether it is up to 64 printable bytes without an asterisk, and with no space at an end.
pub(crate) fn is_literal(text: &[u8]) -> bool
    ensures { IsTrue result ↔ IsLiteral text.now }
{
    if text.len() > 64 {
        return false;
    }
    is_plain(text) && is_trimmed(text)
}

/// Whether it is a literal of one byte or more, by which values are named that begin with it.
pub(crate) fn is_prefix(text: &[u8]) -> bool
    ensures { IsTrue result ↔ IsPrefix text.now }
{
    !text.is_empty() && is_literal(text)
}

/// The parts before and behind the last mark.
fn split_at_last(text: &[u8], mark: u8) -> Option<(&[u8], &[u8])>
    ensures found { IfSome result (λ parts. SplitsAtLast mark text.now parts.0.now parts.1.now) }
    ensures none { IfNone result (Contains text.now mark → ⊥) }
{
    let mut at = text.len();
    while at > 0 {
        at -= 1;
        if text[at] == mark {
            return Some((&text[..at], &text[at + 1..]));
        }
    }
    None
}

/// The number that one to five digits write.
fn port_of(digits: &[u8]) -> Option<u32>
    ensures { MatchOption result (IsPort digits.now → ⊥) (λ port.
        IsPort digits.now × (port ≡ digits_value 10 digits.now)) }
{
    if digits.is_empty() || digits.len() > 5 {
        return None;
    }
    let mut port: u32 = 0;
    for digit in digits {
        if !digit.is_ascii_digit() {
            return None;
        }
        port = port * 10 + u32::from(*digit - b'0');
    }
    Some(port)
}

/// Whether each byte is printable and no blank.
fn is_visible(text: &[u8]) -> bool
    ensures { IsTrue result ↔ All (λ byte. (33 ≤ byte) × (byte < 127)) text.now }
{
    text.iter().all(|b| *b >= 33 && *b < 127)
}

/// Whether it is a host and a port, `host:port`: up to 255 printable bytes without a blank, the
/// port one to five digits and at most 65,535.
pub(crate) fn is_address(text: &[u8]) -> bool
    ensures { IsTrue result ↔ IsAddress text.now }
{
    let Some((host, digits)) = split_at_last(text, b':') else {
        return false;
    };
    let Some(port) = port_of(digits) else {
        return false;
    };
    if text.len() > 255 {
        return false;
    }
    if !is_visible(text) {
        return false;
    }
    !host.is_empty() && port <= 65535
}
