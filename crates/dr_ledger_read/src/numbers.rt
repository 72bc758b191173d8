//! Numbers in decimal digits.
ghost use Rattle.std.specs.Prelude.{◌≤◌, length, take, drop};
ghost use Rattle.std.specs.Str.Parse.{AllDigits};
ghost use Rattle.dr_ledger_read.specs.Cutting.{Cuts, Same};
ghost use Rattle.dr_ledger_read.specs.Pieces.{IsCount, IsNumber, EndsDigits};

use crate::pieces::after;
use dr_base::fields::read_number;

/// How many digits stand at the front of a text.
fn count_digits(text: &[u8]) -> usize
    ensures within { result ≤ length text.now }
    ensures digits { AllDigits 10 (take result text.now) }
    ensures stops { EndsDigits (drop result text.now) }
{
    let mut count = 0;
    for byte in text {
        if !byte.is_ascii_digit() {
            return count;
        }
        count += 1;
    }
    count
}

/// The number at the front of a text, with all digits that are there.
fn cut_number(text: &[u8]) -> Option<(u64, &[u8])>
    ensures { Cuts Same (IsNumber text.now) result }
{
    let (digits, rest) = text.split_at(count_digits(text));
    let number = read_number(digits)?;
    Some((number, rest))
}

/// The same behind given bytes.
pub fn cut_count<'a>(text: &'a [u8], start: &[u8]) -> Option<(u64, &'a [u8])>
    ensures { Cuts Same (IsCount start.now text.now) result }
{
    let behind = after(text, start)?;
    cut_number(behind)
}
