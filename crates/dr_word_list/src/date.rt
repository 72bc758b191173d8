//! Moments as dates.
use dr_base::fields::add_field;
use std::alloc::AllocError;

/// The last moment that is told as a date (milliseconds since 1970): the end of the year 9999.
const LAST: u64 = 253_402_300_799_999;

/// A digit of a number: the last one of so many tens of it.
fn digit(number: u64, tens: u64) -> u8 {
    let digit = (number / tens.max(1)) % 10;
    b'0'.saturating_add(digit as u8)
}

/// Two digits of a number.
fn two(number: u64) -> [u8; 2] {
    [digit(number, 10), digit(number, 1)]
}

/// The year, the month and the day so many days after the first of March of the year 0, by the
/// Gregorian calendar: years begin in March here, so that a leap day is the last of its year.
fn date_of(days: u64) -> (u64, u64, u64) {
    let (era, day) = (days / 146_097, days % 146_097);
    let year = day
        .saturating_add(day / 36_524)
        .saturating_sub(day / 1_460)
        .saturating_sub(day / 146_096)
        / 365;
    let begins = (year.saturating_mul(365))
        .saturating_add(year / 4)
        .saturating_sub(year / 100);
    let in_year = day.saturating_sub(begins);
    let month = in_year.saturating_mul(5).saturating_add(2) / 153;
    let first = month.saturating_mul(153).saturating_add(2) / 5;
    let of_month = in_year.saturating_sub(first).saturating_add(1);
    let whole = era.saturating_mul(400).saturating_add(year);
    if month < 10 {
        return (whole, month.saturating_add(3), of_month);
    }
    (whole.saturating_add(1), month.saturating_sub(9), of_month)
}

/// Adds a moment (milliseconds since 1970) as a field: its date by RFC 3339, in UTC and with three
/// decimals; a hyphen where there is none.
pub fn put_date(out: &mut Vec<u8>, moment: Option<u64>) -> Result<(), AllocError> {
    let Some(moment) = moment else {
        return add_field(out, b"-");
    };
    let moment = moment.min(LAST);
    let (day, rest) = (moment / 86_400_000, moment % 86_400_000);
    // The first of March of the year 0 is 719,468 days before the year 1970.
    let (year, month, of_month) = date_of(day.saturating_add(719_468));
    add_field(out, &[digit(year, 1_000), digit(year, 100)])?;
    out.extend_from_slice(&two(year))?;
    out.extend_from_slice(b"-")?;
    out.extend_from_slice(&two(month))?;
    out.extend_from_slice(b"-")?;
    out.extend_from_slice(&two(of_month))?;
    put_time(out, rest)
}

/// Adds the time of a day, so many milliseconds after its begin.
fn put_time(out: &mut Vec<u8>, rest: u64) -> Result<(), AllocError> {
    let (seconds, decimals) = (rest / 1_000, rest % 1_000);
    out.extend_from_slice(b"T")?;
    out.extend_from_slice(&two(seconds / 3_600))?;
    out.extend_from_slice(b":")?;
    out.extend_from_slice(&two(seconds / 60 % 60))?;
    out.extend_from_slice(b":")?;
    out.extend_from_slice(&two(seconds % 60))?;
    out.extend_from_slice(b".")?;
    out.extend_from_slice(&[digit(decimals, 100)])?;
    out.extend_from_slice(&two(decimals))?;
    out.extend_from_slice(b"Z")
}
