//! Times of day and moments, as octets.

ghost use Rattle.std.specs.Prelude.{◌≡◌, ◌+◌, ◌<◌, length};
ghost use Rattle.spki_tag.specs.Tag as spec;

/// Whether an octet is a decimal digit.
fn is_digit(octet: u8) -> bool
    ensures { result ≡ spec.is_digit octet }
{
    b'0' <= octet && octet <= b'9'
}

/// Whether the two octets at the offsets `i` and `i` + 1 are decimal digits of a number from `low` to `high`, both
/// included. The text must have both octets.
fn is_number_at(text: &[u8], i: usize, low: u8, high: u8) -> bool
    requires { i + 1 < length text.now }
    ensures { result ≡ spec.is_number_at text.now i low high }
{
    let tens = text[i];
    let units = text[i + 1];
    if !is_digit(tens) || !is_digit(units) {
        return false;
    }
    let number = 10 * (tens - b'0') + (units - b'0');
    low <= number && number <= high
}

/// Whether a text is `HH:MM:SS`: an hour from 00 to 23, a minute from 00 to 59 and a second from 00 to 60, of which 60 is a leap second. A
/// range of the ordering `time` contains only such strings.
#[tactic(auto, unfolding(crate::specs::Tag::is_time))]
pub fn is_time(text: &[u8]) -> bool
    ensures { result ≡ spec.is_time text.now }
{
    text.len() == 8
        && is_number_at(text, 0, 0, 23)
        && text[2] == b':'
        && is_number_at(text, 3, 0, 59)
        && text[5] == b':'
        && is_number_at(text, 6, 0, 60)
}

/// Whether a text is `YYYY-MM-DD_HH:MM:SS`: any year of four digits, tested as two numbers, a month from 01 to 12, a day from 01 to 31, and
/// a time by `is_time`. There is no calendar check, so `2024-02-31_00:00:00` is one. A range of the ordering `date` contains only such
/// strings, and `spki_cert` reads its dates with this.
#[tactic(auto, unfolding(crate::specs::Tag::is_date))]
pub fn is_date(text: &[u8]) -> bool
    ensures { result ≡ spec.is_date text.now }
{
    text.len() == 19
        && is_number_at(text, 0, 0, 99)
        && is_number_at(text, 2, 0, 99)
        && text[4] == b'-'
        && is_number_at(text, 5, 1, 12)
        && text[7] == b'-'
        && is_number_at(text, 8, 1, 31)
        && text[10] == b'_'
        && is_time(&text[11..])
}
