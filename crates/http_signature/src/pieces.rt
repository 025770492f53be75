//! Reads the pieces of `Signature-Input` and `Signature`, in the one way of RFC 8941 to write them.

ghost use Rattle.std.specs.{Prelude.{◌≡◌, ◌≢◌, ◌≤◌, ◌<◌, ℕ, true, slice_index, Ok, Err, IfOk, IfErr, length, take, drop}, List.{prefix_len}};
ghost use Rattle.http_signature.specs.Pieces.{after, expect, span, is_name_start, is_name_octet, read_name, is_string_octet, read_string, is_digit, is_number, number_of, read_number, is_inside, read_octets, read_label, end_fault};

use crate::octets::Octets;
use crate::refusal::Refusal;
use base64::DecodeAllocError;
use base64::engine::general_purpose::STANDARD;
use std::alloc::Global;

/// The rest behind an octet, if the text begins with it.
pub(crate) fn after<'a>(octet: u8, text: &Octets<'a>) -> Option<Octets<'a>>
    ensures { result ≡ after octet text.now }
{
    match text.as_slice() {
        [first, rest @ ..] => {
            if *first == octet {
                Some(Octets::new(rest))
            } else {
                None
            }
        }
        [] => None,
    }
}

/// The rest behind an octet, with which the text must begin.
pub(crate) fn expect<'a>(octet: u8, text: &Octets<'a>) -> Result<Octets<'a>, Refusal>
    ensures { result ≡ expect octet text.now }
{
    match after(octet, text) {
        Some(rest) => Ok(rest),
        None => Err(Refusal::Malformed),
    }
}

/// Whether an octet may begin a name.
fn is_name_start(octet: u8) -> bool
    ensures { result ≡ is_name_start octet }
{
    matches!(octet, b'a'..=b'z' | b'*')
}

/// Whether an octet may be in a name.
fn is_name_octet(octet: u8) -> bool
    ensures { result ≡ is_name_octet octet }
{
    is_name_start(octet) || matches!(octet, b'0'..=b'9' | b'_' | b'-' | b'.')
}

/// Whether an octet may be in a string.
fn is_string_octet(octet: u8) -> bool
    ensures { result ≡ is_string_octet octet }
{
    matches!(octet, b' ' | b'!' | b'#'..=b'[' | b']'..=b'~')
}

/// How many octets from the left may be in a name.
fn name_len(octets: &[u8]) -> usize
    ensures { result ≡ prefix_len is_name_octet octets.now }
{
    octets
        .iter()
        .take_while(|octet| is_name_octet(**octet))
        .count()
}

/// How many octets from the left may be in a string.
fn string_len(octets: &[u8]) -> usize
    ensures { result ≡ prefix_len is_string_octet octets.now }
{
    octets
        .iter()
        .take_while(|octet| is_string_octet(**octet))
        .count()
}

/// How many digits are at the left.
fn digits_len(octets: &[u8]) -> usize
    ensures { result ≡ prefix_len is_digit octets.now }
{
    octets
        .iter()
        .take_while(|octet| matches!(**octet, b'0'..=b'9'))
        .count()
}

/// How many octets are before the first colon.
fn inside_len(octets: &[u8]) -> usize
    ensures { result ≡ prefix_len is_inside octets.now }
{
    octets.iter().take_while(|octet| **octet != b':').count()
}

/// Reads a name. `Malformed` if none is there.
pub(crate) fn read_name<'a>(text: &Octets<'a>) -> Result<(Octets<'a>, Octets<'a>), Refusal>
    ensures { result ≡ read_name text.now }
{
    let octets = text.as_slice();
    match octets {
        [first, ..] => {
            if is_name_start(*first) {
                Ok(split(octets, name_len(octets)))
            } else {
                Err(Refusal::Malformed)
            }
        }
        [] => Err(Refusal::Malformed),
    }
}

/// The octets before an index and from it on.
fn split<'a>(octets: &'a [u8], index: usize) -> (Octets<'a>, Octets<'a>)
    requires { index ≤ length octets.now }
    ensures { result ≡ (take index octets.entry.now, drop index octets.entry.now) }
{
    (Octets::new(&octets[..index]), Octets::new(&octets[index..]))
}

/// Reads a string in quotes, and returns what is inside. `Malformed` for any other, also one with an escape.
pub(crate) fn read_string<'a>(octets: &Octets<'a>) -> Result<(Octets<'a>, Octets<'a>), Refusal>
    ensures { result ≡ read_string octets.now }
{
    let rest = expect(b'"', octets)?;
    let octets = rest.as_slice();
    let (inside, rest) = split(octets, string_len(octets));
    let behind = expect(b'"', &rest)?;
    Ok((inside, behind))
}

/// Whether digits are 1 to 15 without a 0 in front.
fn is_number(digits: &[u8]) -> bool
    ensures { result ≡ is_number digits.now }
{
    match digits {
        [first, rest @ ..] => rest.len() < 15 && (*first != b'0' || rest.is_empty()),
        [] => false,
    }
}

/// The number that digits write, of which there are at most 15.
fn number_of(digits: &[u8]) -> u64
    requires few { length digits.now ≤ 15 }
    requires digits { (k : ℕ) → k < length digits.now → is_digit (slice_index digits.now k) ≡ true }
    ensures { result ≡ number_of digits.now }
{
    let mut value = 0u64;
    for digit in digits {
        value = value * 10 + u64::from(*digit - b'0');
    }
    value
}

/// Reads a number of seconds. `Malformed` if none is there, or it has over 15 digits or a 0 in front.
pub(crate) fn read_number<'a>(text: &Octets<'a>) -> Result<(u64, Octets<'a>), Refusal>
    ensures { result ≡ read_number text.now }
{
    let octets = text.as_slice();
    let (front, rest) = split(octets, digits_len(octets));
    let digits = front.as_slice();
    if is_number(digits) {
        Ok((number_of(digits), rest))
    } else {
        Err(Refusal::Malformed)
    }
}

/// Reads the octets in base64 between two colons.
pub(crate) fn read_octets<'a>(
    alloc: Global,
    text: &Octets<'a>,
) -> Result<(Vec<u8>, Octets<'a>), Refusal>
    ensures read { IfOk result (λ p. read_octets text.now ≡ Ok (p.0.items, p.1)) }
    ensures refused { IfErr result (λ refusal. refusal ≢ Refusal.Memory → read_octets text.now ≡ Err refusal) }
{
    let rest = expect(b':', text)?;
    let octets = rest.as_slice();
    let (inside, rest) = split(octets, inside_len(octets));
    let behind = expect(b':', &rest)?;
    match STANDARD.decode(alloc, inside.as_slice()) {
        Ok(octets) => Ok((octets, behind)),
        Err(DecodeAllocError::OutOfMemory) => Err(Refusal::Memory),
        Err(DecodeAllocError::DecodeError(_)) => Err(Refusal::Malformed),
    }
}

/// Reads the label `spki` and the sign behind it.
pub(crate) fn read_label<'a>(text: &Octets<'a>) -> Result<Octets<'a>, Refusal>
    ensures { result ≡ read_label text.now }
{
    let (word, rest) = read_name(text)?;
    let rest = expect(b'=', &rest)?;
    if word.is(b"spki") {
        Ok(rest)
    } else {
        Err(Refusal::OtherLabel)
    }
}

/// Why what follows is refused: `TwoSignatures` for a second member, and otherwise `Malformed`. None at the end of the text.
pub(crate) fn end_fault(text: &Octets) -> Option<Refusal>
    ensures { result ≡ end_fault text.now }
{
    match text.as_slice() {
        [] => None,
        [_, ..] => match after(b',', &text.trimmed()) {
            Some(_) => Some(Refusal::TwoSignatures),
            None => Some(Refusal::Malformed),
        },
    }
}
