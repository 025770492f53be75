//! The number of octets of a question's texts. Where a function has `room`, this is how many octets may still come. The function returns how
//! many are left after what it counts.

ghost use Rattle.std.specs.Prelude.{◌≡◌, ◌<◌, ◌≤◌, ◌+◌, map, length, MatchOption};
ghost use Rattle.sexpr_core.specs.Value.{canon, decimal, verbatim};
ghost use Rattle.spki_service.specs.Questions.{words_value, wanted_octets, moment_octets, asked_octets};

use crate::question::{Moment, Question, RequestInput};

/// How many octets a question's texts have together, or None if there are more than `most_octets`. Only their lengths are looked at: no
/// text is read. A request's strings count as their canonical text, and seconds as the canonical form of a date, which has 22 octets.
pub(crate) fn octets_within(question: &Question, most_octets: usize) -> Option<usize>
    ensures { MatchOption result (most_octets < asked_octets question.now) (λ octets. (octets ≡ asked_octets question.now) × (octets ≤ most_octets)) }
{
    let left = subtract(most_octets, question.sequence.len())?;
    let left = subtract(left, question.key.len())?;
    let left = subtract_request(left, &question.request)?;
    let left = subtract_moment(left, &question.moment)?;
    Some(most_octets - left)
}

/// Subtracts the number of octets of a moment from `room`. None if the moment has more. Seconds count as the 22 octets of a date in
/// canonical form, `19:` and the date.
fn subtract_moment(room: usize, moment: &Moment) -> Option<usize>
    ensures { MatchOption result (room < moment_octets moment.now) (λ left. left + moment_octets moment.now ≡ room) }
{
    match moment {
        Moment::Text(text) => subtract(room, text.len()),
        Moment::Seconds(_) => subtract(room, 22),
    }
}

/// Subtracts `octets` from `room`, both as numbers of octets. None if `room` is less.
fn subtract(room: usize, octets: usize) -> Option<usize>
    ensures { MatchOption result (room < octets) (λ left. left + octets ≡ room) }
{
    room.checked_sub(octets)
}

/// Subtracts the number of octets of a request from `room`. None if the request has more. Strings count as their canonical text.
fn subtract_request(room: usize, wanted: &RequestInput) -> Option<usize>
    ensures { MatchOption result (room < wanted_octets wanted.now) (λ left. left + wanted_octets wanted.now ≡ room) }
{
    match wanted {
        RequestInput::Text(text) => subtract(room, text.len()),
        RequestInput::Words(words) => subtract_words(room, words),
    }
}

/// Subtracts the number of octets that `words_text` makes of a request's strings from `room`, without making them: the canonical text of
/// the list of the strings, with 2 octets for the parentheses, or of the string if there is only one. None if the text has more than `room`.
fn subtract_words(room: usize, words: &[&[u8]]) -> Option<usize>
    ensures { MatchOption result (room < length (canon (words_value (map (λ w. w.now) words.now))))
        (λ left. left + length (canon (words_value (map (λ w. w.now) words.now))) ≡ room) }
{
    if words.len() == 1 {
        return subtract_string(room, words[0]);
    }
    let mut left = subtract(room, 2)?;
    for word in words {
        left = subtract_string(left, word)?;
    }
    Some(left)
}

/// Subtracts the number of octets of a string's canonical form, such as `3:abc`, from `room`: its own, the digits of its length, and one
/// for the colon. None if the form has more than `room`.
fn subtract_string(room: usize, octets: &[u8]) -> Option<usize>
    ensures { MatchOption result (room < length (verbatim octets.now)) (λ left. left + length (verbatim octets.now) ≡ room) }
{
    let left = subtract(room, octets.len())?;
    let left = subtract(left, decimal_length(octets.len()))?;
    subtract(left, 1)
}

/// The number of digits of a number in decimal. `bound` is only for the prover: the sum does not overflow.
fn decimal_length(number: usize) -> usize
    ensures digits { result ≡ length (decimal number) }
    ensures bound { result ≤ number + 1 }
{
    if number < 10 {
        return 1;
    }
    decimal_length(number / 10) + 1
}
