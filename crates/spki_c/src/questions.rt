//! Questions from the parts that C passes.
ghost use Rattle.std.specs.Prelude.{◌≡◌, ◌↔◌, [], IsTrue, map};
ghost use Rattle.spki_c.specs.Asking.{IsAmbiguous, IsQuestionBy, IsRequestBy, IsMomentBy, IsLent, AreLent};

use crate::parts::Parts;
use spki_guard::{Moment, Question, RequestInput};

impl Parts {
    /// Whether all texts of a question, except the strings of its request, are lent whole: none has octets at a null pointer, or more than
    /// memory can have (`Text::is_lent`).
    pub(crate) fn are_lent(&mut self) -> bool
        ensures same { self.new ≡ self.old }
        ensures lent { IsTrue result ↔ AreLent self.old [] }
    {
        self.sequence.is_lent()
            && self.key.is_lent()
            && self.request.is_lent()
            && self.moment.is_lent()
    }

    /// Whether the request is given both as a text and by its strings, or the moment both as a text and in seconds. A
    /// text of no octets counts as not given. Both texts must be lent whole. Using one of two would ignore the other, so
    /// `spki_c_guard_ask` returns `MISUSED` if this is true.
    pub(crate) fn is_ambiguous(&mut self, seconds: &[i64]) -> bool
        requires { IsLent self.old.request × IsLent self.old.moment }
        ensures same { self.new ≡ self.old }
        ensures both { IsTrue result ↔ IsAmbiguous self.old seconds.now }
    {
        (self.is_worded && self.request.count() > 0)
            || (!seconds.is_empty() && self.moment.count() > 0)
    }

    /// The question with these parts, whose texts must be lent whole. `words` are the strings of the request, and are used only
    /// if `is_worded` is true. The moment is the first of `seconds`, or the text `moment` if there are none.
    pub(crate) fn question<'a>(&'a mut self, words: &'a [&'a [u8]], seconds: &[i64]) -> Question<'a>
        requires { IsLent self.old.sequence × IsLent self.old.key × IsLent self.old.request × IsLent self.old.moment }
        ensures { IsQuestionBy self.entry.now (map (λ w. w.now) words.entry.now) seconds.now result }
    {
        let is_worded = self.is_worded;
        Question {
            sequence: self.sequence.octets(),
            key: self.key.octets(),
            request: request_of(is_worded, self.request.octets(), words),
            moment: moment_of(self.moment.octets(), seconds),
        }
    }
}

/// The request of a question: its strings, which are `words`, if `is_worded` is true, otherwise its text.
fn request_of<'a>(is_worded: bool, text: &'a [u8], words: &'a [&'a [u8]]) -> RequestInput<'a>
    ensures { IsRequestBy is_worded text.entry.now (map (λ w. w.now) words.entry.now) result }
{
    if is_worded {
        RequestInput::Words(words)
    } else {
        RequestInput::Text(text)
    }
}

/// The moment of a question: the first of `seconds`, since 1970-01-01 00:00:00 UTC, or `text`, that of a date, if there are none.
fn moment_of<'a>(text: &'a [u8], seconds: &[i64]) -> Moment<'a>
    ensures { IsMomentBy text.entry.now seconds.now result }
{
    match seconds {
        [] => Moment::Text(text),
        [first, ..] => Moment::Seconds(*first),
    }
}
