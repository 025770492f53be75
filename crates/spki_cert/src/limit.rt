//! The limits of a window: its first moment, `not_before`, and its last, `not_after`. None: the window has no such limit.

ghost use Rattle.std.specs.Prelude.{◌≡◌};
ghost use Rattle.spki_cert.specs.Time.{is_from, is_until, later, earlier, in_order, IsLimit};

use crate::date::Date;

/// A fact for the prover, from the invariant of `Date`: a limit, if there is one, is a date. Does nothing.
pub fn prove_limit(limit: Option<Date>)
    ensures { IsLimit limit }
{
    if let Some(date) = limit {
        let _ = date;
    }
}

/// Whether a moment is not before the limit, the `not_before` of a window. True if there is no limit.
pub fn is_from(limit: Option<Date>, moment: &Date) -> bool
    ensures { result ≡ is_from limit moment.now }
{
    match limit {
        Some(first) => first.upto(moment),
        None => true,
    }
}

/// Whether a moment is not after the limit, the `not_after` of a window. True if there is no limit.
pub fn is_until(limit: Option<Date>, moment: &Date) -> bool
    ensures { result ≡ is_until limit moment.now }
{
    match limit {
        Some(last) => moment.upto(&last),
        None => true,
    }
}

/// The later of two limits `not_before`, where the intersection of two windows begins (`Window::meet`). If one is None, the other is
/// returned.
pub fn later(one: Option<Date>, other: Option<Date>) -> Option<Date>
    ensures chosen { result ≡ later one other }
    ensures limit { IsLimit result }
{
    match (one, other) {
        (None, found) => found,
        (Some(s), None) => Some(s),
        (Some(s), Some(t)) => Some(if s.upto(&t) { t } else { s }),
    }
}

/// The earlier of two limits `not_after`, where the intersection of two windows ends (`Window::meet`). If one is None, the other is
/// returned.
pub fn earlier(one: Option<Date>, other: Option<Date>) -> Option<Date>
    ensures chosen { result ≡ earlier one other }
    ensures limit { IsLimit result }
{
    match (one, other) {
        (None, found) => found,
        (Some(s), None) => Some(s),
        (Some(s), Some(t)) => Some(if s.upto(&t) { s } else { t }),
    }
}

/// Whether `first`, a limit `not_before`, is not after `last`, a limit `not_after`, so that some moment is within both. True if one of
/// them is None.
pub fn is_in_order(first: &Option<Date>, last: &Option<Date>) -> bool
    ensures { result ≡ in_order first.now last.now }
{
    match (first, last) {
        (None, _) => true,
        (Some(_), None) => true,
        (Some(s), Some(t)) => s.upto(t),
    }
}
