//! Dates.

ghost use Rattle.std.specs.Prelude.{◌≡◌, ℕ, List, true, MatchOption, IsTrue, false};
ghost use Rattle.spki_tag.specs.Tag.{is_date};

use spki_tag::is_date;
use std::marker::Model;

/// A moment, as the 19 octets `YYYY-MM-DD_HH:MM:SS`. The year is any four digits, the month 01 to 12 and the day 01 to 31.
/// The hour is 00 to 23, the minute 00 to 59 and the second 00 to 60. It is not checked whether the month has the day.
#[derive(Clone, Copy, Debug)]
pub struct Date {
    octets: [u8; 19],
}

impl Model for Date {
    ghost use Rattle.std.specs.Prelude.{◌≡◌, ℕ, List, true};
    ghost use Rattle.spki_tag.specs.Tag.{is_date};

    ghost Value = { List ℕ };

    ghost view = { λ d. d.octets };

    ghost invariant = { λ d. is_date d.octets ≡ true };

    ghost inverse = { λ octets. record { octets = octets } };
}

impl Date {
    ghost use Rattle.spki_cert.specs.Time.{upto};

    /// Reads a moment from its octets, which must be exactly `YYYY-MM-DD_HH:MM:SS`. None for anything else, also if a number is out of its
    /// range, such as the month 13 or the hour 24. `is_date` checks all of this, also that there are 19 octets, so the conversion to an
    /// array does not fail. Allocates nothing.
    #[tactic(auto, unfolding(spki_tag::specs::Tag::is_date))]
    pub fn of(octets: &[u8]) -> Option<Date>
        ensures { MatchOption result (is_date octets.now ≡ false)
            (λ date. (date ≡ octets.now) × (is_date date ≡ true)) }
    {
        if !is_date(octets) {
            return None;
        }
        match <[u8; 19]>::try_from(octets) {
            Ok(octets) => Some(Date { octets }),
            Err(_) => None,
        }
    }

    /// Its 19 octets, such as `2024-01-01_00:00:00`.
    pub fn as_slice(&self) -> &[u8]
        ensures { result.now ≡ self.now }
    {
        &self.octets
    }

    /// Whether this moment is not after the other. The octets are compared from the left: the fields have fixed widths, and the year comes
    /// first.
    pub fn upto(&self, other: &Date) -> bool
        ensures { result ≡ upto self.now other.now }
    {
        self.octets.as_slice().cmp(&other.octets.as_slice()).is_le()
    }
}
