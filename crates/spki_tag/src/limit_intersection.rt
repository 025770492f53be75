//! The intersection of limits of ranges.

ghost use Rattle.std.specs.Prelude.{◌≡◌, MatchBool};
ghost use Rattle.spki_tag.specs.{Limits.{limit_of}, Meet.{greater_low, lesser_up, exclude}};

use crate::leaf::{Limit, is_within};

/// Whether the greater of two lower limits is the first: its string is greater, or the strings are equal and it is strict. So `is_within`
/// is called with `!low.strict`: it is then true of equal strings exactly if `low` is strict. If one limit is missing, the greater is the
/// other. For two equal limits, or two missing ones, either answer is right.
pub(crate) fn is_greater_low(one: &Option<Limit>, other: &Option<Limit>) -> bool
    ensures { let greater = greater_low (limit_of one.now) (limit_of other.now) in
        MatchBool result (greater ≡ limit_of one.now) (greater ≡ limit_of other.now) }
{
    match one {
        None => false,
        Some(low) => match other {
            None => true,
            Some(second) => {
                is_within(!low.strict, second.octets.as_slice(), low.octets.as_slice())
            }
        },
    }
}

/// Whether the lesser of two upper limits is the first: its string is less, or the strings are equal and it is strict. So `is_within` is
/// called with `!up.strict`: it is then true of equal strings exactly if `up` is strict. If one limit is missing, the lesser is the other.
/// For two equal limits, or two missing ones, either answer is right.
pub(crate) fn is_lesser_up(one: &Option<Limit>, other: &Option<Limit>) -> bool
    ensures { let lesser = lesser_up (limit_of one.now) (limit_of other.now) in
        MatchBool result (lesser ≡ limit_of one.now) (lesser ≡ limit_of other.now) }
{
    match one {
        None => false,
        Some(up) => match other {
            None => true,
            Some(second) => {
                is_within(!up.strict, up.octets.as_slice(), second.octets.as_slice())
            }
        },
    }
}

/// Whether the lower limit is above the upper one, or they are equal and one of them is strict. Then no string is
/// within both. False if a limit is missing.
pub(crate) fn exclude(low: &Option<Limit>, up: &Option<Limit>) -> bool
    ensures { result ≡ exclude (limit_of low.now) (limit_of up.now) }
{
    match low {
        None => false,
        Some(low) => match up {
            None => false,
            Some(up) => {
                let strict = low.strict || up.strict;
                !is_within(strict, low.octets.as_slice(), up.octets.as_slice())
            }
        },
    }
}
