//! Ranges of strings (RFC 2693, section 6.3.1), and their intersection.

ghost use Rattle.std.specs.Prelude.{◌≡◌, option_map};
ghost use Rattle.spki_tag.specs.{Limits.{limit_of, ordering_of}, Meet.{exclude, ordering_meet}};

use crate::leaf::{Limit, RangeOrdering, copied_limit};
use crate::limit_intersection::{exclude, is_greater_low, is_lesser_up};
use std::alloc::AllocError;

/// A range: an ordering and at most two limits. Limits exclude each other if the lower one is above the upper one, or if their strings are
/// equal and one of them is strict.
#[derive(Drop)]
pub(crate) struct Range {
    /// Which strings the range may contain at all.
    pub(crate) ordering: RangeOrdering,
    /// Whether the limits exclude each other. It is set when the range is made, so that no intersection compares them again.
    excluded: bool,
    /// The lower limit. None if there is none.
    pub(crate) low: Option<Limit>,
    /// The upper limit. None if there is none.
    pub(crate) up: Option<Limit>,
    ghost known: { excluded ≡ exclude (limit_of low) (limit_of up) },
}

/// The ordering of the strings that both orderings allow. `Alpha` allows any. None for a time and a date, since no string is both.
fn common_ordering(one: RangeOrdering, other: RangeOrdering) -> Option<RangeOrdering>
    ensures { option_map ordering_of result ≡ ordering_meet (ordering_of one) (ordering_of other) }
{
    match one {
        RangeOrdering::Alpha => Some(other),
        RangeOrdering::Time => match other {
            RangeOrdering::Alpha => Some(one),
            RangeOrdering::Time => Some(one),
            RangeOrdering::Date => None,
        },
        RangeOrdering::Date => match other {
            RangeOrdering::Alpha => Some(one),
            RangeOrdering::Time => None,
            RangeOrdering::Date => Some(one),
        },
    }
}

impl Range {
    ghost use Rattle.std.specs.Prelude.{false, IfOk, Some};
    ghost use Rattle.spki_tag.specs.{Leaves.{range_tag, range_or_nothing}, Meet.{greater_low, lesser_up, ranged}, Tag.{range}};

    /// The range of an ordering with these limits. They are compared here, to keep in `excluded` whether they exclude each other. They may:
    /// then the range contains nothing.
    pub(crate) fn of(ordering: RangeOrdering, low: Option<Limit>, up: Option<Limit>) -> Range
        ensures { range_tag result ≡ range (ordering_of ordering) (limit_of low) (limit_of up) }
    {
        Range {
            ordering,
            excluded: exclude(&low, &up),
            low,
            up,
        }
    }

    /// The range of an ordering with these limits, for a caller that knows that they do not exclude each other. So they are not compared.
    pub(crate) fn between(ordering: RangeOrdering, low: Option<Limit>, up: Option<Limit>) -> Range
        requires { exclude (limit_of low) (limit_of up) ≡ false }
        ensures { range_tag result ≡ range (ordering_of ordering) (limit_of low) (limit_of up) }
    {
        Range {
            ordering,
            excluded: false,
            low,
            up,
        }
    }

    /// Returns the range of an ordering with copies of these limits. None if `excluded`, which must be true exactly if the limits exclude
    /// each other. Err if a shared part has too many owners to count.
    fn with_copied_limits(
        excluded: bool,
        ordering: RangeOrdering,
        low: &Option<Limit>,
        up: &Option<Limit>,
    ) -> Result<Option<Range>, AllocError>
        requires { excluded ≡ exclude (limit_of low.now) (limit_of up.now) }
        ensures { IfOk result (λ r. range_or_nothing r
            ≡ ranged (Some (ordering_of ordering)) (limit_of low.now) (limit_of up.now)) }
    {
        if excluded {
            return Ok(None);
        }
        Ok(Some(Range::between(ordering, copied_limit(low)?, copied_limit(up)?)))
    }

    /// Returns the intersection of two ranges: the range with the common ordering, the greater lower limit and the lesser upper limit. None
    /// if one ordering is of times and the other of dates, or if these two limits exclude each other; if both are of one range, its field
    /// `excluded` is used. A limit is compared only with limits of the other range, and each comparison reads at most the octets of the
    /// shorter one. So at most twice the octets of the limits of either range are read. Err if a shared part has too many owners to count.
    pub(crate) fn meet(&self, other: &Range) -> Result<Option<Range>, AllocError>
        ensures { IfOk result (λ r. range_or_nothing r
            ≡ ranged (ordering_meet (ordering_of self.now.ordering) (ordering_of other.now.ordering))
            (greater_low (limit_of self.now.low) (limit_of other.now.low))
            (lesser_up (limit_of self.now.up) (limit_of other.now.up))) }
    {
        let Some(ordering) = common_ordering(self.ordering, other.ordering) else {
            return Ok(None);
        };
        // Whether the greater lower limit is that of `self`.
        let own_low = is_greater_low(&self.low, &other.low);
        if is_lesser_up(&self.up, &other.up) {
            if own_low {
                Range::with_copied_limits(self.excluded, ordering, &self.low, &self.up)
            } else {
                Range::with_copied_limits(
                    exclude(&other.low, &self.up),
                    ordering,
                    &other.low,
                    &self.up,
                )
            }
        } else if own_low {
            Range::with_copied_limits(
                exclude(&self.low, &other.up),
                ordering,
                &self.low,
                &other.up,
            )
        } else {
            Range::with_copied_limits(other.excluded, ordering, &other.low, &other.up)
        }
    }
}
