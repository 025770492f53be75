//! Windows of validity (RFC 2693, section 6.3.2).

use crate::date::Date;
use crate::limit::{earlier, is_from, is_in_order, is_until, later, prove_limit};

/// The moments from a first to a last one, both included. A missing limit does not limit. If the first is after the last, the window
/// contains no moment.
#[derive(Clone, Copy, Debug)]
pub struct Window {
    /// The first moment. None if all moments until the last are in the window.
    pub not_before: Option<Date>,
    /// The last moment. None if all moments from the first are in the window.
    pub not_after: Option<Date>,
}

impl Window {
    ghost use Rattle.std.specs.Prelude.{◌≡◌, IfSome, IfNone};
    ghost use Rattle.spki_cert.specs.Time.{IsLimit, within, meet_of, IsMeet, Overlap, AreApart};

    /// A fact for the prover: the limits of a window are dates, however the window was made. Does nothing.
    pub fn prove_limits(&self)
        ensures begins { IsLimit self.now.not_before }
        ensures ends { IsLimit self.now.not_after }
    {
        prove_limit(self.not_before);
        prove_limit(self.not_after);
    }

    /// Whether the moment is within the window. Both limits are included. Allocates nothing.
    pub fn holds(&self, moment: &Date) -> bool
        ensures { result ≡ within moment.now self.now }
    {
        is_from(self.not_before, moment) && is_until(self.not_after, moment)
    }

    /// The window of the moments within both: from the later not-before to the earlier not-after. None if there is no such
    /// moment. Allocates nothing.
    pub fn meet(&self, other: &Window) -> Option<Window>
        // Which window it is.
        ensures limits { result ≡ meet_of self.now other.now }
        // It has exactly the moments of both.
        ensures moments { IfSome result (λ met. IsMeet self.now other.now met) }
        // None is returned exactly if there is no such moment.
        ensures some { IfSome result (λ _. Overlap self.now other.now) }
        ensures none { IfNone result (AreApart self.now other.now) }
    {
        let first = later(self.not_before, other.not_before);
        let last = earlier(self.not_after, other.not_after);
        if is_in_order(&first, &last) {
            Some(Window {
                not_before: first,
                not_after: last,
            })
        } else {
            None
        }
    }
}
