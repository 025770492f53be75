//! What a decision grants, and until when.

ghost use Rattle.std.specs.Prelude.{◌≡◌};
ghost use Rattle.spki_decision.specs.Until.{decision_of};

use crate::decision::Decision;
use spki_cert::Date;

/// A yes: which entry grants the request, and until when.
#[derive(Clone, Copy, Debug)]
pub struct Grant {
    /// This entry, counted from 1, grants the request, and no entry before it does.
    pub entry: usize,
    /// The least not-after of this entry's window and of those of all certificates, definitions of names too. None if none of them ends. At
    /// each later moment up to this one the same question is a yes, by this entry or an earlier one. After it this entry does not grant.
    pub until: Option<Date>,
}

impl Grant {
    /// The decision that a grant stands for, without the date until which it holds: `Yes` with its entry, or `No` if `grant` is None.
    pub fn decision(grant: Option<Grant>) -> Decision
        ensures { result ≡ decision_of grant }
    {
        match grant {
            Some(grant) => Decision::Yes(grant.entry),
            None => Decision::No,
        }
    }
}
