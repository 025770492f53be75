//! Until when a yes holds, as a number of seconds.
ghost use Rattle.std.specs.Prelude.{◌≡◌, ◌≢◌, negsuc};
ghost use Rattle.spki_c.specs.Until.{number_of};

use crate::numbers::YES;
use spki_guard::{Grant, last_second};

/// The last second, since 1970-01-01 00:00:00 UTC, at which the yes of `spki_c_asked_answer` holds. `status` is what that call
/// returns, and `grant` is the entry that grants the request, and until when. Returns the last second of the year 9999 if no window
/// of the entry or of a certificate ends: no later moment can be asked. Returns `i64::MIN` if the status is not `YES`, also if the
/// buffer is too small for the line of a yes, and for `YES` without a grant, which that call never passes.
pub(crate) fn until_number(status: u32, grant: Option<Grant>) -> i64
    ensures yes { status ≡ 9 → result ≡ number_of grant }
    ensures other { status ≢ 9 → result ≡ negsuc 9_223_372_036_854_775_807 }
{
    if status != YES {
        return i64::MIN;
    }
    match grant {
        None => i64::MIN,
        Some(grant) => match grant.until {
            None => 253_402_300_799,
            Some(date) => last_second(&date),
        },
    }
}
