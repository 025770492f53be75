//! Writes answers into the buffers of a caller.
ghost use Rattle.std.specs.Prelude.{◌≡◌};
ghost use Rattle.spki_guard.specs.TextAnswers.{written_by};
ghost use Rattle.spki_c.specs.Results.{IsHanded};

use crate::numbers::{MISUSED, TOO_SMALL};
use spki_guard::Printed;

/// Writes an answer to the front of a buffer, frees the answer, and returns `status`. The rest of the buffer is unchanged.
///
/// If the buffer is too small, all of it is unchanged, and `TOO_SMALL` (4) is returned in place of `status`. In both cases
/// `needed` is set to the answer's length in octets.
pub fn hand_over(answer: Printed, status: u32, buffer: &mut [u8], needed: &mut usize) -> u32
    ensures { IsHanded buffer.old buffer.new needed.new result status (written_by answer) }
{
    let octets = answer.octets();
    *needed = octets.len();
    if buffer.len() < octets.len() {
        return TOO_SMALL;
    }
    buffer[..octets.len()].copy_from_slice(octets);
    status
}

/// Returns the status `MISUSED` (5), and sets `needed` to 0: a call that is misused has no answer.
pub fn misused(needed: &mut usize) -> u32
    ensures status { result ≡ 5 }
    ensures needed { needed.new ≡ 0 }
{
    *needed = 0;
    MISUSED
}
