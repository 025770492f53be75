//! The exported functions for guards that a caller holds, and the one that frees guards and questions. `spki.c` calls them.
//! `alloc` has no octets, so C passes nothing for it. For a slice C passes a pointer and the number of values.
ghost use Rattle.std.specs.Prelude.{◌≡◌, ◌≢◌, ◌⊎◌, None, Some, IsSome, length};
ghost use Rattle.spki_c.specs.{declared.handle_value.HandleValue.{HandleValue}, HandleValues.{IsClosed}};
ghost use Rattle.spki_c.specs.{Guards.{policy_number, numbers_in, AreAllowed, IsOpened, IsUnopened}, Results.{IsMisuse}, Asking.{IsLent}};
ghost use Rattle.spki_cert.specs.declared.principal.Policy.{Policy};
ghost use Rattle.spki_service.specs.AccessLists.{GuardModel};

use crate::box_pointer::BoxPointer;
use crate::buffer::{hand_over, misused};
use crate::guards::{policy_of, read_guard};
use crate::handle::{BorrowedHandle, Handle};
use crate::handle_value::HandleValue;
use crate::limits::{LimitParts, limits_of};
use crate::numbers::{DONE, REFUSED};
use crate::text::Text;
use spki_guard::refused_list;
use std::alloc::Global;

/// Reads an access list, in any of the three forms, into a guard on the heap. The caller holds the guard by `handle`, which
/// must own nothing before. The limits of questions to the guard are the first of `limits`, or the default ones if there are none.
///
/// Returns `DONE` (6) if the handle owns the guard. Otherwise the handle is unchanged. Returns `REFUSED` (2) if the list is
/// refused or memory ran out: the line that says so is at the front of the buffer. Returns `TOO_SMALL` (4) if the buffer is too
/// small for that line. Returns `MISUSED` (5) if no policy has this number (0 is strict, 1 is open: `policy_of`), a limit is too high
/// (`limits_of`), or the list has octets at a null pointer or more than memory can have (`Text::is_lent`). The buffer is unchanged except
/// with `REFUSED`. `needed` is the length of the line in octets with `REFUSED` and `TOO_SMALL`, otherwise 0.
#[unsafe(no_mangle)]
pub extern "C" fn spki_c_guard_open(
    alloc: Global,
    mut list: Text,
    policy: u32,
    limits: &[LimitParts],
    handle: &mut Handle,
    buffer: &mut [u8],
    needed: &mut usize,
) -> u32
    requires empty { handle.old.held ≡ None }
    ensures opened { (p : Policy) → policy ≡ policy_number p → AreAllowed (numbers_in limits.now) → IsLent list
        → IsOpened list.octets p (numbers_in limits.now) handle.new.held buffer.old buffer.new needed.new result
        ⊎ IsUnopened list.octets handle.old handle.new buffer.old buffer.new needed.new result }
    ensures policy { ((p : Policy) → policy ≢ policy_number p)
        → (handle.new ≡ handle.old) × IsMisuse buffer.old buffer.new needed.new result }
    ensures limits { ¬ AreAllowed (numbers_in limits.now)
        → (handle.new ≡ handle.old) × IsMisuse buffer.old buffer.new needed.new result }
    ensures unlent { ¬ IsLent list → (handle.new ≡ handle.old) × IsMisuse buffer.old buffer.new needed.new result }
{
    if !list.is_lent() {
        return misused(needed);
    }
    let Some(policy) = policy_of(policy) else {
        return misused(needed);
    };
    let Some(limits) = limits_of(limits) else {
        return misused(needed);
    };
    match read_guard(alloc, list.octets(), policy, limits) {
        Ok(guard) => {
            handle.hold(BoxPointer::of(guard));
            *needed = 0;
            DONE
        }
        Err(fault) => hand_over(refused_list(alloc, fault), REFUSED, buffer, needed),
    }
}

/// Frees what `handle` owns, if that is of the wanted kind: a question if `is_question` is true, otherwise a guard. The call takes
/// over what the handle owns. So if it is of the other kind, it is returned by `back`, and not freed: a close of the wrong kind
/// has no effect. `handle` must own something, and `back` nothing before.
#[unsafe(no_mangle)]
pub extern "C" fn spki_c_close(alloc: Global, is_question: bool, handle: Handle, back: &mut Handle)
    requires held { IsSome handle.held }
    requires empty { back.old.held ≡ None }
    ensures { (c : HandleValue) → handle.held ≡ Some c → IsClosed is_question c back.new.held }
{
    let content = handle.take(alloc).into_box();
    if content.is_question() == is_question {
        drop(content);
    } else {
        back.hold(BoxPointer::of(content));
    }
}

/// The number of entries of the access list of a guard. `lent` is the handle of the guard. 0 if it is that of a question.
#[unsafe(no_mangle)]
pub extern "C" fn spki_c_guard_entries(lent: &mut BorrowedHandle) -> usize
    ensures entries { (g : GuardModel) → lent.old.content ≡ HandleValue.Guard g → result ≡ length g.texts }
    ensures other { ((g : GuardModel) → lent.old.content ≢ HandleValue.Guard g) → result ≡ 0 }
{
    match lent.content().guard() {
        Some(guard) => guard.guard().entries(),
        None => 0,
    }
}
