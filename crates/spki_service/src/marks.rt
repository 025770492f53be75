//! Marks by which a service says which of the listed signatures are valid: a bool for each place in the list, true where there is a mark.

ghost use Rattle.std.specs.Prelude.{◌≡◌, ◌↔◌, ◌<◌, ◌≤◌, ◌+◌, length, false, IsTrue, IfOk, IfNone};
ghost use Rattle.spki_service.specs.GuardQuestions.{IsMarked, NoneMarked, IsMarkedToo, IsFirstUnmarked};

use spki_tag::Ticks;
use std::alloc::{AllocError, Global};
use std::marker::Brand;
use std::sync::ledger::{Blank, Ledger};

/// Returns `count` places for marks, one for each listed signature, without any mark. Err if memory ran out.
pub(crate) fn no_marks(alloc: Global, count: usize) -> Result<Vec<bool>, AllocError>
    ensures counted { IfOk result (λ marks. length marks.items ≡ count) }
    ensures none { IfOk result (λ marks. NoneMarked marks.items) }
{
    Ok(vec![in alloc; false; count]?)
}

/// Marks a place, counted from 0. Returns false, and changes nothing, if there is no such place.
pub(crate) fn mark_at(marks: &mut [bool], place: usize) -> bool
    ensures there { IsTrue result ↔ (place < length marks.old) }
    ensures marked { IsTrue result → IsMarkedToo marks.old place marks.new }
    ensures same { result ≡ false → marks.new ≡ marks.old }
{
    if place >= marks.len() {
        return false;
    }
    marks[place] = true;
    true
}

/// The first place, from 0 and below `count`, without a mark. None if each of these places has one. `count` is the number of listed
/// signatures.
pub(crate) fn first_unmarked(count: usize, marks: &[bool]) -> Option<usize>
    ensures { IsFirstUnmarked count marks.now result }
{
    // `Brand` and `Blank` are for a count of operations (ticks), which only contracts see and which costs no time: see `Ticks`.
    first_unmarked_with_new_count::<Brand>(count, marks, Blank::new(1))
}

/// Does the work of `first_unmarked`, for `count` places: calls `first_unmarked_counted` with a new count of ticks (operations that contracts count).
/// The new count exists only in contracts, and is dropped afterwards. `blank` is a new ledger of the toolchain, to keep it in, and must be that of
/// `L`. `L` has a name only in a generic function, such as this one: its caller writes `Brand` for it.
fn first_unmarked_with_new_count<L: Ledger>(
    count: usize,
    marks: &[bool],
    blank: Blank,
) -> Option<usize>
    requires name { blank.name ≡ L.name }
    requires parts { blank.parts ≡ L.parts }
    requires some { 0 < blank.parts }
    ensures { IsFirstUnmarked count marks.now result }
{
    first_unmarked_counted(count, marks, &mut Ticks::<L>::new(blank))
}

/// The first place, from 0 and below `count`, without a mark, as `first_unmarked`. None if each of these places has one. Each place that is
/// looked at adds 1 to `ticks`, a count that exists only in contracts.
pub(crate) fn first_unmarked_counted<L: Ledger>(
    count: usize,
    marks: &[bool],
    ticks: &mut Ticks<L>,
) -> Option<usize>
    ensures answer { IsFirstUnmarked count marks.now result }
    ensures cost { ticks.new ≤ ticks.old + count }
    ensures each { IfNone result (ticks.old + count ≤ ticks.new) }
{
    for place in 0..count {
        ticks.tick();
        if !is_marked(marks, place) {
            return Some(place);
        }
    }
    None
}

/// Whether a place, from 0, has a mark. False if there is no such place.
fn is_marked(marks: &[bool], place: usize) -> bool
    ensures { IsTrue result ↔ IsMarked marks.now place }
{
    match marks.get(place) {
        None => false,
        Some(mark) => *mark,
    }
}
