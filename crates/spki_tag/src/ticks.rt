//! Counts of steps, which exist only in contracts and cost nothing at run time.

ghost use Rattle.std.specs.Prelude.{◌≡◌, ◌+◌, ◌<◌};

use std::marker::Model;
use std::sync::ledger::{Blank, Book, Ledger, Share};

/// A count of steps, which are ticks. It takes no octets and no time, since it exists only in contracts. Only `tick` and `read` change it, and they
/// only add. In a contract it is a number.
///
/// A function whose name ends with `_counted` adds to the count of its caller. One whose name ends with `_with_new_count` makes a count for
/// a caller that has none. It is a function of its own because a count needs a type `L`, which tells it from other counts, and `L` has a name
/// only in a generic function. The caller of that one writes `Brand` for `L`.
#[derive(Drop)]
pub struct Ticks<L: Ledger> {
    /// The total of a ledger: the toolchain's name for a sum that exists only in contracts.
    book: Book<L>,
    /// A part of the ledger. Only with one may anything be added.
    share: Share<L>,
}

impl<L: Ledger> Model for Ticks<L> {
    ghost use Rattle.std.specs.Prelude.{ℕ, ◌<◌};

    ghost Value = { ℕ };

    ghost view = { λ t. t.book.total };

    ghost invariant = { λ t. 0 < t.share.parts };
}

impl<L: Ledger> Ticks<L> {
    /// A count of 0. `blank` is a new ledger of the toolchain, in which the count is kept. It must be that of `L`.
    pub fn new(blank: Blank) -> Ticks<L>
        requires name { blank.name ≡ L.name }
        requires parts { blank.parts ≡ L.parts }
        requires some { 0 < blank.parts }
        ensures { result ≡ 0 }
    {
        let (book, share) = blank.open::<L>();
        Ticks { book, share }
    }

    /// Adds 1, for a tag or another value that is looked at or copied.
    pub fn tick(&mut self)
        ensures { self.new ≡ self.old + 1 }
    {
        self.book.add(&mut self.share, 1);
    }

    /// Adds `octets`, a number of octets that are read or compared. Callers also count the members that are copied, and names, by this.
    pub fn read(&mut self, octets: usize)
        ensures { self.new ≡ self.old + octets }
    {
        self.book.add(&mut self.share, octets as u64);
    }
}
