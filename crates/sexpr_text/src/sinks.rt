//! Where printed octets go: a vector, a count, or a sink that another crate defines.

ghost use Rattle.std.specs.Prelude.{◌≡◌, ℕ, List, [], ◌∷◌, ◌++◌, Bool, true, false, OnOk, OnErr};
ghost use Rattle.sexpr_text.specs.Sinks.{VectorTakes, IsCounted, lender_of, text_of, has_failed, count_of, is_at_end, vector_takes_nothing, vector_takes_both, vector_stays, nothing_counted, both_counted, counter_stays};

use std::alloc::AllocError;

/// Takes octets, one piece after another. Printing returns no error: a sink that can fail keeps the failure, and
/// reports it in a method of its own, such as `VectorSink::end`, whatever is put after the failure.
pub trait Sink {
    // What it means that a sink takes octets: the sink before, the octets, and the sink after.
    ghost takes: { Self → List ℕ → Self → Type 0 };

    // Whether the sink is full: what is put from now on does not matter.
    ghost full: { Self → Bool };

    /// Takes octets, after all that were put before. A sink that is full, or that fails at them, may drop them.
    fn put(&mut self, octets: &[u8])
        ensures { takes self.old octets.now self.new };

    /// Takes one octet, after all that were put before. A sink that is full, or that fails at it, may drop it.
    fn put_octet(&mut self, octet: u8)
        ensures { takes self.old (octet ∷ []) self.new };

    /// Whether the sink is full: what is put from now on does not matter, as after a failure. Then a printer may stop
    /// early.
    fn is_full(&self) -> bool
        ensures { result ≡ full self.now };

    // An unchanged sink counts as one that has taken no octets, and if it is full, also as one that has taken any. Two pieces are
    // taken as one that joins them.
    ghost nothing: { (s : Self) → takes s [] s };

    ghost both: { (a b c : Self) (x y : List ℕ) → takes a x b → takes b y c → takes a (x ++ y) c };

    ghost stays: { (s : Self) → full s ≡ true → (octets : List ℕ) → takes s octets s };
}

/// Appends octets to a vector, and keeps those that it had. If no allocation failed, they are followed by exactly what was put.
pub struct VectorSink<'v> {
    /// The vector to which octets are appended.
    octets: &'v mut Vec<u8>,
    /// Whether memory ran out for some octets.
    failed: bool,
}

impl<'v> VectorSink<'v> {
    /// A sink that appends to this vector.
    pub fn new(octets: &'v mut Vec<u8>) -> VectorSink<'v>
        ensures lender { lender_of result ≡ octets.entry.ghost_name }
        ensures text { text_of result ≡ octets.old.items }
        ensures failed { has_failed result ≡ false }
    {
        VectorSink {
            octets,
            failed: false,
        }
    }

    /// Ends the sink. Ok if the vector has all octets that were put.
    ///
    /// # Errors
    ///
    /// `AllocError` if memory ran out for some octets. Then the vector lacks them.
    pub fn end(self) -> Result<(), AllocError>
        ensures text { self.exit.0.now.items ≡ text_of self.entry }
        ensures ok { OnOk result (has_failed self.entry ≡ false) }
        ensures err { OnErr result (has_failed self.entry ≡ true) }
    {
        let VectorSink { octets: _, failed } = self;
        if failed {
            return Err(AllocError);
        }
        Ok(())
    }
}

impl<'v> Sink for VectorSink<'v> {
    ghost takes = { VectorTakes };

    ghost full = { has_failed };

    /// Appends octets to the vector. If memory runs out, the sink notes it for `end`. Octets of later calls may still
    /// be appended.
    fn put(&mut self, octets: &[u8]) {
        if self.octets.extend_from_slice(octets).is_err() {
            self.failed = true;
        }
    }

    /// Appends one octet to the vector. If memory runs out, the sink notes it for `end`. Octets of later calls may
    /// still be appended.
    fn put_octet(&mut self, octet: u8) {
        if self.octets.push(octet).is_err() {
            self.failed = true;
        }
    }

    /// Whether memory ran out: the vector lacks some octets, so that printing more is of no use.
    fn is_full(&self) -> bool {
        self.failed
    }

    ghost nothing = { vector_takes_nothing };

    ghost both = { vector_takes_both };

    ghost stays = { vector_stays };
}

/// Counts the octets that are put, and keeps none of them: a printer with this sink measures a text without writing it.
#[derive(Clone, Copy, Debug)]
pub struct Counter {
    /// How many octets were put, up to the greatest `u64`.
    count: u64,
}

impl Counter {
    /// A counter at 0.
    pub fn new() -> Counter
        ensures { count_of result ≡ 0 }
    {
        Counter { count: 0 }
    }

    /// How many octets were put. The count stops at the greatest `u64`.
    pub fn count(&self) -> u64
        ensures { result ≡ count_of self.now }
    {
        self.count
    }
}

impl Sink for Counter {
    ghost takes = { IsCounted };

    ghost full = { is_at_end };

    /// Adds the number of these octets to the count, up to the greatest `u64`.
    fn put(&mut self, octets: &[u8]) {
        self.count = self.count.saturating_add(octets.len() as u64);
    }

    /// Adds one to the count, up to the greatest `u64`. Which octet was put does not matter.
    fn put_octet(&mut self, _octet: u8) {
        self.count = self.count.saturating_add(1);
    }

    /// Whether the count is the greatest `u64`, where it stops.
    fn is_full(&self) -> bool {
        self.count == u64::MAX
    }

    ghost nothing = { nothing_counted };

    ghost both = { both_counted };

    ghost stays = { counter_stays };
}
