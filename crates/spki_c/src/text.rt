//! Texts that C passes.
ghost use Rattle.std.specs.Prelude.{◌≡◌, ◌↔◌, ℕ, ◌<◌, List, length, IsTrue};
ghost use denote.RawPtr.{null_ptr};
ghost use Rattle.spki_c.specs.Pointers.{text_owns, lent_count};

use std::marker::Model;

/// A text as C passes it, `struct spki_text`: a pointer to octets, and the number of octets that the caller states. `is_lent`
/// tests both. The octets last at least as long as the call. The functions take `&mut self`, which their proofs need, and change
/// nothing.
#[repr(C)]
#[derive(Drop)]
pub struct Text {
    /// Where the octets are. The pointer may be null.
    pub(crate) at: *const u8,
    /// How many octets the caller states.
    pub(crate) count: usize,
    /// The octets that are lent, for contracts: none if the pointer is null, or if memory cannot have as many as `count`.
    pub ghost octets: { List ℕ },
}

impl Model for Text {
    ghost also_owns = { λ t. text_owns t.at t.count t.octets };
}

impl Text {
    /// The number of octets that the caller states, `length` of `struct spki_text`, also if they are not lent (`is_lent`).
    pub(crate) fn count(&mut self) -> usize
        ensures { (self.new ≡ self.old) × (result ≡ self.old.count) × (length self.old.octets ≡ lent_count self.old.at self.old.count) }
    {
        self.count
    }

    /// Whether the pointer is null.
    pub(crate) fn is_null(&mut self) -> bool
        ensures { (self.new ≡ self.old) × (IsTrue result ↔ (self.old.at ≡ null_ptr)) }
    {
        let at = self.at;
        at.is_null()
    }

    /// The octets of the text. `count` must be their number, and not 0. By `text_owns`, which holds for every `Text`, they may then be read at
    /// the pointer. Only the method `octets` calls this: it also takes a text of no octets, whose pointer may be null.
    pub(crate) fn slice(&mut self, count: usize) -> &[u8]
        requires { (count ≡ length self.old.octets) × (0 < count) }
        ensures { result.now ≡ self.entry.now.octets }
    {
        let at = self.at;
        unsafe { std::slice::from_raw_parts(at, count) }
    }
}
