//! The octets of texts that C passes, and the test that they may be read.
ghost use Rattle.std.specs.Prelude.{◌≡◌, ◌↔◌, IsTrue, IfOk, IfErr, All, map};
ghost use Rattle.spki_c.specs.{Asking.{IsLent}, Readables.{AreReadable}};

use crate::readable::{Readable, TextSpan};
use crate::text::Text;
use std::alloc::{AllocError, Global};

/// The most octets that memory can have in one piece.
const MAX_SIZE: usize = 9_223_372_036_854_775_807;

/// Why the texts of an array cannot be read.
pub(crate) enum TextsFault {
    /// A text is not lent whole (`Text::is_lent`).
    Unlent,
    /// Memory ran out.
    Memory,
}

impl Text {
    /// Whether the text is lent whole: its count is 0, or the pointer is not null and the count is at most
    /// 9,223,372,036,854,775,807, the most that memory can have.
    pub(crate) fn is_lent(&mut self) -> bool
        ensures { (self.new ≡ self.old) × (IsTrue result ↔ IsLent self.old) }
    {
        let count = self.count();
        count == 0 || (count <= MAX_SIZE && !self.is_null())
    }

    /// The octets of the text. It must be lent whole (`is_lent`). The pointer of an empty text is not used, since it may be null.
    pub(crate) fn octets(&mut self) -> &[u8]
        requires { IsLent self.old }
        ensures { result.now ≡ self.entry.now.octets }
    {
        let count = self.count();
        if count == 0 { &[] } else { self.slice(count) }
    }
}

/// Returns the texts at `spans`, in order: the strings of a request. `readable` has the octets of these texts, for contracts
/// alone.
///
/// Err is `Unlent` if one of the texts is not lent whole, otherwise `Memory` if memory ran out. So if memory runs out for a text,
/// the texts behind it are still tested.
pub(crate) fn texts_at(
    alloc: Global,
    spans: &[TextSpan],
    readable: Readable,
) -> Result<Vec<Text>, TextsFault>
    requires { AreReadable spans.now readable.texts }
    ensures read { IfOk result (λ texts. (texts.items ≡ readable.texts) × All IsLent readable.texts) }
    ensures unlent { IfErr result (λ fault. fault ≡ TextsFault.Unlent ↔ ¬ All IsLent readable.texts) }
{
    let mut readable = readable;
    let mut texts = Vec::new(alloc);
    let mut is_kept = true;
    for span in spans {
        let mut text = readable.next(*span);
        if !text.is_lent() {
            return Err(TextsFault::Unlent);
        }
        is_kept = texts.push(text).is_ok() && is_kept;
    }
    if is_kept {
        Ok(texts)
    } else {
        Err(TextsFault::Memory)
    }
}

/// The octets of each text, in order, as `Question` takes the strings of a request. All texts must be lent whole. Err if memory
/// ran out.
pub(crate) fn words_of<'a>(
    alloc: Global,
    texts: &'a mut [Text],
) -> Result<Vec<&'a [u8]>, AllocError>
    requires { All IsLent texts.old }
    ensures { IfOk result (λ words. map (λ w. w.now) words.items ≡ map (λ t. t.octets) texts.entry.now) }
{
    let mut words = Vec::new(alloc);
    for text in texts.iter_mut() {
        words.push(text.octets())?;
    }
    Ok(words)
}
