//! The octets of a tag that is a string.

ghost use Rattle.std.specs.Prelude.{◌≡◌, IfOk};

use std::alloc::{AllocError, Global};
use std::marker::Model;
use std::slice;
use std::sync::ArcSlice;

/// The octets of a tag that is a string. Copies share them. No octet and a single one lie in the tag itself, since a block of memory
/// for them would take many times their octets. In a contract they are a list.
#[derive(Drop)]
pub(crate) struct StringOctets {
    /// The octets, or where they are shared.
    held: Held,
}

/// The octets of a string, by their number.
#[derive(Drop)]
enum Held {
    /// No octet.
    Nothing,
    /// One octet.
    One(u8),
    /// Two octets or more, in memory that copies share.
    Shared(ArcSlice<u8>),
}

impl Model for StringOctets {
    ghost use Rattle.std.specs.Prelude.{ℕ, List};
    ghost use Rattle.spki_tag.specs.StringOctets.{octets_of};

    ghost Value = { List ℕ };

    ghost view = { λ string. octets_of string.held };
}

impl StringOctets {
    /// A copy of these octets. Err if memory ran out.
    pub(crate) fn of(alloc: Global, octets: &[u8]) -> Result<StringOctets, AllocError>
        ensures { IfOk result (λ string. string ≡ octets.now) }
    {
        let held = match octets {
            [] => Held::Nothing,
            [octet] => Held::One(*octet),
            _ => Held::Shared(ArcSlice::from_slice(alloc, octets)?),
        };
        Ok(StringOctets { held })
    }

    /// The octets, in order.
    pub(crate) fn as_slice(&self) -> &[u8]
        ensures { result.now ≡ self.now }
    {
        match &self.held {
            Held::Nothing => &[],
            Held::One(octet) => slice::from_ref(octet),
            Held::Shared(octets) => octets.as_slice(),
        }
    }
}

/// A copy that shares the octets.
impl Clone for StringOctets {
    ghost is_clone = { λ s t. t ≡ s };

    /// Returns a copy. Err if a shared part has too many owners to count.
    fn clone(&self) -> Result<StringOctets, AllocError> {
        let held = match &self.held {
            Held::Nothing => Held::Nothing,
            Held::One(octet) => Held::One(*octet),
            Held::Shared(octets) => Held::Shared(octets.clone()?),
        };
        Ok(StringOctets { held })
    }
}
