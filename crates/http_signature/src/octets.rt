//! Octets of a request.

ghost use Rattle.std.specs.{Prelude.{◌≡◌, ℕ, List, reverse}, Str.{bytes_eq}};
ghost use Rattle.http_signature.specs.Texts.{trim_start, trimmed, lower};

use std::marker::Model;

/// Octets of a request, which they borrow: a name, a value or a part of one.
#[derive(Drop)]
pub struct Octets<'a> {
    octets: &'a [u8],
}

impl<'a> Model for Octets<'a> {
    ghost use Rattle.std.specs.Prelude.{ℕ, List};

    ghost Value = { List ℕ };

    ghost view = { λ o. o.octets.now };
}

impl<'a> Octets<'a> {
    /// The octets of a slice, which are borrowed.
    pub fn new(octets: &'a [u8]) -> Octets<'a>
        ensures { result ≡ octets.now }
    {
        Octets { octets }
    }

    /// The octets as a slice.
    pub fn as_slice(&self) -> &'a [u8]
        ensures { result.now ≡ self.now }
    {
        self.octets
    }

    /// Returns the same octets again, borrowed from the same request. Allocates nothing.
    pub fn share(&self) -> Octets<'a>
        ensures { result ≡ self.now }
    {
        Octets {
            octets: self.octets,
        }
    }

    /// Whether they are these octets.
    pub(crate) fn is(&self, octets: &[u8]) -> bool
        ensures { result ≡ bytes_eq self.now octets.now }
    {
        self.octets == octets
    }

    /// Whether they are this name in any case.
    #[tactic(auto, using(crate::proofs::Texts::same_text))]
    pub(crate) fn is_name(&self, name: &[u8]) -> bool
        ensures { result ≡ bytes_eq (lower self.now) (lower name.now) }
    {
        self.octets.eq_ignore_ascii_case(name)
    }

    /// Without the spaces and tabs around them.
    pub(crate) fn trimmed(&self) -> Octets<'a>
        ensures { result ≡ trimmed self.now }
    {
        Octets {
            octets: without_trailing(without_leading(self.octets)),
        }
    }
}

/// Octets without the spaces and tabs in front.
fn without_leading(octets: &[u8]) -> &[u8]
    ensures { result.now ≡ trim_start octets.entry.now }
{
    let mut rest = octets;
    while let [b' ' | b'\t', others @ ..] = rest {
        rest = others;
    }
    rest
}

/// Octets without the spaces and tabs at the end.
fn without_trailing(octets: &[u8]) -> &[u8]
    ensures { result.now ≡ reverse (trim_start (reverse octets.entry.now)) }
{
    let mut rest = octets;
    while let [others @ .., b' ' | b'\t'] = rest {
        rest = others;
    }
    rest
}
