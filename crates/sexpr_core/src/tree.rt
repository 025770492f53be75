//! S-expressions as owned trees.

ghost use Rattle.std.specs.Prelude.{◌≡◌, map, IfOk};
ghost use Rattle.sexpr_core.specs.Value.{plain, group, sexp_value};

use std::alloc::{AllocError, Global};

/// An S-expression (RFC 9804, sections 4 and 5): an octet string or a list.
#[derive(Drop)]
pub enum Sexp {
    /// An octet string.
    Atom(Atom),
    /// A list: its members, in order.
    List(Vec<Sexp>),
}

/// An octet string, with or without a display hint (RFC 9804, sections 4 and 4.6).
#[derive(Drop)]
pub struct Atom {
    /// The display hint: octets that say how to show the string, such as a media type. None if the string has no hint.
    /// An empty hint is a hint.
    pub hint: Option<Vec<u8>>,
    /// The octets.
    pub body: Vec<u8>,
}

impl Sexp {
    /// Returns a copy of the octets as a string without a display hint. Err if memory ran out.
    pub fn plain(alloc: Global, octets: &[u8]) -> Result<Sexp, AllocError>
        ensures { IfOk result (λ s. sexp_value s ≡ plain octets.now) }
    {
        let body = Vec::from_slice(alloc, octets)?;
        Ok(Sexp::Atom(Atom { hint: None, body }))
    }

    /// Returns the list with these members, in this order. It is the variant `List`, with a contract that states the
    /// value.
    pub fn list(members: Vec<Sexp>) -> Sexp
        ensures { sexp_value result ≡ group (map sexp_value members.items) }
    {
        Sexp::List(members)
    }
}
