//! Subjects and entries.

ghost use Rattle.std.specs.Prelude.{◌≡◌};

use crate::names::Names;
use crate::principal::Principal;
use crate::window::Window;
use spki_tag::Tag;
use std::alloc::AllocError;

/// The subject of an authorization, or of the definition of a name (RFC 2693, sections 6.1 and 6.2): a principal, or a name in the name
/// space of one.
#[derive(Drop)]
pub struct Subject<'a> {
    /// The principal itself, or the one in whose name space the first name is defined.
    pub principal: Principal<'a>,
    /// The names after the principal. There are none if the principal itself is the subject.
    pub names: Names<'a>,
}

/// A copy has the same principal and the same names.
impl<'a> Clone for Subject<'a> {
    ghost is_clone = { λ subject copy. copy ≡ subject };

    /// Returns a copy. Only the names that were put in front (see `Names`) are copied: both share the names that were read, and borrow the
    /// octets. Err if memory ran out, or if a shared part has too many owners to count.
    fn clone(&self) -> Result<Subject<'a>, AllocError> {
        Ok(Subject {
            principal: self.principal.share(),
            names: self.names.clone()?,
        })
    }
}

/// An entry of an access list (RFC 2693, section 3.4): what the owner of the list lets a subject do.
#[derive(Drop)]
pub struct Entry<'a> {
    /// The subject.
    pub subject: Subject<'a>,
    /// Whether the subject may delegate the authorization.
    pub propagate: bool,
    /// The requests that are authorized.
    pub tag: Tag,
    /// The moments at which they are authorized.
    pub window: Window,
}
