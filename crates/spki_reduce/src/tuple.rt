//! Tuples (RFC 2693, sections 6.1 and 6.2).

ghost use Rattle.std.specs.Prelude.{◌≡◌};

use spki_cert::{Key, Octets, Subject, Window};
use spki_tag::Tag;

/// The issuer of an authorization.
#[derive(Drop)]
pub enum Issuer<'a> {
    /// The owner of the access list, whom RFC 2693 calls Self.
    Own,
    /// The holder of a key.
    Key(Key<'a>),
}

/// A 5-tuple (RFC 2693, section 6.1): an authorization, from its issuer to its subject.
#[derive(Drop)]
pub struct Five<'a> {
    /// The issuer.
    pub issuer: Issuer<'a>,
    /// The subject.
    pub subject: Subject<'a>,
    /// Whether the subject may delegate the authorization: RFC 2693's delegation.
    pub propagate: bool,
    /// The requests that are authorized.
    pub tag: Tag,
    /// The moments at which they are authorized.
    pub window: Window,
}

/// A 4-tuple (RFC 2693, section 6.2): a definition of a name, in the name space of a key.
#[derive(Drop)]
pub struct Four<'a> {
    /// The key in whose name space the name is defined.
    pub key: Key<'a>,
    /// The name.
    pub name: Octets<'a>,
    /// The subject that the name means.
    pub subject: Subject<'a>,
    /// The moments at which the definition applies.
    pub window: Window,
}

/// A 5-tuple or a 4-tuple: what a certificate adds to a chain.
#[derive(Drop)]
pub enum Step<'a> {
    /// An authorization certificate's 5-tuple.
    Auth(Five<'a>),
    /// A name certificate's 4-tuple.
    Name(Four<'a>),
}

impl<'a> Issuer<'a> {
    /// Returns the same issuer again, for another tuple. Allocates nothing, since a key borrows its octets.
    pub fn share(&self) -> Issuer<'a>
        ensures { result ≡ self.now }
    {
        match self {
            Issuer::Own => Issuer::Own,
            Issuer::Key(key) => Issuer::Key(key.share()),
        }
    }
}
