//! Certificates, signatures and the items of a sequence.

use crate::entry::Subject;
use crate::hash::HashAlg;
use crate::key::Key;
use crate::octets::Octets;
use crate::principal::Principal;
use crate::window::Window;
use spki_tag::Tag;

/// An authorization certificate: its issuer lets its subject make the requests in its tag (RFC 2693, sections 3.3 and 6.1).
#[derive(Drop)]
pub struct AuthCert<'a> {
    /// The issuer: a key, or the hash of one.
    pub issuer: Principal<'a>,
    /// The subject. If it is written as a relative name, its principal is the issuer.
    pub subject: Subject<'a>,
    /// Whether the subject may delegate the authorization.
    pub propagate: bool,
    /// The requests that are authorized.
    pub tag: Tag,
    /// The moments at which they are authorized.
    pub window: Window,
    /// The certificate's canonical octets, which are signed.
    pub octets: Octets<'a>,
}

/// A name certificate: it defines a name in the name space of a principal (RFC 2693, section 6.2).
#[derive(Drop)]
pub struct NameCert<'a> {
    /// The principal in whose name space the name is defined.
    pub issuer: Principal<'a>,
    /// The name that is defined.
    pub name: Octets<'a>,
    /// The subject that the name means. If it is written as a relative name, its principal is the issuer.
    pub subject: Subject<'a>,
    /// The moments at which the definition applies.
    pub window: Window,
    /// The certificate's canonical octets, which are signed.
    pub octets: Octets<'a>,
}

/// A signature of a certificate, as it is written. Reading it does not verify it.
#[derive(Drop)]
pub struct Signature<'a> {
    /// The algorithm of the digest.
    pub alg: HashAlg,
    /// The digest of what is signed.
    pub digest: Octets<'a>,
    /// The principal that signed: a key, or the hash of one.
    pub signer: Principal<'a>,
    /// The canonical octets of the signature's value.
    pub value: Octets<'a>,
}

/// An item of a sequence.
#[derive(Drop)]
pub enum SeqItem<'a> {
    /// A key, for certificates whose issuer is a hash of it.
    Key(Key<'a>),
    /// `(do hash alg)`, which has no effect.
    DoHash(HashAlg),
    /// An authorization certificate.
    Auth(AuthCert<'a>),
    /// A name certificate.
    Name(NameCert<'a>),
    /// The signature of the certificate before it.
    Signature(Signature<'a>),
}
