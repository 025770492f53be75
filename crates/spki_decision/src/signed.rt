//! Signatures that a verifier is asked about.

ghost use Rattle.std.specs.Prelude.{◌≡◌};
ghost use Rattle.spki_cert.specs.Naming.{digest_of};

use spki_cert::{HashAlg, Key, Octets};

/// A signature that a verifier is asked about: whether the value is the key's signature over the message.
#[derive(Drop)]
pub struct Signed<'a> {
    /// The number of the certificate's item, from 1.
    pub item: usize,
    /// The key of the certificate's issuer.
    pub key: Key<'a>,
    /// The message: the certificate's canonical octets.
    pub message: Octets<'a>,
    /// The canonical octets of the signature's value.
    pub value: Octets<'a>,
    /// The algorithm of the digest in the signature.
    pub alg: HashAlg,
    /// The digest of the message, as it is in the signature.
    pub digest: Octets<'a>,
    /// The digest is that of the message.
    ghost fits: { digest_of alg message ≡ digest },
}
