//! The certificates of a sequence, with their signatures.

ghost use Rattle.std.specs.Prelude.{◌≡◌, ◌++◌, map, IfOk, OnOk, MatchOption, option_copied};
ghost use Rattle.spki_reduce.specs.Reduction.{five, four, step_tuple, auth_tuple, name_tuple};
ghost use Rattle.spki_case.specs.Case.{certificates, signature_in, issuer_of, octets_of};
ghost use Rattle.spki_decision.specs.CertificateTests.{tuple_of, certificate_of, shown_of};
ghost use Rattle.spki_decision.specs.Judged.{IsItem, IsOther, is_operation, as_signature, certificate_at};

use spki_cert::{AuthCert, Key, NameCert, Principal, SeqItem, Signature};
use spki_reduce::{Five, Four, Issuer, Step};
use std::alloc::{AllocError, Global};

/// A certificate of either kind.
#[derive(Drop)]
pub enum Certificate<'s, 'a> {
    /// An authorization.
    Auth(&'s AuthCert<'a>),
    /// A definition of a name.
    Name(&'s NameCert<'a>),
}

/// A certificate of a sequence.
#[derive(Drop)]
pub struct ShownCert<'s, 'a> {
    /// The number of its item, from 1.
    pub item: usize,
    /// The certificate.
    pub certificate: Certificate<'s, 'a>,
    /// Its signature: the next item after it that is no operation, `(do ..)`. None if that item is no signature, or if there is none.
    pub signature: Option<&'s Signature<'a>>,
}

impl<'s, 'a> Certificate<'s, 'a> {
    /// The principal that the certificate names as its issuer: a key, or a hash of one.
    pub fn issuer(&self) -> Principal<'a>
        ensures { result ≡ issuer_of (certificate_of self.now) }
    {
        match self {
            Certificate::Auth(cert) => cert.issuer.share(),
            Certificate::Name(cert) => cert.issuer.share(),
        }
    }

    /// The certificate's canonical octets: what is digested and signed.
    pub fn octets(&self) -> &'a [u8]
        ensures { result.now ≡ octets_of (certificate_of self.now) }
    {
        match self {
            Certificate::Auth(cert) => cert.octets.as_slice(),
            Certificate::Name(cert) => cert.octets.as_slice(),
        }
    }

    /// The certificate's tuple, a 5-tuple or a 4-tuple (RFC 2693, sections 6.1 and 6.2). A tuple has a key as its issuer, and a certificate
    /// may name it by a hash, so the caller passes the issuer's key as `holder`. Whether the certificate's issuer names this key is not
    /// tested. Err if memory ran out, or if a tag or a list of names has too many owners to count.
    pub fn step(&self, holder: &Key<'a>) -> Result<Step<'a>, AllocError>
        ensures { IfOk result (λ step. step_tuple step ≡ tuple_of holder.now (certificate_of self.now)) }
    {
        match self {
            Certificate::Auth(cert) => auth_step(cert, holder),
            Certificate::Name(cert) => name_step(cert, holder),
        }
    }
}

/// An authorization certificate's 5-tuple, as a step. Its issuer is the key `holder`: the certificate may name its issuer by a hash, and a
/// tuple has a key. Whether the certificate's issuer names this key is not tested. Err if memory ran out, or if a tag or a list of names has
/// too many owners to count.
fn auth_step<'a>(cert: &AuthCert<'a>, holder: &Key<'a>) -> Result<Step<'a>, AllocError>
    ensures { IfOk result (λ step. step_tuple step ≡ five (auth_tuple holder.now cert.now)) }
{
    Ok(Step::Auth(Five {
        subject: cert.subject.clone()?,
        tag: cert.tag.clone()?,
        issuer: Issuer::Key(holder.share()),
        propagate: cert.propagate,
        window: cert.window,
    }))
}

/// A name certificate's 4-tuple, as a step. It defines the name in the name space of `holder`, which must be the issuer's key: the issuer that
/// the certificate names is not compared with it. Err if memory ran out, or if a list of names has too many owners to count.
fn name_step<'a>(cert: &NameCert<'a>, holder: &Key<'a>) -> Result<Step<'a>, AllocError>
    ensures { IfOk result (λ step. step_tuple step ≡ four (name_tuple holder.now cert.now)) }
{
    Ok(Step::Name(Four {
        subject: cert.subject.clone()?,
        key: holder.share(),
        name: cert.name.share(),
        window: cert.window,
    }))
}

/// Whether the item is an operation, `(do ..)`: it may be between a certificate and its signature, and has no effect.
fn is_operation(item: &SeqItem) -> bool
    ensures { result ≡ is_operation item.now }
{
    match item {
        SeqItem::DoHash(_) => true,
        SeqItem::Key(_) => false,
        SeqItem::Auth(_) => false,
        SeqItem::Name(_) => false,
        SeqItem::Signature(_) => false,
    }
}

/// The item as a signature. None if it is a key, an operation or a certificate.
fn as_signature<'s, 'a>(item: &'s SeqItem<'a>) -> Option<&'s Signature<'a>>
    ensures { option_copied result ≡ as_signature item.entry.now }
{
    match item {
        SeqItem::Signature(signature) => Some(signature),
        SeqItem::Key(_) => None,
        SeqItem::DoHash(_) => None,
        SeqItem::Auth(_) => None,
        SeqItem::Name(_) => None,
    }
}

/// The signature of the certificate before `items`: the first of these that is no `(do ..)`, if it is a signature. None if it is
/// something else, or if there is no such item.
fn signature_in<'s, 'a>(items: &'s [SeqItem<'a>]) -> Option<&'s Signature<'a>>
    ensures { option_copied result ≡ signature_in items.entry.now }
{
    for item in items {
        if !is_operation(item) {
            return as_signature(item);
        }
    }
    None
}

/// The item as a certificate. None if it is a key, an operation or a signature.
fn as_certificate<'s, 'a>(item: &'s SeqItem<'a>) -> Option<Certificate<'s, 'a>>
    ensures { MatchOption result (IsOther item.entry.now) (λ cert. IsItem item.entry.now (certificate_of cert)) }
{
    match item {
        SeqItem::Auth(cert) => Some(Certificate::Auth(cert)),
        SeqItem::Name(cert) => Some(Certificate::Name(cert)),
        SeqItem::Key(_) => None,
        SeqItem::DoHash(_) => None,
        SeqItem::Signature(_) => None,
    }
}

/// Appends the item with this number, from 1, to `shown` if it is a certificate. Its signature is looked for in `behind`, the items after
/// it. Err if memory ran out.
fn push_certificate<'s, 'a>(
    shown: &mut Vec<ShownCert<'s, 'a>>,
    number: usize,
    item: &'s SeqItem<'a>,
    behind: &'s [SeqItem<'a>],
) -> Result<(), AllocError>
    ensures { OnOk result (map shown_of shown.new.items
        ≡ map shown_of shown.old.items ++ certificate_at number item.entry.now behind.entry.now) }
{
    let Some(certificate) = as_certificate(item) else {
        return Ok(());
    };
    shown.push(ShownCert {
        item: number,
        certificate,
        signature: signature_in(behind),
    })?;
    Ok(())
}

/// Returns the certificates of a sequence, in order, each with the number of its item, from 1, and its signature if the
/// next item that is no operation is one. Err if memory ran out.
pub fn certificates_of<'s, 'a>(
    alloc: Global,
    sequence: &'s [SeqItem<'a>],
) -> Result<Vec<ShownCert<'s, 'a>>, AllocError>
    ensures { IfOk result (λ shown. map shown_of shown.items ≡ certificates sequence.entry.now) }
{
    let mut shown = Vec::new(alloc);
    for (index, item) in sequence.iter().enumerate() {
        push_certificate(&mut shown, index + 1, item, &sequence[index + 1..])?;
    }
    Ok(shown)
}
