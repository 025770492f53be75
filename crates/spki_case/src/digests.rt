//! Which keys of a case are digested when it is read, and by which algorithms. A key carries its digests, so it is digested
//! once for each algorithm, however often it is compared with hashes. A digest that is missing here costs time and changes
//! no answer. A contract sees a key as its canonical octets, without digests, so by the contracts nothing changes here.

ghost use Rattle.std.specs.Prelude.{◌≡◌};

use spki_cert::{Algorithms, Entry, Key, Policy, Principal, SeqItem};

/// The same items of a sequence, with keys that carry their digests by the algorithms of the hashes that they may be compared with (RFC
/// 2693, section 2.5). These hashes are the subjects in the access list, whose algorithms are `algorithms`, and those in the sequence that
/// may name keys under `policy`. Allocates nothing.
pub(crate) fn digested_items<'a>(
    items: Vec<SeqItem<'a>>,
    algorithms: Algorithms,
    policy: Policy,
) -> Vec<SeqItem<'a>>
    ensures { result.items ≡ items.entry.items }
{
    let algorithms = all_algorithms(algorithms, &items, policy);
    let mut items = items;
    for index in 0..items.len() {
        digest_item(&mut items[index], algorithms);
    }
    items
}

/// Returns `key`, the client's key, with its digest by the algorithm of the hash that it may be compared with. A chain ends at this key, so
/// it is compared with the subject of the last certificate in `items`: the loop keeps the last. It needs a digest only if this subject has
/// a hash that may name keys under `policy`. If there is no certificate, it is compared with the subjects of the access list. Then the
/// digests are by `algorithms`, which are those of these subjects. Allocates nothing.
pub(crate) fn client_key<'a>(
    key: &Key<'a>,
    algorithms: Algorithms,
    items: &[SeqItem],
    policy: Policy,
) -> Key<'a>
    ensures { result ≡ key.now }
{
    let mut algorithms = algorithms;
    for item in items {
        if let Some(subject) = subject_of(item) {
            algorithms = Algorithms::none().with(subject, policy);
        }
    }
    key.digested(algorithms)
}

/// Gives a key in a sequence, or the key of a certificate's issuer, its digests by these algorithms. An operation or a signature does not
/// change. A key in a certificate's subject gets none: it is compared by its octets, never with a hash.
fn digest_item(item: &mut SeqItem, algorithms: Algorithms)
    ensures { item.new ≡ item.old }
{
    match item {
        SeqItem::Key(key) => *key = key.digested(algorithms),
        SeqItem::Auth(cert) => digest_principal(&mut cert.issuer, algorithms),
        SeqItem::Name(cert) => digest_principal(&mut cert.issuer, algorithms),
        SeqItem::DoHash(_) => {}
        SeqItem::Signature(_) => {}
    }
}

/// Gives the key of a principal its digests by these algorithms. A hash does not change.
fn digest_principal(principal: &mut Principal, algorithms: Algorithms)
    ensures { principal.new ≡ principal.old }
{
    match principal {
        Principal::Key(key) => *key = key.digested(algorithms),
        Principal::Hash { .. } => {}
    }
}

/// Returns the set `algorithms` with those of the hashes in a sequence that may name keys under the policy. `item_algorithms` says which
/// hashes an item has.
fn all_algorithms(algorithms: Algorithms, items: &[SeqItem], policy: Policy) -> Algorithms {
    let mut algorithms = algorithms;
    for item in items {
        algorithms = item_algorithms(algorithms, item, policy);
    }
    algorithms
}

/// The algorithms of the hashes that are subjects in an access list and may name keys under the policy.
pub(crate) fn entry_algorithms(acl: &[Entry], policy: Policy) -> Algorithms {
    let mut algorithms = Algorithms::none();
    for entry in acl {
        algorithms = algorithms.with(&entry.subject.principal, policy);
    }
    algorithms
}

/// Returns the set `algorithms` with those of the hashes in an item that may name keys under the policy: the issuer and the subject of a
/// certificate, and the signer of a signature.
fn item_algorithms(algorithms: Algorithms, item: &SeqItem, policy: Policy) -> Algorithms {
    match item {
        SeqItem::Auth(cert) => algorithms
            .with(&cert.issuer, policy)
            .with(&cert.subject.principal, policy),
        SeqItem::Name(cert) => algorithms
            .with(&cert.issuer, policy)
            .with(&cert.subject.principal, policy),
        SeqItem::Signature(signature) => algorithms.with(&signature.signer, policy),
        SeqItem::Key(_) => algorithms,
        SeqItem::DoHash(_) => algorithms,
    }
}

/// The principal of a certificate's subject. None if the item is no certificate.
fn subject_of<'s, 'a>(item: &'s SeqItem<'a>) -> Option<&'s Principal<'a>> {
    match item {
        SeqItem::Auth(cert) => Some(&cert.subject.principal),
        SeqItem::Name(cert) => Some(&cert.subject.principal),
        SeqItem::Key(_) => None,
        SeqItem::DoHash(_) => None,
        SeqItem::Signature(_) => None,
    }
}
