//! The keys of a sequence, and the first of them that a principal names.

ghost use Rattle.std.specs.Prelude.{◌≡◌, [], ◌∷◌, ◌++◌, IfOk, OnOk, Contains, MatchOption};
ghost use Rattle.spki_case.specs.Case.{keys_of};
ghost use Rattle.spki_decision.specs.Judged.{NamesNone, IsFirstNamed};

use spki_cert::{Key, Principal, SeqItem};
use std::alloc::{AllocError, Global};

/// Appends the key of an item to `keys`, if the item is a key. Err if memory ran out.
fn push_key<'a>(keys: &mut Vec<Key<'a>>, item: &SeqItem<'a>) -> Result<(), AllocError>
    ensures { OnOk result (keys.new.items ≡ keys.old.items ++ keys_of (item.now ∷ [])) }
{
    match item {
        SeqItem::Key(key) => {
            keys.push(key.share())?;
            Ok(())
        }
        SeqItem::DoHash(_) => Ok(()),
        SeqItem::Auth(_) => Ok(()),
        SeqItem::Name(_) => Ok(()),
        SeqItem::Signature(_) => Ok(()),
    }
}

/// Returns the items of a sequence that are keys, in order. Err if memory ran out.
pub fn keys_of<'a>(alloc: Global, sequence: &[SeqItem<'a>]) -> Result<Vec<Key<'a>>, AllocError>
    ensures { IfOk result (λ keys. keys.items ≡ keys_of sequence.now) }
{
    let mut keys = Vec::new(alloc);
    for item in sequence {
        push_key(&mut keys, item)?;
    }
    Ok(keys)
}

/// Returns the index, from 0, of the first of `keys` that the principal names: the first for which the closure `names` returns
/// true. None if there is none. The precondition of `names` must hold for the principal and each key. Allocates nothing.
///
/// It is for programs that use this library. The caller supplies `names`, such as `Principal::names` under a policy, so that
/// test programs can let two keys have one digest. `examine` does not call it: it finds keys by an index of their digests
/// (`ShownKeys::holder`), and not one after another.
pub fn first_named<F: Fn(&Principal, &Key) -> bool>(
    principal: &Principal,
    keys: &[Key],
    names: F,
) -> Option<usize>
    // The closure may be called with the principal and each of the keys.
    requires { (p : _) (k : _) → p.now ≡ principal.now → Contains keys.now k.now → F.pre names p k }
    ensures { MatchOption result (NamesNone F.Fn names principal.now keys.now)
        (λ index. IsFirstNamed F.Fn names principal.now keys.now index) }
{
    for (index, key) in keys.iter().enumerate() {
        if names(principal, key) {
            return Some(index);
        }
    }
    None
}
