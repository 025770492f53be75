//! Writes authorizations as S-expressions.

ghost use Rattle.std.specs.Prelude.{◌≡◌, List, [], ◌∷◌, ◌++◌, IfOk, OnOk, map};
ghost use Rattle.sexpr_core.specs.Value.{Value, canon, plain, sexp_value};
ghost use Rattle.spki_cert.specs.Fields.{plains};
ghost use Rattle.spki_reduce.specs.Written.{headed, IsWrittenPrincipal, IsWrittenIssuer, named, delegation_values, limit_values, in_valid, window_limits, IsWrittenFive};

use crate::tuple::{Five, Issuer};
use sexpr_core::{Sexp, decode};
use spki_cert::{Date, HashAlg, Key, Names, Principal, Window};
use std::alloc::{AllocError, Global};

impl<'a> Five<'a> {
    /// Does nothing at run time. It tells the prover that this authorization has a written form: a value that `write` may return for it.
    /// `prove_line` of the crate `spki_guard` needs this fact for an authorization whose line is not printed.
    pub fn prove_writable(&self)
        ensures { (v : Value) × IsWrittenFive self.now v }
    {
        prove_issuer(&self.issuer);
        prove_principal(&self.subject.principal);
    }

    /// Returns the authorization as `(five (issuer K) (subject S) (propagate) (tag T) (valid ..))`. The issuer is omitted if it
    /// is the owner of the access list. `(propagate)` is omitted if the authorization may not be delegated, and `(valid ..)`
    /// if the window has no limits. A hash is written without the `uri` where the key can be found.
    ///
    /// # Errors
    ///
    /// `AllocError` if memory ran out.
    pub fn write(&self, alloc: Global) -> Result<Sexp, AllocError>
        ensures { IfOk result (λ s. IsWrittenFive self.now (sexp_value s)) }
    {
        let mut members = begin_list(alloc, b"five")?;
        push_issuer(alloc, &mut members, &self.issuer)?;
        let principal = write_principal(alloc, &self.subject.principal)?;
        let subject = with_names(alloc, principal, &self.subject.names)?;
        push_headed(alloc, &mut members, b"subject", subject)?;
        push_delegation(alloc, &mut members, self.propagate)?;
        push_headed(alloc, &mut members, b"tag", self.tag.write(alloc)?)?;
        push_window(alloc, &mut members, &self.window)?;
        Ok(Sexp::list(members))
    }
}

/// Does nothing at run time. It tells the prover that the issuer has a written form: members that `push_issuer` may append for it.
fn prove_issuer(issuer: &Issuer)
    ensures { (written : List Value) × IsWrittenIssuer issuer.now written }
{
    if let Issuer::Key(key) = issuer {
        key.prove_well_formed();
    }
}

/// Does nothing at run time. It tells the prover that the principal has a written form: a value that `write_principal` may return for it.
fn prove_principal(principal: &Principal)
    ensures { (owner : Value) × IsWrittenPrincipal principal.now owner }
{
    if let Principal::Key(key) = principal {
        key.prove_well_formed();
    }
}

/// Returns a vector with the first member of a new list: `head`, as a string without a display hint. The caller appends the other members
/// and makes the list of them. Err if memory ran out.
fn begin_list(alloc: Global, head: &[u8]) -> Result<Vec<Sexp>, AllocError>
    ensures { IfOk result (λ members. map sexp_value members.items ≡ plain head.now ∷ []) }
{
    let mut members = Vec::new(alloc);
    members.push(Sexp::plain(alloc, head)?)?;
    Ok(members)
}

/// Appends the list `(head further)` to `members`: the string `head` without a display hint, and then `further`. Err if memory ran out.
fn push_headed(
    alloc: Global,
    members: &mut Vec<Sexp>,
    head: &[u8],
    further: Sexp,
) -> Result<(), AllocError>
    ensures { OnOk result (map sexp_value members.new.items
        ≡ map sexp_value members.old.items ++ headed head.now (sexp_value further ∷ []) ∷ []) }
{
    let mut inner = begin_list(alloc, head)?;
    inner.push(further)?;
    members.push(Sexp::list(inner))?;
    Ok(())
}

/// Returns a key as a value, from its canonical form. Err if memory ran out. Each key was made by a reader or copied from such a key, so its
/// octets are a canonical form within the limits. So `decode` has no other fault here, and `map_err` hides none.
fn write_key(alloc: Global, key: &Key) -> Result<Sexp, AllocError>
    ensures { IfOk result (λ s. key.now ≡ canon (sexp_value s)) }
{
    decode(alloc, key.as_slice()).map_err(|_| AllocError)
}

/// Returns `(hash ALG DIGEST)`, without the `uri` where the key can be found. Err if memory ran out.
fn write_hash(alloc: Global, alg: HashAlg, digest: &[u8]) -> Result<Sexp, AllocError>
    ensures { IfOk result (λ s. IsWrittenPrincipal (Principal.Hash alg digest.now) (sexp_value s)) }
{
    let mut members = begin_list(alloc, b"hash")?;
    members.push(Sexp::plain(alloc, alg.name())?)?;
    members.push(Sexp::plain(alloc, digest)?)?;
    Ok(Sexp::list(members))
}

/// Returns a principal as a value: a key, or the hash of one. Err if memory ran out.
fn write_principal(alloc: Global, principal: &Principal) -> Result<Sexp, AllocError>
    ensures { IfOk result (λ s. IsWrittenPrincipal principal.now (sexp_value s)) }
{
    match principal {
        Principal::Key(key) => write_key(alloc, key),
        Principal::Hash { alg, digest } => write_hash(alloc, *alg, digest.as_slice()),
    }
}

/// Appends each name to the members, as a string without a display hint. Err if memory ran out.
#[tactic(auto, using(crate::proofs::WrittenNames::name_written_at))]
fn push_names(alloc: Global, members: &mut Vec<Sexp>, names: &Names) -> Result<(), AllocError>
    ensures { OnOk result (map sexp_value members.new.items ≡ map sexp_value members.old.items ++ plains names.now) }
{
    for index in 0..names.len() {
        members.push(Sexp::plain(alloc, names.at(index).as_slice())?)?;
    }
    Ok(())
}

/// Returns a subject as a value: `principal` alone, or `(name PRINCIPAL N N ..)` if there are names. Err if memory ran out.
fn with_names(alloc: Global, principal: Sexp, names: &Names) -> Result<Sexp, AllocError>
    ensures { IfOk result (λ s. sexp_value s ≡ named (sexp_value principal) names.now) }
{
    if names.is_empty() {
        return Ok(principal);
    }
    let mut members = begin_list(alloc, b"name")?;
    members.push(principal)?;
    push_names(alloc, &mut members, names)?;
    Ok(Sexp::list(members))
}

/// Appends `(issuer K)` to the members, or nothing if the issuer is the owner of the access list. Err if memory ran
/// out.
fn push_issuer(alloc: Global, members: &mut Vec<Sexp>, issuer: &Issuer) -> Result<(), AllocError>
    ensures { OnOk result ((written : List Value) × IsWrittenIssuer issuer.now written
        × (map sexp_value members.new.items ≡ map sexp_value members.old.items ++ written)) }
{
    match issuer {
        Issuer::Own => Ok(()),
        Issuer::Key(key) => push_headed(alloc, members, b"issuer", write_key(alloc, key)?),
    }
}

/// Appends `(propagate)` to the members, if `propagate` is true. Err if memory ran out.
fn push_delegation(
    alloc: Global,
    members: &mut Vec<Sexp>,
    propagate: bool,
) -> Result<(), AllocError>
    ensures { OnOk result (map sexp_value members.new.items
        ≡ map sexp_value members.old.items ++ delegation_values propagate) }
{
    if propagate {
        members.push(Sexp::list(begin_list(alloc, b"propagate")?))?;
    }
    Ok(())
}

/// Appends `(WORD DATE)`, a limit of a window, to the members, or nothing if there is no limit. Err if memory ran out.
fn push_limit(
    alloc: Global,
    members: &mut Vec<Sexp>,
    word: &[u8],
    limit: Option<Date>,
) -> Result<(), AllocError>
    ensures { OnOk result (map sexp_value members.new.items
        ≡ map sexp_value members.old.items ++ limit_values word.now limit) }
{
    match limit {
        None => Ok(()),
        Some(date) => {
            let date = Sexp::plain(alloc, date.as_slice())?;
            push_headed(alloc, members, word, date)
        }
    }
}

/// Appends `(valid ..)` with the limits of a window to the members, or nothing if it has no limit. Err if memory ran
/// out.
fn push_window(alloc: Global, members: &mut Vec<Sexp>, window: &Window) -> Result<(), AllocError>
    ensures { OnOk result (map sexp_value members.new.items
        ≡ map sexp_value members.old.items ++ in_valid (window_limits window.now)) }
{
    if window.not_before.is_none() && window.not_after.is_none() {
        return Ok(());
    }
    let mut limits = begin_list(alloc, b"valid")?;
    push_limit(alloc, &mut limits, b"not-before", window.not_before)?;
    push_limit(alloc, &mut limits, b"not-after", window.not_after)?;
    members.push(Sexp::list(limits))?;
    Ok(())
}
