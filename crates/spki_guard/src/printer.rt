//! Prints authorizations in advanced form, member by member. Allocates nothing, unless the sink does.

ghost use Rattle.std.specs.Prelude.{◌≡◌, List, [], ◌∷◌, codes};
ghost use Rattle.sexpr_core.specs.Value.{Value, values, plain, canon};
ghost use Rattle.sexpr_text.specs.AdvancedForm.{adv, adv_all};
ghost use Rattle.spki_tag.specs.Tag.{tag_value};
ghost use Rattle.spki_cert.specs.{Readings.{alg_name}, Fields.{plains}};
ghost use Rattle.spki_reduce.specs.Written.{headed, IsWrittenPrincipal, IsWrittenSubject, IsWrittenIssuer, delegation_values, limit_values, in_valid, window_limits, IsWrittenFive};

use crate::tag_printer::print_tag;
use sexpr_text::{Sink, print_canonical, print_octets};
use spki_cert::{Date, HashAlg, Key, Names, Principal, Subject, Window};
use spki_reduce::{Five, Issuer};
use spki_tag::Tag;

/// Prints names as strings in advanced form, each with a space before it.
fn print_names<S: Sink>(names: &Names, sink: &mut S)
    ensures { S.takes sink.old (adv_all 1 (values (plains names.now))) sink.new }
{
    for index in 0..names.len() {
        sink.put_octet(b' ');
        print_octets(names.at(index).as_slice(), sink);
    }
}

/// Prints `(hash ALG DIGEST)` in advanced form.
fn print_hash<S: Sink>(alg: HashAlg, digest: &[u8], sink: &mut S)
    ensures { S.takes sink.old (adv (headed (codes "hash") (plain (alg_name alg) ∷ plain digest.now ∷ []))) sink.new }
{
    sink.put(b"(hash ");
    print_octets(alg.name(), sink);
    sink.put_octet(b' ');
    print_octets(digest, sink);
    sink.put_octet(b')');
}

/// Prints a key in advanced form. `prove_well_formed` is only for the prover.
fn print_key<S: Sink>(key: &Key, sink: &mut S)
    ensures { (v : Value) × (key.now ≡ canon v) × S.takes sink.old (adv v) sink.new }
{
    key.prove_well_formed();
    print_canonical(key.as_slice(), sink);
}

/// Prints a principal in advanced form, a hash without its `uri`.
fn print_principal<S: Sink>(principal: &Principal, sink: &mut S)
    ensures { (owner : Value) × IsWrittenPrincipal principal.now owner × S.takes sink.old (adv owner) sink.new }
{
    match principal {
        Principal::Key(key) => print_key(key, sink),
        Principal::Hash { alg, digest } => print_hash(*alg, digest.as_slice(), sink),
    }
}

/// Prints a subject without the `(subject ..)` that `print_subject` puts around it: its principal alone if it has no names, otherwise
/// `(name PRINCIPAL N N ..)`.
fn print_bare_subject<S: Sink>(subject: &Subject, sink: &mut S)
    ensures { (s : Value) × IsWrittenSubject subject.now.principal subject.now.names s × S.takes sink.old (adv s) sink.new }
{
    if subject.names.is_empty() {
        print_principal(&subject.principal, sink);
        return;
    }
    sink.put(b"(name ");
    print_principal(&subject.principal, sink);
    print_names(&subject.names, sink);
    sink.put_octet(b')');
}

/// Prints a space and `(subject S)`, where S is the principal alone, or `(name PRINCIPAL N N ..)` if there are names.
fn print_subject<S: Sink>(subject: &Subject, sink: &mut S)
    ensures { (s : Value) × IsWrittenSubject subject.now.principal subject.now.names s
        × S.takes sink.old (adv_all 1 (values (headed (codes "subject") (s ∷ []) ∷ []))) sink.new }
{
    sink.put(b" (subject ");
    print_bare_subject(subject, sink);
    sink.put_octet(b')');
}

/// Prints a space and `(issuer K)`, or nothing for the owner of the access list.
fn print_issuer<S: Sink>(issuer: &Issuer, sink: &mut S)
    ensures { (written : List Value) × IsWrittenIssuer issuer.now written × S.takes sink.old (adv_all 1 (values written)) sink.new }
{
    if let Issuer::Key(key) = issuer {
        sink.put(b" (issuer ");
        print_key(key, sink);
        sink.put_octet(b')');
    }
}

/// Prints a space and `(propagate)`, or nothing if the authorization may not be delegated.
fn print_delegation<S: Sink>(propagate: bool, sink: &mut S)
    ensures { S.takes sink.old (adv_all 1 (values (delegation_values propagate))) sink.new }
{
    if propagate {
        sink.put(b" (propagate)");
    }
}

/// Prints a space and `(tag T)`, with T in advanced form.
fn print_tag_part<S: Sink>(tag: &Tag, sink: &mut S)
    ensures { S.takes sink.old (adv_all 1 (values (headed (codes "tag") (tag_value tag.now ∷ []) ∷ []))) sink.new }
{
    sink.put(b" (tag ");
    print_tag(tag, sink);
    sink.put_octet(b')');
}

/// Prints a space and `(WORD DATE)`, where WORD is `not-before` or `not-after`, or nothing if there is no limit.
fn print_date<S: Sink>(word: &[u8], limit: Option<Date>, sink: &mut S)
    ensures { S.takes sink.old (adv_all 1 (values (limit_values word.now limit))) sink.new }
{
    if let Some(date) = limit {
        sink.put(b" (");
        print_octets(word, sink);
        sink.put_octet(b' ');
        print_octets(date.as_slice(), sink);
        sink.put_octet(b')');
    }
}

/// Prints a space and `(valid ..)` with the limits of a window, or nothing if it has no limit.
fn print_window<S: Sink>(window: &Window, sink: &mut S)
    ensures { S.takes sink.old (adv_all 1 (values (in_valid (window_limits window.now)))) sink.new }
{
    if window.not_before.is_none() && window.not_after.is_none() {
        return;
    }
    sink.put(b" (valid");
    print_date(b"not-before", window.not_before, sink);
    print_date(b"not-after", window.not_after, sink);
    sink.put_octet(b')');
}

/// Prints an authorization as `(five (issuer K) (subject S) (propagate) (tag T) (valid ..))`: without the issuer for the owner of the
/// access list, without `(propagate)` if it may not be delegated, and without `(valid ..)` if its window has no limit. It is the
/// advanced form of what `Five::write` writes.
pub fn print_five<S: Sink>(five: &Five, sink: &mut S)
    ensures { (v : Value) × IsWrittenFive five.now v × S.takes sink.old (adv v) sink.new }
{
    sink.put(b"(five");
    print_issuer(&five.issuer, sink);
    print_subject(&five.subject, sink);
    print_delegation(five.propagate, sink);
    print_tag_part(&five.tag, sink);
    print_window(&five.window, sink);
    sink.put_octet(b')');
}
