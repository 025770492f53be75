//! Reads the value of `Signature-Input`.

ghost use Rattle.std.specs.Prelude.{◌≡◌, ◌≢◌, ◌++◌, ◌∷◌, [], ℕ, List, Ok, Err, IfOk, IfErr};
ghost use Rattle.http_signature.specs.{Nonces.{is_among}, SignatureInput.{is_derived, is_component, separator, next_component, components_in, has_required, complete, signature_input, signature_value}, Input.{input_of}};

use crate::characters::is_field_name;
use crate::octets::Octets;
use crate::parameters::Parameters;
use crate::pieces::{after, end_fault, expect, read_label, read_octets, read_string};
use crate::refusal::Refusal;
use std::alloc::Global;

/// The most octets of `Signature-Input` and of `Signature`.
const MAX_OCTETS: usize = 8192;

/// The most components.
const MAX_COMPONENTS: u32 = 32;

/// The value of `Signature-Input`: what a signature covers, and its parameters.
#[derive(Drop)]
pub struct SignatureInput<'a> {
    /// The names of the components, in order.
    pub components: Vec<Octets<'a>>,
    /// The value of `@signature-params`: the text from the parenthesis on, as it was sent.
    pub text: Octets<'a>,
    /// From when to before when the signature is valid, in seconds since 1970.
    pub created: u64,
    pub expires: u64,
    pub nonce: Octets<'a>,
    pub keyid: Octets<'a>,
    pub alg: Octets<'a>,
    pub tag: Octets<'a>,
}

/// Whether a name is among others.
fn is_among(name: &[u8], names: &[Octets]) -> bool
    ensures { result ≡ is_among name.now names.now }
{
    names.iter().any(|other| other.is(name))
}

/// Whether a name is that of a derived component.
fn is_derived(name: &Octets) -> bool
    ensures { result ≡ is_derived name.now }
{
    name.is(b"@method")
        || name.is(b"@authority")
        || name.is(b"@path")
        || name.is(b"@query")
        || name.is(b"@target-uri")
}

/// Whether a signature may cover a component of this name.
fn is_component(name: &Octets) -> bool
    ensures { result ≡ is_component name.now }
{
    is_derived(name)
        || (is_field_name(name.as_slice())
            && !name.is(b"signature")
            && !name.is(b"signature-input"))
}

/// The rest behind a space, but the whole text before the first component.
fn separator<'a>(names: &[Octets], text: &Octets<'a>) -> Result<Octets<'a>, Refusal>
    ensures { result ≡ separator names.now text.now }
{
    match names {
        [] => Ok(text.share()),
        [_, ..] => expect(b' ', text),
    }
}

/// Reads the next component, which is not among those that were read, and returns the rest.
fn next_component<'a>(
    names: &[Octets],
    text: &Octets<'a>,
) -> Result<(Octets<'a>, Octets<'a>), Refusal>
    ensures { result ≡ next_component names.now text.now }
{
    let rest = separator(names, text)?;
    let (name, behind) = read_string(&rest)?;
    if !is_component(&name) || after(b';', &behind).is_some() {
        return Err(Refusal::UnknownComponent);
    }
    if is_among(name.as_slice(), names) {
        return Err(Refusal::ComponentTwice);
    }
    Ok((name, behind))
}

/// Reads components up to the parenthesis, and returns the rest.
fn components_in<'a>(
    alloc: Global,
    text: &Octets<'a>,
) -> Result<(Vec<Octets<'a>>, Octets<'a>), Refusal>
    ensures read { IfOk result (λ p. components_in 32 [] text.now ≡ Ok (p.0.items, p.1)) }
    ensures refused { IfErr result (λ refusal. refusal ≢ Refusal.Memory → components_in 32 [] text.now ≡ Err refusal) }
{
    let mut names = Vec::new(alloc);
    let mut rest = text.share();
    for count in 0..MAX_COMPONENTS {
        match after(b')', &rest) {
            Some(behind) => return Ok((names, behind)),
            None => {}
        }
        let (name, behind) = next_component(names.as_slice(), &rest)?;
        names.push(name)?;
        rest = behind;
    }
    closed(names, &rest)
}

/// The components, and the rest behind the parenthesis, which must follow.
#[tactic(auto, unfolding(crate::specs::SignatureInput::components_in))]
fn closed<'a>(
    names: Vec<Octets<'a>>,
    text: &Octets<'a>,
) -> Result<(Vec<Octets<'a>>, Octets<'a>), Refusal>
    ensures read { IfOk result (λ p. components_in 0 names.entry.items text.now ≡ Ok (p.0.items, p.1)) }
    ensures refused { IfErr result (λ refusal. components_in 0 names.entry.items text.now ≡ Err refusal) }
{
    match after(b')', text) {
        Some(behind) => Ok((names, behind)),
        None => Err(Refusal::Malformed),
    }
}

/// Whether all components are there that are required.
fn has_required(names: &[Octets]) -> bool
    ensures { result ≡ has_required names.now }
{
    is_among(b"@method", names)
        && is_among(b"@authority", names)
        && is_among(b"x-spki-public-key", names)
        && (is_among(b"@target-uri", names)
            || (is_among(b"@path", names) && is_among(b"@query", names)))
}

impl<'a> SignatureInput<'a> {
    /// Reads the value of `Signature-Input`, without spaces and tabs around it.
    ///
    /// # Errors
    ///
    /// The first of these from the left. `Malformed` if it has over 8,192 octets, over 32 components or another form than the one way to write
    /// one member with a list of strings. `OtherLabel` if the label is not `spki`. `UnknownComponent` if a component has parameters, or is neither
    /// derived nor the name of a field in lower case. `ComponentTwice`, `UnknownParameter`, `ParameterTwice`. `TwoSignatures` if a second member
    /// follows. Behind the end: `MissingComponent`, `MissingParameter`. `Memory` if memory ran out.
    #[tactic(auto, unfolding(crate::specs::SignatureInput::signature_input))]
    pub fn read(alloc: Global, text: &Octets<'a>) -> Result<SignatureInput<'a>, Refusal>
        ensures read { IfOk result (λ input. signature_input text.now ≡ Ok (input_of input)) }
        ensures refused { IfErr result (λ refusal. refusal ≢ Refusal.Memory → signature_input text.now ≡ Err refusal) }
    {
        if text.as_slice().len() > MAX_OCTETS {
            return Err(Refusal::Malformed);
        }
        let rest = read_label(text)?;
        let inside = expect(b'(', &rest)?;
        let (components, behind) = components_in(alloc, &inside)?;
        let parameters = Parameters::read(&behind)?;
        if !has_required(components.as_slice()) {
            return Err(Refusal::MissingComponent);
        }
        complete(rest, components, parameters)
    }
}

/// The whole value, of its parts. `MissingParameter` if one was not read.
fn complete<'a>(
    text: Octets<'a>,
    components: Vec<Octets<'a>>,
    parameters: Parameters<'a>,
) -> Result<SignatureInput<'a>, Refusal>
    ensures read { IfOk result (λ input. complete text.entry components.entry.items parameters.entry ≡ Ok (input_of input)) }
    ensures refused { IfErr result (λ refusal. complete text.entry components.entry.items parameters.entry ≡ Err refusal) }
{
    let Parameters {
        created,
        expires,
        nonce,
        keyid,
        alg,
        tag,
    } = parameters;
    Ok(SignatureInput {
        components,
        text,
        created: created.ok_or(Refusal::MissingParameter)?,
        expires: expires.ok_or(Refusal::MissingParameter)?,
        nonce: nonce.ok_or(Refusal::MissingParameter)?,
        keyid: keyid.ok_or(Refusal::MissingParameter)?,
        alg: alg.ok_or(Refusal::MissingParameter)?,
        tag: tag.ok_or(Refusal::MissingParameter)?,
    })
}

/// Reads the octets in the value of `Signature`, without spaces and tabs around it.
///
/// # Errors
///
/// The first of these from the left. `Malformed` if it has over 8,192 octets or another form than the one way to write one member with octets in
/// base64. `OtherLabel` if the label is not `spki`, `TwoSignatures` if a second member follows. `Memory` if memory ran out.
#[tactic(auto, unfolding(crate::specs::SignatureInput::signature_value))]
pub fn signature_value(alloc: Global, text: &Octets) -> Result<Vec<u8>, Refusal>
    ensures read { IfOk result (λ octets. signature_value text.now ≡ Ok octets.items) }
    ensures refused { IfErr result (λ refusal. refusal ≢ Refusal.Memory → signature_value text.now ≡ Err refusal) }
{
    if text.as_slice().len() > MAX_OCTETS {
        return Err(Refusal::Malformed);
    }
    let rest = read_label(text)?;
    let (octets, behind) = read_octets(alloc, &rest)?;
    match end_fault(&behind) {
        None => Ok(octets),
        Some(refusal) => Err(refusal),
    }
}
