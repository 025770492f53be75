//! A request as it was sent, and the values of its components.

ghost use Rattle.std.specs.{Prelude.{◌≡◌, ◌≢◌, ◌++◌, [], ◌∷◌, IfOk, IfErr, OnOk, position}, List.{position_or_len}};
ghost use Rattle.http_signature.specs.{Fields.{lines_of, joined}, Components.{scheme_name, default_port, without_port, authority_of, is_mark, query_of, field_value, named_value, target_uri, component_value}};

use crate::characters::{is_field_name, is_value};
use crate::octets::Octets;
use crate::refusal::Refusal;
use std::alloc::{AllocError, Global};

/// The scheme of a service.
#[derive(Clone, Copy, Debug, PartialEq, Eq)]
pub enum Scheme {
    Http,
    Https,
}

impl Scheme {
    /// Its name, as in a URI.
    fn name(self) -> &'static [u8]
        ensures { result.now ≡ scheme_name self }
    {
        match self {
            Scheme::Http => b"http",
            Scheme::Https => b"https",
        }
    }

    /// The port that is not named, with its colon.
    fn default_port(self) -> &'static [u8]
        ensures { result.now ≡ default_port self }
    {
        match self {
            Scheme::Http => b":80",
            Scheme::Https => b":443",
        }
    }
}

/// A line of a field, as it was sent: the name, in any case, and the value.
#[derive(Drop)]
pub struct Field<'a> {
    pub name: Octets<'a>,
    pub value: Octets<'a>,
}

/// A request, as it was sent.
#[derive(Drop)]
pub struct Request<'a> {
    /// The scheme of the service.
    pub scheme: Scheme,
    pub method: Octets<'a>,
    /// The name that the client asks, with a port if it is not the default one: the value of `Host` or `:authority`.
    pub authority: Octets<'a>,
    /// The path and the query, as in the first line of HTTP/1.1.
    pub target: Octets<'a>,
    /// The lines of its fields, in order.
    pub fields: &'a [Field<'a>],
    /// Whether the request has a body. It may be false if a field says so.
    pub has_body: bool,
}

/// The name of a host, perhaps with a port, without the default port of the scheme.
pub(crate) fn without_port<'a>(scheme: Scheme, name: &Octets<'a>) -> Octets<'a>
    ensures { result ≡ without_port scheme name.now }
{
    let octets = name.as_slice();
    let port = scheme.default_port();
    if octets.ends_with(port) {
        Octets::new(&octets[..octets.len() - port.len()])
    } else {
        name.share()
    }
}

/// The lines of a field, in order, without the spaces and tabs around each. `name` is in any case.
pub(crate) fn lines_of<'a>(
    alloc: Global,
    fields: &[Field<'a>],
    name: &[u8],
) -> Result<Vec<Octets<'a>>, AllocError>
    ensures { IfOk result (λ lines. lines.items ≡ lines_of fields.now name.now) }
{
    let mut lines = Vec::new(alloc);
    for field in fields {
        add_line(&mut lines, field, name)?;
    }
    Ok(lines)
}

/// Appends the value of a line, without the spaces and tabs around it, if it is of the field with this name.
fn add_line<'a>(
    lines: &mut Vec<Octets<'a>>,
    field: &Field<'a>,
    name: &[u8],
) -> Result<(), AllocError>
    ensures { OnOk result (lines.new.items ≡ lines.old.items ++ lines_of (field.now ∷ []) name.now) }
{
    if field.name.is_name(name) {
        lines.push(field.value.trimmed())?;
    }
    Ok(())
}

/// The values of lines, joined by a comma and a space.
fn joined(alloc: Global, lines: &[Octets]) -> Result<Vec<u8>, AllocError>
    ensures { IfOk result (λ text. text.items ≡ joined lines.now) }
{
    let mut text = Vec::new(alloc);
    let Some((first, mut rest)) = lines.split_first() else {
        return Ok(text);
    };
    text.extend_from_slice(first.as_slice())?;
    while let Some((line, others)) = rest.split_first() {
        text.extend_from_slice(b", ")?;
        text.extend_from_slice(line.as_slice())?;
        rest = others;
    }
    Ok(text)
}

/// The value of a field (RFC 9421, section 2.1).
fn field_value(alloc: Global, fields: &[Field], name: &Octets) -> Result<Vec<u8>, Refusal>
    ensures read { IfOk result (λ value. field_value fields.now name.now ≡ Ok value.items) }
    ensures refused { IfErr result (λ refusal. refusal ≢ Refusal.Memory → field_value fields.now name.now ≡ Err refusal) }
{
    if !is_field_name(name.as_slice()) {
        return Err(Refusal::UnknownComponent);
    }
    let lines = lines_of(alloc, fields, name.as_slice())?;
    if lines.is_empty() {
        return Err(Refusal::AbsentField);
    }
    Ok(joined(alloc, lines.as_slice())?)
}

/// The place of the first `?`, or the length where there is none.
fn mark_index(target: &[u8]) -> usize
    ensures { result ≡ position_or_len is_mark target.now }
{
    match mark_position(target) {
        Some(index) => index,
        None => target.len(),
    }
}

/// The place of the first `?`.
fn mark_position(target: &[u8]) -> Option<usize>
    ensures { result ≡ position is_mark target.now }
{
    target.iter().position(|octet| *octet == b'?')
}

/// The query with its `?`, which is alone where there is none.
fn query_of(alloc: Global, target: &[u8]) -> Result<Vec<u8>, AllocError>
    ensures { IfOk result (λ text. text.items ≡ query_of target.now) }
{
    let index = mark_index(target);
    let mut text = Vec::new(alloc);
    text.push(b'?')?;
    if index < target.len() {
        text.extend_from_slice(&target[index + 1..])?;
    }
    Ok(text)
}

/// The name that the client asks, in lower case, without the default port.
fn authority_of(alloc: Global, scheme: Scheme, name: &Octets) -> Result<Vec<u8>, AllocError>
    ensures { IfOk result (λ text. text.items ≡ authority_of scheme name.now) }
{
    without_port(scheme, name)
        .as_slice()
        .iter()
        .map(|octet| octet.to_ascii_lowercase())
        .collect(alloc)
}

/// The whole target as a URI.
fn target_uri(alloc: Global, request: &Request) -> Result<Vec<u8>, AllocError>
    ensures { IfOk result (λ text. text.items ≡ target_uri request.now) }
{
    let authority = authority_of(alloc, request.scheme, &request.authority)?;
    let mut text = Vec::from_slice(alloc, request.scheme.name())?;
    text.extend_from_slice(b"://")?;
    text.extend_from_slice(authority.as_slice())?;
    text.extend_from_slice(request.target.as_slice())?;
    Ok(text)
}

/// The value of a component by its name, of any octets.
fn named_value(alloc: Global, request: &Request, name: &Octets) -> Result<Vec<u8>, Refusal>
    ensures read { IfOk result (λ value. named_value request.now name.now ≡ Ok value.items) }
    ensures refused { IfErr result (λ refusal. refusal ≢ Refusal.Memory → named_value request.now name.now ≡ Err refusal) }
{
    let target = request.target.as_slice();
    if name.is(b"@method") {
        Ok(Vec::from_slice(alloc, request.method.as_slice())?)
    } else if name.is(b"@authority") {
        Ok(authority_of(alloc, request.scheme, &request.authority)?)
    } else if name.is(b"@path") {
        Ok(Vec::from_slice(alloc, &target[..mark_index(target)])?)
    } else if name.is(b"@query") {
        Ok(query_of(alloc, target)?)
    } else if name.is(b"@target-uri") {
        Ok(target_uri(alloc, request)?)
    } else {
        field_value(alloc, request.fields, name)
    }
}

/// The value of a component by its name (RFC 9421, sections 2.1 and 2.2).
pub(crate) fn component_value(
    alloc: Global,
    request: &Request,
    name: &Octets,
) -> Result<Vec<u8>, Refusal>
    ensures read { IfOk result (λ value. component_value request.now name.now ≡ Ok value.items) }
    ensures refused { IfErr result (λ refusal. refusal ≢ Refusal.Memory → component_value request.now name.now ≡ Err refusal) }
{
    let value = named_value(alloc, request, name)?;
    if is_value(value.as_slice()) {
        Ok(value)
    } else {
        Err(Refusal::BadValue)
    }
}
