//! The signature base: the text that is signed (RFC 9421, section 2.5).

ghost use Rattle.std.specs.Prelude.{◌≡◌, ◌≢◌, ◌++◌, [], Ok, Err, IfOk, IfErr, OnOk};
ghost use Rattle.http_signature.specs.Base.{component_line, component_lines, signature_base};

use crate::characters::{is_target, is_token, is_value};
use crate::octets::Octets;
use crate::refusal::Refusal;
use crate::request::{Request, component_value};
use std::alloc::{AllocError, Global};

/// Returns the signature base of components of a request, which are covered in this order. `parameters` is the value of
/// `@signature-params` as it is in `Signature-Input`, from the parenthesis on.
///
/// # Errors
///
/// The first of these. `BadMethod` or `BadTarget` if the method is no token or the target no path. `Malformed` if the parameters have an octet
/// that is neither visible ASCII, space nor tab. Of the first component that has no value: `UnknownComponent` if it is neither the name of a
/// field in lower case nor `@method`, `@authority`, `@path`, `@query` or `@target-uri`, `AbsentField` if the request does not have the field,
/// `BadValue` if its value has such an octet. `Memory` if memory ran out.
pub fn signature_base(
    alloc: Global,
    request: &Request,
    components: &[Octets],
    parameters: &[u8],
) -> Result<Vec<u8>, Refusal>
    ensures read { IfOk result (λ text. signature_base request.now components.now parameters.now ≡ Ok text.items) }
    ensures refused { IfErr result (λ refusal. refusal ≢ Refusal.Memory → signature_base request.now components.now parameters.now ≡ Err refusal) }
{
    if !is_token(request.method.as_slice()) {
        return Err(Refusal::BadMethod);
    }
    if !is_target(request.target.as_slice()) {
        return Err(Refusal::BadTarget);
    }
    if !is_value(parameters) {
        return Err(Refusal::Malformed);
    }
    let mut text = component_lines(alloc, request, components)?;
    text.extend_from_slice(b"\"@signature-params\": ")?;
    text.extend_from_slice(parameters)?;
    Ok(text)
}

/// The lines of components, each with its end.
fn component_lines(
    alloc: Global,
    request: &Request,
    components: &[Octets],
) -> Result<Vec<u8>, Refusal>
    ensures read { IfOk result (λ text. component_lines request.now components.now [] ≡ Ok text.items) }
    ensures refused { IfErr result (λ refusal. refusal ≢ Refusal.Memory → component_lines request.now components.now [] ≡ Err refusal) }
{
    let mut text = Vec::new(alloc);
    for name in components {
        let value = component_value(alloc, request, name)?;
        add_line(&mut text, name.as_slice(), value.as_slice())?;
    }
    Ok(text)
}

/// Appends the line of a component.
fn add_line(text: &mut Vec<u8>, name: &[u8], value: &[u8]) -> Result<(), AllocError>
    ensures { OnOk result (text.new.items ≡ text.old.items ++ component_line name.now value.now) }
{
    text.push(b'"')?;
    text.extend_from_slice(name)?;
    text.extend_from_slice(b"\": ")?;
    text.extend_from_slice(value)?;
    text.push(b'\n')?;
    Ok(())
}
