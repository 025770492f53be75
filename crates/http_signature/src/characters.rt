//! Which octets may be where.

ghost use Rattle.std.specs.{Prelude.{◌≡◌}, List.{list_all}};
ghost use Rattle.http_signature.specs.Characters.{is_token_octet, is_token, is_field_octet, is_field_name, is_target_octet, is_target, is_value_octet, is_value};

/// Whether an octet may be in a token (RFC 9110, section 5.6.2).
fn is_token_octet(octet: u8) -> bool
    ensures { result ≡ is_token_octet octet }
{
    matches!(octet, b'A'..=b'Z') || is_field_octet(octet)
}

/// Whether an octet may be in the name of a field in lower case.
fn is_field_octet(octet: u8) -> bool
    ensures { result ≡ is_field_octet octet }
{
    matches!(octet, b'!' | b'#'..=b'\'' | b'*' | b'+' | b'-' | b'.' | b'0'..=b'9' | b'^'..=b'z' | b'|' | b'~')
}

/// Whether a text is a token, as a method is.
pub(crate) fn is_token(text: &[u8]) -> bool
    ensures { result ≡ is_token text.now }
{
    !text.is_empty() && are_token_octets(text)
}

/// Whether a text is the name of a field in lower case.
pub(crate) fn is_field_name(text: &[u8]) -> bool
    ensures { result ≡ is_field_name text.now }
{
    !text.is_empty() && are_field_octets(text)
}

/// Whether an octet may be in a target: visible ASCII, and not `#`.
fn is_target_octet(octet: u8) -> bool
    ensures { result ≡ is_target_octet octet }
{
    matches!(octet, b'!' | b'"' | b'$'..=b'~')
}

/// Whether a text is a path and perhaps a query.
pub(crate) fn is_target(text: &[u8]) -> bool
    ensures { result ≡ is_target text.now }
{
    match text {
        [b'/', others @ ..] => are_target_octets(others),
        _ => false,
    }
}

/// Whether an octet may be in the value of a field: visible ASCII, space or tab.
fn is_value_octet(octet: u8) -> bool
    ensures { result ≡ is_value_octet octet }
{
    matches!(octet, b'\t' | b' '..=b'~')
}

/// Whether a text may be the value of a component.
pub(crate) fn is_value(text: &[u8]) -> bool
    ensures { result ≡ is_value text.now }
{
    text.iter().all(|octet| is_value_octet(*octet))
}

/// Whether each octet may be in a token.
fn are_token_octets(text: &[u8]) -> bool
    ensures { result ≡ list_all is_token_octet text.now }
{
    text.iter().all(|octet| is_token_octet(*octet))
}

/// Whether each octet may be in the name of a field in lower case.
fn are_field_octets(text: &[u8]) -> bool
    ensures { result ≡ list_all is_field_octet text.now }
{
    text.iter().all(|octet| is_field_octet(*octet))
}

/// Whether each octet may be in a target.
fn are_target_octets(text: &[u8]) -> bool
    ensures { result ≡ list_all is_target_octet text.now }
{
    text.iter().all(|octet| is_target_octet(*octet))
}
