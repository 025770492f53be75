//! Reads validity (RFC 2693, section 5).

ghost use Rattle.std.specs.Prelude.{◌≡◌, ◌≢◌, ◌∷◌, [], ℕ, List, Some, None, codes, IfOk, IfErr, MatchOption};
ghost use Rattle.sexpr_core.specs.Value.{Value, plain, group};
ghost use Rattle.spki_cert.specs.{declared.window.Window.{Window}, Readings.{DateOf}, Fields.{Sole, IsLimitWord, IsLimitField, ValidOf}};
ghost use Rattle.spki_cert.specs.FieldFaults.{sole_fault, date_fault, fields_fault, limit_fault};
ghost use Rattle.spki_cert.specs.Inner.Gathering.{LimitLook, AddsLimit, IsOneWay, IsBothWays};

use crate::date::Date;
use crate::fault::CertFaultKind;
use crate::value_readers::date_of;
use crate::window::Window;
use sexpr_core::syntax::{Members, Node};

/// Reads the date from the members of `(not-before DATE)` or `(not-after DATE)` after the head. Err is `BadDate` if the first member is no
/// date, and `Shape` if there is no member, or if others follow the date.
pub(crate) fn date_in(members: Members) -> Result<Date, CertFaultKind>
    ensures found { IfOk result (λ date. Sole DateOf members.entry date) }
    ensures faultless { IfOk result (λ _. sole_fault CertFaultKind.Shape date_fault members.entry ≡ None) }
    ensures named { IfErr result (λ kind. sole_fault CertFaultKind.Shape date_fault members.entry ≡ Some kind) }
    ensures fault { IfErr result (λ kind. kind ≢ CertFaultKind.Memory) }
{
    let Some((value, more)) = members.split_first() else {
        return Err(CertFaultKind::Shape);
    };
    let date = date_of(&value)?;
    if more.is_empty() {
        Ok(date)
    } else {
        Err(CertFaultKind::Shape)
    }
}

/// Returns `window` with one more limit. `field` is a member of `(valid ..)`: `(not-before DATE)` or `(not-after DATE)`. `window` has the
/// limits of the members before it. Err is `Shape` if the window has this limit already, otherwise `BadDate` or `Shape` for its date. It is
/// `Online` for `(online ..)`, and `Shape` for anything else.
fn with_limit(field: &Node, window: Window) -> Result<Window, CertFaultKind>
    ensures found { IfOk result (λ after. AddsLimit field.now window after) }
    ensures faultless { IfOk result (λ _. LimitLook window field.now None) }
    ensures named { IfErr result (λ kind. LimitLook window field.now (Some kind)) }
    ensures fault { IfErr result (λ kind. kind ≢ CertFaultKind.Memory) }
{
    if let Some(members) = field.headed(b"not-before") {
        if window.not_before.is_some() {
            return Err(CertFaultKind::Shape);
        }
        let date = date_in(members)?;
        return Ok(Window {
            not_before: Some(date),
            not_after: window.not_after,
        });
    }
    if let Some(members) = field.headed(b"not-after") {
        if window.not_after.is_some() {
            return Err(CertFaultKind::Shape);
        }
        let date = date_in(members)?;
        return Ok(Window {
            not_before: window.not_before,
            not_after: Some(date),
        });
    }
    match field.headed(b"online") {
        Some(_) => Err(CertFaultKind::Online),
        None => Err(CertFaultKind::Shape),
    }
}

/// Reads a window from the members of `(valid ..)` after the head: limits, each at most once. Without members the window has no limits. Err
/// is the first fault: `BadDate` for a limit that is no date, `Online` for `(online ..)`, and `Shape` for anything else, such as a limit
/// that comes twice.
pub(crate) fn valid_in(members: Members) -> Result<Window, CertFaultKind>
    ensures found { IfOk result (λ window. ValidOf members.entry window) }
    ensures faultless { IfOk result (λ _. fields_fault limit_fault members.entry ≡ None) }
    ensures named { IfErr result (λ kind. fields_fault limit_fault members.entry ≡ Some kind) }
    ensures fault { IfErr result (λ kind. kind ≢ CertFaultKind.Memory) }
{
    let mut rest = members;
    let mut window = Window {
        not_before: None,
        not_after: None,
    };
    while let Some((field, others)) = rest.split_first() {
        window = with_limit(&field, window)?;
        rest = others;
    }
    Ok(window)
}

/// The window of an entry or a certificate. Its limits are written either in fields of their own, which are `limits`, or in a field
/// `(valid ..)`, which is `valid`, or None if there is no such field. Returns None if there is a `(valid ..)` and also a limit outside of
/// it. Without any limit the window contains all moments.
pub(crate) fn window_of_limits(limits: Window, valid: Option<Window>) -> Option<Window>
    ensures { MatchOption result (IsBothWays limits valid) (IsOneWay limits valid) }
{
    let Some(window) = valid else {
        return Some(limits);
    };
    if limits.not_before.is_some() || limits.not_after.is_some() {
        None
    } else {
        Some(window)
    }
}
