//! The parameters of a signature.

ghost use Rattle.std.specs.Prelude.{◌≡◌, ◌≢◌, Ok, Err, IfOk, IfErr};
ghost use Rattle.http_signature.specs.{Pieces.{end_of}, SignatureInput.{number_after, string_after, with_parameter, next_parameter, no_parameters, parameters_in}};

use crate::octets::Octets;
use crate::pieces::{after, end_fault, expect, read_name, read_number, read_string};
use crate::refusal::Refusal;

/// The parameters that were read so far.
#[derive(Drop)]
pub(crate) struct Parameters<'a> {
    pub(crate) created: Option<u64>,
    pub(crate) expires: Option<u64>,
    pub(crate) nonce: Option<Octets<'a>>,
    pub(crate) keyid: Option<Octets<'a>>,
    pub(crate) alg: Option<Octets<'a>>,
    pub(crate) tag: Option<Octets<'a>>,
}

/// Reads a parameter's value that is a number. `ParameterTwice` if the parameter `was_read` before.
fn number_after<'a>(was_read: bool, rest: &Octets<'a>) -> Result<(u64, Octets<'a>), Refusal>
    ensures { result ≡ number_after was_read rest.now }
{
    if was_read {
        return Err(Refusal::ParameterTwice);
    }
    let text = expect(b'=', rest)?;
    read_number(&text)
}

/// Reads a parameter's value that is a string. `ParameterTwice` if the parameter `was_read` before.
fn string_after<'a>(was_read: bool, rest: &Octets<'a>) -> Result<(Octets<'a>, Octets<'a>), Refusal>
    ensures { result ≡ string_after was_read rest.now }
{
    if was_read {
        return Err(Refusal::ParameterTwice);
    }
    let text = expect(b'=', rest)?;
    read_string(&text)
}

impl<'a> Parameters<'a> {
    /// Reads the parameter of this name, and returns the rest. `rest` begins behind the name.
    fn take(&mut self, name: &Octets, rest: &Octets<'a>) -> Result<Octets<'a>, Refusal>
        ensures read { IfOk result (λ behind. with_parameter self.old name.now rest.now ≡ Ok (self.new, behind)) }
        ensures refused { IfErr result (λ refusal. with_parameter self.old name.now rest.now ≡ Err refusal) }
    {
        if name.is(b"created") {
            let (value, behind) = number_after(self.created.is_some(), rest)?;
            self.created = Some(value);
            Ok(behind)
        } else if name.is(b"expires") {
            let (value, behind) = number_after(self.expires.is_some(), rest)?;
            self.expires = Some(value);
            Ok(behind)
        } else if name.is(b"nonce") {
            let (value, behind) = string_after(self.nonce.is_some(), rest)?;
            self.nonce = Some(value);
            Ok(behind)
        } else if name.is(b"keyid") {
            let (value, behind) = string_after(self.keyid.is_some(), rest)?;
            self.keyid = Some(value);
            Ok(behind)
        } else if name.is(b"alg") {
            let (value, behind) = string_after(self.alg.is_some(), rest)?;
            self.alg = Some(value);
            Ok(behind)
        } else if name.is(b"tag") {
            let (value, behind) = string_after(self.tag.is_some(), rest)?;
            self.tag = Some(value);
            Ok(behind)
        } else {
            Err(Refusal::UnknownParameter)
        }
    }

    /// Reads the next parameter, and returns the rest. `text` begins with its name.
    fn next(&mut self, text: &Octets<'a>) -> Result<Octets<'a>, Refusal>
        ensures read { IfOk result (λ behind. next_parameter self.old text.now ≡ Ok (self.new, behind)) }
        ensures refused { IfErr result (λ refusal. next_parameter self.old text.now ≡ Err refusal) }
    {
        let (name, rest) = read_name(text)?;
        self.take(&name, &rest)
    }

    /// Reads parameters up to the end of the text.
    pub(crate) fn read(text: &Octets<'a>) -> Result<Parameters<'a>, Refusal>
        ensures { result ≡ parameters_in 7 no_parameters text.now }
    {
        let mut parameters = Parameters {
            created: None,
            expires: None,
            nonce: None,
            keyid: None,
            alg: None,
            tag: None,
        };
        let mut rest = text.share();
        for count in 0..7u32 {
            match after(b';', &rest) {
                None => return parameters.ended(&rest),
                Some(text) => {
                    let behind = parameters.next(&text)?;
                    rest = behind;
                }
            }
        }
        Err(Refusal::ParameterTwice)
    }

    /// The parameters, if the text is at its end.
    fn ended(self, text: &Octets) -> Result<Parameters<'a>, Refusal>
        ensures { result ≡ end_of self.entry text.now }
    {
        match end_fault(text) {
            None => Ok(self),
            Some(refusal) => Err(refusal),
        }
    }
}
