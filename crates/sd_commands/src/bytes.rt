//! Bytes as a text spells them.
ghost use Rattle.std.specs.Prelude.{◌≡◌, Err, IfErr, IfOk, Ok};
ghost use Rattle.sd_commands.specs.declared.bytes.BytesError.TheVariants.{Memory};
ghost use Rattle.sd_commands.specs.declared.settings.ByteForm.TheVariants.{Hex, Loose, Base64};
ghost use Rattle.sd_commands.specs.Bytes.{IsBytesError, base64_reason, bytes_read, form_name};

use crate::loose::loose_bytes;
use crate::settings::ByteForm;
use crate::value::descriptor_in;
use base64::engine::general_purpose::STANDARD;
use base64::{DecodeAllocError, DecodeError};
use hex::FromHexError;
use std::alloc::{AllocError, Global};

/// Why a text is no bytes.
#[derive(Drop)]
pub(crate) enum BytesError {
    /// It spells none: what is wrong with it, and at which byte.
    NoBytes { what: &'static str, place: usize },
    /// Memory was refused.
    Memory,
}

impl From<AllocError> for BytesError {
    ghost from_gives = { λ _ e. e ≡ Memory };

    fn from(_error: AllocError) -> BytesError {
        BytesError::Memory
    }
}

/// That no bytes are spelled, since this is wrong at this place.
pub(crate) fn no_bytes(what: &'static str, place: usize) -> BytesError
    ensures { IsBytesError (Err (what.now, place)) result }
{
    BytesError::NoBytes { what, place }
}

impl ByteForm {
    /// What a text in this form should have been.
    pub(crate) fn name(self) -> &'static str
        ensures { result.now ≡ form_name self }
    {
        match self {
            ByteForm::Hex | ByteForm::Loose => "hex",
            ByteForm::Base64 => "base64",
        }
    }
}

/// The bytes that the text spells in this form.
pub(crate) fn read_bytes(alloc: Global, form: ByteForm, text: &str) -> Result<Vec<u8>, BytesError>
    ensures ok { IfOk result (λ bytes. bytes_read form text.now ≡ Ok bytes.items) }
    ensures err { IfErr result (IsBytesError (bytes_read form text.now)) }
{
    match form {
        ByteForm::Hex => hex_bytes(alloc, text),
        ByteForm::Loose => held_bytes(alloc, text.as_bytes()),
        ByteForm::Base64 => base64_bytes(alloc, text),
    }
}

/// The bytes of a descriptor in the value that the text has.
fn held_bytes(alloc: Global, text: &[u8]) -> Result<Vec<u8>, BytesError>
    ensures ok { IfOk result (λ bytes. bytes_read Loose text.now ≡ Ok bytes.items) }
    ensures err { IfErr result (IsBytesError (bytes_read Loose text.now)) }
{
    let bytes = loose_bytes(alloc, text)?;
    Ok(descriptor_in(alloc, bytes)?)
}

fn hex_bytes(alloc: Global, text: &str) -> Result<Vec<u8>, BytesError>
    ensures ok { IfOk result (λ bytes. bytes_read Hex text.now ≡ Ok bytes.items) }
    ensures err { IfErr result (IsBytesError (bytes_read Hex text.now)) }
{
    match hex::decode(alloc, text) {
        Ok(bytes) => Ok(bytes),
        Err(FromHexError::InvalidHexCharacter { c: _, index }) => Err(no_bytes("no digit", index)),
        Err(FromHexError::OddLength) => Err(no_bytes("no second digit", text.len())),
        Err(FromHexError::InvalidStringLength) => Err(no_bytes("no bytes", 0)),
        Err(FromHexError::OutOfMemory) => Err(BytesError::Memory),
    }
}

fn base64_bytes(alloc: Global, text: &str) -> Result<Vec<u8>, BytesError>
    ensures ok { IfOk result (λ bytes. bytes_read Base64 text.now ≡ Ok bytes.items) }
    ensures err { IfErr result (IsBytesError (bytes_read Base64 text.now)) }
{
    match STANDARD.decode(alloc, text.as_bytes()) {
        Ok(bytes) => Ok(bytes),
        Err(DecodeAllocError::OutOfMemory) => Err(BytesError::Memory),
        Err(DecodeAllocError::DecodeError(error)) => Err(base64_error(text, error)),
    }
}

fn base64_error(text: &str, error: DecodeError) -> BytesError
    ensures { IsBytesError (Err (base64_reason text.now error)) result }
{
    match error {
        DecodeError::InvalidByte(place, _) => no_bytes("no digit", place),
        DecodeError::InvalidLength(place) => no_bytes("no end", place),
        DecodeError::InvalidLastSymbol { offset, .. } => no_bytes("no last digit", offset),
        DecodeError::InvalidPadding => no_bytes("no padding", text.len()),
    }
}
