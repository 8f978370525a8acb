//! Names in the place of the SIDs of a descriptor's text.
ghost use Rattle.std.specs.Prelude.{◌≡◌, ◌+◌, ◌^◌, ◌<◌, ◌≤◌, IfNone, IfOk, IfSome, string_bytes};
ghost use Rattle.sd_sid.specs.Sid.{SidValue};
ghost use Rattle.sd_accounts.specs.Accounts.{rows_of};
ghost use Rattle.sd_named.specs.Sddl.{IsField, IsNamedSddl, IsNamedSid, closed, opened, step, step_other};
ghost use Rattle.sd_named.specs.Sddl.{step_outside, step_trustee, with_field};

use sd_accounts::Accounts;
use sd_sid::Sid;
use sd_text::{Aliases, print_full_sid, read_sid_text_in};
use std::alloc::{AllocError, Global};
use std::str::from_utf8;

/// Where a byte of a text stands.
#[derive(Clone, Copy)]
pub(crate) struct Place {
    /// The letter of the part, as `O` of the owner; 0 before the first.
    part: u8,
    /// How many brackets are open.
    depth: usize,
    /// How many semicolons the entry has so far, of those before and after its trustee.
    fields: usize,
    /// Whether it is within a string.
    quoted: bool,
}

/// Before the text.
const BEFORE: Place = Place {
    part: 0,
    depth: 0,
    fields: 0,
    quoted: false,
};

/// The text of a descriptor ([MS-DTYP] 2.5.1.1) with full SIDs in the place of names: of an owner, a group, and the
/// trustees of entries. What spells a SID, and what isn't the name of one account, stands as it is. The only error is
/// out of memory.
pub fn named_sddl(
    alloc: Global,
    accounts: &Accounts,
    known: Aliases,
    text: &str,
) -> Result<String, AllocError>
    ensures { IfOk result (λ named. IsNamedSddl (rows_of accounts.now) known text.now (string_bytes named)) }
{
    let bytes = text.as_bytes();
    let mut named = Vec::new(alloc);
    let mut field = Vec::new(alloc);
    let mut place = BEFORE;
    for i in 0..bytes.len() {
        let (after, is_sid) = place.step(bytes[i], bytes.get(i + 1).copied());
        place = after;
        if is_sid {
            field.push(bytes[i])?;
        } else {
            named.append(&mut field_text(alloc, accounts, known, &field)?)?;
            named.push(bytes[i])?;
            field = Vec::new(alloc);
        }
    }
    named.append(&mut field_text(alloc, accounts, known, &field)?)?;
    match String::from_utf8(named) {
        Ok(named) => Ok(named),
        Err(_) => String::from_str(alloc, text),
    }
}

/// The field, or the SID in full that it names.
fn field_text(
    alloc: Global,
    accounts: &Accounts,
    known: Aliases,
    field: &[u8],
) -> Result<Vec<u8>, AllocError>
    ensures { IfOk result (λ shown. IsField (rows_of accounts.now) known field.now shown.items) }
{
    if field.is_empty() {
        return Ok(Vec::new(alloc));
    }
    let Ok(text) = from_utf8(field) else {
        return Vec::from_slice(alloc, field);
    };
    match named_sid(accounts, known, text) {
        Some(sid) => {
            let text = print_full_sid(alloc, &sid)?;
            Vec::from_slice(alloc, text.as_bytes())
        }
        None => Vec::from_slice(alloc, field),
    }
}

/// The SID of the one account that the text names, if it spells none.
fn named_sid(accounts: &Accounts, known: Aliases, text: &str) -> Option<Sid>
    ensures named { IfSome result (IsNamedSid (rows_of accounts.now) known text.now) }
    ensures none { IfNone result ((sid : SidValue) → IsNamedSid (rows_of accounts.now) known text.now sid → ⊥) }
{
    match read_sid_text_in(known, text) {
        Ok(_) => None,
        Err(_) => match accounts.sid_named(text) {
            Ok(sid) => Some(sid),
            Err(_) => None,
        },
    }
}

impl Place {
    /// Where the byte after this one stands, and whether this one is of a SID.
    fn step(self, byte: u8, next: Option<u8>) -> (Place, bool)
        requires { self.depth < 2 ^ 63 }
        ensures step { result ≡ step self byte next }
        ensures depth { result.0.depth ≤ self.depth + 1 }
    {
        if self.quoted {
            let quoted = byte != b'"';
            return (Place { quoted, ..self }, false);
        }
        if self.depth == 0 {
            return self.step_outside(byte, next);
        }
        if self.fields == 5 {
            return self.step_trustee(byte);
        }
        (self.step_other(byte), false)
    }

    /// Outside of brackets.
    fn step_outside(self, byte: u8, next: Option<u8>) -> (Place, bool)
        ensures step { result ≡ step_outside self byte next }
        ensures depth { result.0.depth ≤ self.depth + 1 }
    {
        if byte == b'(' {
            let (depth, fields) = (1, 0);
            return (
                Place {
                    depth,
                    fields,
                    ..self
                },
                false,
            );
        }
        if next == Some(b':') {
            return (Place { part: byte, ..self }, false);
        }
        let is_sid = matches!(self.part, b'O' | b'o' | b'G' | b'g');
        (self, is_sid && byte != b':')
    }

    /// In the field of a trustee.
    fn step_trustee(self, byte: u8) -> (Place, bool)
        requires { self.depth < 2 ^ 63 }
        ensures step { result ≡ step_trustee self byte }
        ensures depth { result.0.depth ≤ self.depth + 1 }
    {
        match byte {
            b';' => (Place { fields: 6, ..self }, false),
            b'(' => (self.opened(), true),
            b')' => (self.closed(), self.depth > 1),
            _ => (self, true),
        }
    }

    /// In another field.
    fn step_other(self, byte: u8) -> Place
        requires { self.depth < 2 ^ 63 }
        ensures step { result ≡ step_other self byte }
        ensures depth { result.depth ≤ self.depth + 1 }
    {
        match byte {
            b'(' => self.opened(),
            b')' => self.closed(),
            b';' => self.with_field(),
            b'"' => Place {
                quoted: true,
                ..self
            },
            _ => self,
        }
    }

    fn opened(self) -> Place
        requires { self.depth < 2 ^ 63 }
        ensures step { result ≡ opened self }
        ensures depth { result.depth ≤ self.depth + 1 }
    {
        Place {
            depth: self.depth + 1,
            ..self
        }
    }

    fn closed(self) -> Place
        ensures step { result ≡ closed self }
        ensures depth { result.depth ≤ self.depth + 1 }
    {
        Place {
            depth: self.depth.saturating_sub(1),
            ..self
        }
    }

    fn with_field(self) -> Place
        ensures step { result ≡ with_field self }
        ensures depth { result.depth ≤ self.depth + 1 }
    {
        if self.depth == 1 && self.fields < 5 {
            Place {
                fields: self.fields + 1,
                ..self
            }
        } else {
            self
        }
    }
}
