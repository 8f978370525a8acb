//! Claims, as values and as an entry's application data.

ghost use Rattle.std.specs.Prelude.{◌≡◌, ◌+◌, ◌^◌, ◌<◌, ◌≤◌, ◌++◌, nat_le, length, replicate, true, Some, None, IfOk};
ghost use Rattle.std.specs.Prelude.{IsErrOf, OnErr, OnOk, SomeIff};
ghost use Rattle.std.specs.Int.{w16, w32, to_le_bytes};
ghost use Rattle.sd_sid.specs.SidBytes.{u32_at};
ghost use Rattle.sd_claim.specs.Claim.{claim_value};
ghost use Rattle.sd_claim.specs.Memory.{HasName, TakesMemory};
ghost use Rattle.sd_data.specs.Outcome.{Gives};
ghost use Rattle.sd_claim.specs.Reading.{claim_of, claim_read, header_read, name_read, room_of};
ghost use Rattle.sd_claim.specs.Table.{type_number};
ghost use Rattle.sd_claim.specs.Writing.{claim_bytes, claim_data, claim_len, header_bytes, header_len};
ghost use Rattle.sd_claim.specs.Writing.{is_claim};
ghost use Rattle.sd_data.specs.Writing.{padding_len};
ghost use Rattle.sd_data.specs.declared.refusal.Refusal.TheVariants.{Memory};

use crate::part::read_part_len;
use crate::text::{push_terminated, read_text_part, terminated_len};
use crate::value::Value;
use crate::value_type::{Layout, ValueType};
use crate::values::{
    HEADER_BYTES, OFFSET_BYTES, are_values_of, push_offsets, push_values, read_values, values_len,
};
use sd_data::{
    Refusal, Utf16, has_no_zero, padding_len, push_padding, push_u16, push_u32, read_u16, read_u32,
};
use std::alloc::{AllocError, Global};
use std::marker::Model;

/// The most bytes of a claim's data: the size of an entry, which has a claim in it, has 16 bits ([MS-DTYP] 2.4.4.1).
pub const MAX_CLAIM_BYTES: usize = 0xffff;

/// The offset of the name's offset ([MS-DTYP] 2.4.10.1).
const NAME: usize = 0;

/// The offset of ValueType ([MS-DTYP] 2.4.10.1).
const VALUE_TYPE: usize = 4;

/// The offset of Reserved ([MS-DTYP] 2.4.10.1).
const RESERVED: usize = 6;

/// The offset of Flags ([MS-DTYP] 2.4.10.1).
const FLAGS: usize = 8;

/// The offset of ValueCount ([MS-DTYP] 2.4.10.1).
const VALUE_COUNT: usize = 12;

/// The claim of a resource attribute entry ([MS-DTYP] 2.4.4.15, 2.4.10.1): its name, its flags, and its values, which
/// are of one type. The name and the texts have no zero unit, which would end them, and the data has at most 65,535
/// bytes. Contracts see the parts.
#[derive(Debug, Drop)]
pub struct Claim {
    name: Utf16,
    flags: u32,
    value_type: ValueType,
    values: Vec<Value>,
}

impl Model for Claim {
    ghost use Rattle.std.specs.Prelude.{◌≡◌, true};
    ghost use Rattle.sd_claim.specs.Claim.{ClaimValue, claim_value};
    ghost use Rattle.sd_claim.specs.Writing.{is_claim};

    ghost Value = { ClaimValue };

    ghost view = { λ c. claim_value c.name c.flags c.value_type c.values.items };

    ghost invariant = { λ c. is_claim (claim_value c.name c.flags c.value_type c.values.items) ≡ true };
}

impl Claim {
    /// The claim of a name, flags, and values of a type; `None` if a value is of another type, the name or a text has a
    /// zero unit, or the data has more than 65,535 bytes ([MS-DTYP] 2.4.10.1).
    #[tactic(auto, unfolding(crate::specs::Writing::is_claim), using(crate::proofs::Lengths::length_of_data))]
    pub fn new(name: Utf16, flags: u32, value_type: ValueType, values: Vec<Value>) -> Option<Claim>
        ensures { result ≡ claim_of (claim_value name flags value_type values.items) }
    {
        if has_no_zero(name.units())
            && are_values_of(value_type, &values)
            && fits_an_entry(&name, &values)
        {
            return Some(Claim {
                name,
                flags,
                value_type,
                values,
            });
        }
        None
    }

    /// The application data ([MS-DTYP] 2.4.10.1), in one allocation of `data_len` bytes: the header, the offsets, the
    /// name, the values, and zero bytes up to a multiple of four.
    #[tactic(auto, unfolding(crate::specs::Writing::claim_data))]
    pub fn write(&self, alloc: Global) -> Result<Vec<u8>, AllocError>
        ensures { IfOk result (λ bytes. bytes.items ≡ claim_data self.now) }
    {
        let mut bytes = Vec::with_capacity(alloc, self.data_len())?;
        push_claim(&mut bytes, self)?;
        let len = bytes.len();
        push_padding(&mut bytes, padding_len(len))?;
        Ok(bytes)
    }

    /// The length in bytes of what `write` returns. Allocates nothing.
    pub fn data_len(&self) -> usize
        ensures exact { result ≡ length (claim_data self.now) }
        ensures most { result ≤ 65535 }
    {
        // The data has at most 65,535 bytes, so the number of the claim's is known.
        let len = claim_len(self.name(), self.values()).unwrap();
        len + padding_len(len)
    }

    /// The name.
    pub fn name(&self) -> &Utf16
        ensures { result.now ≡ self.now.name }
    {
        &self.name
    }

    /// The flags ([MS-DTYP] 2.4.10.1): 0x2 CASE_SENSITIVE, 0x4 USE_FOR_DENY_ONLY, 0x8 DISABLED_BY_DEFAULT,
    /// 0x10 DISABLED, 0x20 MANDATORY, and others, which are kept.
    pub fn flags(&self) -> u32
        ensures { result ≡ self.now.flags }
    {
        self.flags
    }

    /// The type of the values.
    pub fn value_type(&self) -> ValueType
        ensures { result ≡ self.now.value_type }
    {
        self.value_type
    }

    /// The values, in order.
    pub fn values(&self) -> &[Value]
        ensures values { result.now ≡ self.now.values }
        ensures known { is_claim self.now ≡ true }
    {
        &self.values
    }
}

/// Whether a claim of the name and the values has data of at most 65,535 bytes.
fn fits_an_entry(name: &Utf16, values: &[Value]) -> bool
    ensures { result ≡ nat_le (claim_len name.now values.now + padding_len (claim_len name.now values.now)) 65535 }
{
    match claim_len(name, values) {
        Some(len) => len <= MAX_CLAIM_BYTES && len + padding_len(len) <= MAX_CLAIM_BYTES,
        None => false,
    }
}

/// How many bytes a claim of the name and the values takes, if a number of bytes can be so large.
fn claim_len(name: &Utf16, values: &[Value]) -> Option<usize>
    ensures { SomeIff result (claim_len name.now values.now < 2 ^ 64) (claim_len name.now values.now) }
{
    let offsets = OFFSET_BYTES.checked_mul(values.len())?;
    let before = HEADER_BYTES
        .checked_add(offsets)?
        .checked_add(terminated_len(name))?;
    before.checked_add(values_len(values)?)
}

/// The claim of an entry's application data ([MS-DTYP] 2.4.10.1); `None` if the data is none: an offset or a length
/// leads past the end, no zero ends a text, the type is unknown, Reserved isn't zero, or the name and the values take
/// more bytes than the data has for them, which they can where they overlap. So what is copied is never larger than the
/// data. Nothing is allocated before the name is found.
pub fn read_claim(alloc: Global, bytes: &[u8]) -> Result<Option<Claim>, AllocError>
    ensures read { IfOk result (λ claim. claim ≡ claim_read bytes.now) }
    ensures memory { OnErr result (TakesMemory bytes.now) }
{
    match parse_claim(alloc, bytes) {
        Ok(claim) => Ok(Some(claim)),
        Err(Refusal::Malformed) => Ok(None),
        Err(Refusal::Memory) => Err(AllocError),
    }
}

/// The claim of the data.
#[tactic(auto, unfolding(crate::specs::Reading::claim_read))]
fn parse_claim(alloc: Global, bytes: &[u8]) -> Result<Claim, Refusal>
    ensures read { Gives result (claim_read bytes.now) }
    ensures memory { IsErrOf result Memory → TakesMemory bytes.now }
{
    let value_type = read_header(bytes)?;
    let (name, size) = read_name(alloc, bytes)?;
    let count = read_u32(bytes, VALUE_COUNT) as usize;
    let values = read_values(alloc, value_type, bytes, count, room_of(bytes) - size)?;
    Claim::new(name, read_u32(bytes, FLAGS), value_type, values).ok_or(Refusal::Malformed)
}

/// The type of the values, if the data begins with a header and has room for the offsets.
#[tactic(auto, unfolding(crate::specs::Reading::header_read))]
fn read_header(bytes: &[u8]) -> Result<ValueType, Refusal>
    ensures read { Gives result (header_read bytes.now) }
    ensures memory { ¬ IsErrOf result Memory }
    ensures long { IfOk result (λ _. header_len (u32_at bytes.now 12) ≤ length bytes.now) }
{
    if bytes.len() < HEADER_BYTES || read_u16(bytes, RESERVED) != 0 {
        return Err(Refusal::Malformed);
    }
    if bytes.len() < HEADER_BYTES + OFFSET_BYTES * read_u32(bytes, VALUE_COUNT) as usize {
        return Err(Refusal::Malformed);
    }
    ValueType::of_number(read_u16(bytes, VALUE_TYPE)).ok_or(Refusal::Malformed)
}

/// How many bytes the data has after the header and the offsets.
fn room_of(bytes: &[u8]) -> usize
    requires { header_len (u32_at bytes.now 12) ≤ length bytes.now }
    ensures { result ≡ room_of bytes.now }
{
    bytes.len() - HEADER_BYTES - OFFSET_BYTES * read_u32(bytes, VALUE_COUNT) as usize
}

/// The name, and how many bytes it takes.
#[tactic(auto, unfolding(crate::specs::Reading::name_read))]
fn read_name(alloc: Global, bytes: &[u8]) -> Result<(Utf16, usize), Refusal>
    requires { header_len (u32_at bytes.now 12) ≤ length bytes.now }
    ensures read { Gives result (name_read bytes.now) }
    ensures memory { IsErrOf result Memory → HasName bytes.now }
    ensures found { IfOk result (λ _. HasName bytes.now) }
    ensures room { IfOk result (λ x. x.1 ≤ room_of bytes.now) }
{
    let place = read_u32(bytes, NAME) as usize;
    let len = read_part_len(Layout::TerminatedText, bytes, place, room_of(bytes))?;
    let name = read_text_part(alloc, &bytes[place..place + len])?;
    Ok((name, len))
}

/// Appends a claim, without the padding.
fn push_claim(bytes: &mut Vec<u8>, claim: &Claim) -> Result<(), AllocError>
    ensures { OnOk result (bytes.new.items ≡ bytes.old.items ++ claim_bytes claim.now) }
{
    let values = claim.values();
    let name = claim.name();
    push_header(bytes, claim)?;
    let place = HEADER_BYTES + OFFSET_BYTES * values.len() + terminated_len(name);
    push_offsets(bytes, place, values)?;
    push_terminated(bytes, name)?;
    push_values(bytes, values)?;
    Ok(())
}

/// Appends a claim's header.
fn push_header(bytes: &mut Vec<u8>, claim: &Claim) -> Result<(), AllocError>
    ensures { OnOk result (bytes.new.items ≡ bytes.old.items ++ header_bytes claim.now) }
{
    let count = claim.values().len();
    push_u32(bytes, (HEADER_BYTES + OFFSET_BYTES * count) as u32)?;
    push_u16(bytes, claim.value_type().number())?;
    push_u16(bytes, 0)?;
    push_u32(bytes, claim.flags())?;
    push_u32(bytes, count as u32)?;
    Ok(())
}
