//! Texts and octets.

ghost use Rattle.std.specs.Prelude.{◌≡◌, ◌*◌, ◌/◌, ◌^◌, ◌<◌, ◌++◌, length, vec_capacity, IfOk, OnOk};
ghost use Rattle.sd_data.specs.Outcome.{Gives};
ghost use Rattle.sd_data.specs.Reading.{text_read, units_in, utf16_of};
ghost use Rattle.sd_data.specs.Writing.{has_no_zero, text_bytes};

use crate::number::read_u16;
use crate::refusal::Refusal;
use std::alloc::{AllocError, Global};
use std::marker::Model;

/// A text or a name: UTF-16 units, whatever they say, without the zero that ends them in a claim
/// ([MS-DTYP] 2.4.4.17.5, 2.4.4.17.8, 2.4.10.1). Contracts see the list.
#[derive(Debug, Drop)]
pub struct Utf16 {
    units: Vec<u16>,
}

impl Model for Utf16 {
    ghost use Rattle.std.specs.Prelude.{ℕ, List};

    ghost Value = { List ℕ };

    ghost view = { λ u. u.units.items };
}

impl Utf16 {
    /// The text of these units.
    pub fn new(units: Vec<u16>) -> Utf16
        ensures { result ≡ units.items }
    {
        Utf16 { units }
    }

    /// The units, in order.
    pub fn units(&self) -> &[u16]
        ensures { result.now ≡ self.now }
    {
        &self.units
    }
}

/// An octet string, without its length ([MS-DTYP] 2.4.4.17.5, 2.4.10.2). Contracts see the list.
#[derive(Debug, Drop)]
pub struct Octets {
    octets: Vec<u8>,
}

impl Model for Octets {
    ghost use Rattle.std.specs.Prelude.{ℕ, List};

    ghost Value = { List ℕ };

    ghost view = { λ o. o.octets.items };
}

impl Octets {
    /// The string of these octets.
    pub fn new(octets: Vec<u8>) -> Octets
        ensures { result ≡ octets.items }
    {
        Octets { octets }
    }

    /// The octets, in order.
    pub fn octets(&self) -> &[u8]
        ensures { result.now ≡ self.now }
    {
        &self.octets
    }
}

/// The units in the bytes, two bytes each; Malformed if one has half of its bytes ([MS-DTYP] 2.4.4.17.5).
#[tactic(auto, unfolding(crate::specs::Reading::text_read))]
pub fn read_text(alloc: Global, bytes: &[u8]) -> Result<Utf16, Refusal>
    ensures { Gives result (text_read bytes.now) }
{
    if !bytes.len().is_multiple_of(2) {
        return Err(Refusal::Malformed);
    }
    let units = read_units(alloc, bytes)?;
    Ok(Utf16 { units })
}

/// The units in the bytes. There is one allocation, of no more than the bytes have.
fn read_units(alloc: Global, bytes: &[u8]) -> Result<Vec<u16>, AllocError>
    ensures units { IfOk result (λ units. units.items ≡ units_in bytes.now) }
    ensures capacity { IfOk result (λ units. vec_capacity units ≡ length bytes.now / 2) }
{
    let mut units = Vec::with_capacity(alloc, bytes.len() / 2)?;
    for k in 0..bytes.len() / 2 {
        units.push_reserved(read_u16(bytes, 2 * k));
    }
    Ok(units)
}

/// The bytes, as octets.
pub fn read_octets(alloc: Global, bytes: &[u8]) -> Result<Octets, AllocError>
    ensures { IfOk result (λ octets. octets ≡ bytes.now) }
{
    let octets = Vec::from_slice(alloc, bytes)?;
    Ok(Octets { octets })
}

/// Appends the units of a text in UTF-8.
pub fn push_utf16(units: &mut Vec<u16>, text: &str) -> Result<(), AllocError>
    ensures { OnOk result (units.new.items ≡ units.old.items ++ utf16_of text.now) }
{
    for c in text.chars() {
        units.extend_from_slice(c.encode_utf16(&mut [0; 2]))?;
    }
    Ok(())
}

/// Whether no unit is zero, which would end a text in a claim ([MS-DTYP] 2.4.10.1).
pub fn has_no_zero(units: &[u16]) -> bool
    ensures { result ≡ has_no_zero units.now }
{
    units.iter().all(|unit| *unit != 0)
}

/// How many bytes a text takes.
#[tactic(auto, using(crate::proofs::Lengths::length_of_text))]
pub fn text_len(text: &Utf16) -> usize
    ensures exact { result ≡ length (text_bytes text.now) }
    ensures most { result < 2 ^ 63 }
{
    2 * text.units().len()
}

/// Appends the units of a text, two bytes each.
pub fn push_text(bytes: &mut Vec<u8>, text: &Utf16) -> Result<(), AllocError>
    ensures { OnOk result (bytes.new.items ≡ bytes.old.items ++ text_bytes text.now) }
{
    for unit in text.units() {
        bytes.extend_from_slice(&unit.to_le_bytes())?;
    }
    Ok(())
}
