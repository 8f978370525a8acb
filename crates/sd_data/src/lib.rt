//! What the data of conditions and of claims is made of ([MS-DTYP] 2.4.4.17, 2.4.10): UTF-16 texts, octets,
//! little-endian numbers, padding, and why a part isn't parsed.
//!
//! ```text
//! let name = read_text(alloc, content)?; // Malformed if the bytes are an odd number
//! push_text(&mut bytes, &name)?;
//! ```
#![tactic(auto)]

mod number;
mod padding;
mod refusal;
mod text;

pub use number::{push_i64, push_u16, push_u32, push_u64, read_i64, read_u16, read_u32, read_u64};
pub use padding::{padding_len, push_padding};
pub use refusal::Refusal;
pub use text::{
    Octets, Utf16, has_no_zero, push_text, push_utf16, read_octets, read_text, text_len,
};
