//! Security descriptors as text, in the security descriptor definition language (SDDL) of [MS-DTYP] 2.5.1.
//!
//! Texts of descriptors, of SIDs and of access masks are parsed and printed. A text is parsed in one pass, and an error
//! is its first fault, with the offset in bytes. A text parses exactly if the grammar in specs/ accepts it; each value
//! has one canonical text, which parses as that value again.
//!
//! ```text
//! let descriptor = read_sddl(alloc, "o:s-1-5-18d:(a;;0x1f01ff;;;wd)")?;
//! print_sddl(alloc, &descriptor)?; // O:SYD:(A;;FA;;;WD)
//! read_sid_text("DA");             // a fault: DomainAlias at 0
//! ```
#![tactic(auto)]

mod alias;
mod cursor;
mod descriptor;
mod domain;
mod entry;
mod fault;
mod laws;
mod name;
mod number;
mod places;
mod print;
mod right_names;
mod rights;
mod sid;

pub use alias::{Aliases, alias_of};
pub use cursor::Cursor;
pub use descriptor::{DaclWords, read_sddl, read_sddl_in};
pub use domain::Domain;
pub use entry::flag_names;
pub use fault::{TextError, TextFault};
pub use laws::{
    printed_texts_come_back, texts_have_a_value_or_a_fault, texts_have_one_fault,
    texts_have_one_value, texts_never_have_both,
};
pub use print::{
    print_entry, print_entry_in, print_full_sid, print_sddl, print_sddl_in, print_sid, write_flags,
    write_rights, write_section, write_sid, write_where,
};
pub use right_names::RightNames;
pub use rights::read_mask;
pub use sid::{read_sid_text, read_sid_text_in};
