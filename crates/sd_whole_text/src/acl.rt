//! SACLs and DACLs as text: [MS-DTYP] 2.5.1.1, dacl and sacl.

ghost use Rattle.std.specs.Prelude.{◌≡◌, ◌++◌, OnOk, string_bytes};
ghost use Rattle.std.specs.List.{flat_map};
ghost use Rattle.sd_whole_text.specs.Acl.{acl_text, auto_inherited_bit, auto_req_bit, head_of, keywords_text};
ghost use Rattle.sd_whole_text.specs.Acl.{protected_bit};
ghost use Rattle.sd_whole_text.specs.Entry.{entry_text};
ghost use Rattle.sd_whole_text.specs.NoText.{acl_test, entries_test, Gives};

use crate::entry::push_entry;
use crate::no_text::{AclKind, WholeTextError};
use sd_text::{RightNames, write_where};
use sd_whole::{WholeAce, WholeAcl};
use sd_wire::has_bits;
use std::alloc::{AllocError, Global};

impl AclKind {
    /// The head of its section.
    fn head(self) -> &'static str
        ensures { result.now ≡ head_of self }
    {
        match self {
            AclKind::Dacl => "D:",
            AclKind::Sacl => "S:",
        }
    }

    /// PD or PS, the control bit of the keyword P ([MS-DTYP] 2.4.6).
    fn protected_bit(self) -> u16
        ensures { result ≡ protected_bit self }
    {
        match self {
            AclKind::Dacl => 0x1000,
            AclKind::Sacl => 0x2000,
        }
    }

    /// DC or SC, the control bit of the keyword AR ([MS-DTYP] 2.4.6).
    fn auto_req_bit(self) -> u16
        ensures { result ≡ auto_req_bit self }
    {
        match self {
            AclKind::Dacl => 0x0100,
            AclKind::Sacl => 0x0200,
        }
    }

    /// DI or SI, the control bit of the keyword AI ([MS-DTYP] 2.4.6).
    fn auto_inherited_bit(self) -> u16
        ensures { result ≡ auto_inherited_bit self }
    {
        match self {
            AclKind::Dacl => 0x0400,
            AclKind::Sacl => 0x0800,
        }
    }
}

/// Appends the section of a SACL or a DACL, if it is there.
pub(crate) fn push_acl(
    alloc: Global,
    out: &mut String,
    names: RightNames,
    kind: AclKind,
    control: u16,
    acl: &WholeAcl,
) -> Result<(), WholeTextError>
    ensures test { Gives (λ _. tt) result (acl_test kind acl.now) }
    ensures text { OnOk result (string_bytes out.new ≡ string_bytes out.old ++ acl_text names kind control acl.now) }
{
    match acl {
        WholeAcl::Absent => {}
        WholeAcl::Null => {
            push_head(out, kind, control)?;
            out.push_str("NO_ACCESS_CONTROL")?;
        }
        WholeAcl::List(list) => {
            push_head(out, kind, control)?;
            push_entries(alloc, out, names, kind, list.entries())?;
        }
    }
    Ok(())
}

/// Appends the entries of a list.
fn push_entries(
    alloc: Global,
    out: &mut String,
    names: RightNames,
    kind: AclKind,
    entries: &[WholeAce],
) -> Result<(), WholeTextError>
    ensures test { Gives (λ _. tt) result (entries_test kind 1 entries.now) }
    ensures text { OnOk result (string_bytes out.new
        ≡ string_bytes out.old ++ flat_map (entry_text names) entries.now) }
{
    for (i, entry) in entries.iter().enumerate() {
        push_entry(alloc, out, names, kind, i + 1, entry)?;
    }
    Ok(())
}

/// Appends the head of a section, and its keywords.
#[tactic(auto, unfolding(crate::specs::Acl::keywords_text))]
fn push_head(out: &mut String, kind: AclKind, control: u16) -> Result<(), AllocError>
    ensures { OnOk result (string_bytes out.new ≡ string_bytes out.old ++ head_of kind ++ keywords_text kind control) }
{
    out.push_str(kind.head())?;
    write_where(out, has_bits(control, kind.protected_bit()), "P")?;
    write_where(out, has_bits(control, kind.auto_req_bit()), "AR")?;
    write_where(out, has_bits(control, kind.auto_inherited_bit()), "AI")
}
