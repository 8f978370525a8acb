//! The plain descriptor that a whole one is for one question, or by another rule for its entries.

ghost use Rattle.std.specs.Prelude.{◌≡◌, ◌<◌, length, IsErrOf, IsTrue, Result, Err};
ghost use Rattle.sd_acl.specs.declared.ace.Ace.{Ace};
ghost use Rattle.sd_acl.specs.Dacl.{IsAbsent};
ghost use Rattle.sd_acl.specs.Descriptor.{descriptor_of};
ghost use Rattle.sd_specialize.specs.Context.{context_of};
ghost use Rattle.sd_specialize.specs.Entry.{GivesEntry};
ghost use Rattle.sd_specialize.specs.Rule.{rule_of};
ghost use Rattle.sd_specialize.specs.Specialize.{Fails, Gives, HasDaclEntries, acl_by, descriptor_by, entries_by};
ghost use Rattle.sd_specialize.specs.Specialize.{list_by};
ghost use Rattle.sd_specialize.specs.Specialize.{numbered, specialized};
ghost use Rattle.sd_specialize.specs.declared.fault.RefusedKind.{RefusedKind};
ghost use Rattle.sd_whole.specs.Plain.{dacl_bit, with_dacl};
ghost use Rattle.sd_whole.specs.Writing.{is_without};

use crate::context::Context;
use crate::fault::{EntryError, RefusedEntry, SpecializeError, SpecializeFault};
use crate::rule::Rule;
use sd_acl::{Ace, AceList, Dacl, Descriptor};
use sd_whole::{WholeAce, WholeAcl, WholeDescriptor};
use sd_wire::has_bits;
use std::alloc::Global;

/// The control bit PD ([MS-DTYP] 2.4.6).
const PROTECTED: u16 = 0x1000;

/// The control bit DC.
const AUTO_REQ: u16 = 0x0100;

/// The control bit DI.
const AUTO_INHERITED: u16 = 0x0400;

/// The plain descriptor that a whole one is for the question ([MS-DTYP] 2.5.3.2): owner, group, the DACL's control
/// bits, and its entries, each with its number; one that has no part names no right. Entries for object types or with
/// a condition apply or have no part, and PRINCIPAL SELF is the SID that the question names. A fault is the first
/// entry that is refused, or that the list is too large. There is an allocation for the list, and those for parsing
/// and evaluating conditions.
#[tactic(auto, unfolding(crate::specs::Rule::rule_of))]
pub fn specialized(
    alloc: Global,
    context: &Context<'_>,
    descriptor: &WholeDescriptor,
) -> Result<Descriptor, SpecializeError>
    ensures exact { Gives descriptor_of result (specialized (context_of context.now) descriptor.now) }
    ensures memory { IsErrOf result SpecializeError.Memory → HasDaclEntries descriptor.now.dacl }
{
    descriptor_by(alloc, Rule::Asked(context), descriptor)
}

/// The plain descriptor whose entries follow from the whole one's by the rule.
pub(crate) fn descriptor_by(
    alloc: Global,
    rule: Rule<'_>,
    descriptor: &WholeDescriptor,
) -> Result<Descriptor, SpecializeError>
    ensures exact { Gives descriptor_of result (descriptor_by (rule_of rule.entry) descriptor.now) }
    ensures memory { IsErrOf result SpecializeError.Memory → HasDaclEntries descriptor.now.dacl }
{
    let dacl = acl_by(alloc, rule, &descriptor.dacl)?;
    Ok(with_dacl(descriptor, dacl))
}

/// Owner, group and this DACL.
fn with_dacl(descriptor: &WholeDescriptor, dacl: Dacl) -> Descriptor
    requires { IsAbsent dacl → IsTrue (is_without descriptor.now.dacl) }
    ensures { descriptor_of result ≡ with_dacl descriptor.now dacl }
{
    Descriptor {
        owner: descriptor.owner,
        group: descriptor.group,
        dacl,
        protected: dacl_bit(descriptor, PROTECTED),
        auto_req: dacl_bit(descriptor, AUTO_REQ),
        auto_inherited: dacl_bit(descriptor, AUTO_INHERITED),
    }
}

/// Whether a control bit that speaks of the DACL is set, and there is one.
fn dacl_bit(descriptor: &WholeDescriptor, bit: u16) -> bool
    ensures { result ≡ dacl_bit descriptor.now bit }
{
    has_bits(descriptor.control, bit) && !matches!(descriptor.dacl, WholeAcl::Absent)
}

fn acl_by(alloc: Global, rule: Rule<'_>, acl: &WholeAcl) -> Result<Dacl, SpecializeError>
    ensures exact { Gives (λ dacl. dacl) result (acl_by (rule_of rule.entry) acl.now) }
    ensures memory { IsErrOf result SpecializeError.Memory → HasDaclEntries acl.now }
{
    match acl {
        WholeAcl::Absent => Ok(Dacl::Absent),
        WholeAcl::Null => Ok(Dacl::Null),
        WholeAcl::List(list) => {
            let entries = list_by(alloc, rule, list.entries())?;
            Ok(Dacl::List(entries))
        }
    }
}

/// The entries of a list.
fn list_by(alloc: Global, rule: Rule<'_>, entries: &[WholeAce]) -> Result<AceList, SpecializeError>
    ensures exact { Gives (λ list. list) result (list_by (rule_of rule.entry) entries.now) }
    ensures memory { IsErrOf result SpecializeError.Memory → 0 < length entries.now }
{
    let plain = entries_by(alloc, rule, entries)?;
    match AceList::new(plain) {
        Ok(list) => Ok(list),
        Err(_) => Err(SpecializeError::Fault(SpecializeFault::TooLarge)),
    }
}

/// What each entry becomes.
fn entries_by(
    alloc: Global,
    rule: Rule<'_>,
    entries: &[WholeAce],
) -> Result<Vec<Ace>, SpecializeError>
    ensures exact { Gives (λ plain. plain.items) result (entries_by (rule_of rule.entry) 1 entries.now) }
    ensures memory { IsErrOf result SpecializeError.Memory → 0 < length entries.now }
{
    let mut plain = Vec::with_capacity(alloc, entries.len())?;
    for (i, entry) in entries.iter().enumerate() {
        plain.push(numbered_entry(alloc, rule, i + 1, entry)?)?;
    }
    Ok(plain)
}

/// What the entry with this number becomes.
fn numbered_entry(
    alloc: Global,
    rule: Rule<'_>,
    number: usize,
    entry: &WholeAce,
) -> Result<Ace, SpecializeError>
    ensures { Gives (λ e. e) result (numbered number (rule_of rule.entry entry.now)) }
{
    match rule.entry(alloc, entry) {
        Ok(plain) => Ok(plain),
        Err(error) => Err(at_number(number, error)),
    }
}

/// Why the entry with this number becomes nothing.
pub(crate) fn at_number(number: usize, error: EntryError) -> SpecializeError
    ensures { (found : Result Ace RefusedKind) → GivesEntry (Err error) found → Fails result (numbered number found) }
{
    match error {
        EntryError::Memory => SpecializeError::Memory,
        EntryError::Refused(kind) => {
            let refused = RefusedEntry {
                entry: number,
                kind,
            };
            SpecializeError::Fault(SpecializeFault::Refused(refused))
        }
    }
}
