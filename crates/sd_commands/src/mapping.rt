//! The generic mappings of kinds of objects ([MS-DTYP] 2.4.3), and those of four masks.
ghost use Rattle.std.specs.Prelude.{◌≡◌, ◌∷◌, [], ℕ, Some, IfNone, IfSome, option_map};
ghost use Rattle.std.specs.Result.{result_ok};
ghost use Rattle.sd_sid.specs.Mapping.{IsMapping, MappingValue, mapping_of};
ghost use Rattle.sd_text.specs.Grammar.{Spells};
ghost use Rattle.sd_text.specs.Rights.{mask_text};
ghost use Rattle.sd_commands.specs.Mapping.{AreMasks, GivesMapping, GivesNoMapping, kind_given};
ghost use Rattle.sd_commands.specs.Mapping.{kind_mapping, kind_named, between_commas};

use sd_line::ObjectKind;
use sd_sid::{GenericMapping, Mask};
use sd_text::read_mask;

/// The kind of object that the text names.
fn kind_named(text: &str) -> Option<ObjectKind>
    ensures { result ≡ kind_named text.now }
{
    match text {
        "file" | "share" => Some(ObjectKind::File),
        "folder" => Some(ObjectKind::Folder),
        "ds" => Some(ObjectKind::Directory),
        "key" => Some(ObjectKind::Key),
        "service" => Some(ObjectKind::Service),
        "scm" => Some(ObjectKind::Manager),
        "printer" => Some(ObjectKind::Printer),
        "process" => Some(ObjectKind::Process),
        "section" => Some(ObjectKind::Section),
        "token" => Some(ObjectKind::Token),
        _ => None,
    }
}

/// Its mapping: the constants of winnt.h and winsvc.h, [MS-ADTS] 5.1.3.2 of Active Directory's objects, [MS-RPRN]
/// 2.2.3.1 of printers, and [MS-SCMR] 3.1.4 of the service control manager.
fn kind_mapping(kind: ObjectKind) -> Option<GenericMapping>
    ensures { result ≡ Some (kind_mapping kind) }
{
    match kind {
        ObjectKind::File | ObjectKind::Folder => Some(GenericMapping::file()),
        ObjectKind::Key => of_masks(0x2_0019, 0x2_0006, 0x2_0019, 0xF_003F),
        ObjectKind::Service => of_masks(0x2_008D, 0x2_0002, 0x2_0170, 0xF_01FF),
        ObjectKind::Process => of_masks(0x2_0410, 0x2_0BEA, 0x12_1001, 0x1F_FFFF),
        ObjectKind::Directory => of_masks(0x2_0094, 0x2_0028, 0x2_0004, 0xF_01FF),
        ObjectKind::Printer => of_masks(0x2_0008, 0x2_0008, 0x2_0008, 0xF_000C),
        ObjectKind::Section => of_masks(0x2_0005, 0x2_0002, 0x2_0008, 0xF_001F),
        ObjectKind::Token => of_masks(0x2_0008, 0x2_00E0, 0x2_0000, 0xF_01FF),
        ObjectKind::Manager => of_masks(0x2_0014, 0x2_0022, 0x2_0009, 0xF_003F),
    }
}

/// The kind of object whose mapping is given, or that of files where none is; `None`: four masks.
pub fn kind_given(text: Option<&str>) -> Option<ObjectKind>
    ensures { result ≡ kind_given (option_map (λ text. text.now) text.entry) }
{
    match text {
        None => Some(ObjectKind::File),
        Some(text) => kind_named(text),
    }
}

/// The mapping that is given, or that of files where none is ([MS-DTYP] 2.4.3). `None`: the text is no mapping.
pub fn mapping_given(text: Option<&str>) -> Option<GenericMapping>
    ensures given { IfSome result (GivesMapping (option_map (λ text. text.now) text.entry)) }
    ensures none { IfNone result (GivesNoMapping (option_map (λ text. text.now) text.entry)) }
{
    match text {
        None => Some(GenericMapping::file()),
        Some(text) => match kind_named(text) {
            Some(kind) => kind_mapping(kind),
            None => of_texts(text),
        },
    }
}

/// The mapping of these masks, each within the object's own rights and the standard ones.
fn of_masks(read: u32, write: u32, execute: u32, all: u32) -> Option<GenericMapping>
    ensures { result ≡ result_ok (mapping_of read write execute all) }
{
    GenericMapping::new(Mask(read), Mask(write), Mask(execute), Mask(all)).ok()
}

/// The mapping of the four masks that commas part.
fn of_texts(text: &str) -> Option<GenericMapping>
    ensures told { IfSome result (λ g. AreMasks (between_commas text.now) g × IsMapping g) }
    ensures none { IfNone result ((g : MappingValue) → AreMasks (between_commas text.now) g → IsMapping g → ⊥) }
{
    let (read, behind) = cut(text)?;
    let (write, behind) = cut(behind)?;
    let (execute, all) = cut(behind)?;
    match cut(all) {
        Some(_) => None,
        None => of_mask_texts(read, write, execute, all),
    }
}

/// The mapping of the masks that these texts spell.
fn of_mask_texts(read: &str, write: &str, execute: &str, all: &str) -> Option<GenericMapping>
    ensures told { IfSome result (λ g. AreMasks (read.now ∷ write.now ∷ execute.now ∷ all.now ∷ []) g × IsMapping g) }
    ensures none { IfNone result ((g : MappingValue) → AreMasks (read.now ∷ write.now ∷ execute.now ∷ all.now ∷ []) g
        → IsMapping g → ⊥) }
{
    let read = mask_in(read)?;
    let write = mask_in(write)?;
    let execute = mask_in(execute)?;
    let all = mask_in(all)?;
    GenericMapping::new(read, write, execute, all).ok()
}

/// The text before the first comma, and that behind it.
pub(crate) fn cut(text: &str) -> Option<(&str, &str)>
    ensures cut { IfSome result (λ parts. between_commas text.now ≡ parts.0.now ∷ between_commas parts.1.now) }
    ensures whole { IfNone result (between_commas text.now ≡ text.now ∷ []) }
{
    text.split_once(',')
}

/// The mask that the text spells.
fn mask_in(text: &str) -> Option<Mask>
    ensures value { IfSome result (Spells mask_text text.now) }
    ensures spelled { (mask : ℕ) → Spells mask_text text.now mask → result ≡ Some mask }
{
    read_mask(text).ok()
}
