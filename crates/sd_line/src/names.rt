//! The names of masks, by kind of object ([MS-DTYP] 2.4.3): one table for masks that are printed and parsed.
ghost use Rattle.std.specs.Prelude.{◌≡◌, ◌++◌, ◌&&◌, [], IfOk, OnOk, map, option_map, string_bytes};
ghost use Rattle.std.specs.Str.{str_eq_ignore_ascii_case};
ghost use Rattle.sd_line.specs.MaskNames.{is_due, named_from, with_rest, with_word};
ghost use Rattle.sd_line.specs.Names.{bits_among, is_of, is_own, long_names, mask_named, mask_names, named_bits};
ghost use Rattle.sd_line.specs.Names.{names_of, rights, short_names};
ghost use Rattle.sd_line.specs.Rights.{permission_among};

use sd_sid::Mask;
use std::alloc::{AllocError, Global};

/// A kind of object.
#[derive(Clone, Copy, Debug, PartialEq, Eq)]
pub enum ObjectKind {
    File,
    /// A registry key.
    Key,
    Service,
    Process,
    /// A folder, whose names are also those of files.
    Folder,
    /// An object of Active Directory.
    Directory,
    Printer,
    Section,
    Token,
    /// The service control manager.
    Manager,
}

/// A name, its bits, and the kind of object that has it; `None`: every object does.
type NamedBits = (&'static str, u32, Option<ObjectKind>);

const FILE: Option<ObjectKind> = Some(ObjectKind::File);

const KEY: Option<ObjectKind> = Some(ObjectKind::Key);

const SERVICE: Option<ObjectKind> = Some(ObjectKind::Service);

const PROCESS: Option<ObjectKind> = Some(ObjectKind::Process);

const FOLDER: Option<ObjectKind> = Some(ObjectKind::Folder);

const DIRECTORY: Option<ObjectKind> = Some(ObjectKind::Directory);

const PRINTER: Option<ObjectKind> = Some(ObjectKind::Printer);

const SECTION: Option<ObjectKind> = Some(ObjectKind::Section);

const TOKEN: Option<ObjectKind> = Some(ObjectKind::Token);

const MANAGER: Option<ObjectKind> = Some(ObjectKind::Manager);

/// All names. The bounds of their parts are below.
static NAMES: [NamedBits; 142] = [
    // What Windows lists as the permissions of a file, and masks that winnt.h names, where SDDL has a shorter name or
    // names that are these bits together.
    ("Full control", 0x001F_01FF, FILE),
    ("Read & execute", 0x0012_00A9, FILE),
    ("Read", 0x0012_0089, FILE),
    ("FILE_GENERIC_WRITE", 0x0012_0116, FILE),
    ("FILE_GENERIC_EXECUTE", 0x0012_00A0, FILE),
    ("KEY_ALL_ACCESS", 0x000F_003F, KEY),
    ("KEY_READ", 0x0002_0019, KEY),
    ("KEY_WRITE", 0x0002_0006, KEY),
    ("Manage this printer", 0x000F_000C, PRINTER),
    ("Manage documents", 0x000F_0030, PRINTER),
    ("Print", 0x0002_0008, PRINTER),
    // The names of SDDL for masks of a kind and for rights of every object ([MS-DTYP] 2.5.1.1, ace-rights), and names
    // of one word for masks that it has none for, the greatest mask first. `KX` has the mask of `KR`.
    ("GR", 0x8000_0000, None),
    ("GW", 0x4000_0000, None),
    ("GX", 0x2000_0000, None),
    ("GA", 0x1000_0000, None),
    ("PROCESS_ALL_ACCESS", 0x001F_FFFF, PROCESS),
    ("FA", 0x001F_01FF, FILE),
    ("Modify", 0x0013_01BF, FILE),
    ("FW", 0x0012_0116, FILE),
    ("FX", 0x0012_00A0, FILE),
    ("FR", 0x0012_0089, FILE),
    ("Write", 0x0010_0116, FILE),
    ("SERVICE_ALL_ACCESS", 0x000F_01FF, SERVICE),
    ("GenericAll", 0x000F_01FF, DIRECTORY),
    ("TOKEN_ALL_ACCESS", 0x000F_01FF, TOKEN),
    ("KA", 0x000F_003F, KEY),
    ("SC_MANAGER_ALL_ACCESS", 0x000F_003F, MANAGER),
    ("JOB_ALL_ACCESS", 0x000F_0030, PRINTER),
    ("SECTION_ALL_ACCESS", 0x000F_001F, SECTION),
    ("PRINTER_ALL_ACCESS", 0x000F_000C, PRINTER),
    ("WO", 0x0008_0000, None),
    ("WD", 0x0004_0000, None),
    ("TOKEN_WRITE", 0x0002_00E0, TOKEN),
    ("GenericRead", 0x0002_0094, DIRECTORY),
    ("GenericWrite", 0x0002_0028, DIRECTORY),
    ("KR", 0x0002_0019, KEY),
    ("PRINTER_READ", 0x0002_0008, PRINTER),
    ("TOKEN_READ", 0x0002_0008, TOKEN),
    ("KW", 0x0002_0006, KEY),
    ("RC", 0x0002_0000, None),
    ("SD", 0x0001_0000, None),
    ("CR", 0x100, DIRECTORY),
    ("LO", 0x80, DIRECTORY),
    ("DT", 0x40, DIRECTORY),
    ("WP", 0x20, DIRECTORY),
    ("RP", 0x10, DIRECTORY),
    ("SW", 0x8, DIRECTORY),
    ("LC", 0x4, DIRECTORY),
    ("DC", 0x2, DIRECTORY),
    ("CC", 0x1, DIRECTORY),
    // The rights, one bit each, by the names of winnt.h and winsvc.h.
    ("FILE_LIST_DIRECTORY", 0x1, FOLDER),
    ("FILE_READ_DATA", 0x1, FILE),
    ("FILE_ADD_FILE", 0x2, FOLDER),
    ("FILE_WRITE_DATA", 0x2, FILE),
    ("FILE_ADD_SUBDIRECTORY", 0x4, FOLDER),
    ("FILE_APPEND_DATA", 0x4, FILE),
    ("FILE_READ_EA", 0x8, FILE),
    ("FILE_WRITE_EA", 0x10, FILE),
    ("FILE_TRAVERSE", 0x20, FOLDER),
    ("FILE_EXECUTE", 0x20, FILE),
    ("FILE_DELETE_CHILD", 0x40, FILE),
    ("FILE_READ_ATTRIBUTES", 0x80, FILE),
    ("FILE_WRITE_ATTRIBUTES", 0x100, FILE),
    ("KEY_QUERY_VALUE", 0x1, KEY),
    ("KEY_SET_VALUE", 0x2, KEY),
    ("KEY_CREATE_SUB_KEY", 0x4, KEY),
    ("KEY_ENUMERATE_SUB_KEYS", 0x8, KEY),
    ("KEY_NOTIFY", 0x10, KEY),
    ("KEY_CREATE_LINK", 0x20, KEY),
    ("KEY_WOW64_64KEY", 0x100, KEY),
    ("KEY_WOW64_32KEY", 0x200, KEY),
    ("SERVICE_QUERY_CONFIG", 0x1, SERVICE),
    ("SERVICE_CHANGE_CONFIG", 0x2, SERVICE),
    ("SERVICE_QUERY_STATUS", 0x4, SERVICE),
    ("SERVICE_ENUMERATE_DEPENDENTS", 0x8, SERVICE),
    ("SERVICE_START", 0x10, SERVICE),
    ("SERVICE_STOP", 0x20, SERVICE),
    ("SERVICE_PAUSE_CONTINUE", 0x40, SERVICE),
    ("SERVICE_INTERROGATE", 0x80, SERVICE),
    ("SERVICE_USER_DEFINED_CONTROL", 0x100, SERVICE),
    ("PROCESS_TERMINATE", 0x1, PROCESS),
    ("PROCESS_CREATE_THREAD", 0x2, PROCESS),
    ("PROCESS_SET_SESSIONID", 0x4, PROCESS),
    ("PROCESS_VM_OPERATION", 0x8, PROCESS),
    ("PROCESS_VM_READ", 0x10, PROCESS),
    ("PROCESS_VM_WRITE", 0x20, PROCESS),
    ("PROCESS_DUP_HANDLE", 0x40, PROCESS),
    ("PROCESS_CREATE_PROCESS", 0x80, PROCESS),
    ("PROCESS_SET_QUOTA", 0x100, PROCESS),
    ("PROCESS_SET_INFORMATION", 0x200, PROCESS),
    ("PROCESS_QUERY_INFORMATION", 0x400, PROCESS),
    ("PROCESS_SUSPEND_RESUME", 0x800, PROCESS),
    ("PROCESS_QUERY_LIMITED_INFORMATION", 0x1000, PROCESS),
    ("PROCESS_SET_LIMITED_INFORMATION", 0x2000, PROCESS),
    ("ADS_RIGHT_DS_CREATE_CHILD", 0x1, DIRECTORY),
    ("ADS_RIGHT_DS_DELETE_CHILD", 0x2, DIRECTORY),
    ("ADS_RIGHT_ACTRL_DS_LIST", 0x4, DIRECTORY),
    ("ADS_RIGHT_DS_SELF", 0x8, DIRECTORY),
    ("ADS_RIGHT_DS_READ_PROP", 0x10, DIRECTORY),
    ("ADS_RIGHT_DS_WRITE_PROP", 0x20, DIRECTORY),
    ("ADS_RIGHT_DS_DELETE_TREE", 0x40, DIRECTORY),
    ("ADS_RIGHT_DS_LIST_OBJECT", 0x80, DIRECTORY),
    ("ADS_RIGHT_DS_CONTROL_ACCESS", 0x100, DIRECTORY),
    ("SERVER_ACCESS_ADMINISTER", 0x1, PRINTER),
    ("SERVER_ACCESS_ENUMERATE", 0x2, PRINTER),
    ("PRINTER_ACCESS_ADMINISTER", 0x4, PRINTER),
    ("PRINTER_ACCESS_USE", 0x8, PRINTER),
    ("JOB_ACCESS_ADMINISTER", 0x10, PRINTER),
    ("JOB_ACCESS_READ", 0x20, PRINTER),
    ("PRINTER_ACCESS_MANAGE_LIMITED", 0x40, PRINTER),
    ("SECTION_QUERY", 0x1, SECTION),
    ("SECTION_MAP_WRITE", 0x2, SECTION),
    ("SECTION_MAP_READ", 0x4, SECTION),
    ("SECTION_MAP_EXECUTE", 0x8, SECTION),
    ("SECTION_EXTEND_SIZE", 0x10, SECTION),
    ("SECTION_MAP_EXECUTE_EXPLICIT", 0x20, SECTION),
    ("TOKEN_ASSIGN_PRIMARY", 0x1, TOKEN),
    ("TOKEN_DUPLICATE", 0x2, TOKEN),
    ("TOKEN_IMPERSONATE", 0x4, TOKEN),
    ("TOKEN_QUERY", 0x8, TOKEN),
    ("TOKEN_QUERY_SOURCE", 0x10, TOKEN),
    ("TOKEN_ADJUST_PRIVILEGES", 0x20, TOKEN),
    ("TOKEN_ADJUST_GROUPS", 0x40, TOKEN),
    ("TOKEN_ADJUST_DEFAULT", 0x80, TOKEN),
    ("TOKEN_ADJUST_SESSIONID", 0x100, TOKEN),
    ("SC_MANAGER_CONNECT", 0x1, MANAGER),
    ("SC_MANAGER_CREATE_SERVICE", 0x2, MANAGER),
    ("SC_MANAGER_ENUMERATE_SERVICE", 0x4, MANAGER),
    ("SC_MANAGER_LOCK", 0x8, MANAGER),
    ("SC_MANAGER_QUERY_LOCK_STATUS", 0x10, MANAGER),
    ("SC_MANAGER_MODIFY_BOOT_CONFIG", 0x20, MANAGER),
    ("DELETE", 0x0001_0000, None),
    ("READ_CONTROL", 0x0002_0000, None),
    ("WRITE_DAC", 0x0004_0000, None),
    ("WRITE_OWNER", 0x0008_0000, None),
    ("SYNCHRONIZE", 0x0010_0000, None),
    ("ACCESS_SYSTEM_SECURITY", 0x0100_0000, None),
    ("MAXIMUM_ALLOWED", 0x0200_0000, None),
    ("GENERIC_ALL", 0x1000_0000, None),
    ("GENERIC_EXECUTE", 0x2000_0000, None),
    ("GENERIC_WRITE", 0x4000_0000, None),
    ("GENERIC_READ", 0x8000_0000, None),
];

/// Where the names begin by which masks are printed.
const PRINTED: usize = 11;

/// Where the rights begin.
const RIGHTS: usize = 50;

#[tactic(auto, unfolding(crate::specs::Names::long_names, crate::specs::Names::short_names, crate::specs::Names::rights))]
fn all_names() -> &'static [NamedBits]
    ensures { map named_bits result.now ≡ long_names ++ short_names ++ rights }
{
    &NAMES
}

/// The names of permissions: as Windows lists them, and then as masks are printed.
#[tactic(auto, unfolding(crate::specs::Names::long_names, crate::specs::Names::short_names))]
pub(crate) fn permissions() -> &'static [NamedBits]
    ensures { map named_bits result.now ≡ long_names ++ short_names }
{
    &NAMES[..RIGHTS]
}

#[tactic(auto, unfolding(crate::specs::Names::short_names, crate::specs::Names::rights))]
fn printed_names() -> &'static [NamedBits]
    ensures { map named_bits result.now ≡ short_names ++ rights }
{
    &NAMES[PRINTED..]
}

#[tactic(auto, unfolding(crate::specs::Names::rights))]
pub(crate) fn rights() -> &'static [NamedBits]
    ensures { map named_bits result.now ≡ rights }
{
    &NAMES[RIGHTS..]
}

/// A mask by the names of its kind of object, as `FR+WD`: those whose bits are all the mask's, the greatest first and
/// single rights last, except one whose bits earlier names have. The bits that no name has follow as a number, as
/// `FR+0x200`.
pub(crate) fn mask_names(
    alloc: Global,
    kind: Option<ObjectKind>,
    mask: Mask,
) -> Result<String, AllocError>
    ensures { IfOk result (λ text. string_bytes text ≡ mask_names kind mask) }
{
    names_among(alloc, printed_names(), kind, mask)
}

/// A mask by the names of these rows, as `FILE_READ_DATA+DELETE`. Bits without a name follow as a number.
#[tactic(auto, unfolding(crate::specs::MaskNames::named_from))]
pub(crate) fn names_among(
    alloc: Global,
    rows: &[NamedBits],
    kind: Option<ObjectKind>,
    mask: Mask,
) -> Result<String, AllocError>
    ensures { IfOk result (λ text. string_bytes text ≡ named_from (names_of kind (map named_bits rows.now)) mask 0 []) }
{
    let mut text = String::new(alloc);
    let mut named = 0;
    for (name, bits, of) in rows {
        if is_due(kind, mask, named, *bits, *of) {
            push_word(&mut text, name)?;
            named |= *bits;
        }
    }
    push_rest(&mut text, mask.minus(Mask(named)))?;
    Ok(text)
}

/// The first of the kind's own names among these whose bits are just this mask.
pub(crate) fn permission_among(
    rows: &[NamedBits],
    kind: Option<ObjectKind>,
    mask: u32,
) -> Option<&'static str>
    ensures { option_map (λ name. name.now) result ≡ permission_among (map named_bits rows.now) kind mask }
{
    match rows {
        [] => None,
        [row, _rows @ ..] if is_own(kind, row.2) && row.1 == mask => Some(row.0),
        [_row, rows @ ..] => permission_among(rows, kind, mask),
    }
}

/// The mask that a word names.
pub(crate) fn mask_named(kind: Option<ObjectKind>, word: &str) -> Option<u32>
    ensures { result ≡ mask_named kind word.now }
{
    bits_among(all_names(), kind, word)
}

/// The bits of the first of these names that the word is, in any case.
fn bits_among(rows: &[NamedBits], kind: Option<ObjectKind>, word: &str) -> Option<u32>
    ensures { result ≡ bits_among (map named_bits rows.now) kind word.now }
{
    match rows {
        [] => None,
        [row, _rows @ ..] if is_named(row, kind, word) => Some(row.1),
        [_row, rows @ ..] => bits_among(rows, kind, word),
    }
}

/// Whether the word is this name, in any case, and the kind of object has it.
fn is_named(row: &NamedBits, kind: Option<ObjectKind>, word: &str) -> bool
    ensures { result ≡ (is_of kind row.now.2 && str_eq_ignore_ascii_case row.now.0.now word.now) }
{
    is_of(kind, row.2) && row.0.eq_ignore_ascii_case(word)
}

/// Whether a name is one for objects of this kind; of no kind only that of every object is.
fn is_of(kind: Option<ObjectKind>, of: Option<ObjectKind>) -> bool
    ensures { result ≡ is_of kind of }
{
    of.is_none() || is_own(kind, of)
}

/// Whether a name is one for objects of this kind, and not of every kind: a folder has those of files too.
fn is_own(kind: Option<ObjectKind>, of: Option<ObjectKind>) -> bool
    ensures { result ≡ is_own kind of }
{
    of.is_some() && (of == kind || (kind == FOLDER && of == FILE))
}

/// Whether a name is one for objects of this kind whose bits are all the mask's, and names before it don't have them
/// all.
fn is_due(
    kind: Option<ObjectKind>,
    mask: Mask,
    named: u32,
    bits: u32,
    of: Option<ObjectKind>,
) -> bool
    ensures { result ≡ (is_of kind of && is_due mask named bits) }
{
    is_of(kind, of) && mask.bits() & bits == bits && named & bits != bits
}

/// Appends a word, after a `+` if it isn't the first.
fn push_word(text: &mut String, word: &str) -> Result<(), AllocError>
    ensures { OnOk result (string_bytes text.new ≡ with_word (string_bytes text.old) word.now) }
{
    if !text.is_empty() {
        text.push_str("+")?;
    }
    text.push_str(word)
}

/// Appends the bits that no name has, or the number 0 if the text is empty.
fn push_rest(text: &mut String, rest: Mask) -> Result<(), AllocError>
    ensures { OnOk result (string_bytes text.new ≡ with_rest (string_bytes text.old) rest) }
{
    if rest.is_empty() && !text.is_empty() {
        return Ok(());
    }
    push_word(text, "0x")?;
    write!(text, "{:x}", rest.bits())
}
