//! The verdict on an open.

ghost use Rattle.std.specs.Prelude.{◌≡◌, ◌==◌, if◌then◌else◌, false, true};
ghost use Rattle.sd_acl.specs.Descriptor.{descriptor_of};
ghost use Rattle.sd_check.specs.Check.{dacl_entries, is_granted, missing_of, most, reserved_of};
ghost use Rattle.sd_open.specs.Open.{IsOwnRights, borrowed, by_parent, open_verdict, parent_grants, verdict_with};

use sd_acl::Descriptor;
use sd_check::{MAXIMUM_ALLOWED, MAXIMUM_PLACE, RESERVED, Token, Verdict, check};
use sd_sid::{GenericMapping, Mask};

/// DELETE ([MS-DTYP] 2.4.3).
const DELETE: Mask = Mask(0x0001_0000);

/// FILE_READ_ATTRIBUTES (winnt.h).
const FILE_READ_ATTRIBUTES: Mask = Mask(0x80);

/// FILE_DELETE_CHILD and FILE_LIST_DIRECTORY of folders (winnt.h).
const FILE_DELETE_CHILD: Mask = Mask(0x40);

const FILE_LIST_DIRECTORY: Mask = Mask(0x01);

/// The verdict on an open of an existing file for the rights asked for, by its descriptor and that of its parent, which
/// a volume's root doesn't have ([MS-FSA] 2.1.5.1.2.1): what the file's own descriptor grants, DELETE where the
/// parent's grants FILE_DELETE_CHILD, and FILE_READ_ATTRIBUTES where it grants FILE_LIST_DIRECTORY, whatever the file's
/// own says of these two. MAXIMUM_ALLOWED takes them in. Takes no memory.
pub fn check_open(
    file: &Descriptor,
    parent: Option<&Descriptor>,
    mapping: &GenericMapping,
    token: &Token,
    asked: Mask,
) -> Verdict
    ensures { result ≡ open_verdict (descriptor_of file.now) (borrowed parent.entry) mapping.now token.now asked }
{
    if asked.is_empty() {
        return Verdict::EmptyRequest;
    }
    let reserved = asked.common(RESERVED);
    if !reserved.is_empty() {
        return Verdict::Reserved(reserved);
    }
    check_with(
        file,
        by_parent(parent, mapping, token),
        mapping,
        token,
        asked,
    )
}

/// The rights that the parent grants of a file in it.
fn by_parent(parent: Option<&Descriptor>, mapping: &GenericMapping, token: &Token) -> Mask
    ensures { result ≡ by_parent (borrowed parent.entry) mapping.now token.now }
{
    let deletes = parent_grants(parent, mapping, token, FILE_DELETE_CHILD);
    let lists = parent_grants(parent, mapping, token, FILE_LIST_DIRECTORY);
    DELETE
        .only_if(deletes)
        .union(FILE_READ_ATTRIBUTES.only_if(lists))
}

fn parent_grants(
    parent: Option<&Descriptor>,
    mapping: &GenericMapping,
    token: &Token,
    right: Mask,
) -> bool
    ensures { result ≡ parent_grants (borrowed parent.entry) mapping.now token.now right }
{
    match parent {
        Some(parent) => matches!(check(parent, mapping, token, right), Verdict::Granted(_)),
        None => false,
    }
}

/// The verdict where the parent grants these rights more, on a request that isn't empty and has no reserved bit.
fn check_with(
    file: &Descriptor,
    more: Mask,
    mapping: &GenericMapping,
    token: &Token,
    asked: Mask,
) -> Verdict
    requires some { (asked == 0) ≡ false }
    requires free { (reserved_of asked == 0) ≡ true }
    ensures { result ≡ verdict_with more (descriptor_of file.now) mapping.now token.now asked }
{
    // (its contract says that nothing is mapped to a generic right: what is mapped can be asked for)
    let _all = mapping.all();
    let wanted = mapping.map(asked.minus(MAXIMUM_ALLOWED));
    let missing = missing_of(file, mapping, token, wanted.minus(more));
    if !missing.is_empty() {
        return Verdict::Denied { missing };
    }
    if asked.holds(MAXIMUM_PLACE) {
        let most = most_of(file, mapping, token).union(more);
        return all_granted(wanted.union(most));
    }
    if wanted.is_empty() {
        return Verdict::EmptyRequest;
    }
    Verdict::Granted(wanted)
}

/// All that MAXIMUM_ALLOWED is answered with; where that is nothing, it is missing itself.
fn all_granted(all: Mask) -> Verdict
    ensures { result ≡ (if all == 0 then Verdict.Denied 0x02000000 else Verdict.Granted all) }
{
    if all.is_empty() {
        return Verdict::Denied {
            missing: MAXIMUM_ALLOWED,
        };
    }
    Verdict::Granted(all)
}

/// What the file's own descriptor doesn't grant of these rights. None of them is generic, reserved or MAXIMUM_ALLOWED.
fn missing_of(file: &Descriptor, mapping: &GenericMapping, token: &Token, wanted: Mask) -> Mask
    requires { IsOwnRights mapping.now wanted }
    ensures { result
        ≡ missing_of (is_granted file.now.owner (dacl_entries file.now.dacl) mapping.now token.now) wanted }
{
    match check(file, mapping, token, wanted) {
        Verdict::Denied { missing } => missing,
        _ => Mask(0),
    }
}

/// What MAXIMUM_ALLOWED takes in by the file's own descriptor.
fn most_of(file: &Descriptor, mapping: &GenericMapping, token: &Token) -> Mask
    ensures { result ≡ most file.now.owner (dacl_entries file.now.dacl) mapping.now token.now }
{
    match check(file, mapping, token, MAXIMUM_ALLOWED) {
        Verdict::Granted(mask) => mask,
        _ => Mask(0),
    }
}
