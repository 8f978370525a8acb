//! Integrity levels: the label of an object, and what it takes.

ghost use Rattle.std.specs.Prelude.{◌≡◌, ◌||◌, not};
ghost use Rattle.sd_sid.specs.Mask.{holds, mask_of};
ghost use Rattle.sd_label.specs.Label.{first_label, is_label, is_left, label_of, label_of_object};
ghost use Rattle.sd_label.specs.Label.{level_of, no_label, taken_by};

use sd_sid::{GenericMapping, Mask, Sid};
use sd_whole::{WholeAce, WholeAcl, WholeKind, for_children_alone};

/// A level above every other, which a SID has that is no integrity SID.
const ABOVE_ALL: u32 = 0xFFFF_FFFF;

/// Medium ([MS-DTYP] 2.4.2.4, S-1-16-8192).
const MEDIUM: u32 = 8192;

/// SYSTEM_MANDATORY_LABEL_NO_WRITE_UP, NO_READ_UP and NO_EXECUTE_UP ([MS-DTYP] 2.4.4.13), as places of a mask.
const NO_WRITE_UP: u32 = 0;

const NO_READ_UP: u32 = 1;

const NO_EXECUTE_UP: u32 = 2;

/// GENERIC_WRITE, GENERIC_READ and GENERIC_EXECUTE ([MS-DTYP] 2.4.3).
const GENERIC_WRITE: Mask = Mask(0x4000_0000);

const GENERIC_READ: Mask = Mask(0x8000_0000);

const GENERIC_EXECUTE: Mask = Mask(0x2000_0000);

/// A mask with every bit.
const EVERY_BIT: Mask = Mask(0xFFFF_FFFF);

/// The mandatory label of an object ([MS-DTYP] 2.4.4.13): its integrity level, and what it takes from lower ones.
#[derive(Clone, Copy, Debug, PartialEq, Eq)]
pub struct Label {
    pub level: u32,
    pub policy: Mask,
}

impl Label {
    /// The label of an object with this SACL: its first effective label entry, else Medium with no write up ([MS-DTYP]
    /// 2.5.3.3). A label whose SID is no integrity SID is above every level (fail closed).
    pub fn of_object(sacl: &WholeAcl) -> Label
        ensures { result ≡ label_of_object sacl.now }
    {
        match sacl {
            WholeAcl::Absent | WholeAcl::Null => no_label(),
            WholeAcl::List(list) => first_label(list.entries()),
        }
    }

    /// What the label takes from a token of this level ([MS-DTYP] 2.5.3.3), whatever the DACL and the privileges say:
    /// where the level is below the object's, every bit but those that GENERIC_READ, GENERIC_WRITE and GENERIC_EXECUTE
    /// are mapped to where the label's policy doesn't bar them; else nothing.
    pub fn taken(self, level: u32, mapping: &GenericMapping) -> Mask
        ensures { result ≡ taken_by self level mapping.now }
    {
        if level >= self.level {
            return Mask(0);
        }
        taken_by_policy(self.policy, mapping)
    }
}

/// What the policy takes from a lower level.
fn taken_by_policy(policy: Mask, mapping: &GenericMapping) -> Mask
    ensures { result ≡ mask_of (λ b. not (is_left mapping.now policy b)) 32 }
{
    let write = mapping.map(GENERIC_WRITE);
    let read = mapping.map(GENERIC_READ);
    let execute = mapping.map(GENERIC_EXECUTE);
    let left = joined(
        write.only_if(!policy.holds(NO_WRITE_UP)),
        read.only_if(!policy.holds(NO_READ_UP)),
        execute.only_if(!policy.holds(NO_EXECUTE_UP)),
    );
    EVERY_BIT.minus(left)
}

/// The bits of any of three masks.
fn joined(one: Mask, two: Mask, three: Mask) -> Mask
    ensures { result ≡ mask_of (λ b. holds one b || holds two b || holds three b) 32 }
{
    one.union(two).union(three)
}

/// The first effective label of the entries.
fn first_label(entries: &[WholeAce]) -> Label
    ensures { result ≡ first_label entries.now }
{
    for entry in entries {
        if let Some(label) = label_of(entry) {
            return label;
        }
    }
    no_label()
}

/// The label that an effective entry is.
fn label_of(entry: &WholeAce) -> Option<Label>
    ensures { result ≡ label_of entry.now }
{
    let WholeAce::Typed(ace) = entry else {
        return None;
    };
    if !is_label(ace.kind) || for_children_alone(ace.flags) {
        return None;
    }
    Some(Label {
        level: level_of(&ace.sid),
        policy: ace.mask,
    })
}

fn is_label(kind: WholeKind) -> bool
    ensures { result ≡ is_label kind }
{
    matches!(kind, WholeKind::MandatoryLabel)
}

/// The level of an integrity SID, S-1-16-LEVEL ([MS-DTYP] 2.4.2.4); any other SID is above every level.
fn level_of(sid: &Sid) -> u32
    ensures { result ≡ level_of sid.now }
{
    if sid.authority() != 16 {
        return ABOVE_ALL;
    }
    match sid.subs() {
        [level] => *level,
        _ => ABOVE_ALL,
    }
}

/// The label of an object without one: Medium, no write up.
fn no_label() -> Label
    ensures { result ≡ no_label }
{
    Label {
        level: MEDIUM,
        policy: Mask(1),
    }
}
