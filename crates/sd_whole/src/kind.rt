//! The types of entries that have a layout.

ghost use Rattle.std.specs.Prelude.{◌≡◌};
ghost use Rattle.sd_whole.specs.Kind.{has_object_types, kind_number, kind_of, plain_kind};

use sd_acl::AceKind;

/// A type of entry that has a layout ([MS-DTYP] 2.4.4.1, AceType). The reserved types 0x04, 0x0e and 0x10 have none.
#[derive(Clone, Copy, Debug, PartialEq, Eq, Hash)]
pub enum WholeKind {
    /// ACCESS_ALLOWED_ACE_TYPE, 0x00.
    Allow,
    /// ACCESS_DENIED_ACE_TYPE, 0x01.
    Deny,
    /// SYSTEM_AUDIT_ACE_TYPE, 0x02.
    Audit,
    /// SYSTEM_ALARM_ACE_TYPE, 0x03.
    Alarm,
    /// ACCESS_ALLOWED_OBJECT_ACE_TYPE, 0x05.
    ObjectAllow,
    /// ACCESS_DENIED_OBJECT_ACE_TYPE, 0x06.
    ObjectDeny,
    /// SYSTEM_AUDIT_OBJECT_ACE_TYPE, 0x07.
    ObjectAudit,
    /// SYSTEM_ALARM_OBJECT_ACE_TYPE, 0x08.
    ObjectAlarm,
    /// ACCESS_ALLOWED_CALLBACK_ACE_TYPE, 0x09.
    CallbackAllow,
    /// ACCESS_DENIED_CALLBACK_ACE_TYPE, 0x0a.
    CallbackDeny,
    /// ACCESS_ALLOWED_CALLBACK_OBJECT_ACE_TYPE, 0x0b.
    CallbackObjectAllow,
    /// ACCESS_DENIED_CALLBACK_OBJECT_ACE_TYPE, 0x0c.
    CallbackObjectDeny,
    /// SYSTEM_AUDIT_CALLBACK_ACE_TYPE, 0x0d.
    CallbackAudit,
    /// SYSTEM_AUDIT_CALLBACK_OBJECT_ACE_TYPE, 0x0f.
    CallbackObjectAudit,
    /// SYSTEM_MANDATORY_LABEL_ACE_TYPE, 0x11.
    MandatoryLabel,
    /// SYSTEM_RESOURCE_ATTRIBUTE_ACE_TYPE, 0x12.
    ResourceAttribute,
    /// SYSTEM_SCOPED_POLICY_ID_ACE_TYPE, 0x13.
    ScopedPolicy,
    /// SYSTEM_PROCESS_TRUST_LABEL_ACE_TYPE, 0x14.
    TrustLabel,
    /// SYSTEM_ACCESS_FILTER_ACE_TYPE, 0x15.
    AccessFilter,
}

impl WholeKind {
    /// The kind of an AceType; `None`: the type has no layout ([MS-DTYP] 2.4.4.1).
    pub fn of(number: u8) -> Option<WholeKind>
        ensures { result ≡ kind_of number }
    {
        match number {
            0x00 => Some(WholeKind::Allow),
            0x01 => Some(WholeKind::Deny),
            0x02 => Some(WholeKind::Audit),
            0x03 => Some(WholeKind::Alarm),
            0x05 => Some(WholeKind::ObjectAllow),
            0x06 => Some(WholeKind::ObjectDeny),
            0x07 => Some(WholeKind::ObjectAudit),
            0x08 => Some(WholeKind::ObjectAlarm),
            0x09 => Some(WholeKind::CallbackAllow),
            0x0a => Some(WholeKind::CallbackDeny),
            0x0b => Some(WholeKind::CallbackObjectAllow),
            0x0c => Some(WholeKind::CallbackObjectDeny),
            0x0d => Some(WholeKind::CallbackAudit),
            0x0f => Some(WholeKind::CallbackObjectAudit),
            0x11 => Some(WholeKind::MandatoryLabel),
            0x12 => Some(WholeKind::ResourceAttribute),
            0x13 => Some(WholeKind::ScopedPolicy),
            0x14 => Some(WholeKind::TrustLabel),
            0x15 => Some(WholeKind::AccessFilter),
            _ => None,
        }
    }

    /// The AceType of the kind ([MS-DTYP] 2.4.4.1).
    pub fn number(self) -> u8
        ensures { result ≡ kind_number self }
    {
        match self {
            WholeKind::Allow => 0x00,
            WholeKind::Deny => 0x01,
            WholeKind::Audit => 0x02,
            WholeKind::Alarm => 0x03,
            WholeKind::ObjectAllow => 0x05,
            WholeKind::ObjectDeny => 0x06,
            WholeKind::ObjectAudit => 0x07,
            WholeKind::ObjectAlarm => 0x08,
            WholeKind::CallbackAllow => 0x09,
            WholeKind::CallbackDeny => 0x0a,
            WholeKind::CallbackObjectAllow => 0x0b,
            WholeKind::CallbackObjectDeny => 0x0c,
            WholeKind::CallbackAudit => 0x0d,
            WholeKind::CallbackObjectAudit => 0x0f,
            WholeKind::MandatoryLabel => 0x11,
            WholeKind::ResourceAttribute => 0x12,
            WholeKind::ScopedPolicy => 0x13,
            WholeKind::TrustLabel => 0x14,
            WholeKind::AccessFilter => 0x15,
        }
    }

    /// Whether entries of this kind say for which types of objects they are ([MS-DTYP] 2.4.4.3, Flags).
    pub fn has_object_types(self) -> bool
        ensures { result ≡ has_object_types self }
    {
        matches!(
            self,
            WholeKind::ObjectAllow
                | WholeKind::ObjectDeny
                | WholeKind::ObjectAudit
                | WholeKind::ObjectAlarm
                | WholeKind::CallbackObjectAllow
                | WholeKind::CallbackObjectDeny
                | WholeKind::CallbackObjectAudit
        )
    }

    /// The kind of a plain entry, if this is an allow or a deny ([MS-DTYP] 2.4.4.2 and 2.4.4.4).
    pub fn plain(self) -> Option<AceKind>
        ensures { result ≡ plain_kind self }
    {
        match self {
            WholeKind::Allow => Some(AceKind::Allow),
            WholeKind::Deny => Some(AceKind::Deny),
            _ => None,
        }
    }
}
