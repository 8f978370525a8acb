//! The options that commands take, for the rows of the table.

use crate::row::OptionName;

/// The options of `tobin`.
pub(crate) const TO_BINARY_OPTIONS: &[OptionName] = &[
    OptionName::Stdin,
    OptionName::Whole,
    OptionName::RequireDacl,
    OptionName::Domain,
    OptionName::Aliases,
    OptionName::Json,
    OptionName::Color,
    OptionName::Caret,
    OptionName::StrictStatus,
];

/// The options of `print`.
pub(crate) const PRINT_OPTIONS: &[OptionName] = &[
    OptionName::Stdin,
    OptionName::Names,
    OptionName::Whole,
    OptionName::RequireDacl,
    OptionName::Domain,
    OptionName::Aliases,
    OptionName::Mapping,
    OptionName::Json,
    OptionName::Color,
    OptionName::Caret,
    OptionName::StrictStatus,
];

/// The options of `show` and `diff`.
pub(crate) const SHOW_OPTIONS: &[OptionName] = &[
    OptionName::Stdin,
    OptionName::Names,
    OptionName::Domain,
    OptionName::Aliases,
    OptionName::Mapping,
    OptionName::Json,
    OptionName::Color,
    OptionName::Caret,
    OptionName::StrictStatus,
];

/// The options of the commands that change a descriptor.
pub(crate) const CHANGE_OPTIONS: &[OptionName] = &[
    OptionName::Stdin,
    OptionName::Names,
    OptionName::RequireDacl,
    OptionName::Domain,
    OptionName::Aliases,
    OptionName::Mapping,
    OptionName::Json,
    OptionName::Color,
    OptionName::Caret,
    OptionName::StrictStatus,
];

/// The options of the commands that print what an object has in a container.
pub(crate) const HEIR_OPTIONS: &[OptionName] = &[
    OptionName::Stdin,
    OptionName::Names,
    OptionName::RequireDacl,
    OptionName::Object,
    OptionName::Domain,
    OptionName::Aliases,
    OptionName::Mapping,
    OptionName::Json,
    OptionName::Color,
    OptionName::Caret,
    OptionName::StrictStatus,
];

/// The options of `stale`.
pub(crate) const STALE_OPTIONS: &[OptionName] = &[
    OptionName::Stdin,
    OptionName::Names,
    OptionName::Object,
    OptionName::Domain,
    OptionName::Aliases,
    OptionName::Mapping,
    OptionName::Json,
    OptionName::Color,
    OptionName::Caret,
    OptionName::StrictStatus,
];

/// The options of `sort`.
pub(crate) const SORT_OPTIONS: &[OptionName] = &[
    OptionName::Stdin,
    OptionName::Names,
    OptionName::Whole,
    OptionName::RequireDacl,
    OptionName::Domain,
    OptionName::Aliases,
    OptionName::Mapping,
    OptionName::Json,
    OptionName::Color,
    OptionName::Caret,
    OptionName::StrictStatus,
];

/// Of those about one user's access.
pub(crate) const VERDICT_OPTIONS: &[OptionName] = &[
    OptionName::Stdin,
    OptionName::Names,
    OptionName::Whole,
    OptionName::RequireDacl,
    OptionName::Domain,
    OptionName::Aliases,
    OptionName::Mapping,
    OptionName::Accounts,
    OptionName::Logon,
    OptionName::Type,
    OptionName::Schema,
    OptionName::PrincipalSelf,
    OptionName::Json,
    OptionName::Color,
    OptionName::Caret,
    OptionName::StrictStatus,
];

/// Of `types`: which object types are asked about, an argument of it says.
pub(crate) const TYPES_OPTIONS: &[OptionName] = &[
    OptionName::Stdin,
    OptionName::Names,
    OptionName::Whole,
    OptionName::RequireDacl,
    OptionName::Domain,
    OptionName::Aliases,
    OptionName::Mapping,
    OptionName::Accounts,
    OptionName::Logon,
    OptionName::Schema,
    OptionName::PrincipalSelf,
    OptionName::Json,
    OptionName::Color,
    OptionName::Caret,
    OptionName::StrictStatus,
];

pub(crate) const WHO_OPTIONS: &[OptionName] = &[
    OptionName::Stdin,
    OptionName::Names,
    OptionName::Whole,
    OptionName::RequireDacl,
    OptionName::Below,
    OptionName::Type,
    OptionName::Schema,
    OptionName::PrincipalSelf,
    OptionName::Domain,
    OptionName::Aliases,
    OptionName::Mapping,
    OptionName::Accounts,
    OptionName::Json,
    OptionName::Color,
    OptionName::Caret,
    OptionName::StrictStatus,
];

pub(crate) const COMPARE_OPTIONS: &[OptionName] = &[
    OptionName::Stdin,
    OptionName::Names,
    OptionName::Whole,
    OptionName::RequireDacl,
    OptionName::Object,
    OptionName::Type,
    OptionName::Schema,
    OptionName::PrincipalSelf,
    OptionName::Domain,
    OptionName::Aliases,
    OptionName::Mapping,
    OptionName::Accounts,
    OptionName::Json,
    OptionName::Color,
    OptionName::Caret,
    OptionName::StrictStatus,
];

pub(crate) const LINT_OPTIONS: &[OptionName] = &[
    OptionName::Stdin,
    OptionName::Names,
    OptionName::Whole,
    OptionName::RequireDacl,
    OptionName::Object,
    OptionName::Risks,
    OptionName::Concern,
    OptionName::Type,
    OptionName::Schema,
    OptionName::PrincipalSelf,
    OptionName::Domain,
    OptionName::Aliases,
    OptionName::Mapping,
    OptionName::Accounts,
    OptionName::Json,
    OptionName::Color,
    OptionName::Caret,
    OptionName::StrictStatus,
];

pub(crate) const BYTES_OPTIONS: &[OptionName] = &[
    OptionName::Stdin,
    OptionName::Names,
    OptionName::Whole,
    OptionName::WithoutBits,
    OptionName::RequireDacl,
    OptionName::Base64,
    OptionName::Loose,
    OptionName::Mapping,
    OptionName::Json,
    OptionName::Color,
    OptionName::Caret,
    OptionName::StrictStatus,
];

pub(crate) const SCRIPT_OPTIONS: &[OptionName] = &[
    OptionName::Names,
    OptionName::Whole,
    OptionName::Percent,
    OptionName::Strict,
    OptionName::Nodes,
    OptionName::Edits,
    OptionName::Domain,
    OptionName::Aliases,
    OptionName::Mapping,
    OptionName::Json,
    OptionName::Color,
    OptionName::StrictStatus,
];

pub(crate) const RIGHTS_OPTIONS: &[OptionName] = &[
    OptionName::Names,
    OptionName::Mapping,
    OptionName::Json,
    OptionName::Color,
    OptionName::Caret,
    OptionName::StrictStatus,
];

pub(crate) const SID_OPTIONS: &[OptionName] = &[
    OptionName::Domain,
    OptionName::Aliases,
    OptionName::Json,
    OptionName::Color,
    OptionName::Caret,
    OptionName::StrictStatus,
];
