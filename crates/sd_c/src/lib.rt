//! The library for C: checks, descriptors, SIDs and masks in another form, and what a caller keeps between calls.
//!
//! Each exported function takes any bytes and numbers. bindings/hudarin.h declares what C sees, and docs/C.md says how
//! to call it.
//!
//! ```text
//! hudarin_verdict answer = hudarin_check(descriptor, descriptor_length, user, user_length,
//!                                        groups, groups_length, states, state_count, 0, files, 0x1);
//! ```
#![tactic(auto)]

mod accounts;
mod analysis;
mod bytes;
mod call_answer;
mod check;
mod client;
mod creating;
mod creation;
mod edits;
mod entries;
mod explaining;
mod handle;
mod handles;
mod in_domain;
mod keeping;
mod length;
mod lines;
mod mapping;
mod masks;
mod meaning;
mod nodes;
mod not_done;
mod open;
mod over_bytes;
mod plain;
mod question;
mod refusal;
mod request;
mod review;
mod sharing;
mod stop;
mod stored;
mod stores;
mod text;
mod version;
mod views;
mod whole;
mod whole_check;
mod whole_explaining;
mod whole_parts;
mod whole_types;
mod with_entries;
mod with_parts;

pub use accounts::{
    NotAnswered, hudarin_account_sids, hudarin_account_users, hudarin_keep_accounts,
};
pub use analysis::{CompareAnswer, hudarin_compare, hudarin_lint, hudarin_who};
pub use bytes::{hudarin_bytes_to_sddl, hudarin_sid_bytes_to_full_text, hudarin_sid_bytes_to_text};
pub use call_answer::{CheckAnswer, Written};
pub use check::hudarin_check;
pub use client::hudarin_keep_client;
pub use entries::{
    DaclAnswer, EntryAnswer, NoPart, SidPart, hudarin_descriptor_dacl, hudarin_descriptor_entry,
    hudarin_descriptor_group, hudarin_descriptor_owner, hudarin_descriptor_subject,
};
pub use explaining::{Explained, FindingAnswer, PartAnswer, hudarin_explain};
pub use handle::{Handle, Kept, Seal};
pub use handles::{hudarin_check_kept, hudarin_release};
pub use in_domain::{hudarin_sddl_to_bytes_in, hudarin_sid_text_to_bytes_in};
pub use keeping::{hudarin_keep_bytes, hudarin_keep_sddl, hudarin_keep_token};
pub use length::{front_is_read, hudarin_descriptor_length};
pub use lines::{ValueAnswer, hudarin_line_print, hudarin_line_value, hudarin_lines_count};
pub use mapping::Mapping;
pub use masks::{MaskAnswer, hudarin_map_mask, hudarin_mask_from_text, hudarin_mask_to_text};
pub use meaning::{faults_have_names, hudarin_fault_name, hudarin_status_text};
pub use nodes::{NodeAnswer, hudarin_view_node, hudarin_view_own, own_forms_come_back};
pub use not_done::{EditArgument, NotDone};
pub use open::hudarin_check_open;
pub use over_bytes::hudarin_check_bytes;
pub use plain::{Trimmed, hudarin_whole_plain, hudarin_whole_to_sddl};
pub use review::{ReviewAnswer, hudarin_store_review};
pub use sharing::hudarin_share;
pub use stored::{
    hudarin_store_add_stored, hudarin_store_judge_stored, hudarin_view_stored, lists_come_back,
};
pub use stores::{
    hudarin_store_edit, hudarin_store_judge, hudarin_store_open, hudarin_store_open_within,
    hudarin_store_publish, hudarin_store_revert,
};
pub use text::{hudarin_sddl_canonical, hudarin_sddl_to_bytes, hudarin_sid_text_to_bytes};
pub use version::{Version, hudarin_version};
pub use views::{ViewAnswer, hudarin_journal_length, hudarin_view_check, hudarin_view_descriptor};

// Whole descriptors.
pub use creating::{Created, hudarin_create};
pub use whole::{hudarin_whole_at, hudarin_whole_from_sddl};
pub use whole_check::hudarin_check_whole;
pub use whole_explaining::hudarin_explain_whole;
pub use whole_parts::{
    WholeEntry, WholeListAnswer, hudarin_whole_entry, hudarin_whole_list, hudarin_whole_trustee,
};
pub use whole_types::{TreeNode, TypeVerdict, hudarin_check_types};
pub use with_entries::hudarin_whole_with_entries;
pub use with_parts::hudarin_whole_with_parts;
