//! Which row of the table of remedies fits a text that can't be parsed.

use crate::remedies::*;
use sd_commands::{Settings, is_placeholder};
use sd_line::{Spelling, read_mask_in};
use sd_text::{Aliases, TextError, TextFault, read_mask, read_sid_text_in};

/// What was found in a descriptor's text whose first fault is at this byte.
pub(crate) fn found_in_descriptor(text: &str, fault: TextFault, place: u64) -> Option<RemedyRow> {
    let bytes = text.as_bytes();
    let (before, after) = bytes.split_at(bytes.len().min(place as usize));
    match fault {
        TextFault::HasSacl => Some(SACL),
        TextFault::EntryKind => Some(OTHER_ENTRY),
        TextFault::ObjectGuid => Some(if fields_after(after).saturating_add(fields_before(before))
            < 5
        {
            FIELDS
        } else {
            OTHER_ENTRY
        }),
        TextFault::UnknownAlias | TextFault::DomainAlias => alias_row(fault, after),
        TextFault::Range => Some(RANGE),
        TextFault::AclTooLarge => None,
        TextFault::Syntax => match sign_row(after) {
            Some(row) => Some(row),
            None if before.is_empty() => Some(start_row(after)),
            None => entry_row(before, after),
        },
    }
}

/// The row of advice for an alias that is none, or a domain's.
fn alias_row(fault: TextFault, after: &[u8]) -> Option<RemedyRow> {
    match (fault, after) {
        (TextFault::DomainAlias, _) => Some(DOMAIN_ALIAS),
        (TextFault::UnknownAlias, [first, second, ..]) => {
            let alias = [first.to_ascii_uppercase(), second.to_ascii_uppercase()];
            Some(if is_newer(alias) {
                NEWER_ALIAS
            } else {
                NO_ALIAS
            })
        }
        _ => None,
    }
}

/// Whether `--aliases` knows the alias.
fn is_newer(alias: [u8; 2]) -> bool {
    matches!(
        alias,
        [b'A', b'A']
            | [b'E', b'S']
            | [b'H', b'A']
            | [b'M', b'S']
            | [b'R', b'A']
            | [b'R', b'M']
            | [b'U', b'D']
            | [b'A', b'P']
            | [b'C', b'N']
            | [b'K', b'A']
            | [b'R', b'O']
    )
}

/// The row of advice for a sign that is part of nothing.
fn sign_row(after: &[u8]) -> Option<RemedyRow> {
    match after {
        [b'"' | b'\'', ..] => Some(QUOTE),
        [b' ', ..] => Some(SPACE),
        [b'\t', ..] => Some(TAB),
        [b'\n', ..] => Some(FEED),
        [b'\r', ..] => Some(RETURN),
        [b',', ..] => Some(COMMA),
        [b'|' | b'+', ..] => Some(JOINED),
        _ => None,
    }
}

/// The row of advice for a text that begins with no section.
fn start_row(text: &[u8]) -> RemedyRow {
    match text {
        [b'-', ..] => OPTION,
        [b'(', ..] => ENTRY,
        [b'S' | b's', b'-', ..] => SID_FIRST,
        [b'A' | b'D' | b'a' | b'd', b';', ..] => OPEN_ENTRY,
        _ if text.contains(&b'.') || text.contains(&b'/') || text.contains(&b'\\') => FILE,
        _ => NO_SECTION,
    }
}

/// The row of advice for an entry that goes on otherwise than entries do.
fn entry_row(before: &[u8], after: &[u8]) -> Option<RemedyRow> {
    match (fields_before(before), after) {
        (_, []) => Some(END),
        (1, _) => Some(FLAGS),
        (2..=4, [b')', ..]) => Some(FIELDS),
        _ => None,
    }
}

/// How many semicolons are between the last parenthesis and the end.
fn fields_before(before: &[u8]) -> usize {
    let mut fields: usize = 0;
    for byte in before {
        fields = match byte {
            b'(' => 0,
            b';' => fields.saturating_add(1),
            _ => fields,
        };
    }
    fields
}

/// How many semicolons are before the first parenthesis.
fn fields_after(after: &[u8]) -> usize {
    let mut fields: usize = 0;
    for byte in after {
        match byte {
            b')' => return fields,
            b';' => fields = fields.saturating_add(1),
            _ => {}
        }
    }
    fields
}

/// What was found in place of USER.
pub(crate) fn found_in_user(known: Aliases, text: &str) -> Option<RemedyRow> {
    match (text.as_bytes(), read_mask(text)) {
        (
            [
                b'O' | b'G' | b'D' | b'S' | b'o' | b'g' | b'd' | b's',
                b':',
                ..
            ],
            _,
        ) => Some(DESCRIPTOR),
        ([_, ..], Ok(_)) => Some(RIGHTS_AS_USER),
        _ => found_in_sid(known, text),
    }
}

/// What was found in place of the first of these arguments that is no SID.
pub(crate) fn found_in_sids(known: Aliases, arguments: &[&str]) -> Option<RemedyRow> {
    let mut sids = arguments.iter();
    let first = sids.find(|text| read_sid_text_in(known, text).is_err())?;
    found_in_user(known, first)
}

/// What was found in place of a part of SIDS.
pub(crate) fn found_in_concern(known: Aliases, text: &str) -> Option<RemedyRow> {
    if text.is_empty() {
        return Some(EMPTY_PART);
    }
    match read_sid_text_in(known, text) {
        Ok(sid) if is_placeholder(&sid) => Some(PLACEHOLDER),
        _ => found_in_sid(known, text),
    }
}

/// What was found in place of a SID.
fn found_in_sid(known: Aliases, text: &str) -> Option<RemedyRow> {
    if text.is_empty() {
        return Some(NOTHING);
    }
    let bytes = text.as_bytes();
    match read_sid_text_in(known, text) {
        Err(
            TextError::Fault {
                fault: TextFault::Range,
                ..
            },
        ) => Some(RANGE),
        Err(TextError::Fault { .. }) if bytes.contains(&b',') => Some(COMMA),
        Err(
            TextError::Fault {
                fault: TextFault::Syntax,
                ..
            },
        ) => Some(match bytes {
            [b'S' | b's', b'-', ..] => return None,
            _ => NAME,
        }),
        Err(TextError::Fault { .. }) if 2 < bytes.len() => Some(NAME),
        Err(TextError::Fault { fault, .. }) => alias_row(fault, bytes),
        _ => None,
    }
}

/// What was found in place of MASK.
pub(crate) fn found_in_mask(settings: &Settings, text: &str) -> Option<RemedyRow> {
    let is_sid = read_sid_text_in(settings.aliases, text).is_ok();
    match read_mask_in(settings.spelling, text) {
        Err(TextError::Fault { .. }) if is_sid => Some(SID_AS_MASK),
        Err(
            TextError::Fault {
                fault: TextFault::Range,
                ..
            },
        ) => Some(RANGE),
        Err(TextError::Fault { .. }) => Some(match settings.spelling {
            Spelling::Number => NAMES,
            Spelling::Names(_) => NO_NAME,
        }),
        _ => None,
    }
}

/// What was found in place of a group that every token in question has.
pub(crate) fn found_in_group(known: Aliases, text: &str) -> Option<RemedyRow> {
    let bytes = text.as_bytes();
    match bytes {
        [b'+' | b'-' | b'@', ..] => Some(GROUP),
        _ if bytes.contains(&b'=') || bytes.contains(&b':') => Some(GROUP),
        _ => found_in_sid(known, text),
    }
}

/// What was found in place of a WORD, under `--whole` of a WORD that may say more than a token.
pub(crate) fn found_in_word(whole: bool, known: Aliases, text: &str) -> Option<RemedyRow> {
    let bytes = text.as_bytes();
    match bytes {
        [b'+', ..] => Some(PRIVILEGE),
        [b'-', ..] => Some(STATE),
        _ if whole && text.starts_with("level=") => Some(LEVEL),
        [b'@', ..] if whole => Some(CLAIM),
        [b'@', ..] => Some(WHOLE_WORD),
        _ if text.starts_with("level=") || text.ends_with("=device") => Some(WHOLE_WORD),
        _ if bytes.contains(&b'=') || bytes.contains(&b':') => Some(STATE),
        _ => found_in_sid(known, text),
    }
}

/// What was found at a fault of the text of a whole descriptor.
pub(crate) fn found_in_whole(text: &str, fault: TextFault, place: u64) -> Option<RemedyRow> {
    match fault {
        TextFault::EntryKind => None,
        TextFault::Range => Some(WHOLE_RANGE),
        _ => found_in_descriptor(text, fault, place),
    }
}
