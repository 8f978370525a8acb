//! Conditions parsed from text, beside what Samba 4.22 makes of it.

use crate::rows::{CONDITIONS, FAULTS, NAMES, OPERATORS, VALUES};
use sd_condition_parse::{ConditionError, parse_condition};
use sd_text::{Aliases, Cursor, TextFault};
use std::alloc::{AllocError, Global};
use std::test::Fail;

/// Whether the whole text is parsed, and this is its data in hexadecimal digits.
fn is_parsed(alloc: Global, text: &str, wanted: &str) -> Result<bool, AllocError> {
    let mut cursor = Cursor::new(text);
    match parse_condition(alloc, &mut cursor, Aliases::in_domain(None)) {
        Ok(condition) => {
            let bytes = condition.write(alloc)?;
            let digits = hex::encode(alloc, bytes)?;
            Ok(digits.as_str() == wanted && cursor.rest.is_empty())
        }
        Err(ConditionError::Memory) => Err(AllocError),
        Err(ConditionError::Fault(_)) => Ok(false),
    }
}

/// Whether the text has this fault, at which the cursor is left.
fn is_refused(
    alloc: Global,
    text: &str,
    wanted: TextFault,
    place: u64,
) -> Result<bool, AllocError> {
    let mut cursor = Cursor::new(text);
    match parse_condition(alloc, &mut cursor, Aliases::in_domain(None)) {
        Ok(_) => Ok(false),
        Err(ConditionError::Memory) => Err(AllocError),
        Err(ConditionError::Fault(fault)) => Ok(fault == wanted && cursor.place(text) == place),
    }
}

#[test]
fn parses_values_as_samba_does(rt: HostRuntime) -> Result<(), Fail> {
    for (text, digits) in VALUES {
        assert!(rt; is_parsed(rt.alloc(), text, digits)?, "{text}");
    }
    Ok(())
}

#[test]
fn parses_attributes_as_samba_does(rt: HostRuntime) -> Result<(), Fail> {
    for (text, digits) in NAMES {
        assert!(rt; is_parsed(rt.alloc(), text, digits)?, "{text}");
    }
    Ok(())
}

#[test]
fn parses_operators_as_samba_does(rt: HostRuntime) -> Result<(), Fail> {
    for (text, digits) in OPERATORS {
        assert!(rt; is_parsed(rt.alloc(), text, digits)?, "{text}");
    }
    Ok(())
}

#[test]
fn parses_conditions_as_samba_does(rt: HostRuntime) -> Result<(), Fail> {
    for (text, digits) in CONDITIONS {
        assert!(rt; is_parsed(rt.alloc(), text, digits)?, "{text}");
    }
    Ok(())
}

#[test]
fn refuses_texts_at_their_faults(rt: HostRuntime) -> Result<(), Fail> {
    for (text, fault, place) in FAULTS {
        assert!(rt; is_refused(rt.alloc(), text, fault, place)?, "{text}");
    }
    Ok(())
}

#[test]
fn refuses_a_condition_that_no_entry_holds(rt: HostRuntime) -> Result<(), Fail> {
    let alloc = rt.alloc();
    let mut text = String::from_str(alloc, "(a == \"")?;
    for _ in 0..32_768 {
        text.push('x')?;
    }
    text.push_str("\")")?;
    assert!(rt; is_refused(alloc, text.as_str(), TextFault::AclTooLarge, 0)?);
    Ok(())
}

#[test]
fn parses_parentheses_however_deep(rt: HostRuntime) -> Result<(), Fail> {
    let alloc = rt.alloc();
    let mut text = String::new(alloc);
    for _ in 0..100_000 {
        text.push('(')?;
    }
    text.push('a')?;
    for _ in 0..100_000 {
        text.push(')')?;
    }
    assert!(rt; is_parsed(alloc, text.as_str(), "61727478f802000000610000")?);
    Ok(())
}
