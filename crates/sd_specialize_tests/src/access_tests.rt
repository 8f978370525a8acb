//! Questions about whole descriptors: the verdicts.

use crate::rows::ACCESS;
use crate::tests::{Asked, asked_by, claims, column, fault_text, token_of, verdict_text, whole_of};
use sd_access::{Explained, Question, check_whole, explain_whole};
use sd_check::Token;
use sd_client::Client;
use sd_sid::{GenericMapping, Mask};
use sd_specialize::SpecializeError;
use sd_text::read_mask;
use std::alloc::{AllocError, Global};
use std::process::Abort;
use std::test::Fail;

/// The client with the token and the level, whose claim Grade is 5.
pub(crate) fn client_of(
    rt: &impl Abort,
    alloc: Global,
    token: Token,
    level: u32,
) -> Result<Client, AllocError> {
    Ok(Client {
        token,
        device_groups: Vec::new(alloc),
        local: Vec::new(alloc),
        user: claims(rt, alloc)?,
        device: Vec::new(alloc),
        level,
    })
}

#[test]
fn answers_questions_about_whole_descriptors(rt: HostRuntime) -> Result<(), Fail> {
    let alloc = rt.alloc();
    let mapping = GenericMapping::file();
    let mut count: u32 = 0;
    for row in ACCESS.split('\n') {
        if !row.contains(" | ") {
            continue;
        }
        let Asked {
            whole,
            chain,
            principal_self,
            token,
            rest,
        } = asked_by(&rt, alloc, row)?;
        let (level, rest) = column(&rt, rest);
        let (mask, verdict) = column(&rt, rest);
        let level = level.parse::<u32>().expect(&rt, "a level");
        let client = client_of(&rt, alloc, token, level)?;
        let question = Question {
            client: &client,
            chain: &chain,
            principal_self,
            mapping: &mapping,
            asked: read_mask(mask).expect(&rt, "a mask"),
        };
        let answer = check_whole(alloc, &question, &whole).expect(&rt, "a verdict");
        let answer = verdict_text(alloc, answer)?;
        assert!(rt; answer.as_str() == verdict, "{row}: {answer}");
        let Explained { explanation, .. } = explain_whole(alloc, &question, &whole).expect(
            &rt, "reasons",
        );
        let told = verdict_text(alloc, explanation.verdict())?;
        assert!(rt; told.as_str() == verdict, "{row}: {told}");
        count = count.saturating_add(1);
    }
    assert!(rt; count == 14, "{count}");
    Ok(())
}

#[test]
fn refuses_entries_of_a_sacl_in_a_dacl(rt: HostRuntime) -> Result<(), Fail> {
    let alloc = rt.alloc();
    let mapping = GenericMapping::file();
    let whole = whole_of(&rt, alloc, "D:(A;;FA;;;BU)(AU;SA;FA;;;WD)")?;
    let client = client_of(&rt, alloc, token_of(&rt, alloc, "BU")?, 8192)?;
    let question = Question {
        client: &client,
        chain: &[],
        principal_self: None,
        mapping: &mapping,
        asked: Mask(1),
    };
    let found = match check_whole(alloc, &question, &whole) {
        Err(SpecializeError::Fault(fault)) => fault_text(alloc, fault)?,
        _ => format!(in alloc; "none")?,
    };
    assert!(rt; found.as_str() == "2 3 SystemAce", "{found}");
    Ok(())
}
