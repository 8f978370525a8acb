//! Clients of words, and the texts that are no words.

use crate::rows::{CLIENTS, NO_WORDS, SPACED};
use sd_acl::AceKind;
use sd_answer::TokenError;
use sd_check::{GroupState, Pass, Verdict, check};
use sd_claim::{Claim, Value};
use sd_client::{Client, claims_compare_as_written, clients_of_tokens, read_client};
use sd_condition_parse::parse_condition;
use sd_evaluation::{Facts, Truth, evaluate};
use sd_sid::{GenericMapping, Mask, Sid};
use sd_text::{Aliases, Cursor, print_full_sid, read_sddl};
use std::alloc::{AllocError, Global};
use std::process::Abort;
use std::test::Fail;

/// The user who asks.
fn user(rt: &impl Abort) -> Sid {
    Sid::new(5, &[21, 1, 2, 3, 1000]).expect(rt, "a SID")
}

/// The client of these words.
fn client_of(rt: &impl Abort, alloc: Global, words: &[&str]) -> Result<Client, TokenError> {
    read_client(alloc, Aliases::in_domain(None), user(rt), words)
}

/// Appends a text of UTF-16 units, all of which are characters.
fn push_units(out: &mut String, units: &[u16]) -> Result<(), AllocError> {
    for unit in units {
        out.push(char::from_u32(u32::from(*unit)).unwrap_or('?'))?;
    }
    Ok(())
}

/// Appends a value: a number, a text in quotes, octets after `#`, or the octets of a SID.
fn push_value(alloc: Global, out: &mut String, value: &Value) -> Result<(), AllocError> {
    match value {
        Value::Integer(number) => {
            let digits = format!(in alloc; "{number}")?;
            out.push_str(&digits)
        }
        Value::Text(text) => {
            out.push('\'')?;
            push_units(out, text.units())?;
            out.push('\'')
        }
        Value::Octets(octets) => {
            let digits = hex::encode(alloc, octets.octets())?;
            out.push('#')?;
            out.push_str(&digits)
        }
        Value::Sid(octets) => {
            let digits = hex::encode(alloc, octets.octets())?;
            out.push_str("sid ")?;
            out.push_str(&digits)
        }
        Value::Unsigned(_) | Value::Boolean(_) => out.push('?'),
    }
}

/// Appends claims, each with this word before it.
fn push_claims(
    alloc: Global,
    out: &mut String,
    word: &str,
    claims: &[Claim],
) -> Result<(), AllocError> {
    for claim in claims {
        out.push_str(word)?;
        push_units(out, claim.name().units())?;
        if claim.flags() != 0 {
            out.push_str(" with flags")?;
        }
        for (place, value) in claim.values().iter().enumerate() {
            out.push_str(if place == 0 { ": " } else { ", " })?;
            push_value(alloc, out, value)?;
        }
    }
    Ok(())
}

/// A client as a text: its level, the groups of the device, and the claims.
fn shown(alloc: Global, client: &Client) -> Result<String, AllocError> {
    let mut out = format!(in alloc; "{}", client.level)?;
    for (sid, state) in &client.device_groups {
        let text = print_full_sid(alloc, sid)?;
        out.push_str(if *state == GroupState::Enabled {
            " group "
        } else {
            " other "
        })?;
        out.push_str(&text)?;
    }
    push_claims(alloc, &mut out, " local ", &client.local)?;
    push_claims(alloc, &mut out, " user ", &client.user)?;
    push_claims(alloc, &mut out, " device ", &client.device)?;
    Ok(out)
}

/// The words of a text.
fn words_in<'a>(alloc: Global, text: &'a str) -> Result<Vec<&'a str>, AllocError> {
    let mut words = Vec::new(alloc);
    for word in text.split_whitespace() {
        words.push(word)?;
    }
    Ok(words)
}

/// The client of these words as a text, or that there is none.
fn said_by(rt: &impl Abort, alloc: Global, words: &[&str]) -> Result<String, AllocError> {
    match client_of(rt, alloc, words) {
        Ok(client) => shown(alloc, &client),
        Err(TokenError::NoWord { place }) => format!(in alloc; "no word {place}"),
        Err(TokenError::Memory) => Err(AllocError),
    }
}

/// Appends a line, if these words make another client than this.
fn push_other(
    rt: &impl Abort,
    alloc: Global,
    out: &mut String,
    words: &[&str],
    wanted: &str,
) -> Result<(), AllocError> {
    let found = said_by(rt, alloc, words)?;
    if found.as_str() != wanted {
        out.push_str("\n")?;
        out.push_str(wanted)?;
        out.push_str(" is ")?;
        out.push_str(&found)?;
    }
    Ok(())
}

#[test]
fn makes_clients(rt: HostRuntime) -> Result<(), Fail> {
    let alloc = rt.alloc();
    let mut others = String::new(alloc);
    for (text, wanted) in CLIENTS {
        let words = words_in(alloc, text)?;
        push_other(&rt, alloc, &mut others, &words, wanted)?;
    }
    for (word, wanted) in SPACED {
        push_other(&rt, alloc, &mut others, &[word], wanted)?;
    }
    assert!(rt; others.is_empty(), "{others}");
    Ok(())
}

/// The position of the first of these words that is none.
fn no_word(rt: &impl Abort, alloc: Global, words: &[&str]) -> Result<Option<usize>, AllocError> {
    match client_of(rt, alloc, words) {
        Ok(_) => Ok(None),
        Err(TokenError::NoWord { place }) => Ok(Some(place)),
        Err(TokenError::Memory) => Err(AllocError),
    }
}

#[test]
fn refuses_what_is_no_word(rt: HostRuntime) -> Result<(), Fail> {
    let alloc = rt.alloc();
    for word in NO_WORDS {
        let found = no_word(&rt, alloc, &["@User.x=1", word, "banana"])?;
        assert!(rt; found == Some(1), "{word}: {found:?}");
    }
    Ok(())
}

/// What a condition is for the client, without a resource.
fn truth_for(
    rt: &impl Abort,
    alloc: Global,
    client: &Client,
    text: &str,
) -> Result<Truth, AllocError> {
    let mut cursor = Cursor::new(text);
    let parsed = parse_condition(alloc, &mut cursor, Aliases::in_domain(None));
    let condition = parsed.ok().expect(rt, "a condition");
    let facts = Facts {
        token: &client.token,
        device_groups: &client.device_groups,
        local: &client.local,
        user: &client.user,
        device: &client.device,
        resource: &[],
    };
    evaluate(alloc, &facts, AceKind::Allow, Pass::First, &condition)
}

#[test]
fn conditions_ask_about_clients(rt: HostRuntime) -> Result<(), Fail> {
    let alloc = rt.alloc();
    let words = [
        "BU",
        "BA=deny",
        "BG=device",
        "x={SID(BA),SID(S-1-5-11)}",
        "@User.Project=\"vp\"",
        "@User.project=\"QA\"",
        "@Device.Managed=0x1",
    ];
    let client = client_of(&rt, alloc, &words)?;
    for text in [
        "(Member_of SID(BU))",
        "(Not_Member_of SID(BA))",
        "(Device_Member_of SID(BG))",
        "(x == {SID(AU), SID(S-1-5-32-544)})",
        "(@User.PROJECT == \"VP\")",
        "(@Device.managed == 1)",
        "(Not_Exists @User.Managed)",
    ] {
        let truth = truth_for(&rt, alloc, &client, text)?;
        assert!(rt; truth == Truth::True, "{text}: {truth:?}");
    }
    Ok(())
}

#[test]
fn tokens_of_clients_are_checked(rt: HostRuntime) -> Result<(), Fail> {
    let alloc = rt.alloc();
    clients_of_tokens();
    claims_compare_as_written();
    let client = client_of(&rt, alloc, &["BU", "level=low", "x=1"])?;
    let descriptor = read_sddl(alloc, "O:BAG:BAD:(A;;0x3;;;BU)").expect(&rt, "a descriptor");
    let mapping = GenericMapping::file();
    let granted = check(&descriptor, &mapping, &client.token, Mask(0x3));
    assert!(rt; granted == Verdict::Granted(Mask(0x3)));
    let denied = check(&descriptor, &mapping, &client.token, Mask(0x7));
    assert!(rt; denied == Verdict::Denied { missing: Mask(0x4) });
    Ok(())
}
