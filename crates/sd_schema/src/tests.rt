//! Schemas of small files.

use super::*;
use sd_whole_parse::read_guid_text;
use std::alloc::Global;
use std::process::Abort;
use std::test::Fail;

/// A group's class and an attribute, whose GUID also a right has; two are called name.
const FILE: &str = "# some object types
class bf967a9c-0de6-11d0-a285-00aa003049e2 group
attribute bf9679c0-0de6-11d0-a285-00aa003049e2 member\r

right BF9679C0-0DE6-11D0-A285-00AA003049E2 Self-Membership
right bf9679c0-0de6-11d0-a285-00aa003049e2 Add/Remove self as member
set 77b5b886-944a-11d1-aebd-0000f80367c1 name
right 00299570-246d-11d0-a768-00aa006e0529 Name
class bf967a9c-0de6-11d0-a285-00aa003049e2 GROUP
";

fn schema(rt: &impl Abort, alloc: Global, text: &str) -> Schema {
    Schema::read(alloc, text.as_bytes())
        .ok()
        .expect(rt, "a schema")
}

#[test]
fn object_types_have_names(rt: HostRuntime) {
    let schema = schema(&rt, rt.alloc(), FILE);
    let member = read_guid_text("bf9679c0-0de6-11d0-a285-00aa003049e2").expect(&rt, "a GUID");
    assert_eq!(rt; schema.guid_named("Member"), Ok(member));
    assert_eq!(rt; schema.guid_named("self-membership"), Ok(member));
    assert_eq!(rt; schema.guid_named("add/remove SELF as member"), Ok(member));
    assert!(rt; schema.guid_named("group").is_ok());
    assert_eq!(rt; schema.guid_named("members"), Err(TypeNameFault::Unknown));
    assert_eq!(rt; schema.guid_named(""), Err(TypeNameFault::Unknown));
    assert_eq!(rt; schema.guid_named("NAME"), Err(TypeNameFault::Ambiguous));
}

#[test]
fn guids_stand_in_the_place_of_names(rt: HostRuntime) -> Result<(), Fail> {
    let schema = schema(&rt, rt.alloc(), FILE);
    for (text, own) in [
        ("group", "bf967a9c-0de6-11d0-a285-00aa003049e2"),
        (
            "BF967A9C-0de6-11d0-a285-00aa003049e2",
            "BF967A9C-0de6-11d0-a285-00aa003049e2",
        ),
    ] {
        let found = schema
            .type_text(rt.alloc(), text)
            .ok()
            .expect(&rt, "a text");
        assert_eq!(rt; found.as_str(), own);
    }
    for (text, own) in [
        (
            "0:group,1:Member",
            "0:bf967a9c-0de6-11d0-a285-00aa003049e2,1:bf9679c0-0de6-11d0-a285-00aa003049e2",
        ),
        ("group,", "group,"),
        ("", ""),
    ] {
        let found = schema
            .tree_text(rt.alloc(), text)
            .ok()
            .expect(&rt, "a tree");
        assert_eq!(rt; found.as_str(), own);
    }
    Ok(())
}

#[test]
fn what_names_no_object_type_is_a_fault(rt: HostRuntime) {
    let schema = schema(&rt, rt.alloc(), FILE);
    let ambiguous = TypeTextError::Name(TypeNameFault::Ambiguous);
    assert_eq!(rt; schema.type_text(rt.alloc(), "name").err(), Some(ambiguous));
    for (text, place, fault) in [
        ("0:group,1:nobody", 1, TypeNameFault::Unknown),
        ("0:", 0, TypeNameFault::Unknown),
        (
            "0:group,1:member,1:name,1:nobody",
            2,
            TypeNameFault::Ambiguous,
        ),
    ] {
        let error = schema.tree_text(rt.alloc(), text).err();
        assert_eq!(rt; error, Some(NodeError::Name { place, fault }));
    }
}

#[test]
fn the_first_fault_is_reported(rt: HostRuntime) {
    for (text, line, kind) in [
        (
            "klass bf967a9c-0de6-11d0-a285-00aa003049e2 a",
            1,
            SchemaFault::Keyword,
        ),
        ("\n#\nclass bf967a9c a", 3, SchemaFault::Guid),
        ("class", 1, SchemaFault::Guid),
        (
            "#\r\nset bf967a9c-0de6-11d0-a285-00aa003049e2 ",
            2,
            SchemaFault::Name,
        ),
        (
            "set bf967a9c-0de6-11d0-a285-00aa003049e2 a\tb\nx",
            1,
            SchemaFault::Name,
        ),
    ] {
        let error = Schema::read(rt.alloc(), text.as_bytes())
            .err()
            .expect(&rt, "a fault");
        assert_eq!(rt; error, SchemaError::Fault { line, kind });
    }
}

#[test]
fn a_line_that_is_not_utf8_is_a_fault(rt: HostRuntime) {
    let text = b"#\xff\nset bf967a9c-0de6-11d0-a285-00aa003049e2 \xff";
    let error = Schema::read(rt.alloc(), text).err().expect(&rt, "a fault");
    let (line, kind) = (2, SchemaFault::Utf8);
    assert_eq!(rt; error, SchemaError::Fault { line, kind });
}

/// The words of a text with blanks between them.
fn words<'a>(alloc: Global, text: &'a str) -> Result<Vec<&'a str>, Fail> {
    let mut words = Vec::new(alloc);
    for word in text.split(' ') {
        words.push(word)?;
    }
    Ok(words)
}

#[test]
fn words_of_a_command_line_have_guids(rt: HostRuntime) -> Result<(), Fail> {
    let schema = schema(&rt, rt.alloc(), FILE);
    let line = "sdstore --mapping member --type Member --type group types D: 0:group --type member";
    let words = words(rt.alloc(), line)?;
    let own = schema.with_guids(rt.alloc(), &words, 9).ok();
    let own = own.expect(&rt, "words");
    assert_eq!(rt; own.len(), 12);
    for (place, word) in [
        (2, "member"),
        (4, "bf9679c0-0de6-11d0-a285-00aa003049e2"),
        (6, "bf967a9c-0de6-11d0-a285-00aa003049e2"),
        (8, "D:"),
        (9, "0:bf967a9c-0de6-11d0-a285-00aa003049e2"),
        (11, "member"),
    ] {
        assert_eq!(rt; own[place].as_str(), word);
    }
    let error = schema.with_guids(rt.alloc(), &words, 11).err();
    assert!(rt; error.is_none());
    let (place, fault) = (2, TypeNameFault::Ambiguous);
    let words = [words[0], "--type", "name"];
    let error = schema.with_guids(rt.alloc(), &words, 3).err();
    assert_eq!(rt; error, Some(WordError::Type { place, fault }));
    Ok(())
}
