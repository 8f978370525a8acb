//! What a store within limits answers.
use super::{plain, printed};
use sd_script::{ScriptOptions, ScriptState};
use sd_tree::Limits;
use std::process::Abort;

/// Lines, each with its answer, of a store of at most 2 nodes and 2 edits.
const ANSWERED: [(&str, &str); 6] = [
    ("open 1 O:BAG:SYD:", "opened 1\n"),
    ("addo /a O:BAG:SYD:", "ok\n"),
    ("addo /b O:BAG:SYD:", "refused 11 NodesFull\n"),
    ("remove /a", "ok\n"),
    ("addo /b O:BAG:SYD:", "refused 12 JournalFull\n"),
    ("publish", "published 2\n"),
];

/// Stops the test unless the line is answered so.
fn answers(rt: &(impl Abort + AllocGlobal), state: &mut ScriptState, line: &str, wanted: &str) {
    let told = printed(rt, state, line);
    assert_eq!(rt; told.as_str(), wanted, "{line}");
}

#[test]
fn a_store_grows_within_its_limits(rt: HostRuntime) {
    let ScriptOptions {
        mapping,
        notation,
        ..
    } = plain();
    let options = ScriptOptions {
        mapping,
        limits: Limits::new(2, 2).expect(&rt, "limits"),
        notation,
    };
    let mut state = ScriptState::before_first_line(&options);
    for (line, wanted) in ANSWERED {
        answers(&rt, &mut state, line, wanted);
    }
}
