//! What is printed of nodes whose names no line of a script can give.

use super::{plain, printed};
use sd_script::{Notation, PathSpelling, ScriptState, Session};
use sd_sid::{GenericMapping, Sid};
use sd_tree::{Edit, Entries, NodeDacl, Path, RootSpec};
use sd_versions::{Desk, Request};
use std::process::Abort;

/// A store with one object, at the path.
fn with_object(rt: &(impl Abort + AllocGlobal), path: &str, paths: PathSpelling) -> ScriptState {
    let alloc = rt.alloc();
    let owner = Sid::new(5, &[32, 544]).expect(rt, "a SID");
    let nothing = || NodeDacl::List {
        protected: false,
        entries: Entries::new(Vec::new(alloc)),
    };
    let root = RootSpec {
        owner,
        group: owner,
        dacl: nothing(),
    };
    let mut desk = Desk::start(alloc, &GenericMapping::file(), &root, 1).expect(rt, "a desk");
    let path = Path::read(alloc, path).expect(rt, "a path");
    let _ = desk.step(&Request::Edit(Edit::AddObject {
        path,
        owner,
        group: owner,
        dacl: nothing(),
    }));
    let _ = desk.step(&Request::Publish);
    assert_eq!(rt; desk.readers(), 1);
    let mut state = ScriptState::before_first_line(&plain());
    state.session = Session::Opened(Notation::plain(paths), desk);
    state
}

/// Stops the test unless the line is answered so by such a store.
fn tells(
    rt: &(impl Abort + AllocGlobal),
    path: &str,
    paths: PathSpelling,
    line: &str,
    wanted: &str,
) {
    let mut state = with_object(rt, path, paths);
    let told = printed(rt, &mut state, line);
    assert_eq!(rt; told.as_str(), wanted, "{path}");
}

/// Names that no line of a script can give.
#[test]
fn a_name_that_no_script_gives_is_a_fault(rt: HostRuntime) {
    let plain = PathSpelling::Plain;
    tells(&rt, "/a b", plain, "dump", "fault name\n\n");
    tells(&rt, "/a\nb", plain, "dump", "fault name\n\n");
    tells(&rt, "/a b", plain, "list", "fault name\n\n");
    tells(&rt, "/a\nb", plain, "list", "fault name\n\n");
    tells(&rt, "/a b", plain, "list /a", "nonode\n\n");
    tells(&rt, "/a b", plain, "find 0 / BA RC", "fault name\n\n");
    tells(&rt, "/a b", plain, "find 0 /a BA RC", "seen 1 nonode\n\n");
    tells(
        &rt,
        "/#",
        plain,
        "dump",
        "open 1 O:BAG:BAD:\naddo /# O:BAG:BAD:\npublish\n\n",
    );
    tells(
        &rt,
        "/a\r",
        plain,
        "dump",
        "open 1 O:BAG:BAD:\naddo /a\r O:BAG:BAD:\npublish\n\n",
    );
}
