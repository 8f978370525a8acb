//! The client whose answer is proved to include its edits.

use super::*;
use sd_history::Opened;
use sd_sid::GenericMapping;
use sd_store_example::answer_behind;
use sd_versions::Answer;
use std::marker::Brand;
use std::sync::Wait;

/// The answer after one edit; none when out of memory.
fn answer<R: Wait>(rt: &R, alloc: Global) -> Option<Answer> {
    let root = spec(alloc, "O:BAG:SYD:")?;
    let mapping = GenericMapping::file();
    let readers = edit(alloc, Change::Object, "/a", "O:BAG:SYD:(A;;0x1;;;BU)")?;
    let edits = vec![in alloc; readers].ok()?;
    let query = query(alloc, "/a")?;
    answer_behind::<Brand, R>(rt, alloc, Opened::new(), &mapping, &root, &edits, &query).ok()
}

#[test]
fn an_answer_includes_its_edits(rt: HostRuntime) {
    let wanted = Answer {
        seen: 1,
        reply: GRANTED,
    };
    assert_eq!(rt; answer(&rt, rt.alloc()), Some(wanted));
}
