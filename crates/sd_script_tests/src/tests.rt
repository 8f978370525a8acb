//! Streams that break off and fail, and scripts and audits with their whole output.
//!
//! What a test calls it calls by a helper that promises nothing: the proof of a test then carries no value along.

mod audits;
mod decoder;
mod each;
mod limits;
mod serving;
mod streams;
mod trees;

use sd_line::{Output, Spelling, Style, Tag};
use sd_script::{Notation, PathSpelling, ScriptOptions, ScriptState, push_answer};
use sd_sid::GenericMapping;
use sd_tree::Limits;
use std::process::Abort;

/// With the generic rights of files, the standard limits, and lines as they are.
fn plain() -> ScriptOptions {
    ScriptOptions {
        mapping: GenericMapping::file(),
        limits: Limits::standard(),
        notation: Notation::plain(PathSpelling::Plain),
    }
}

/// What a line is answered by, as a text with masks as numbers.
fn printed(rt: &(impl Abort + AllocGlobal), state: &mut ScriptState, line: &str) -> String {
    let alloc = rt.alloc();
    let style = Style {
        spelling: Spelling::Number,
        output: Output::Text,
    };
    let mut out = Vec::new(alloc);
    push_answer(alloc, state, style, Tag::None, line.as_bytes(), &mut out).expect(rt, "memory");
    String::from_utf8(out).expect(rt, "text")
}
