//! The line of each reply of a store.
ghost use Rattle.std.specs.Prelude.{◌≡◌, ◌∷◌, [], Some, IfOk, map, option_map};
ghost use Rattle.sd_acl.specs.Descriptor.{descriptor_of};
ghost use Rattle.sd_line.specs.Line.{form_of};
ghost use Rattle.sd_script.specs.Reply.{check_line, counted_line, ok_line, opened_line, plain_line, refused_line};
ghost use Rattle.sd_script.specs.Reply.{reply_line, seen_line, shown_line, start_error_line, trimmed_line};

use crate::forms::DIFFERS;
use sd_acl::Descriptor;
use sd_answer::{
    LEARNED, NO_NODE, NO_NOTICE, NO_READER, OK, OPENED, PUBLISHED, REFUSED, REFUSED_NAMED, SEEN,
    SHOWN, TOLD, verdict_line,
};
use sd_line::{Line, LineForm, Part, Value};
use sd_tree::{CheckReply, EditRefusal};
use sd_versions::{Reply, StartError};
use std::alloc::{AllocError, Global};

/// The line of a reply. Out of memory has none: it is an error.
pub fn reply_line(alloc: Global, reply: Reply) -> Result<Line, AllocError>
    ensures { IfOk result (λ line. reply_line reply ≡ Some line) }
{
    match reply {
        Reply::Edited => ok_line(alloc, &[]),
        Reply::Refused(refusal) => refused_line(alloc, refusal),
        Reply::Published(len) => counted_line(alloc, PUBLISHED, len),
        Reply::Told(len) => counted_line(alloc, TOLD, len),
        Reply::Learned(floor) => counted_line(alloc, LEARNED, floor),
        Reply::Answered(answer) => {
            let what = check_line(alloc, answer.reply)?;
            seen_line(alloc, answer.seen, what)
        }
        Reply::Shown { seen, descriptor } => {
            let what = shown_line(alloc, descriptor)?;
            seen_line(alloc, seen, what)
        }
        Reply::NoReader => plain_line(alloc, NO_READER),
        Reply::NoNotice => plain_line(alloc, NO_NOTICE),
        Reply::Memory => Err(AllocError),
    }
}

/// The line of a reply to an edit by a descriptor of whose text something was left out. Out of memory has none: it is
/// an error.
pub fn trimmed_line(alloc: Global, reply: Reply) -> Result<Line, AllocError>
    ensures { IfOk result (λ line. trimmed_line reply ≡ Some line) }
{
    match reply {
        Reply::Edited => ok_line(alloc, &["differs"]),
        reply => reply_line(alloc, reply),
    }
}

/// The line for a store that was opened for so many readers, with a root that has all that the text of its descriptor
/// says, or not. The only error is out of memory.
pub fn opened_line(alloc: Global, is_all: bool, readers: u64) -> Result<Line, AllocError>
    ensures { IfOk result (λ line. line ≡ opened_line is_all readers) }
{
    if is_all {
        return counted_line(alloc, OPENED, readers);
    }
    let opened = Part::new(OPENED.1, vec![in alloc; Value::Number(readers)]?);
    let differs = Value::words(alloc, &["differs"])?;
    let of_root = Part::new(DIFFERS, vec![in alloc; differs]?);
    Ok(Line::of(OPENED.0, vec![in alloc; opened, of_root]?))
}

/// The line for a store that wasn't opened. Out of memory has none: it is an error.
pub fn start_error_line(alloc: Global, error: StartError) -> Result<Line, AllocError>
    ensures { IfOk result (λ line. start_error_line error ≡ Some line) }
{
    match error {
        StartError::Readers => {
            let of = Value::word(alloc, "readers")?;
            Line::new(alloc, REFUSED, vec![in alloc; of]?)
        }
        StartError::Root(refusal) => refused_line(alloc, refusal),
        StartError::Memory | StartError::Place => Err(AllocError),
    }
}

/// A line of a number, as `published 1`. The only error is out of memory.
pub fn counted_line(alloc: Global, form: LineForm, number: u64) -> Result<Line, AllocError>
    ensures { IfOk result (λ line. line ≡ counted_line (form_of form.entry) number) }
{
    Line::new(alloc, form, vec![in alloc; Value::Number(number)]?)
}

/// A line without a value, as `nonode`. The only error is out of memory.
pub(crate) fn plain_line(alloc: Global, form: LineForm) -> Result<Line, AllocError>
    ensures { IfOk result (λ line. line ≡ plain_line (form_of form.entry)) }
{
    Line::new(alloc, form, Vec::new(alloc))
}

/// `ok`, and what it says of a node and its entries. The only error is out of memory.
pub(crate) fn ok_line(alloc: Global, words: &[&str]) -> Result<Line, AllocError>
    ensures { IfOk result (λ line. line ≡ ok_line (map (λ word. word.now) words.now)) }
{
    let words = Value::words(alloc, words)?;
    Line::new(alloc, OK, vec![in alloc; words]?)
}

/// An answer of one line. The only error is out of memory.
pub fn alone(alloc: Global, line: Line) -> Result<Vec<Line>, AllocError>
    ensures { IfOk result (λ answer. answer.items ≡ line ∷ []) }
{
    Ok(vec![in alloc; line]?)
}

fn refused_line(alloc: Global, refusal: EditRefusal) -> Result<Line, AllocError>
    ensures { IfOk result (λ line. line ≡ refused_line refusal) }
{
    let number = Value::Number(u64::from(refusal.number()));
    let name = Value::word(alloc, refusal.name())?;
    Line::new(alloc, REFUSED_NAMED, vec![in alloc; number, name]?)
}

/// A line after by how long a journal it is answered.
pub(crate) fn seen_line(alloc: Global, seen: u64, what: Line) -> Result<Line, AllocError>
    ensures { IfOk result (λ line. line ≡ seen_line seen what) }
{
    what.with_head(Part::new(SEEN, vec![in alloc; Value::Number(seen)]?))
}

fn check_line(alloc: Global, reply: CheckReply) -> Result<Line, AllocError>
    ensures { IfOk result (λ line. line ≡ check_line reply) }
{
    match reply {
        CheckReply::Verdict(verdict) => verdict_line(alloc, verdict),
        CheckReply::NoNode => plain_line(alloc, NO_NODE),
    }
}

fn shown_line(alloc: Global, descriptor: Option<Descriptor>) -> Result<Line, AllocError>
    ensures { IfOk result (λ line. line ≡ shown_line (option_map descriptor_of descriptor)) }
{
    match descriptor {
        None => plain_line(alloc, NO_NODE),
        Some(descriptor) => {
            let shown = Value::descriptor(descriptor);
            Line::new(alloc, SHOWN, vec![in alloc; shown]?)
        }
    }
}
