//! The calls over views: trees as they were published, which threads share.

ghost use Rattle.std.specs.Prelude.{◌≡◌, IfErr, IfOk};
ghost use Rattle.sd_edit.specs.Answers.{descriptor_at};
ghost use Rattle.sd_edit.specs.History.{history_of};
ghost use Rattle.sd_edit.specs.Journal.{replay};
ghost use Rattle.sd_c.specs.Kept.{Stays};
ghost use Rattle.sd_c.specs.Views.{Asks, IsAnswered, IsFormAt, IsFormIn, IsNoFormAt, IsNotAsked, IsNotFound};
ghost use Rattle.sd_c.specs.Views.{TellsBytes, TellsLength, length_in, not_told, reply_given, unasked, view_answer};

use crate::call_answer::{
    CheckAnswer, HANDLE, Written, length_told, not_written, unwritten, verdict_given, write,
};
use crate::edits::path_of;
use crate::handle::{Handle, Kept};
use crate::not_done::{EditArgument, NotDone, not_done};
use sd_check::Token;
use sd_path::Path;
use sd_sid::Mask;
use sd_tree::{CheckReply, Tree};
use sd_wire::write_descriptor;
use std::alloc::Global;

/// The answer of a check by a view.
#[repr(C)]
#[derive(Clone, Copy, Debug, PartialEq, Eq)]
pub struct ViewAnswer {
    pub answer: CheckAnswer,
    /// The number of edits of the view's journal; 0 if a handle or the path is invalid, or out of memory.
    pub length: u64,
}

/// The verdict on a request for the node of a path ([MS-DTYP] 2.5.3.2) in the view's tree, and the number of that
/// tree's edits. Refused if a handle keeps another kind, if the path is invalid or has no node, or out of memory for
/// the path.
#[unsafe(no_mangle)]
pub extern "C" fn hudarin_view_check(
    alloc: Global,
    view: &mut Handle,
    path: &[u8],
    token: &mut Handle,
    asked: u32,
) -> ViewAnswer
    ensures answer { Asks view.old path.now token.old asked result }
    ensures view { Stays view.old view.new }
    ensures token { Stays token.old token.new }
{
    let Some(first) = view.take(alloc) else {
        return unasked(NotDone::ViewHandle);
    };
    let Some(second) = token.take(alloc) else {
        view.put(first);
        return unasked(NotDone::TokenHandle);
    };
    let answer = match asked_of(alloc, &first, path, &second, asked) {
        Ok(answer) => answer,
        Err(why) => unasked(why),
    };
    view.put(first);
    token.put(second);
    answer
}

fn unasked(why: NotDone) -> ViewAnswer
    ensures { result ≡ unasked why }
{
    ViewAnswer {
        answer: not_done(why),
        length: 0,
    }
}

fn asked_of(
    alloc: Global,
    first: &Kept,
    path: &[u8],
    second: &Kept,
    asked: u32,
) -> Result<ViewAnswer, NotDone>
    ensures ok { IfOk result (λ answer. IsAnswered first.now path.now second.now asked answer) }
    ensures err { IfErr result (λ why. IsNotAsked first.now path.now second.now why) }
{
    let Kept::View(tree) = first else {
        return Err(NotDone::ViewHandle);
    };
    let Kept::Token(token) = second else {
        return Err(NotDone::TokenHandle);
    };
    let path = path_of(alloc, EditArgument::Path, path)?;
    Ok(answer_in(tree.get(), &path, token, asked))
}

fn answer_in(tree: &Tree, path: &Path, token: &Token, asked: u32) -> ViewAnswer
    ensures { result ≡ view_answer (history_of tree.now) path.now token.now asked }
{
    ViewAnswer {
        answer: reply_given(tree.check(path, token, Mask(asked))),
        length: tree.len(),
    }
}

fn reply_given(reply: CheckReply) -> CheckAnswer
    ensures { result ≡ reply_given reply }
{
    match reply {
        CheckReply::Verdict(verdict) => verdict_given(verdict),
        CheckReply::NoNode => not_done(NotDone::NoNode),
    }
}

/// The number of edits in the journal of a store, unpublished ones included, or of a view.
#[unsafe(no_mangle)]
pub extern "C" fn hudarin_journal_length(alloc: Global, handle: &mut Handle) -> Written
    ensures length { TellsLength handle.old result }
    ensures stays { Stays handle.old handle.new }
{
    let Some(kept) = handle.take(alloc) else {
        return not_written(HANDLE, 0, 0);
    };
    let answer = length_in(&kept);
    handle.put(kept);
    answer
}

fn length_in(kept: &Kept) -> Written
    ensures { result ≡ length_in kept.now }
{
    match kept {
        Kept::Store(store) => length_told(store.draft().len()),
        Kept::View(tree) => length_told(tree.get().len()),
        _ => not_written(HANDLE, 0, 0),
    }
}

/// Writes the self-relative form ([MS-DTYP] 2.4.6) of the descriptor of a path's node in the view's tree into the
/// buffer. Refused as a check by the view is; then, and if the buffer is too small, nothing is written.
#[unsafe(no_mangle)]
pub extern "C" fn hudarin_view_descriptor(
    alloc: Global,
    view: &mut Handle,
    path: &[u8],
    room: &mut [u8],
) -> Written
    ensures answer { TellsBytes (IsFormAt view.old.seal.kept path.now) (IsNoFormAt view.old.seal.kept path.now)
        view.old room.old room.new result }
    ensures view { Stays view.old view.new }
{
    let Some(kept) = view.take(alloc) else {
        return not_told(NotDone::ViewHandle);
    };
    let answer = match form_at(alloc, &kept, path) {
        Ok(bytes) => write(&bytes, room),
        Err(why) => not_told(why),
    };
    view.put(kept);
    answer
}

fn form_at(alloc: Global, kept: &Kept, path: &[u8]) -> Result<Vec<u8>, NotDone>
    ensures ok { IfOk result (λ bytes. IsFormAt kept.now path.now bytes.items) }
    ensures err { IfErr result (λ why. IsNoFormAt kept.now path.now why) }
{
    let Kept::View(tree) = kept else {
        return Err(NotDone::ViewHandle);
    };
    let path = path_of(alloc, EditArgument::Path, path)?;
    let bytes = form_in(alloc, tree.get(), &path)?;
    Ok(bytes)
}

fn form_in(alloc: Global, tree: &Tree, path: &Path) -> Result<Vec<u8>, NotDone>
    ensures ok { IfOk result (λ bytes. IsFormIn (history_of tree.now) path.now bytes.items) }
    ensures err { IfErr result (λ why. IsNotFound
        (descriptor_at tree.now.opening.mapping (replay tree.now.opening tree.now.journal) path.now) why) }
{
    match tree.descriptor(path)? {
        Some(descriptor) => Ok(write_descriptor(alloc, &descriptor)?),
        None => Err(NotDone::NoNode),
    }
}

/// Why nothing is written.
pub(crate) fn not_told(why: NotDone) -> Written
    ensures { result ≡ not_told why }
{
    unwritten(not_done(why))
}
