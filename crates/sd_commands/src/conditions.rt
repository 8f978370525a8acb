//! Conditions in lines: in the place of a marker, which stands for them, whom they are asked of and what they ask.
ghost use Rattle.std.specs.Prelude.{◌≡◌, ◌<◌, ◌^◌, IfOk, IfSome, option_map, string_bytes};
ghost use Rattle.std.specs.List.{list_any};
ghost use Rattle.sd_commands.specs.Conditions.{condition_text, condition_word, ending, hides, shown_by, text_from};
ghost use Rattle.sd_commands.specs.Conditions.{texts_of};
ghost use Rattle.sd_commands.specs.WholeVerdict.{everyone_context};
ghost use Rattle.sd_specialize.specs.Entry.{trustee};
ghost use Rattle.sd_specialize.specs.Marked.{is_marker, lent_marks, unmarked_place};
ghost use Rattle.sd_whole_text.specs.Data.{condition_in};

use crate::settings::CommandContext;
use crate::sid_texts::{SidTexts, marked_sid, shown_lines};
use sd_check::GroupState;
use sd_line::{Line, SidMark};
use sd_show::condition_text;
use sd_sid::Sid;
use sd_specialize::{Conditions, Context, is_deny, is_marker, marker, unmarked_place};
use sd_whole::{TypedAce, WholeDescriptor};
use std::alloc::{AllocError, Global};

/// Conditions, each in the place of its marker.
#[derive(Clone, Copy)]
struct MarkTexts<'a> {
    context: CommandContext<'a>,
    marks: &'a [&'a TypedAce],
}

impl SidTexts for MarkTexts<'_> {
    ghost texts = { λ it. texts_of it.context.settings.now (lent_marks it.marks.now) };

    fn has_text(&self, sid: &Sid) -> bool {
        is_marker(sid)
    }

    fn text_for(
        &self,
        _alloc: Global,
        sid: &Sid,
        state: SidMark,
    ) -> Result<Option<String>, AllocError> {
        self.context.text_for(self.marks, sid, state)
    }
}

impl CommandContext<'_> {
    /// The lines, with these conditions in the place of their markers.
    pub(crate) fn shown_by(
        &self,
        marks: &[&TypedAce],
        lines: Vec<Line>,
    ) -> Result<Vec<Line>, AllocError>
        ensures { IfOk result
            (λ shown. shown.items ≡ shown_by self.now.settings.now (lent_marks marks.now) lines.items) }
    {
        if marks.is_empty() {
            return Ok(lines);
        }
        let texts = MarkTexts {
            context: *self,
            marks,
        };
        shown_lines(self.alloc, &texts, lines)
    }

    /// What stands in the place of the SID with its state, if it is one of their markers.
    fn text_for(
        &self,
        marks: &[&TypedAce],
        sid: &Sid,
        state: SidMark,
    ) -> Result<Option<String>, AllocError>
        ensures { IfOk result (λ text. option_map string_bytes text
            ≡ text_from self.now.settings.now 0 (lent_marks marks.now) sid.now state) }
    {
        for (i, mark) in marks.iter().enumerate() {
            if marker(i).is(sid) {
                return Ok(Some(self.condition_text(mark, state)?));
            }
        }
        Ok(None)
    }

    /// Whom the condition of an entry is asked of, in this state, and what it asks ([MS-DTYP] 2.5.3.1.5).
    fn condition_text(&self, ace: &TypedAce, state: SidMark) -> Result<String, AllocError>
        ensures { IfOk result (λ text. string_bytes text ≡ condition_text self.now.settings.now state ace.now) }
    {
        let mut text = marked_sid(self.alloc, &self.trustee(ace.sid), state)?;
        text.push_str(" if ")?;
        text.push_str(self.condition_word(ace.trailing.as_slice())?.as_str())?;
        text.push_str(ending(is_deny(ace.kind)))?;
        Ok(text)
    }

    fn condition_word(&self, bytes: &[u8]) -> Result<String, AllocError>
        ensures { IfOk result (λ word. string_bytes word ≡ condition_word (condition_in bytes.now) bytes.now) }
    {
        if let Some(text) = condition_text(self.alloc, bytes)? {
            return Ok(text);
        }
        let mut word = String::from_str(self.alloc, "an unknown condition ")?;
        word.push_str(hex::encode(self.alloc, bytes)?.as_str())?;
        Ok(word)
    }

    fn trustee(&self, sid: Sid) -> Sid
        ensures { result ≡ trustee (everyone_context self.now.settings.now) sid }
    {
        let context = Context {
            conditions: Conditions::Unknown,
            chain: self.settings.chain.types(),
            principal_self: self.settings.principal_self,
        };
        context.trustee(sid)
    }

    /// The place of the first condition of a descriptor that has no marker beside the other.
    pub(crate) fn unmarked_place(
        &self,
        other: &WholeDescriptor,
        descriptor: &WholeDescriptor,
    ) -> Option<usize>
        ensures place { result
            ≡ unmarked_place (everyone_context self.now.settings.now) other.now descriptor.now }
        ensures within { IfSome result (λ place. place < 2 ^ 63) }
    {
        let context = Context {
            conditions: Conditions::Unknown,
            chain: self.settings.chain.types(),
            principal_self: self.settings.principal_self,
        };
        unmarked_place(&context, other, descriptor)
    }
}

fn ending(denies: bool) -> &'static str
    ensures { result.now ≡ ending denies }
{
    if denies { " isn't false" } else { "" }
}

/// Whether a SID of the base is a marker, which no token has.
pub(crate) fn hides(marks: &[&TypedAce], base: &[(Sid, GroupState)]) -> bool
    ensures { result ≡ hides (lent_marks marks.now) base.now }
{
    if marks.is_empty() {
        return false;
    }
    any_is_marker(base)
}

fn any_is_marker(base: &[(Sid, GroupState)]) -> bool
    ensures { result ≡ list_any (λ group. is_marker group.0) base.now }
{
    base.iter().any(|group| is_marker(&group.0))
}
