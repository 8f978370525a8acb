//! Entries as text: [MS-DTYP] 2.5.1.1, ace.

ghost use Rattle.std.specs.Prelude.{◌≡◌, ◌≤◌, ◌+◌, Ok, IfOk};
ghost use Rattle.sd_acl.specs.Ace.{ace_size};
ghost use Rattle.sd_text.specs.Entry.{has_one, entries, entry, kind, is_type, flag_names, guid, entry_end};
ghost use Rattle.sd_text.specs.Rights.{bits_of};
ghost use Rattle.sd_text.specs.Names.{rows};
ghost use Rattle.sd_text.specs.Finding.{Gives, GivesUnlessMemory, find};

use crate::alias::Aliases;
use crate::cursor::Cursor;
use crate::fault::TextFault;
use crate::places::FLAG_PLACES;
use bitflags::Flags;
use sd_acl::{ACL_HEADER_BYTES, Ace, AceFlags, AceKind, AceList, MAX_ACL_BYTES};
use std::alloc::Global;

/// The names of flags ([MS-DTYP] 2.4.4.1, AceFlags).
pub fn flag_names() -> &'static [(&'static str, u32)]
    ensures { rows result.now ≡ flag_names }
{
    &AceFlags::NAMED
}

impl Cursor<'_> {
    /// Any number of entries, or None if an allocation failed. Then the rest is parsed all the same: a fault takes
    /// precedence over out of memory.
    pub(crate) fn entries(
        &mut self,
        alloc: Global,
        known: Aliases,
    ) -> Result<Option<AceList>, TextFault>
        ensures { GivesUnlessMemory (λ entries. entries) has_one result self.new.rest.now
            (find (entries known) self.old.rest.now) }
    {
        let mut entries = Vec::new(alloc);
        let mut size = ACL_HEADER_BYTES;
        let mut stored = true;
        'entries: while self.eat(b"(") {
            let entry = self.entry(known, size)?;
            size += entry.size();
            stored &= entries.push(entry).is_ok();
        }
        if stored {
            Ok(Some(AceList::new(entries).unwrap()))
        } else {
            Ok(None)
        }
    }

    /// An entry after its `(`. The list before it has this size in bytes.
    #[tactic(auto, unfolding(crate::specs::Entry::entry))]
    fn entry(&mut self, known: Aliases, size: u64) -> Result<Ace, TextFault>
        requires { size ≤ 65535 }
        ensures entry { Gives (λ entry. entry) result self.new.rest.now (find (entry known size) self.old.rest.now) }
        ensures fits { IfOk result (λ entry. size + ace_size entry ≤ 65535) }
    {
        let kind = self.kind()?;
        self.word(b";")?;
        let flags = self.flags();
        self.word(b";")?;
        let mask = self.rights()?;
        self.word(b";")?;
        self.guid()?;
        self.guid()?;
        let sid = self.sid(known)?;
        self.entry_end(
            size,
            Ace {
                kind,
                flags,
                mask,
                sid,
            },
        )
    }

    /// The type of an entry: all letters here.
    #[tactic(auto, unfolding(crate::specs::Entry::kind))]
    fn kind(&mut self) -> Result<AceKind, TextFault>
        ensures { Gives (λ kind. kind) result self.new.rest.now (find kind self.old.rest.now) }
    {
        if self.is_type(b"A") {
            self.word(b"A")?;
            Ok(AceKind::Allow)
        } else if self.is_type(b"D") {
            self.word(b"D")?;
            Ok(AceKind::Deny)
        } else if self.letter_at(0) {
            Err(TextFault::EntryKind)
        } else {
            Err(TextFault::Syntax)
        }
    }

    /// Whether this letter is here, and no other follows it.
    fn is_type(&self, letter: &[u8]) -> bool
        ensures { result ≡ is_type letter.now self.now.rest.now }
    {
        self.begins(letter) && !self.letter_at(1)
    }

    /// A run of flags, perhaps empty.
    pub(crate) fn flags(&mut self) -> AceFlags
        ensures { find (bits_of flag_names) self.old.rest.now ≡ Ok (result.0, self.new.rest.now) }
    {
        AceFlags::from_bits_retain(self.bits_of(flag_names(), &FLAG_PLACES) as u8)
    }

    /// An empty field of a GUID.
    #[tactic(auto, unfolding(crate::specs::Entry::guid))]
    pub(crate) fn guid(&mut self) -> Result<(), TextFault>
        ensures { Gives (λ _. tt) result self.new.rest.now (find guid self.old.rest.now) }
    {
        if self.eat(b";") {
            Ok(())
        } else if self.rest.is_empty() {
            Err(TextFault::Syntax)
        } else {
            Err(TextFault::ObjectGuid)
        }
    }

    /// The end of an entry, if the list doesn't grow too large with it.
    #[tactic(auto, unfolding(crate::specs::Entry::entry_end))]
    fn entry_end(&mut self, size: u64, entry: Ace) -> Result<Ace, TextFault>
        requires { size ≤ 65535 }
        ensures entry { Gives (λ entry. entry) result self.new.rest.now
            (find (entry_end size entry) self.old.rest.now) }
        ensures fits { IfOk result (λ entry. size + ace_size entry ≤ 65535) }
    {
        if size + entry.size() > MAX_ACL_BYTES && self.begins(b")") {
            return Err(TextFault::AclTooLarge);
        }
        self.word(b")")?;
        Ok(entry)
    }
}
