//! Security descriptors as text: [MS-DTYP] 2.5.1.1.

ghost use Rattle.std.specs.Prelude.{◌≡◌, Ok, IfOk, IfErr, IfSome, IsErrOf};
ghost use Rattle.sd_acl.specs.Dacl.{IsAbsent};
ghost use Rattle.sd_acl.specs.Descriptor.{DescriptorValue, descriptor_of};
ghost use Rattle.sd_sid.specs.Sid.{IsSid};
ghost use Rattle.sd_text.specs.Grammar.{Spells, SpellsOne};
ghost use Rattle.sd_text.specs.Fault.{StandsIn};
ghost use Rattle.sd_text.specs.Sddl.{sid_section, words, no_words, with_word, dacl_section, has_entry, no_sacl, parts};
ghost use Rattle.sd_text.specs.Sddl.{sections, sddl, sddl_in};
ghost use Rattle.sd_text.specs.Finding.{Gives, GivesUnlessMemory, find};

use crate::alias::Aliases;
use crate::cursor::Cursor;
use crate::fault::{TextError, TextFault};
use sd_acl::{Dacl, Descriptor};
use sd_sid::Sid;
use std::alloc::Global;

/// A keyword of a DACL's section.
#[derive(Clone, Copy)]
pub(crate) enum DaclWord {
    Protected,
    AutoReq,
    AutoInherited,
    NoAccessControl,
}

/// The keywords of a DACL's section.
#[derive(Clone, Copy)]
pub struct DaclWords {
    pub protected: bool,
    pub auto_req: bool,
    pub auto_inherited: bool,
    pub no_access_control: bool,
}

/// The section of a DACL, or its absence.
#[derive(Drop)]
pub(crate) struct DaclPart {
    pub(crate) dacl: Dacl,
    pub(crate) words: DaclWords,
}

static WORDS: [(&str, DaclWord); 4] = [
    ("P", DaclWord::Protected),
    ("AR", DaclWord::AutoReq),
    ("AI", DaclWord::AutoInherited),
    ("NO_ACCESS_CONTROL", DaclWord::NoAccessControl),
];

/// Parses the text of a descriptor ([MS-DTYP] 2.5.1): the whole text, letters of either case. Returns the first fault
/// from the left, with its offset in bytes. `Memory` comes only for a valid text, and only if its DACL has an entry.
pub fn read_sddl(alloc: Global, text: &str) -> Result<Descriptor, TextError>
    ensures value { IfOk result (λ d. Spells sddl text.now (descriptor_of d)) }
    ensures fault { IfErr result (λ e. StandsIn sddl text.now e) }
    ensures spelled { (d : DescriptorValue) → Spells sddl text.now d → IfErr result (λ e. e ≡ TextError.Memory) }
    ensures memory { IsErrOf result TextError.Memory → SpellsOne (λ d. has_entry d.dacl) sddl text.now }
{
    read_sddl_in(alloc, Aliases::in_domain(None), text)
}

/// Parses the text of a descriptor with the aliases that it may have ([MS-DTYP] 2.5.1): the whole text, letters of
/// either case. Returns the first fault from the left, with its offset in bytes. `Memory` comes only for a valid text,
/// and only if its DACL has an entry.
pub fn read_sddl_in(alloc: Global, known: Aliases, text: &str) -> Result<Descriptor, TextError>
    ensures value { IfOk result (λ d. Spells (sddl_in known) text.now (descriptor_of d)) }
    ensures fault { IfErr result (λ e. StandsIn (sddl_in known) text.now e) }
    ensures spelled { (d : DescriptorValue) → Spells (sddl_in known) text.now d
        → IfErr result (λ e. e ≡ TextError.Memory) }
    ensures memory { IsErrOf result TextError.Memory → SpellsOne (λ d. has_entry d.dacl) (sddl_in known) text.now }
{
    let mut cursor = Cursor::new(text);
    match cursor.descriptor(alloc, known) {
        Ok(descriptor) => descriptor.ok_or(TextError::Memory),
        Err(fault) => Err(TextError::Fault {
            fault,
            place: cursor.place(text),
        }),
    }
}

impl DaclWords {
    /// No keyword.
    pub fn none() -> DaclWords
        ensures { result ≡ no_words }
    {
        DaclWords {
            protected: false,
            auto_req: false,
            auto_inherited: false,
            no_access_control: false,
        }
    }

    fn with(self, word: DaclWord) -> DaclWords
        ensures { result ≡ with_word self word }
    {
        let mut words = self;
        match word {
            DaclWord::Protected => words.protected = true,
            DaclWord::AutoReq => words.auto_req = true,
            DaclWord::AutoInherited => words.auto_inherited = true,
            DaclWord::NoAccessControl => words.no_access_control = true,
        }
        words
    }
}

impl Cursor<'_> {
    /// The whole text, or None if an allocation failed. Each section may be left out.
    #[tactic(auto, unfolding(crate::specs::Sddl::sections))]
    fn descriptor(&mut self, alloc: Global, known: Aliases) -> Result<Option<Descriptor>, TextFault>
        ensures { GivesUnlessMemory descriptor_of (λ d. has_entry d.dacl) result self.new.rest.now
            (find (sddl_in known) self.old.rest.now) }
    {
        let descriptor = self.parts(alloc, known)?;
        self.no_sacl()?;
        self.end()?;
        Ok(descriptor)
    }

    /// The sections of the owner, the group and the DACL.
    #[tactic(auto, unfolding(crate::specs::Sddl::parts))]
    pub(crate) fn parts(
        &mut self,
        alloc: Global,
        known: Aliases,
    ) -> Result<Option<Descriptor>, TextFault>
        ensures { GivesUnlessMemory descriptor_of (λ d. has_entry d.dacl) result self.new.rest.now
            (find (parts known) self.old.rest.now) }
    {
        let owner = self.sid_section(known, b"O:")?;
        let group = self.sid_section(known, b"G:")?;
        let Some(DaclPart { dacl, words }) = self.dacl_section(alloc, known)? else {
            return Ok(None);
        };
        Ok(Some(Descriptor {
            owner,
            group,
            dacl,
            protected: words.protected,
            auto_req: words.auto_req,
            auto_inherited: words.auto_inherited,
        }))
    }

    /// A section of one SID, if its head is here.
    #[tactic(auto, unfolding(crate::specs::Sddl::sid_section))]
    #[inline(always)]
    pub fn sid_section(&mut self, known: Aliases, head: &[u8]) -> Result<Option<Sid>, TextFault>
        ensures found { Gives (λ sid. sid) result self.new.rest.now
            (find (sid_section known head.now) self.old.rest.now) }
        ensures whole { IfOk result (λ sid. IfSome sid IsSid) }
    {
        if self.eat(head) {
            let sid = self.sid(known)?;
            Ok(Some(sid))
        } else {
            Ok(None)
        }
    }

    /// The section of the DACL, if its head is here, or None if an allocation failed.
    #[tactic(auto, unfolding(crate::specs::Sddl::dacl_section, crate::specs::Sddl::dacl_behind))]
    fn dacl_section(&mut self, alloc: Global, known: Aliases) -> Result<Option<DaclPart>, TextFault>
        ensures section { GivesUnlessMemory (λ part. part) (λ part. has_entry part.dacl) result self.new.rest.now
            (find (dacl_section known) self.old.rest.now) }
        ensures absent { IfOk result (λ found. IfSome found (λ part. IsAbsent part.dacl → part.words ≡ no_words)) }
    {
        if !self.eat(b"D:") {
            return Ok(Some(DaclPart {
                dacl: Dacl::Absent,
                words: DaclWords::none(),
            }));
        }
        let words = self.words();
        if words.no_access_control {
            return Ok(Some(DaclPart {
                dacl: Dacl::Null,
                words,
            }));
        }
        let Some(entries) = self.entries(alloc, known)? else {
            return Ok(None);
        };
        Ok(Some(DaclPart {
            dacl: Dacl::List(entries),
            words,
        }))
    }

    /// A run of keywords, perhaps empty.
    pub fn words(&mut self) -> DaclWords
        ensures { find words self.old.rest.now ≡ Ok (result, self.new.rest.now) }
    {
        let mut words = DaclWords::none();
        'words: loop {
            match self.name(&WORDS) {
                Some(word) => words = words.with(word),
                None => return words,
            }
        }
    }

    /// No section of a SACL is here.
    #[tactic(auto, unfolding(crate::specs::Sddl::no_sacl))]
    fn no_sacl(&self) -> Result<(), TextFault>
        ensures { Gives (λ _. tt) result self.now.rest.now (find no_sacl self.now.rest.now) }
    {
        if self.begins(b"S:") {
            Err(TextFault::HasSacl)
        } else {
            Ok(())
        }
    }
}
