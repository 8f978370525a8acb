//! SIDs as text: [MS-DTYP] 2.4.2.1.

ghost use Rattle.std.specs.Prelude.{◌≡◌, ◌<◌, ◌≤◌, ◌^◌, length, take, Ok, OnOk, IfOk, IfErr, IsErrOf};
ghost use Rattle.sd_sid.specs.Sid.{SidValue};
ghost use Rattle.sd_text.specs.Grammar.{Spells, and_then};
ghost use Rattle.sd_text.specs.Fault.{StandsIn};
ghost use Rattle.sd_text.specs.Sid.{sid_text, sid_text_in, sid, authority, sub, subs_of};
ghost use Rattle.sd_text.specs.Finding.{Gives, find};

use crate::alias::{Aliases, sid_from_parts};
use crate::cursor::Cursor;
use crate::fault::{TextError, TextFault};
use sd_sid::{AUTHORITY_LIMIT, MAX_SUBS, Sid};

/// A sub-authority is below this: it has 32 bits ([MS-DTYP] 2.4.2.2, SubAuthority).
const SUB_LIMIT: u64 = 0x1_0000_0000;

/// Parses a SID, in full or by its alias ([MS-DTYP] 2.4.2.1). Allocates nothing: an error is the text's first fault
/// from the left, with its offset in bytes.
pub fn read_sid_text(text: &str) -> Result<Sid, TextError>
    ensures value { IfOk result (λ sid. Spells sid_text text.now sid) }
    ensures fault { IfErr result (λ e. StandsIn sid_text text.now e) }
    ensures spelled { (sid : SidValue) → Spells sid_text text.now sid → result ≡ Ok sid }
    ensures no_memory { ¬ IsErrOf result TextError.Memory }
{
    read_sid_text_in(Aliases::in_domain(None), text)
}

/// Parses a SID, in full or by an alias that the text may have ([MS-DTYP] 2.4.2.1). Allocates nothing: an error is the
/// text's first fault from the left, with its offset in bytes.
pub fn read_sid_text_in(known: Aliases, text: &str) -> Result<Sid, TextError>
    ensures value { IfOk result (λ sid. Spells (sid_text_in known) text.now sid) }
    ensures fault { IfErr result (λ e. StandsIn (sid_text_in known) text.now e) }
    ensures spelled { (sid : SidValue) → Spells (sid_text_in known) text.now sid → result ≡ Ok sid }
    ensures no_memory { ¬ IsErrOf result TextError.Memory }
{
    let mut cursor = Cursor::new(text);
    match cursor.sid_text(known) {
        Ok(sid) => Ok(sid),
        Err(fault) => Err(TextError::Fault {
            fault,
            place: cursor.place(text),
        }),
    }
}

impl Cursor<'_> {
    fn sid_text(&mut self, known: Aliases) -> Result<Sid, TextFault>
        ensures { Gives (λ sid. sid) result self.new.rest.now (find (sid_text_in known) self.old.rest.now) }
    {
        let sid = self.sid(known)?;
        self.end()?;
        Ok(sid)
    }

    /// A SID, in full or by its alias.
    #[tactic(auto, unfolding(crate::specs::Sid::sid))]
    pub fn sid(&mut self, known: Aliases) -> Result<Sid, TextFault>
        ensures { Gives (λ sid. sid) result self.new.rest.now (find (sid known) self.old.rest.now) }
    {
        if !self.eat(b"S-1-") {
            return self.alias(known);
        }
        // (only for speed a cursor of its own: no other function gets it, so it stays in registers)
        let mut ahead = Cursor { rest: self.rest };
        let sid = ahead.behind_head();
        self.rest = ahead.rest;
        sid
    }

    /// The rest of a SID in full, after its head.
    #[inline(always)]
    fn behind_head(&mut self) -> Result<Sid, TextFault>
        ensures { Gives (λ sid. sid) result self.new.rest.now (find (and_then authority subs_of) self.old.rest.now) }
    {
        let authority = self.authority()?;
        self.subs_of(authority)
    }

    /// An authority: hexadecimal after `0x`, else decimal.
    #[tactic(auto, unfolding(crate::specs::Sid::authority))]
    #[inline(always)]
    fn authority(&mut self) -> Result<u64, TextFault>
        ensures authority { Gives (λ n. n) result self.new.rest.now (find authority self.old.rest.now) }
        ensures bound { IfOk result (λ n. n < 2 ^ 48) }
    {
        if self.begins(b"0X") {
            self.number(2, 16, AUTHORITY_LIMIT)
        } else {
            self.number(0, 10, AUTHORITY_LIMIT)
        }
    }

    /// The sub-authorities, each after a dash. Returns the SID.
    #[tactic(auto, unfolding(crate::specs::Sid::subs_of))]
    #[inline(always)]
    fn subs_of(&mut self, authority: u64) -> Result<Sid, TextFault>
        requires { authority < 2 ^ 48 }
        ensures { Gives (λ sid. sid) result self.new.rest.now (find (subs_of authority) self.old.rest.now) }
    {
        if !self.begins(b"-") {
            return Err(TextFault::Syntax);
        }
        let mut subs = [0; MAX_SUBS];
        let mut count = 0;
        'subs: while self.eat(b"-") {
            subs[count] = self.sub(count)?;
            count += 1;
        }
        Ok(sid_of_front(authority, &subs, count))
    }

    /// A sub-authority after so many others. After fifteen no digit may follow.
    #[tactic(auto, unfolding(crate::specs::Sid::sub))]
    #[inline(always)]
    fn sub(&mut self, before: usize) -> Result<u32, TextFault>
        ensures sub { Gives (λ n. n) result self.new.rest.now (find (sub before) self.old.rest.now) }
        ensures few { OnOk result (before < 15) }
    {
        if before < MAX_SUBS {
            Ok(self.number(0, 10, SUB_LIMIT)? as u32)
        } else if self.begins_digit(10) {
            Err(TextFault::Range)
        } else {
            Err(TextFault::Syntax)
        }
    }
}

/// The SID of an authority and the first so many sub-authorities. Only for speed five, as in accounts of a domain, have
/// a case of their own: a copy of a known length takes no call.
#[inline(always)]
fn sid_of_front(authority: u64, subs: &[u32; MAX_SUBS], count: usize) -> Sid
    requires authority { authority < 2 ^ 48 }
    requires some { 0 < count }
    requires few { count ≤ 15 }
    ensures { result ≡ record { authority = authority; subs = take count subs.now } }
{
    if count == 5 {
        return sid_from_parts(authority, &[subs[0], subs[1], subs[2], subs[3], subs[4]]);
    }
    sid_from_parts(authority, &subs[..count])
}
