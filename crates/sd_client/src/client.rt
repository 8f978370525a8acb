//! Who asks, and what each word adds.

ghost use Rattle.std.specs.Prelude.{◌≡◌, OnOk, IfOk};
ghost use Rattle.sd_client.specs.Level.{label_level};
ghost use Rattle.sd_client.specs.Word.{client_of, level_in, level_of, lower, nothing, with_client_word};

use crate::word::{ClientWord, Holder};
use sd_answer::{TokenParts, Word};
use sd_check::{GroupState, Token};
use sd_claim::Claim;
use sd_sid::Sid;
use std::alloc::{AllocError, Global};
use std::marker::Model;

/// The level of a client whose words say none, Medium ([MS-DTYP] 2.4.2.4, S-1-16-8192).
const MEDIUM: u32 = 8192;

/// Who asks ([MS-DTYP] 2.5.2): a token, the groups of the device that is asked from, claims, and an integrity level.
#[derive(Drop)]
pub struct Client {
    pub token: Token,
    pub device_groups: Vec<(Sid, GroupState)>,
    /// The claims that a condition asks for by a plain name.
    pub local: Vec<Claim>,
    /// Those for `@User.`
    pub user: Vec<Claim>,
    /// Those for `@Device.`
    pub device: Vec<Claim>,
    /// The integrity level, LEVEL of S-1-16-LEVEL ([MS-DTYP] 2.4.2.4).
    pub level: u32,
}

impl Model for Client {
    ghost use Rattle.sd_client.specs.Client.{ClientValue};

    ghost Value = { ClientValue };

    ghost view = { λ c. record {
      token = c.token;
      device_groups = c.device_groups.items;
      local = c.local.items;
      user = c.user.items;
      device = c.device.items;
      level = c.level;
    } };
}

/// A client in the making, with what the words so far say. Contracts see the client.
#[derive(Drop)]
struct ClientParts {
    token: TokenParts,
    device_groups: Vec<(Sid, GroupState)>,
    local: Vec<Claim>,
    user: Vec<Claim>,
    device: Vec<Claim>,
    level: u32,
}

impl Model for ClientParts {
    ghost use Rattle.sd_answer.specs.Word.{parts_token};
    ghost use Rattle.sd_client.specs.Client.{ClientValue};

    ghost Value = { ClientValue };

    ghost view = { λ p. record {
      token = parts_token p.token;
      device_groups = p.device_groups.items;
      local = p.local.items;
      user = p.user.items;
      device = p.device.items;
      level = p.level;
    } };
}

impl ClientParts {
    /// The client of a level, without groups and claims.
    fn new(alloc: Global, user: Sid, level: u32) -> ClientParts
        ensures { result ≡ nothing user level }
    {
        ClientParts {
            token: TokenParts::new(alloc, user),
            device_groups: Vec::new(alloc),
            local: Vec::new(alloc),
            user: Vec::new(alloc),
            device: Vec::new(alloc),
            level,
        }
    }

    /// Adds what a word says, but for a level.
    fn add(&mut self, word: ClientWord) -> Result<(), AllocError>
        ensures { OnOk result (self.new ≡ with_client_word self.old word) }
    {
        match word {
            ClientWord::Token(word) => self.token.add(word)?,
            ClientWord::DeviceGroup(sid) => self.device_groups.push((sid, GroupState::Enabled))?,
            ClientWord::Level(_) => {}
            ClientWord::Claim { holder, claim } => match holder {
                Holder::Local => self.local.push(claim)?,
                Holder::User => self.user.push(claim)?,
                Holder::Device => self.device.push(claim)?,
            },
        }
        Ok(())
    }

    /// The client. Takes no memory.
    fn into_client(self) -> Client
        ensures { result ≡ self }
    {
        Client {
            token: self.token.into_token(),
            device_groups: self.device_groups,
            local: self.local,
            user: self.user,
            device: self.device,
            level: self.level,
        }
    }
}

/// The client of a user and words ([MS-DTYP] 2.5.2). The only error is out of memory.
pub(crate) fn client_of(
    alloc: Global,
    user: Sid,
    words: Vec<ClientWord>,
) -> Result<Client, AllocError>
    ensures { IfOk result (λ client. client ≡ client_of user words.items) }
{
    let mut parts = ClientParts::new(alloc, user, level_of(&words));
    for word in words {
        parts.add(word)?;
    }
    Ok(parts.into_client())
}

/// The lowest level that the words say, or Medium where they say none.
fn level_of(words: &[ClientWord]) -> u32
    ensures { result ≡ level_of words.now }
{
    let mut lowest = None;
    for word in words {
        lowest = lower(lowest, level_in(word));
    }
    lowest.unwrap_or(MEDIUM)
}

/// The lower of two levels, where there are two.
fn lower(one: Option<u32>, other: Option<u32>) -> Option<u32>
    ensures { result ≡ lower one other }
{
    match (one, other) {
        (Some(one), Some(other)) => Some(one.min(other)),
        (Some(one), None) => Some(one),
        (None, other) => other,
    }
}

/// The level that a word says, if it says one.
fn level_in(word: &ClientWord) -> Option<u32>
    ensures { result ≡ level_in word.now }
{
    match word {
        ClientWord::Token(Word::Group { sid, .. }) => label_level(sid),
        ClientWord::Level(level) => Some(*level),
        _ => None,
    }
}

/// The level of an integrity SID, S-1-16-LEVEL ([MS-DTYP] 2.4.2.4).
fn label_level(sid: &Sid) -> Option<u32>
    ensures { result ≡ label_level sid.now }
{
    if sid.authority() != 16 {
        return None;
    }
    match sid.subs() {
        [level] => Some(*level),
        _ => None,
    }
}
