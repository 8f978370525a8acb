//! Conditions, as tokens and as an entry's application data.

ghost use Rattle.std.specs.Prelude.{◌≡◌, ◌+◌, ◌<◌, ◌≤◌, ◌++◌, not, ◌==◌, nat_le, length, replicate, slice_index};
ghost use Rattle.std.specs.Prelude.{true, Some, IfErr, IfOk, IsErr, IsErrOf, OnOk};
ghost use Rattle.sd_condition.specs.Memory.{TakesMemory};
ghost use Rattle.sd_data.specs.Outcome.{Fails, Gives};
ghost use Rattle.sd_condition.specs.Reading.{condition_of, condition_read, is_padding, padded_read};
ghost use Rattle.sd_condition.specs.Writing.{condition_data, is_condition};
ghost use Rattle.sd_data.specs.Writing.{padding_len};

use crate::stack::find_outcome;
use crate::token::{Token, push_tokens, read_token, tokens_len};
use sd_data::{Refusal, padding_len, push_padding, push_u32, read_u32};
use std::alloc::{AllocError, Global};
use std::marker::Model;

/// The most bytes of a condition's data: the size of an entry, which has a condition in it, has 16 bits
/// ([MS-DTYP] 2.4.4.1).
pub const MAX_CONDITION_BYTES: usize = 0xffff;

/// The first four bytes of a condition's data, `artx` ([MS-DTYP] 2.4.4.17.4).
const MAGIC: u32 = 0x7874_7261;

/// The length of `artx`.
const MAGIC_BYTES: usize = 4;

/// The condition of a callback entry ([MS-DTYP] 2.4.4.17): its tokens in postfix order. Each operator finds its
/// operands, and one condition is left. Contracts see the tokens.
#[derive(Debug, Drop)]
pub struct Condition {
    tokens: Vec<Token>,
}

impl Model for Condition {
    ghost use Rattle.std.specs.Prelude.{◌≡◌, true, List};
    ghost use Rattle.sd_condition.specs.declared.token.Token.{Token};
    ghost use Rattle.sd_condition.specs.Writing.{is_condition};

    ghost Value = { List Token };

    ghost view = { λ c. c.tokens.items };

    ghost invariant = { λ c. is_condition c.tokens.items ≡ true };
}

impl Condition {
    /// The condition of these tokens, in postfix order; `None` if they are none: an operator doesn't find its operands,
    /// more than one condition is left, or the data has more than 65,535 bytes ([MS-DTYP] 2.4.4.17.4). The allocations
    /// are for the stack of operands, which has no more of them than there are tokens.
    pub fn new(alloc: Global, tokens: Vec<Token>) -> Result<Option<Condition>, AllocError>
        ensures exact { IfOk result (λ condition. condition ≡ condition_of tokens.items) }
        ensures memory { IsErr result → 0 < length tokens.items }
    {
        match make_condition(alloc, tokens) {
            Ok(condition) => Ok(Some(condition)),
            Err(Refusal::Malformed) => Ok(None),
            Err(Refusal::Memory) => Err(AllocError),
        }
    }

    /// The application data ([MS-DTYP] 2.4.4.17.4), in one allocation of `data_len` bytes.
    #[tactic(auto, unfolding(crate::specs::Writing::condition_data), using(crate::proofs::Lengths::tokens_fit))]
    pub fn write(&self, alloc: Global) -> Result<Vec<u8>, AllocError>
        ensures { IfOk result (λ bytes. bytes.items ≡ condition_data self.now) }
    {
        let tokens = self.tokens();
        let mut bytes = Vec::with_capacity(alloc, self.data_len())?;
        push_u32(&mut bytes, MAGIC)?;
        push_tokens(&mut bytes, tokens)?;
        let len = bytes.len() - MAGIC_BYTES;
        push_padding(&mut bytes, padding_len(len))?;
        Ok(bytes)
    }

    /// The length in bytes of what `write` returns. Allocates nothing.
    #[tactic(auto, using(crate::proofs::Lengths::tokens_fit, crate::proofs::Lengths::length_of_data))]
    pub fn data_len(&self) -> usize
        ensures exact { result ≡ length (condition_data self.now) }
        ensures most { result ≤ 65535 }
    {
        // The data has at most 65,535 bytes, so the number of the tokens' is known.
        padded_len(tokens_len(self.tokens()).unwrap())
    }

    /// The tokens, in postfix order.
    pub fn tokens(&self) -> &[Token]
        ensures tokens { result.now ≡ self.now }
        ensures known { is_condition self.now ≡ true }
    {
        &self.tokens
    }
}

/// The condition of the tokens.
#[tactic(auto, unfolding(crate::specs::Writing::is_condition))]
fn make_condition(alloc: Global, tokens: Vec<Token>) -> Result<Condition, Refusal>
    ensures made { Gives result (condition_of tokens.items) }
    ensures memory { IsErrOf result Refusal.Memory → 0 < length tokens.items }
{
    let _operand = find_outcome(alloc, &tokens)?;
    if !fits_an_entry(&tokens) {
        return Err(Refusal::Malformed);
    }
    Ok(Condition { tokens })
}

/// Whether the data of the tokens has at most 65,535 bytes.
#[tactic(auto, using(crate::proofs::Lengths::length_of_data))]
fn fits_an_entry(tokens: &[Token]) -> bool
    ensures { result ≡ nat_le (length (condition_data tokens.now)) 65535 }
{
    match tokens_len(tokens) {
        Some(len) => len <= MAX_CONDITION_BYTES && padded_len(len) <= MAX_CONDITION_BYTES,
        None => false,
    }
}

/// How many bytes data has whose tokens take so many: with `artx`, and padded to a multiple of four.
fn padded_len(len: usize) -> usize
    requires { len ≤ 65535 }
    ensures { result ≡ 4 + len + padding_len len }
{
    MAGIC_BYTES + len + padding_len(len)
}

/// The condition of an entry's application data ([MS-DTYP] 2.4.4.17.4); `None` if the data isn't exactly one: `artx`,
/// the tokens, and fewer than four zero bytes up to a multiple of four. There are allocations once the data has begun
/// with `artx`, for the tokens and what they hold, whose lengths never pass the end of the data.
pub fn read_condition(alloc: Global, bytes: &[u8]) -> Result<Option<Condition>, AllocError>
    ensures exact { IfOk result (λ condition. condition ≡ condition_read bytes.now) }
    ensures memory { IsErr result → TakesMemory bytes.now }
{
    match parse_condition(alloc, bytes) {
        Ok(condition) => Ok(Some(condition)),
        Err(Refusal::Malformed) => Ok(None),
        Err(Refusal::Memory) => Err(AllocError),
    }
}

/// The condition of the data.
#[tactic(auto, unfolding(crate::specs::Reading::condition_read))]
fn parse_condition(alloc: Global, bytes: &[u8]) -> Result<Condition, Refusal>
    ensures read { Gives result (condition_read bytes.now) }
    ensures memory { IsErrOf result Refusal.Memory → TakesMemory bytes.now }
{
    if bytes.len() < MAGIC_BYTES || !bytes.len().is_multiple_of(4) {
        return Err(Refusal::Malformed);
    }
    if read_u32(bytes, 0) != MAGIC {
        return Err(Refusal::Malformed);
    }
    let tokens = read_tokens(alloc, &bytes[MAGIC_BYTES..])?;
    make_condition(alloc, tokens)
}

/// The tokens in the bytes, up to the padding.
fn read_tokens(alloc: Global, bytes: &[u8]) -> Result<Vec<Token>, Refusal>
    ensures ok { IfOk result (λ tokens. padded_read bytes.now ≡ Some tokens.items) }
    ensures err { IfErr result (λ e. Fails e (padded_read bytes.now)) }
{
    let mut tokens = Vec::new(alloc);
    let mut rest = bytes;
    'tokens: while begins_token(rest) {
        let (token, size) = read_token(alloc, rest)?;
        tokens.push(token)?;
        rest = &rest[size..];
    }
    if !is_padding(rest) {
        return Err(Refusal::Malformed);
    }
    Ok(tokens)
}

/// Whether a token is at the front of the bytes, which then don't begin with a zero.
fn begins_token(bytes: &[u8]) -> bool
    ensures { result ≡ not (slice_index bytes.now 0 == 0) }
{
    !bytes.is_empty() && bytes[0] != 0
}

/// Whether the bytes are padding: fewer than four zeros.
fn is_padding(bytes: &[u8]) -> bool
    ensures { result ≡ is_padding bytes.now }
{
    bytes.len() < 4 && bytes.iter().all(|byte| *byte == 0)
}
