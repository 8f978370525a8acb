//! A question about the whole descriptor in bytes, from the arguments of a call.

ghost use Rattle.std.specs.Prelude.{◌≡◌, ◌<◌, length, IfOk, IsErrOf, OnErr};
ghost use Rattle.sd_whole.specs.Memory.{WholeTakesMemory};
ghost use Rattle.sd_whole.specs.Reading.{whole_read};
ghost use Rattle.sd_c.specs.Request.{Gives};
ghost use Rattle.sd_types.specs.Tree.{chains_in};
ghost use Rattle.sd_c.specs.WholeCheck.{of_whole, question_of, self_read, terms_read, types_of, types_read};
ghost use Rattle.sd_c.specs.WholeTypes.{tree_question_of};

use crate::mapping::Mapping;
use crate::request::mapping_of;
use crate::stop::{NotRead, Stop};
use sd_access::Question;
use sd_client::Client;
use sd_sid::{GenericMapping, Mask, Sid, read_sid};
use sd_types::{TreeQuestion, TypeTree};
use sd_whole::{GUID_BYTES, Guid, WholeDescriptor, read_whole};
use sd_wire::WireError;
use std::alloc::{AllocError, Global};
use std::marker::Model;

/// The most object types: in the list of a question they have the levels 0 to 4 ([MS-DTYP] 2.5.3.2, ObjectTypeList).
const MAX_TYPES: usize = 5;

/// The terms of a question: the SID that PRINCIPAL SELF stands for, and what the generic rights do. Contracts see the
/// values.
#[derive(Drop)]
pub(crate) struct Terms {
    principal_self: Option<Sid>,
    mapping: GenericMapping,
}

impl Model for Terms {
    ghost use Rattle.sd_c.specs.WholeCheck.{TermsValue};

    ghost Value = { TermsValue };

    ghost view = { λ t. record {
      principal_self = t.principal_self;
      mapping = t.mapping;
    } };
}

impl Terms {
    /// The terms of the arguments: the first invalid one is refused.
    pub(crate) fn read(principal_self: &[u8], mapping: Mapping) -> Result<Terms, NotRead>
        ensures { result ≡ terms_read principal_self.now mapping }
    {
        Ok(Terms {
            principal_self: self_of(principal_self)?,
            mapping: mapping_of(mapping)?,
        })
    }

    /// The question of a client who asks about these object types for these rights.
    pub(crate) fn question<'a>(
        &'a self,
        client: &'a Client,
        chain: &'a [Guid],
        asked: u32,
    ) -> Question<'a>
        ensures { result ≡ question_of client.entry.now chain.entry.now self.entry.now asked }
    {
        Question {
            client,
            chain,
            principal_self: self.principal_self,
            mapping: &self.mapping,
            asked: Mask(asked),
        }
    }

    /// The question of a client who asks about each node of the tree for these rights.
    pub(crate) fn tree_question<'a>(
        &'a self,
        client: &'a Client,
        types: &'a TypeTree,
        asked: u32,
    ) -> TreeQuestion<'a>
        ensures { result ≡ tree_question_of client.entry.now (chains_in types.entry.now) self.entry.now asked }
    {
        TreeQuestion {
            client,
            types,
            principal_self: self.principal_self,
            mapping: &self.mapping,
            asked: Mask(asked),
        }
    }
}

/// The whole descriptor that the bytes hold.
pub(crate) fn whole_of(alloc: Global, bytes: &[u8]) -> Result<WholeDescriptor, Stop>
    ensures read { Gives (λ w. w) result (of_whole (whole_read bytes.now)) }
    ensures memory { IsErrOf result Stop.Memory → WholeTakesMemory bytes.now }
{
    match read_whole(alloc, bytes) {
        Ok(descriptor) => Ok(descriptor),
        Err(WireError::Fault(fault)) => Err(Stop::NotRead(NotRead::Descriptor(fault))),
        Err(WireError::Memory) => Err(Stop::Memory),
    }
}

/// The object types that the bytes are.
pub(crate) fn types_in(alloc: Global, bytes: &[u8]) -> Result<Vec<Guid>, Stop>
    ensures read { Gives (λ types. types.items) result (types_read bytes.now) }
    ensures memory { IsErrOf result Stop.Memory → 0 < length bytes.now }
{
    let (parts, rest) = bytes.as_chunks::<GUID_BYTES>();
    if !rest.is_empty() || parts.len() > MAX_TYPES {
        return Err(Stop::NotRead(NotRead::Types));
    }
    Ok(types_of(alloc, parts)?)
}

/// Each part as an object type.
pub(crate) fn types_of(alloc: Global, parts: &[[u8; GUID_BYTES]]) -> Result<Vec<Guid>, AllocError>
    ensures types { IfOk result (λ types. types.items ≡ types_of parts.now) }
    ensures memory { OnErr result (0 < length parts.now) }
{
    let mut types = Vec::new(alloc);
    for part in parts {
        types.push(Guid { bytes: *part })?;
    }
    Ok(types)
}

/// The SID at the front of the bytes; none without bytes.
fn self_of(bytes: &[u8]) -> Result<Option<Sid>, NotRead>
    ensures { result ≡ self_read bytes.now }
{
    if bytes.is_empty() {
        return Ok(None);
    }
    match read_sid(bytes) {
        Ok((sid, _)) => Ok(Some(sid)),
        Err(fault) => Err(NotRead::PrincipalSelf(fault)),
    }
}
