//! A question about an object.

use sd_client::Client;
use sd_sid::{GenericMapping, Mask, Sid};
use sd_whole::Guid;
use std::marker::Model;

/// A question about an object with a whole descriptor ([MS-DTYP] 2.5.3.2): who asks, about what, and for which rights.
/// Contracts see the values.
#[derive(Drop)]
pub struct Question<'a> {
    pub client: &'a Client,
    /// The object types asked about, from the class to the property set and the property, or an extended right. Empty:
    /// the question is about the whole object.
    pub chain: &'a [Guid],
    /// The SID that PRINCIPAL SELF stands for: that of the object asked about, if it has one.
    pub principal_self: Option<Sid>,
    pub mapping: &'a GenericMapping,
    /// The rights asked for.
    pub asked: Mask,
}

impl<'a> Model for Question<'a> {
    ghost use Rattle.sd_access.specs.Question.{QuestionValue};

    ghost Value = { QuestionValue };

    ghost view = { λ q. record {
      client = q.client.now;
      chain = q.chain.now;
      principal_self = q.principal_self;
      mapping = q.mapping.now;
      asked = q.asked;
    } };
}
