//! A question about each node of a tree of object types.

use crate::tree::TypeTree;
use sd_client::Client;
use sd_sid::{GenericMapping, Mask, Sid};
use std::marker::Model;

/// A question about each node of a tree of object types ([MS-DTYP] 2.5.3.2): who asks, about which tree, and for which
/// rights. Contracts see the values.
#[derive(Drop)]
pub struct TreeQuestion<'a> {
    pub client: &'a Client,
    pub types: &'a TypeTree,
    /// The SID that PRINCIPAL SELF stands for: that of the object asked about, if it has one.
    pub principal_self: Option<Sid>,
    pub mapping: &'a GenericMapping,
    /// The rights asked for.
    pub asked: Mask,
}

impl<'a> Model for TreeQuestion<'a> {
    ghost use Rattle.sd_types.specs.Tree.{chains_in};
    ghost use Rattle.sd_types.specs.Verdicts.{TreeQuestionValue};

    ghost Value = { TreeQuestionValue };

    ghost view = { λ q. record {
      client = q.client.now;
      tree = chains_in q.types.now;
      principal_self = q.principal_self;
      mapping = q.mapping.now;
      asked = q.asked;
    } };
}
