//! What a condition can ask about.

use sd_check::{GroupState, Token};
use sd_claim::Claim;
use sd_sid::Sid;
use std::marker::Model;

/// What a condition can ask about ([MS-DTYP] 2.5.3.1.5): who asks, the groups of the device that is asked from, and the
/// claims of each scope. Contracts see the values.
#[derive(Drop)]
pub struct Facts<'a> {
    pub token: &'a Token,
    pub device_groups: &'a [(Sid, GroupState)],
    /// The claims that a condition asks for by a plain name.
    pub local: &'a [Claim],
    /// Those for `@User.`
    pub user: &'a [Claim],
    /// Those for `@Device.`
    pub device: &'a [Claim],
    /// Those for `@Resource.`
    pub resource: &'a [Claim],
}

impl<'a> Model for Facts<'a> {
    ghost use Rattle.sd_evaluation.specs.Facts.{FactsValue};

    ghost Value = { FactsValue };

    ghost view = { λ f. record {
      token = f.token.now;
      device_groups = f.device_groups.now;
      local = f.local.now;
      user = f.user.now;
      device = f.device.now;
      resource = f.resource.now;
    } };
}
