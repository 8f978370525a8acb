//! What a handle keeps.

use sd_accounts::Accounts;
use sd_acl::Descriptor;
use sd_check::Token;
use sd_client::Client;
use sd_line::Line;
use sd_tree::{Shared, Tree};
use sd_versions::Versions;
use std::sync::Arc;

/// What was parsed once and is used often, by each handle that shares it; or a store, or the lines of an answer, which
/// have one handle.
#[derive(Drop)]
pub enum Kept {
    Descriptor(Arc<Descriptor>),
    Token(Arc<Token>),
    Client(Arc<Client>),
    Store(Box<Versions>),
    View(Shared<Tree>),
    Lines(Vec<Line>),
    Accounts(Arc<Accounts>),
}
