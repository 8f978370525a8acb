//! What an audit asks.

use sd_check::Token;
use sd_sid::Mask;
use sd_tree::Path;

/// One question of an audit: does the token get what is asked for, at the node of the path ([MS-DTYP] 2.5.3.2)?
#[derive(Debug, Drop)]
pub struct Query {
    pub path: Path,
    pub token: Token,
    pub asked: Mask,
}
