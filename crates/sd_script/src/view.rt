//! What a script sees of the store at once, and no reader asks for.
ghost use Rattle.std.specs.Prelude.{◌≡◌, IfOk};
ghost use Rattle.sd_script.specs.View.{IsViewed};

use crate::answer::Answer;
use crate::dump::dump_answer;
use crate::listing::{NodeFilter, Nodes};
use crate::reply::plain_line;
use crate::review::review_lines;
use crate::script_options::Notation;
use crate::who::{node_who_lines, only_line};
use sd_answer::NO_NODE;
use sd_check::GroupState;
use sd_sid::{Mask, Sid};
use sd_tree::Path;
use sd_versions::Desk;
use std::alloc::{AllocError, Global};
use std::marker::Model;

/// Groups that all tokens of a question have ([MS-DTYP] 2.5.2). Contracts see them as the list.
#[derive(Debug, Drop)]
pub struct Groups {
    items: Vec<(Sid, GroupState)>,
}

impl Model for Groups {
    ghost use Rattle.std.specs.Prelude.{List};
    ghost use Rattle.sd_sid.specs.Sid.{SidValue};
    ghost use Rattle.sd_check.specs.declared.token.GroupState.{GroupState};

    ghost Value = { List (SidValue × GroupState) };

    ghost view = { λ g. g.items.items };
}

impl Groups {
    pub(crate) fn new(items: Vec<(Sid, GroupState)>) -> Groups
        ensures { result ≡ items.items }
    {
        Groups { items }
    }

    pub(crate) fn as_slice(&self) -> &[(Sid, GroupState)]
        ensures { result.now ≡ self.now }
    {
        &self.items
    }
}

/// A view of the published tree, or of what the pending edits change of it. It changes nothing, and raises no floor.
#[derive(Debug, Drop)]
pub enum ViewRequest {
    /// The nodes at and below a path.
    List {
        path: Path,
    },
    /// The tree, as lines of a script.
    Dump,
    /// Who is granted which of the rights by the node of a path, of the tokens that have these groups.
    Who {
        path: Path,
        groups: Groups,
        asked: Mask,
    },
    /// Whether the node of a path grants rights of the mask to nobody but tokens with one of these groups.
    Only {
        path: Path,
        groups: Groups,
        asked: Mask,
    },
    /// What the pending edits change of the nodes at and below a path, for all tokens.
    Review {
        path: Path,
    },
}

/// What a view is answered by. The only error is out of memory.
pub(crate) fn view_answer(
    alloc: Global,
    notation: Notation,
    desk: &Desk,
    view: ViewRequest,
) -> Result<Answer, AllocError>
    ensures { IfOk result (λ answer. IsViewed notation desk.now view answer) }
{
    match view {
        ViewRequest::List { path } => {
            let nodes = Nodes {
                tree: desk.snapshot()?,
                paths: notation.paths,
                top: path,
                which: NodeFilter::All,
            };
            nodes.answer(alloc, plain_line(alloc, NO_NODE)?, Vec::new(alloc))
        }
        ViewRequest::Dump => dump_answer(alloc, notation, desk.readers(), desk.snapshot()?),
        ViewRequest::Who {
            path,
            groups,
            asked,
        } => {
            let lines = node_who_lines(alloc, desk.published(), &path, &groups, asked)?;
            Ok(Answer::of(alloc, lines))
        }
        ViewRequest::Only {
            path,
            groups,
            asked,
        } => {
            let line = only_line(alloc, desk.published(), &path, &groups, asked)?;
            Answer::alone(alloc, line)
        }
        ViewRequest::Review { path } => {
            let lines = review_lines(alloc, notation.paths, desk, &path)?;
            Ok(Answer::of(alloc, lines))
        }
    }
}
