//! What a line asks for, and how a command's arguments are parsed.
ghost use Rattle.std.specs.Prelude.{◌≡◌, ◌∷◌, [], Some, Ok, IfOk};
ghost use Rattle.sd_script.specs.Command.{Parses, asks, asks_groups, asks_of, asks_taking, deletes};
ghost use Rattle.sd_script.specs.Command.{kind_named, posed, poses};
ghost use Rattle.sd_script.specs.declared.line_request.LineRequest.TheVariants.{Asking, Viewing};
ghost use Rattle.sd_edit.specs.declared.request.Request.TheVariants as requests;
ghost use Rattle.sd_answer.specs.Word.{texts};

use crate::argument::{Parser, number_in};
use crate::boxed::{BoxedRequest, BoxedToken};
use crate::command::{CommandWithArguments, ScriptCommand};
use crate::fault::LineStop;
use crate::importing::Given;
use crate::listing::NodeFilter;
use crate::question::NodeQuestion;
use crate::view::{Groups, ViewRequest};
use sd_check::Token;
use sd_sid::Mask;
use sd_tree::{Edit, NodeKind, Path, RootSpec};
use sd_versions::Request;
use std::alloc::{AllocError, Global};

/// What a line asks for.
#[derive(Debug, Drop)]
pub enum LineRequest {
    /// A store for so many readers, with this root, and whether that is all that its text says.
    Opening {
        readers: u64,
        root: RootSpec,
        is_all: bool,
    },
    /// Something of the store that is open. Of an edit by a descriptor, the node is given all that the text says.
    Asking(BoxedRequest),
    /// An edit by a descriptor of whose text something is left out.
    Trimming {
        edit: Edit,
    },
    /// Of the store that is open, what a reader asks about the node of a path.
    AskingNode {
        reader: u64,
        path: Path,
        question: NodeQuestion,
    },
    /// A view of the published tree.
    Viewing(ViewRequest),
    /// A node, and how it compares with what its text gives.
    Importing {
        edit: Edit,
        path: Path,
        given: Given,
    },
    /// A node that is moved, and how its entries compare with those that it had before.
    Moving {
        edit: Edit,
        source: Path,
        target: Path,
    },
}

/// What is asked of a reader and a path for a token.
#[derive(Clone, Copy)]
enum TokenQuestion {
    Check,
    Why,
    Find,
}

/// What is asked of a path for groups.
#[derive(Clone, Copy)]
enum GroupsQuestion {
    Who,
    Only,
}

/// What a command's arguments ask for, or the first from the left that is rejected; none where the command doesn't take
/// as many.
pub(crate) type Parsed = Result<Option<LineRequest>, LineStop>;

impl Parser {
    /// What a command asks for.
    pub(crate) fn asked(self, command: CommandWithArguments<'_>) -> Parsed
        ensures { Parses self.notation (asks command.entry.name (texts command.entry.arguments.now)) result }
    {
        match command.name {
            ScriptCommand::Who => self.who(command.arguments),
            ScriptCommand::ExpectOnly => self.only(command.arguments),
            ScriptCommand::Delete => self.deletion(command.arguments),
            _ => self.taking(command.name, command.arguments),
        }
    }

    fn who(self, arguments: &[&str]) -> Parsed
        ensures { Parses self.notation (asks ScriptCommand.Who (texts arguments.now)) result }
    {
        match arguments {
            [path, mask, words @ ..] => self.granted(GroupsQuestion::Who, path, mask, words),
            _ => Ok(None),
        }
    }

    fn only(self, arguments: &[&str]) -> Parsed
        ensures { Parses self.notation (asks ScriptCommand.ExpectOnly (texts arguments.now)) result }
    {
        match arguments {
            [path, mask, words @ ..] => self.granted(GroupsQuestion::Only, path, mask, words),
            _ => Ok(None),
        }
    }

    fn deletion(self, arguments: &[&str]) -> Parsed
        ensures { Parses self.notation (asks ScriptCommand.Delete (texts arguments.now)) result }
    {
        match arguments {
            [reader, path, user, words @ ..] => self.deleting(reader, path, user, words),
            _ => Ok(None),
        }
    }

    /// Who is granted a mask on a path, of groups, or whether only these are.
    #[tactic(auto, unfolding(crate::specs::Command::asks_groups))]
    fn granted(self, question: GroupsQuestion, path: &str, mask: &str, words: &[&str]) -> Parsed
        ensures { Parses self.notation (Some (asks_groups question path.now mask.now (texts words.now))) result }
    {
        let path = self.path(path)?;
        let asked = self.mask(mask)?;
        let groups = self.base(words)?;
        view(question.about(path, groups, asked))
    }

    /// Whether a user may delete a node.
    #[tactic(auto, unfolding(crate::specs::Command::deletes))]
    fn deleting(self, reader: &str, path: &str, user: &str, words: &[&str]) -> Parsed
        ensures { Parses self.notation (Some (deletes reader.now path.now user.now (texts words.now))) result }
    {
        let reader = number_in(reader)?;
        let path = self.path(path)?;
        let user = self.sid(user)?;
        let token = BoxedToken::new(self.alloc, self.token(user, words)?)?;
        Ok(Some(LineRequest::AskingNode {
            reader,
            path,
            question: NodeQuestion::Delete { token },
        }))
    }

    /// What each other command asks for, by the number of its arguments.
    fn taking(self, name: ScriptCommand, arguments: &[&str]) -> Parsed
        ensures { Parses self.notation (asks_taking name (texts arguments.now)) result }
    {
        match arguments {
            [] => self.alone(name),
            [path] => self.on_one(name, path),
            [first, second] => self.on_two(name, first, second),
            [kind, path, sddl] => self.on_three(name, kind, path, sddl),
            [first, second, third, fourth, words @ ..] => {
                self.on_question(name, first, second, third, fourth, words)
            }
        }
    }

    /// What a command without arguments asks for.
    fn alone(self, name: ScriptCommand) -> Parsed
        ensures { Parses self.notation (asks_taking name []) result }
    {
        match name {
            ScriptCommand::Publish => Ok(Some(self.asking(Request::Publish)?)),
            ScriptCommand::Tell => Ok(Some(self.asking(Request::Tell)?)),
            ScriptCommand::Dump => view(ViewRequest::Dump),
            ScriptCommand::ListNodes => self.on_one(name, "/"),
            ScriptCommand::Review => self.on_one(name, "/"),
            _ => Ok(None),
        }
    }

    /// What a command with a path asks for.
    fn on_one(self, name: ScriptCommand, path: &str) -> Parsed
        ensures { Parses self.notation (asks_taking name (path.now ∷ [])) result }
    {
        match name {
            ScriptCommand::Remove => Ok(Some(self.edit(Edit::Remove {
                path: self.path(path)?,
            })?)),
            ScriptCommand::Protect => Ok(Some(self.edit(Edit::ProtectKeeping {
                path: self.path(path)?,
            })?)),
            ScriptCommand::ListNodes => view(ViewRequest::List {
                path: self.path(path)?,
            }),
            ScriptCommand::Review => view(ViewRequest::Review {
                path: self.path(path)?,
            }),
            _ => Ok(None),
        }
    }

    /// What a command with two arguments asks for.
    fn on_two(self, name: ScriptCommand, first: &str, second: &str) -> Parsed
        ensures { Parses self.notation (asks_taking name (first.now ∷ second.now ∷ [])) result }
    {
        match name {
            ScriptCommand::Open => self.opening(first, second),
            ScriptCommand::AddContainer => self.adding(NodeKind::Container, first, second),
            ScriptCommand::AddObject => self.adding(NodeKind::Object, first, second),
            ScriptCommand::SetOwner => Ok(Some(self.edit(Edit::SetOwner {
                path: self.path(first)?,
                owner: self.sid(second)?,
            })?)),
            ScriptCommand::SetGroup => Ok(Some(self.edit(Edit::SetGroup {
                path: self.path(first)?,
                group: self.sid(second)?,
            })?)),
            ScriptCommand::SetDacl => self.setting_dacl(first, second),
            ScriptCommand::Move => self.moving(first, second),
            ScriptCommand::Learn => Ok(Some(self.asking(Request::Learn {
                reader: number_in(first)?,
                length: number_in(second)?,
            })?)),
            ScriptCommand::Show => Ok(Some(self.asking(Request::Show {
                reader: number_in(first)?,
                path: self.path(second)?,
            })?)),
            _ => Ok(None),
        }
    }

    /// What a command with a kind, a path and a descriptor asks for.
    fn on_three(self, name: ScriptCommand, kind: &str, path: &str, sddl: &str) -> Parsed
        ensures { Parses self.notation (asks_taking name (kind.now ∷ path.now ∷ sddl.now ∷ [])) result }
    {
        match name {
            ScriptCommand::ImportNode => match kind_named(kind) {
                Some(kind) => self.importing(kind, path, sddl),
                None => Ok(None),
            },
            _ => Ok(None),
        }
    }

    /// What a command with four arguments and words asks for: a question with a reader, a path, a user, a mask and the
    /// words of a token, or without words a node with what it had inherited elsewhere.
    fn on_question(
        self,
        name: ScriptCommand,
        first: &str,
        second: &str,
        third: &str,
        fourth: &str,
        words: &[&str],
    ) -> Parsed
        ensures { Parses self.notation
            (asks_taking name (first.now ∷ second.now ∷ third.now ∷ fourth.now ∷ texts words.now)) result }
    {
        let question = match name {
            ScriptCommand::Check => TokenQuestion::Check,
            ScriptCommand::Why => TokenQuestion::Why,
            ScriptCommand::Find => TokenQuestion::Find,
            ScriptCommand::AddContainer => {
                return match words {
                    [] => self.keeping_lists(NodeKind::Container, first, second, third, fourth),
                    _ => Ok(None),
                };
            }
            ScriptCommand::AddObject => {
                return match words {
                    [] => self.keeping_lists(NodeKind::Object, first, second, third, fourth),
                    _ => Ok(None),
                };
            }
            _ => return Ok(None),
        };
        self.posed(question, first, second, third, fourth, words)
    }

    #[tactic(auto, unfolding(crate::specs::Command::posed))]
    fn posed(
        self,
        question: TokenQuestion,
        reader: &str,
        path: &str,
        user: &str,
        mask: &str,
        words: &[&str],
    ) -> Parsed
        ensures { Parses self.notation
            (Some (posed question reader.now path.now user.now mask.now (texts words.now))) result }
    {
        let reader = number_in(reader)?;
        let path = self.path(path)?;
        let user = self.sid(user)?;
        let asked = self.request(mask)?;
        let token = self.token(user, words)?;
        Ok(Some(question.about(self.alloc, reader, path, token, asked)?))
    }

    /// Something of the store that is open. The only error is out of memory.
    fn asking(self, request: Request) -> Result<LineRequest, AllocError>
        ensures { IfOk result (λ asks. asks ≡ Asking request) }
    {
        Ok(LineRequest::Asking(BoxedRequest::new(self.alloc, request)?))
    }

    /// An edit of the store that is open. The only error is out of memory.
    pub(crate) fn edit(self, edit: Edit) -> Result<LineRequest, AllocError>
        ensures { IfOk result (λ asks. asks ≡ Asking (requests.Edit edit)) }
    {
        self.asking(Request::Edit(edit))
    }
}

fn view(view: ViewRequest) -> Parsed
    ensures { result ≡ Ok (Some (Viewing view)) }
{
    Ok(Some(LineRequest::Viewing(view)))
}

/// The kind of node that the word names.
fn kind_named(word: &str) -> Option<NodeKind>
    ensures { result ≡ kind_named word.now }
{
    match word {
        "container" => Some(NodeKind::Container),
        "object" => Some(NodeKind::Object),
        _ => None,
    }
}

impl TokenQuestion {
    /// What is asked of a reader about the node of a path. The only error is out of memory.
    fn about(
        self,
        alloc: Global,
        reader: u64,
        path: Path,
        token: Token,
        asked: Mask,
    ) -> Result<LineRequest, AllocError>
        ensures { IfOk result (λ asks. asks ≡ poses self reader path token asked) }
    {
        let question = match self {
            TokenQuestion::Check => {
                let request = Request::Check {
                    reader,
                    path,
                    token,
                    asked,
                };
                return Ok(LineRequest::Asking(BoxedRequest::new(alloc, request)?));
            }
            TokenQuestion::Why => NodeQuestion::Why {
                token: BoxedToken::new(alloc, token)?,
                asked,
            },
            TokenQuestion::Find => NodeQuestion::Find(NodeFilter::Granting {
                token: BoxedToken::new(alloc, token)?,
                asked,
            }),
        };
        Ok(LineRequest::AskingNode {
            reader,
            path,
            question,
        })
    }
}

impl GroupsQuestion {
    fn about(self, path: Path, groups: Groups, asked: Mask) -> ViewRequest
        ensures { result ≡ asks_of self path groups asked }
    {
        match self {
            GroupsQuestion::Who => ViewRequest::Who {
                path,
                groups,
                asked,
            },
            GroupsQuestion::Only => ViewRequest::Only {
                path,
                groups,
                asked,
            },
        }
    }
}
