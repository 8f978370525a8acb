//! Texts that name object types, with GUIDs in the place of names.

ghost use Rattle.std.specs.Prelude.{◌≡◌, ◌+◌, ◌<◌, ◌^◌, Ok, IfErr, IfNone, IfOk, IfSome, ◌∷◌, [], length, option_map};
ghost use Rattle.std.specs.Prelude.{string_bytes};
ghost use Rattle.sd_schema.specs.Kept.{rows_of};
ghost use Rattle.sd_schema.specs.Texts.{IsNodeError, IsTextError, between_commas, level_and_name, node_text};
ghost use Rattle.sd_schema.specs.Texts.{nodes_text, tree_text, type_text, with_node};
ghost use Rattle.sd_schema.specs.declared.texts.NodeError.TheVariants as node_error;
ghost use Rattle.sd_schema.specs.declared.texts.TypeTextError.TheVariants as text_error;

use crate::names::TypeNameFault;
use crate::schema::Schema;
use sd_whole_parse::read_guid_text;
use sd_whole_text::print_guid;
use std::alloc::{AllocError, Global};

/// Why a text that names an object type gives no GUID.
#[derive(Clone, Copy, Debug, PartialEq, Eq)]
pub enum TypeTextError {
    /// It names none, or two.
    Name(TypeNameFault),
    /// Out of memory.
    Memory,
}

impl From<AllocError> for TypeTextError {
    ghost from_gives = { λ _ e. e ≡ text_error.Memory };

    fn from(_error: AllocError) -> TypeTextError {
        TypeTextError::Memory
    }
}

/// Why a tree whose nodes name object types gives none of GUIDs.
#[derive(Clone, Copy, Debug, PartialEq, Eq)]
pub enum NodeError {
    /// The node at this place, counted from 0, names none, or two.
    Name { place: usize, fault: TypeNameFault },
    /// Out of memory.
    Memory,
}

impl From<AllocError> for NodeError {
    ghost from_gives = { λ _ e. e ≡ node_error.Memory };

    fn from(_error: AllocError) -> NodeError {
        NodeError::Memory
    }
}

impl Schema {
    /// The text with the GUID ([MS-DTYP] 2.3.4.3) in the place of the name that it is. A GUID stands as it is.
    pub fn type_text(&self, alloc: Global, text: &str) -> Result<String, TypeTextError>
        ensures text { IfOk result (λ own. type_text (rows_of self.now) text.now ≡ Ok (string_bytes own)) }
        ensures none { IfErr result (IsTextError (type_text (rows_of self.now) text.now)) }
    {
        if read_guid_text(text).is_some() {
            return Ok(String::from_str(alloc, text)?);
        }
        match self.guid_named(text) {
            Ok(guid) => Ok(print_guid(alloc, &guid)?),
            Err(fault) => Err(TypeTextError::Name(fault)),
        }
    }

    /// A tree of object types ([MS-DTYP] 2.5.3.2, ObjectTypeList), `LEVEL:TYPE` with commas between, with GUIDs in the
    /// place of names. What is no tree stands as it is.
    pub fn tree_text(&self, alloc: Global, text: &str) -> Result<String, NodeError>
        ensures text { IfOk result (λ own. tree_text (rows_of self.now) text.now ≡ Ok (string_bytes own)) }
        ensures none { IfErr result (IsNodeError (tree_text (rows_of self.now) text.now)) }
    {
        self.nodes_text(alloc, 0, String::new(alloc), text)
    }

    /// The nodes of a text after this one, which has so many.
    fn nodes_text(
        &self,
        alloc: Global,
        place: usize,
        begun: String,
        text: &str,
    ) -> Result<String, NodeError>
        requires { place + length text.now < 2 ^ 64 }
        ensures text { IfOk result (λ own.
            nodes_text (rows_of self.now) place (string_bytes begun) (between_commas text.entry.now)
            ≡ Ok (string_bytes own)) }
        ensures none { IfErr result (IsNodeError
            (nodes_text (rows_of self.now) place (string_bytes begun) (between_commas text.entry.now))) }
    {
        match first_node(text) {
            None => self.with_node(alloc, place, begun, text),
            Some((first, rest)) => match self.with_node(alloc, place, begun, first) {
                Ok(own) => self.nodes_text(alloc, place + 1, own, rest),
                Err(error) => Err(error),
            },
        }
    }

    /// The text, which has so many nodes, and one more.
    fn with_node(
        &self,
        alloc: Global,
        place: usize,
        begun: String,
        text: &str,
    ) -> Result<String, NodeError>
        ensures text { IfOk result (λ own.
            with_node (rows_of self.now) place (string_bytes begun) text.now ≡ Ok (string_bytes own)) }
        ensures none { IfErr result (IsNodeError (with_node (rows_of self.now) place (string_bytes begun) text.now)) }
    {
        let own = match self.node_text(alloc, text) {
            Ok(own) => own,
            Err(TypeTextError::Name(fault)) => return Err(NodeError::Name { place, fault }),
            Err(TypeTextError::Memory) => return Err(NodeError::Memory),
        };
        let mut begun = begun;
        if place > 0 {
            begun.push_str(",")?;
        }
        begun.push_str(own.as_str())?;
        Ok(begun)
    }

    /// A node, with a GUID in the place of a name.
    fn node_text(&self, alloc: Global, text: &str) -> Result<String, TypeTextError>
        ensures text { IfOk result (λ own. node_text (rows_of self.now) text.now ≡ Ok (string_bytes own)) }
        ensures none { IfErr result (IsTextError (node_text (rows_of self.now) text.now)) }
    {
        let Some((level, name)) = level_and_name(text) else {
            return Ok(String::from_str(alloc, text)?);
        };
        let own = self.type_text(alloc, name)?;
        let own = own.as_str();
        let node = format!(in alloc; "{level}:{own}")?;
        Ok(node)
    }
}

/// The text before the first colon, and that after it.
fn level_and_name(text: &str) -> Option<(&str, &str)>
    ensures { option_map (λ parts. (parts.0.now, parts.1.now)) result ≡ level_and_name text.now }
{
    text.split_once(':')
}

/// The text before the first comma, and that after it.
fn first_node(text: &str) -> Option<(&str, &str)>
    ensures cut { IfSome result (λ parts. between_commas text.now ≡ parts.0.now ∷ between_commas parts.1.now) }
    ensures less { IfSome result (λ parts. length parts.1.now < length text.now) }
    ensures whole { IfNone result (between_commas text.now ≡ text.now ∷ []) }
{
    text.split_once(',')
}
