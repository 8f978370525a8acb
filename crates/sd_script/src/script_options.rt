//! How a script is carried out.
ghost use Rattle.std.specs.Prelude.{◌≡◌, None, false};
ghost use Rattle.sd_text.specs.Alias.{in_domain};
ghost use Rattle.sd_script.specs.Printed.{style_in};
ghost use Rattle.sd_line.specs.declared.print.Output.TheVariants.{Text};
ghost use Rattle.sd_line.specs.declared.spelling.Spelling.TheVariants.{Number};

use crate::paths::PathSpelling;
use sd_line::{ObjectKind, Output, Spelling, Style};
use sd_sid::GenericMapping;
use sd_text::Aliases;
use sd_tree::Limits;

/// How a script is carried out, whatever its lines say.
#[derive(Clone, Copy, Debug)]
pub struct ScriptOptions {
    /// How the store that it opens maps generic rights ([MS-DTYP] 2.4.3).
    pub mapping: GenericMapping,
    /// The most nodes and edits of the store that it opens.
    pub limits: Limits,
    /// How its lines are written.
    pub notation: Notation,
}

/// How the lines of a script are written, and its answers printed.
#[derive(Clone, Copy, Debug)]
pub struct Notation {
    /// How paths are spelled, also in what is printed.
    pub paths: PathSpelling,
    /// How masks are spelled, also in what is printed ([MS-DTYP] 2.4.3).
    pub spelling: Spelling,
    /// The kind of object whose rights a request asks for.
    pub kind: Option<ObjectKind>,
    /// Which aliases of SIDs an SDDL, a user and a word may have ([MS-DTYP] 2.5.1.1, sid-token).
    pub aliases: Aliases,
    /// Whether an SDDL may have a SACL, which is left out, and entries of every type ([MS-DTYP] 2.5.1.1).
    pub whole: bool,
    /// What each line of an answer is printed as.
    pub output: Output,
}

impl Notation {
    /// Paths are spelled so, and masks as numbers, of no kind of object; no domain's alias and none of newer versions
    /// of Windows is known, a SACL is a fault, and answers are printed as they are.
    pub fn plain(paths: PathSpelling) -> Notation
        ensures { result ≡ record {
          paths = paths;
          spelling = Number;
          kind = None;
          aliases = in_domain None;
          whole = false;
          output = Text;
        } }
    {
        Notation {
            paths,
            spelling: Spelling::Number,
            kind: None,
            aliases: Aliases::in_domain(None),
            whole: false,
            output: Output::Text,
        }
    }

    /// How answers are printed.
    pub fn style(&self) -> Style
        ensures { result ≡ style_in self.now }
    {
        Style {
            spelling: self.spelling,
            output: self.output,
        }
    }
}

/// How lines are printed as texts, with masks in this spelling.
pub(crate) fn text_style(spelling: Spelling) -> Style
    ensures { result ≡ record { spelling = spelling; output = Text } }
{
    Style {
        spelling,
        output: Output::Text,
    }
}
