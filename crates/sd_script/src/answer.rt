//! What a line of a script is answered by. The lines of a whole tree are made as they are printed, one node's after the
//! other's, so that they are never all kept.
ghost use Rattle.std.specs.Prelude.{◌≡◌, ◌++◌, ◌∷◌, [], IfOk, OnOk};
ghost use Rattle.sd_line.specs.Line.{line_with};
ghost use Rattle.sd_line.specs.Printed.{printed, tag_of};
ghost use Rattle.sd_script.specs.Answer.{made_lines};
ghost use Rattle.sd_script.specs.ScriptCounts.{tallied};

use crate::dump::Dump;
use crate::listing::Nodes;
use crate::script_counts::ScriptCounts;
use sd_line::{Line, Style, Tag, push_printed};
use std::alloc::{AllocError, Global};
use std::marker::Model;

/// Lines that are made of a tree as they are printed. A shared tree never changes, and neither do they. What they are
/// made of is in a box: most answers have none, and each is moved several times.
#[derive(Drop)]
pub(crate) enum Made {
    Nothing,
    /// The lines of nodes.
    Nodes(Box<Nodes>),
    /// The lines that make the tree.
    Dump(Box<Dump>),
}

impl Made {
    fn push_printed(
        &self,
        alloc: Global,
        style: Style,
        tag: Tag<'_>,
        out: &mut Vec<u8>,
    ) -> Result<(), AllocError>
        ensures { OnOk result (out.new.items ≡ out.old.items ++ printed style (tag_of tag.entry)
            (made_lines self.now)) }
    {
        match self {
            Made::Nothing => Ok(()),
            Made::Nodes(nodes) => nodes.push_printed(alloc, style, tag, out),
            Made::Dump(dump) => dump.push_printed(alloc, style, tag, out),
        }
    }
}

/// What a line is answered by. Contracts see its lines.
#[derive(Drop)]
pub(crate) struct Answer {
    /// Its first lines.
    lines: Vec<Line>,
    /// Those after them that are made as they are printed.
    made: Made,
    /// The empty line that ends an answer of several lines.
    ends: Vec<Line>,
}

impl Model for Answer {
    ghost use Rattle.std.specs.Prelude.{◌≡◌, ◌++◌, [], List};
    ghost use Rattle.std.specs.List.{All};
    ghost use Rattle.sd_line.specs.Line.{LineOf, line_with};
    ghost use Rattle.sd_script.specs.Answer.{made_lines};

    ghost Value = { List LineOf };

    ghost view = { λ a. a.lines.items ++ made_lines a.made ++ a.ends.items };

    ghost invariant = { λ a. All (λ l. l ≡ line_with [] []) a.ends.items };
}

impl Answer {
    /// An answer of lines that are there.
    pub(crate) fn of(alloc: Global, lines: Vec<Line>) -> Answer
        ensures { result ≡ lines.items }
    {
        Answer::made(alloc, lines, Made::Nothing)
    }

    /// An answer of one line. The only error is out of memory.
    pub(crate) fn alone(alloc: Global, line: Line) -> Result<Answer, AllocError>
        ensures { IfOk result (λ answer. answer ≡ line ∷ []) }
    {
        Ok(Answer::of(alloc, vec![in alloc; line]?))
    }

    /// An answer of lines that are there, and of lines that are made.
    pub(crate) fn made(alloc: Global, lines: Vec<Line>, made: Made) -> Answer
        ensures { result ≡ lines.items ++ made_lines made }
    {
        Answer {
            lines,
            made,
            ends: Vec::new(alloc),
        }
    }

    /// Adds the empty line that ends several. The only error is out of memory.
    pub(crate) fn end(&mut self, alloc: Global) -> Result<(), AllocError>
        ensures { OnOk result (self.new ≡ self.old ++ line_with [] [] ∷ []) }
    {
        self.ends.push(Line::of("", Vec::new(alloc)))?;
        Ok(())
    }

    /// Adds the lines as they are printed, each after a tag. The only error is out of memory.
    pub(crate) fn push_printed(
        &self,
        alloc: Global,
        style: Style,
        tag: Tag<'_>,
        out: &mut Vec<u8>,
    ) -> Result<(), AllocError>
        ensures { OnOk result (out.new.items ≡ out.old.items ++ printed style (tag_of tag.entry) self.now) }
    {
        push_printed(alloc, out, style, tag, &self.lines)?;
        self.made.push_printed(alloc, style, tag, out)?;
        push_printed(alloc, out, style, tag, &self.ends)
    }

    /// What is counted with the line that this answers. Of the lines that are made none is a fault, a refusal, `ok` or
    /// `opened`.
    pub(crate) fn counted(&self, counts: ScriptCounts, line: &[u8]) -> ScriptCounts
        ensures { result ≡ tallied line.now self.now counts }
    {
        counts.with(line, &self.lines)
    }
}
