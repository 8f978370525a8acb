//! Names and paths as texts.

ghost use Rattle.std.specs.Prelude.{Some};
ghost use Rattle.std.specs.Fmt.{WritesOnOk};
ghost use Rattle.sd_path.specs.PathText.{slashed, text_of};

use crate::lent::PathRef;
use crate::name::Name;
use crate::path::Path;
use std::{fmt, str};

/// Prints the name's text.
impl fmt::Display for Name<'_> {
    ghost output = { λ name. Some name };

    fn fmt<W: fmt::Write>(&self, f: &mut fmt::Formatter<W>) -> fmt::Result {
        f.write_str(self.as_str())
    }
}

/// Prints the text that parses as the path: `/` for the root, else each name after a `/`.
impl fmt::Display for Path {
    ghost output = { λ path. Some (text_of path) };

    fn fmt<W: fmt::Write>(&self, f: &mut fmt::Formatter<W>) -> fmt::Result {
        let path = self.as_path_ref();
        if path.is_root() {
            f.write_str("/")
        } else {
            write_names(&path, f)
        }
    }
}

/// Writes each name after a `/`.
fn write_names<W: fmt::Write>(path: &PathRef<'_>, f: &mut fmt::Formatter<W>) -> fmt::Result
    ensures { WritesOnOk W.Write.write_str_gives f.old result (slashed path.now) f.new }
{
    let Some(name) = path.last_name() else {
        return Ok(());
    };
    let Ok(name) = str::from_utf8(name) else {
        return Err(fmt::Error);
    };
    write_names(&path.parent(), f)?;
    f.write_str("/")?;
    f.write_str(name)
}
