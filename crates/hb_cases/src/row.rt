//! The cases of a table.

ghost use Rattle.std.specs.Prelude.{◌↔◌, IsTrue};
ghost use Rattle.hb_cases.specs.Lines.{IsCase};

use crate::CaseFault;
use std::alloc::Global;
use std::fmt;

/// A case: a line of a table, as it stands there but for blanks around it. It prints as itself, so
/// that a case that fails can name itself.
#[derive(Clone, Copy, Debug, PartialEq, Eq)]
pub struct Row<'a> {
    pub text: &'a str,
}

impl fmt::Display for Row<'_> {
    fn fmt<W: fmt::Write>(&self, f: &mut fmt::Formatter<W>) -> fmt::Result {
        f.write_str(self.text)
    }
}

impl<'a> Row<'a> {
    /// The cell with this number, from 0 on, without blanks around it; the empty text where the line
    /// has no such cell.
    pub fn cell(&self, index: usize) -> &'a str {
        match self.text.split('|').nth(index) {
            Some(cell) => cell.trim(),
            None => "",
        }
    }
}

/// Whether the line is a case: neither empty nor a comment.
fn is_case(line: &[u8]) -> bool
    ensures { IsTrue result ↔ IsCase line.now }
{
    !matches!(line, [] | [b'#', ..])
}

/// The cases of a table, in its order: each line but empty ones and those that begin with `#`.
pub fn rows<'a>(alloc: Global, table: &'a str) -> Result<Vec<Row<'a>>, CaseFault<'a>> {
    let mut rows = Vec::new(alloc);
    for line in table.lines() {
        let text = line.trim();
        if is_case(text.as_bytes()) {
            rows.push(Row { text })?;
        }
    }
    Ok(rows)
}
