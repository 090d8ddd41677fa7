// The lines that a tree of calls is told by: calls alone, without the word that a schedule has before each.
ghost use Rattle.std.specs.Prelude.{◌≡◌, ◌++◌, codes, IfOk};
ghost use Rattle.line_text.specs.Reading.{IsLineOf};

use crate::LineFault;
use crate::events::call_line;
use schedule_lines::{Header, Line};
use std::alloc::Global;

/// The call line that the bytes stand for, which are one without its first word.
pub fn parse_tree_line(alloc: Global, line: &[u8], h: &Header) -> Result<Line, LineFault>
    ensures found { IfOk result (IsLineOf h.now (codes "call " ++ line.now)) }
    ensures bad { result ≡ Err LineFault.Bad → (l : Line) → IsLineOf h.now (codes "call " ++ line.now) l → ⊥ }
{
    if !h.whole {
        return Err(LineFault::Bad);
    }
    match call_line(alloc, line, h.config.sites)? {
        Some(line) => Ok(line),
        None => Err(LineFault::Bad),
    }
}
