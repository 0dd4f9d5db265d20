// An entry of the list of a mended trace: line, field. And a text as it is, for a line that is kept. (Public calls take the
// range and the index apart, as the theorems `TraceDefined` and `MendDefined` name them; a `Writer` has both.)
ghost use Rattle.std.specs.Prelude.{◌≡◌, ◌+◌, ◌≤◌, length};
ghost use Rattle.rows.specs.Digits.{Put};
ghost use Rattle.rows.specs.Entry.{entry_text};

use crate::digits::Writer;

// Writes an entry at an index, and answers the index after it.
pub fn put_entry(out: &mut [u8], at: usize, line: u64, field: u64) -> usize
    requires { at + 43 ≤ length out.old }
    ensures { Put out.old out.new at (entry_text line field) result }
{
    let mut w = Writer { out, at };
    w.decimal(line);
    w.byte(b',');
    w.decimal(field);
    w.byte(b'\r');
    w.byte(b'\n');
    w.at
}

// Writes a text at an index, and answers the index after it.
pub fn put_text(out: &mut [u8], at: usize, text: &[u8]) -> usize
    requires { at + length text.now ≤ length out.old }
    ensures { Put out.old out.new at text.now result }
{
    let end = at + text.len();
    out[at..end].copy_from_slice(text);
    end
}
