// Searches for one byte: where a line or a statement ends in a text.
ghost use Rattle.std.specs.Prelude.{◌≤◌, length};
ghost use Rattle.reader.specs.Search.{FirstOrEnd, LineEnd};

use words::search;

// The place of the first byte b from at on, or the length.
pub fn find_byte(s: &[u8], at: usize, b: u8) -> usize
    requires { at ≤ length s.now }
    ensures { FirstOrEnd b s.now at result }
{
    search::find_from(s, at, b).unwrap_or(s.len())
}

// The place of the byte 10 that ends the line at at, or the length.
pub fn line_end(text: &[u8], at: usize) -> usize
    requires { at ≤ length text.now }
    ensures { LineEnd text.now at result }
{
    find_byte(text, at, b'\n')
}
