// Keywords, and other bytes that are known.
ghost use Rattle.std.specs.Prelude.{◌≤◌, length};
ghost use Rattle.paper.specs.Grammar.{literal};
ghost use Rattle.reader.specs.Keywords.{WordIs};

use crate::stop::Stop;
use crate::term::stands_at;

// The end of the bytes w at at; it stops at the first byte that is another.
pub fn word_at(s: &[u8], at: usize, w: &[u8]) -> Result<usize, Stop>
    requires { at ≤ length s.now }
    ensures { WordIs (literal w.now) s.now at result }
{
    for (i, b) in w.iter().enumerate() {
        if !stands_at(s, at + i, *b) {
            return Err(Stop { at: at + i });
        }
    }
    Ok(at + w.len())
}

// The end of the keyword w at the beginning.
pub fn keyword(s: &[u8], w: &[u8]) -> Result<usize, Stop>
    ensures { WordIs (literal w.now) s.now 0 result }
{
    word_at(s, 0, w)
}
