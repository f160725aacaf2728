// Names read, each with its number.
ghost use Rattle.std.specs.Prelude.{◌≡◌, ◌-◌, ◌≤◌, length};
ghost use Rattle.words.specs.Parts.{part};
ghost use Rattle.paper.specs.Published.{is_letter, name_rest};
ghost use Rattle.reader.specs.Places.{Got};
ghost use Rattle.names.specs.Numbered.{StillLent};
ghost use Rattle.named.specs.Reads.{is_at, NameIs};

use super::token::skip_spaces;
use names::numbering::Numbering;
use reader::stop::Stop;

// A name's number and end; a bad name has no number.
#[derive(Drop)]
pub struct NameRead {
    pub number: Option<usize>,
    pub end: usize,
}

// Whether a letter stands at at.
pub fn letter_at(s: &[u8], at: usize) -> bool
    ensures { result ≡ is_at is_letter s.now at }
{
    at < s.len() && s[at].is_ascii_alphabetic()
}

// The end of the letters and digits at at.
fn name_end(s: &[u8], at: usize) -> usize
    requires { at ≤ length s.now }
    ensures { Got name_rest s.now at (part at (result - at) s.now) result }
{
    for i in at..s.len() {
        if !s[i].is_ascii_alphanumeric() {
            return i;
        }
    }
    s.len()
}

// The name at at.
pub fn read_name(names: &mut Numbering<'_>, s: &[u8], at: usize) -> Result<NameRead, Stop>
    requires { at ≤ length s.now }
    ensures read { NameIs names.old names.new s.now at result }
    ensures plain { names.new.plain ≡ names.old.plain }
    ensures lent { StillLent names.old names.new }
{
    if !letter_at(s, at) {
        return Err(Stop { at });
    }
    let e = name_end(s, at + 1);
    Ok(NameRead {
        number: names.number(&s[at..e]),
        end: skip_spaces(s, e),
    })
}
