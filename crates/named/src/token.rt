// Tokens of published texts: signs and constants, each with the white space behind it.
ghost use Rattle.std.specs.Prelude.{◌≡◌, ◌≤◌, length};
ghost use Rattle.paper.specs.Grammar.{is_digit};
ghost use Rattle.paper.specs.Published.{is_space, spaces, symbol, constant};
ghost use Rattle.reader.specs.Places.{Got};
ghost use Rattle.reader.specs.Keywords.{WordIs};
ghost use Rattle.reader.specs.Numbers.{NumberIs};
ghost use Rattle.named.specs.Reads.{plain_digits, is_at};

use reader::number::{Number, digits_from};
use reader::stop::Stop;
use reader::term::stands_at;

// Whether a byte is white space.
fn is_space(b: u8) -> bool
    ensures { result ≡ is_space b }
{
    (b == b'\t') | (b == b'\n') | (b == b'\r') | (b == b' ')
}

// The place behind the white space at at.
pub fn skip_spaces(s: &[u8], at: usize) -> usize
    requires { at ≤ length s.now }
    ensures { Got spaces s.now at tt result }
{
    for i in at..s.len() {
        if !is_space(s[i]) {
            return i;
        }
    }
    s.len()
}

// The sign b at at.
pub fn symbol_at(s: &[u8], at: usize, b: u8) -> Result<usize, Stop>
    requires { at ≤ length s.now }
    ensures { WordIs (symbol b) s.now at result }
{
    if !stands_at(s, at, b) {
        return Err(Stop { at });
    }
    Ok(skip_spaces(s, at + 1))
}

// Whether a digit stands at at.
pub fn digit_at(s: &[u8], at: usize) -> bool
    ensures { result ≡ is_at is_digit s.now at }
{
    at < s.len() && s[at].is_ascii_digit()
}

// Digits at at as a number from low to high, without the white space behind them.
fn digits_at(s: &[u8], at: usize, low: u64, high: u64) -> Result<Number, Stop>
    requires { at ≤ length s.now }
    ensures { NumberIs plain_digits low high s.now at result }
{
    if !digit_at(s, at) {
        return Err(Stop { at });
    }
    let n = digits_from(s, at + 1, (s[at] - b'0') as u64);
    Ok(n.within(low, high))
}

// The constant at at, from low to high.
pub fn constant_at(s: &[u8], at: usize, low: u64, high: u64) -> Result<Number, Stop>
    requires { at ≤ length s.now }
    ensures { NumberIs constant low high s.now at result }
{
    let n = digits_at(s, at, low, high)?;
    Ok(Number {
        value: n.value,
        end: skip_spaces(s, n.end),
    })
}
