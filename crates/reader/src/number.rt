// Decimals, and numbers in a range.
ghost use Rattle.std.specs.Char.{is_ascii_digit};
ghost use Rattle.std.specs.Prelude.{◌≡◌, ◌*◌, ◌+◌, ◌^◌, ◌≤◌, ◌<◌, SomeIff, length, take_while};
ghost use Rattle.paper.specs.Grammar.{digits, decimal};
ghost use Rattle.reader.specs.Numbers.{DecimalAt, DecimalIs, clipped, NumberIs};

use crate::stop::Stop;

// A number and its end. It has no value where it is out of its range; of a decimal: where no word holds it.
#[derive(Clone, Copy)]
pub struct Number {
    pub value: Option<u64>,
    pub end: usize,
}

impl Number {
    // The same as a number from low to high.
    pub fn within(self, low: u64, high: u64) -> Number
        ensures { result ≡ clipped low high self }
    {
        Number {
            value: self.value.filter(|v| low <= *v && *v <= high),
            end: self.end,
        }
    }
}

// A tenth of 2 ^ 64: a digit behind a smaller value always fits.
const TENTH: u64 = 1844674407370955161;

// The value with one more digit, where a word holds it.
fn with_digit(v: u64, d: u64) -> Option<u64>
    requires { d ≤ 9 }
    ensures { SomeIff result (v * 10 + d < 2 ^ 64) (v * 10 + d) }
{
    if v < TENTH {
        return Some(v * 10 + d);
    }
    v.checked_mul(10)?.checked_add(d)
}

// How many digits s begins with.
fn leading_digits(s: &[u8]) -> usize
    ensures { result ≡ length (take_while is_ascii_digit s.now) }
{
    s.iter().take_while(|b| b.is_ascii_digit()).count()
}

// The decimal whose digits before at have the value first.
pub fn digits_from(s: &[u8], at: usize, first: u64) -> Number
    requires { at ≤ length s.now }
    ensures { DecimalAt (digits first) s.now at result }
{
    let mut v = first;
    for i in at..s.len() {
        let b = s[i];
        if !b.is_ascii_digit() {
            return Number {
                value: Some(v),
                end: i,
            };
        }
        let d = u64::from(b - b'0');
        let Some(more) = with_digit(v, d) else {
            return Number {
                value: None,
                end: i + leading_digits(&s[i..]),
            };
        };
        v = more;
    }
    Number {
        value: Some(v),
        end: s.len(),
    }
}

// The decimal at at.
pub fn decimal_at(s: &[u8], at: usize) -> Result<Number, Stop>
    requires { at ≤ length s.now }
    ensures { DecimalIs decimal s.now at result }
{
    match s.get(at) {
        Some(b'0') => Ok(Number {
            value: Some(0),
            end: at + 1,
        }),
        Some(b) if b.is_ascii_digit() => Ok(digits_from(s, at + 1, u64::from(*b - b'0'))),
        _ => Err(Stop { at }),
    }
}

// The number at at, from low to high.
pub fn number_at(s: &[u8], at: usize, low: u64, high: u64) -> Result<Number, Stop>
    requires { at ≤ length s.now }
    ensures { NumberIs decimal low high s.now at result }
{
    Ok(decimal_at(s, at)?.within(low, high))
}
