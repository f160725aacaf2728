// Searches for one element of a run: the compiler makes one test of eight of them.
ghost use Rattle.std.specs.Prelude.{◌≡◌, ◌+◌, ◌≤◌, length};
ghost use Rattle.words.specs.Search.{Among, Passed, FindsFrom};

// How many elements are looked at in one turn.
const BLOCK: usize = 8;

// Whether x is one of the eight elements from i on.
fn among<T: Copy + PartialEq>(s: &[T], i: usize, x: T) -> bool
    requires { i + 8 ≤ length s.now }
    ensures { Among T.eq s.now i x (i + 8) result }
{
    (s[i] == x)
        | (s[i + 1] == x)
        | (s[i + 2] == x)
        | (s[i + 3] == x)
        | (s[i + 4] == x)
        | (s[i + 5] == x)
        | (s[i + 6] == x)
        | (s[i + 7] == x)
}

// A place from at on before which x does not stand: it passes over eight elements at a time.
fn skip<T: Copy + PartialEq>(s: &[T], at: usize, x: T) -> usize
    requires { at ≤ length s.now }
    ensures { Passed T.eq s.now at x result }
{
    let mut i = at;
    while BLOCK <= s.len() - i {
        if among(s, i, x) {
            return i;
        }
        i += BLOCK;
    }
    i
}

// The first place from at on where x stands.
pub fn find_from<T: Copy + PartialEq>(s: &[T], at: usize, x: T) -> Option<usize>
    requires { at ≤ length s.now }
    ensures { FindsFrom T.eq s.now at x result }
{
    for i in skip(s, at, x)..s.len() {
        if s[i] == x {
            return Some(i);
        }
    }
    None
}
