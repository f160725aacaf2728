// Names of variables: held in a lent room, compared byte by byte, and numbered as they first appear; or plain names, which say their number.

#![tactic(auto)]

pub mod numbering;

ghost use Rattle.std.specs.Prelude.{◌≡◌, ◌*◌, ◌≤◌, ◌<◌, length, get_or, MatchOption};
ghost use Rattle.limits.specs.Limits.{name_bytes, variables};
ghost use Rattle.paper.specs.Named.{same_name, place_in};
ghost use Rattle.names.specs.Names.{slot_bytes, name_in, held, Holding, HeldBehind, PlaceIs, behind_x, PlainIs, hint_count};

use reader::number::number_at;

// The bytes of a held name: its length, and then the name.
pub const SLOT: usize = limits::NAME_BYTES + 1;

// The bytes of a room for as many names as there are variables.
pub const ROOM: usize = limits::VARIABLES as usize * SLOT;

// Where a name is looked for first, by its bytes: only how soon it is found depends on it.
pub const HINTS: usize = 4096;

// Whether the i-th name of a room is s.
fn is_name(room: &[u8], i: usize, s: &[u8]) -> bool
    requires { (i < variables) × (variables * slot_bytes ≤ length room.now) × (get_or room.now (i * slot_bytes) 0 ≤ name_bytes) × (length s.now ≤ name_bytes) }
    ensures { result ≡ same_name (name_in room.now i) s.now }
{
    let at = i * SLOT;
    let size = room[at] as usize;
    &room[at + 1..at + 1 + size] == s
}

// The place of s among the first n names of a room, if it is one of them.
fn find_name(room: &[u8], n: usize, s: &[u8]) -> Option<usize>
    requires { Holding n room.now × (length s.now ≤ name_bytes) }
    ensures { MatchOption result (place_in (held n room.now) s.now ≡ n) (λ i. (i < n) × (i ≡ place_in (held n room.now) s.now)) }
{
    for i in 0..n {
        if is_name(room, i, s) {
            return Some(i);
        }
    }
    None
}

// Holds s as the n-th name of a room.
fn put_name(room: &mut [u8], n: usize, s: &[u8])
    requires { (n < variables) × (length s.now ≤ name_bytes) × (variables * slot_bytes ≤ length room.old) }
    ensures { HeldBehind n s.now room.old room.new }
{
    let at = n * SLOT;
    room[at] = s.len() as u8;
    for i in 0..s.len() {
        room[at + 1 + i] = s[i];
    }
}

// The place of a name's hint.
fn hint_of(s: &[u8]) -> usize
    ensures { result < hint_count }
{
    let mut h = 0;
    for b in s {
        h = (h * 33 + *b as usize) % HINTS;
    }
    h
}

// The place of a name among the n that are held; a new one is held behind them, if it is short and there is room for it.
fn number_by_place(room: &mut [u8], hints: &mut [u16], n: usize, s: &[u8]) -> Option<usize>
    requires { Holding n room.old × (hint_count ≤ length hints.old) }
    ensures { PlaceIs n s.now room.old room.new result }
{
    if limits::NAME_BYTES < s.len() {
        return None;
    }
    let h = hint_of(s);
    let c = hints[h] as usize;
    if c < n && is_name(room, c, s) {
        return Some(c);
    }
    if let Some(i) = find_name(room, n, s) {
        hints[h] = i as u16;
        return Some(i);
    }
    if n == limits::VARIABLES as usize {
        return None;
    }
    hints[h] = n as u16;
    put_name(room, n, s);
    Some(n)
}

// Where the decimal of a plain name begins: behind its x. The end of a name without one.
fn behind_x(s: &[u8]) -> usize
    ensures { result ≡ behind_x s.now }
{
    match s.first() {
        Some(b'x') => 1,
        _ => s.len(),
    }
}

// The number of a plain name; none of another.
pub fn plain_number(s: &[u8]) -> Option<usize>
    ensures { PlainIs s.now result }
{
    let d = number_at(s, behind_x(s), 0, limits::VARIABLES - 1).ok()?;
    let v = d.value?;
    if d.end == s.len() {
        Some(v as usize)
    } else {
        None
    }
}
