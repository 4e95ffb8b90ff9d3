// UTF-8 of RFC 3629: whether bytes are well-formed text, and where they break.
#![tactic(auto)]

ghost use Rattle.std.specs.Prelude.{◌≡◌, true, false, ◌∷◌, ◌<◌, ◌≤◌, length, slice_index, EachIndex, MatchOption};
ghost use Rattle.text.specs.Grammar.{◌to◌, inside, tail, well_formed};
ghost use Rattle.text.specs.Place.{broken_at};
ghost use Rattle.text.specs.Steps.{following, second, Passes, Left};

// ---- the bytes of a character

// How many bytes follow the first byte of a character.
fn following(first: u8) -> Option<usize>
    ensures { result ≡ following first }
{
    match first {
        0..=0x7F => Some(0),
        0xC2..=0xDF => Some(1),
        0xE0..=0xEF => Some(2),
        0xF0..=0xF4 => Some(3),
        _ => None,
    }
}

fn is_tail(y: u8) -> bool
    ensures { result ≡ inside tail y }
{
    (0x80..=0xBF).contains(&y)
}

// The byte after x: below these ranges a character would be overlong, above them a surrogate, or beyond U+10FFFF.
fn is_second(x: u8, y: u8) -> bool
    ensures { result ≡ inside (second x) y }
{
    match x {
        0xE0 => (0xA0..=0xBF).contains(&y),
        0xED => (0x80..=0x9F).contains(&y),
        0xF0 => (0x90..=0xBF).contains(&y),
        0xF4 => (0x80..=0x8F).contains(&y),
        _ => is_tail(y),
    }
}

// ---- characters of one byte

// The bytes are gathered and tested once, so that many can be taken at a time.
fn is_ascii(block: &[u8]) -> bool
    ensures { result ≡ true → EachIndex block.now (λ k. slice_index block.now k < 0x80) }
{
    let mut x = 0u8;
    for b in block {
        x |= *b;
    }
    x < 0x80
}

// What follows the characters of one byte that s begins with.
fn after_ascii(s: &[u8]) -> &[u8]
    requires { (0 < length s.now) × (slice_index s.now 0 < 0x80) }
    ensures { Passes s.now result.now }
{
    let mut rest = s;
    while let Some((block, after)) = rest.split_at_checked(32) {
        if !is_ascii(block) {
            break;
        }
        rest = after;
    }
    while let [0..=0x7F, after @ ..] = rest {
        rest = after;
    }
    rest
}

// ---- text

// What follows a character of more than one byte: x is its first, and ahead are those after it.
fn after_character(x: u8, ahead: &[u8]) -> Option<&[u8]>
    requires { 0x80 ≤ x }
    ensures { MatchOption result (well_formed (x ∷ ahead.now) ≡ false) (λ r. Passes (x ∷ ahead.now) r.now) }
{
    match (following(x)?, ahead) {
        (1, [y, rest @ ..]) if is_second(x, *y) => Some(rest),
        (2, [y, z, rest @ ..]) if is_second(x, *y) && is_tail(*z) => Some(rest),
        (3, [y, z, w, rest @ ..]) if is_second(x, *y) && is_tail(*z) && is_tail(*w) => Some(rest),
        _ => None,
    }
}

pub fn well_formed(s: &[u8]) -> bool
    ensures { result ≡ well_formed s.now }
{
    let mut rest = s;
    while let [x, ahead @ ..] = rest {
        if *x < 0x80 {
            rest = after_ascii(rest);
        } else {
            match after_character(*x, ahead) {
                Some(after) => rest = after,
                None => return false,
            }
        }
    }
    true
}

// ---- the place at which a text breaks

// How many bytes of a character are left after y, where n were left after x. The range after a tail is a tail's.
fn left_after(n: usize, x: u8, y: u8) -> Option<usize>
    ensures { Left n x y result }
{
    match n {
        0 => following(y),
        _ if is_second(x, y) => Some(n - 1),
        _ => None,
    }
}

// The place of the first byte at which no well-formed text can go on, or the length.
pub fn broken_at(s: &[u8]) -> usize
    ensures { result ≡ broken_at s.now }
{
    let mut n = 0;
    let mut x = 0u8;
    for (i, y) in s.iter().enumerate() {
        match left_after(n, x, *y) {
            Some(m) => n = m,
            None => return i,
        }
        x = *y;
    }
    s.len()
}
