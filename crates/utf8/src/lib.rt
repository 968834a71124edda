// UTF-8 by RFC 3629: the length of a character by its first byte, whether bytes are valid text, the characters of a text,
// Unicode's White_Space, and trimming.
#![tactic(auto)]

ghost use Rattle.std.specs.Prelude.{◌≡◌, cond, [], ◌∷◌, ◌<◌, eqb, ltb, length};
ghost use Rattle.utf8.specs.Utf8.{length_by, second_low, second_high, plain, dead, begun, char_step, one_byte_each, valid};
ghost use Rattle.utf8.specs.Chars.{continues, char_len, LastAt, is_white};
ghost use Rattle.utf8.specs.Trim.{trim_start, trim_end, trim};

// A place in a text: how many bytes of the character are to come, and what the next lies between.
#[derive(Clone, Copy)]
pub struct State {
    pub more: u8,
    pub low: u8,
    pub high: u8,
}

// The length of a character by its first byte, 0 where none begins so: a line for the byte's first hexadecimal digit, a column
// for its second.
const LENGTHS: [[u8; 16]; 16] = [
    [1, 1, 1, 1, 1, 1, 1, 1, 1, 1, 1, 1, 1, 1, 1, 1],
    [1, 1, 1, 1, 1, 1, 1, 1, 1, 1, 1, 1, 1, 1, 1, 1],
    [1, 1, 1, 1, 1, 1, 1, 1, 1, 1, 1, 1, 1, 1, 1, 1],
    [1, 1, 1, 1, 1, 1, 1, 1, 1, 1, 1, 1, 1, 1, 1, 1],
    [1, 1, 1, 1, 1, 1, 1, 1, 1, 1, 1, 1, 1, 1, 1, 1],
    [1, 1, 1, 1, 1, 1, 1, 1, 1, 1, 1, 1, 1, 1, 1, 1],
    [1, 1, 1, 1, 1, 1, 1, 1, 1, 1, 1, 1, 1, 1, 1, 1],
    [1, 1, 1, 1, 1, 1, 1, 1, 1, 1, 1, 1, 1, 1, 1, 1],
    [0, 0, 0, 0, 0, 0, 0, 0, 0, 0, 0, 0, 0, 0, 0, 0],
    [0, 0, 0, 0, 0, 0, 0, 0, 0, 0, 0, 0, 0, 0, 0, 0],
    [0, 0, 0, 0, 0, 0, 0, 0, 0, 0, 0, 0, 0, 0, 0, 0],
    [0, 0, 0, 0, 0, 0, 0, 0, 0, 0, 0, 0, 0, 0, 0, 0],
    [0, 0, 2, 2, 2, 2, 2, 2, 2, 2, 2, 2, 2, 2, 2, 2],
    [2, 2, 2, 2, 2, 2, 2, 2, 2, 2, 2, 2, 2, 2, 2, 2],
    [3, 3, 3, 3, 3, 3, 3, 3, 3, 3, 3, 3, 3, 3, 3, 3],
    [4, 4, 4, 4, 4, 0, 0, 0, 0, 0, 0, 0, 0, 0, 0, 0],
];

// The length of a character by its first byte; 0 where none begins so.
pub fn length_by(b: u8) -> u8
    ensures { result ≡ length_by b }
{
    let i = usize::from(b);
    LENGTHS[i / 16][i % 16]
}

// The least second byte: after E0 and F0 what is lower is an overlong form.
fn second_low(b: u8) -> u8
    ensures { result ≡ second_low b }
{
    match b {
        0xE0 => 0xA0,
        0xF0 => 0x90,
        _ => 0x80,
    }
}

// The greatest second byte: after ED what is higher is a surrogate, after F4 above 10FFFF.
fn second_high(b: u8) -> u8
    ensures { result ≡ second_high b }
{
    match b {
        0xED => 0x9F,
        0xF4 => 0x8F,
        _ => 0xBF,
    }
}

// So many bytes are to come, each any that continues a character.
fn plain(more: u8) -> State
    ensures { result ≡ plain more }
{
    State {
        more,
        low: 0x80,
        high: 0xBF,
    }
}

// No byte leads on from here.
fn dead() -> State
    ensures { result ≡ dead }
{
    State {
        more: 1,
        low: 1,
        high: 0,
    }
}

// The state after a first byte. One-byte characters are told apart first, since most texts have few others.
fn char_begin(b: u8) -> State
    ensures { result ≡ begun b }
{
    if b <= 0x7F {
        return plain(0);
    }
    match length_by(b) {
        0 => dead(),
        n => State {
            more: n - 1,
            low: second_low(b),
            high: second_high(b),
        },
    }
}

// The state after one byte more.
fn char_step(u: State, b: u8) -> State
    ensures { result ≡ char_step u b }
{
    match u.more {
        0 => char_begin(b),
        n if (u.low..=u.high).contains(&b) => plain(n - 1),
        _ => dead(),
    }
}

// Whether each character has one byte. No way leads out of the loop, so that the compiler may compare many bytes at once.
pub fn one_byte_each(s: &[u8]) -> bool
    ensures { result ≡ one_byte_each s.now }
{
    let mut most: u8 = 0;
    for b in s {
        most = most.max(*b);
    }
    most <= 0x7F
}

// Whether the bytes are valid text: whole characters, none overlong, no surrogate, none above 10FFFF.
pub fn valid(s: &[u8]) -> bool
    ensures { result ≡ valid s.now }
{
    if one_byte_each(s) {
        return true;
    }
    let mut u = plain(0);
    for b in s {
        u = char_step(u, *b);
    }
    u.more == 0
}

// Whether the byte continues a character.
pub fn continues(b: u8) -> bool
    ensures { result ≡ continues b }
{
    matches!(b, 0x80..=0xBF)
}

// How many bytes the first character has: up to the next byte that continues none.
pub fn char_len(s: &[u8]) -> usize
    ensures { result ≡ char_len s.now }
{
    match s {
        [] => 0,
        [_, rest @ ..] => 1
            + rest
                .iter()
                .position(|b| !continues(*b))
                .unwrap_or(rest.len()),
    }
}

// Where the last character begins, of one byte or more.
fn last_at(s: &[u8]) -> usize
    requires { 0 < length s.now }
    ensures { LastAt s.now result }
{
    s.iter().rposition(|b| !continues(*b)).unwrap_or(0)
}

// U+0009 to 000D and 0020.
fn white_one(a: u8) -> bool
    ensures { result ≡ is_white (a ∷ []) }
{
    matches!(a, 0x09..=0x0D | 0x20)
}

// U+0085 and 00A0.
fn white_two(a: u8, b: u8) -> bool
    ensures { result ≡ is_white (a ∷ b ∷ []) }
{
    a == 0xC2 && matches!(b, 0x85 | 0xA0)
}

// U+2000 to 200A, 2028, 2029 and 202F, by their third byte.
fn white_20(c: u8) -> bool
    ensures { result ≡ is_white (0xE2 ∷ 0x80 ∷ c ∷ []) }
{
    matches!(c, 0x80..=0x8A | 0xA8..=0xA9 | 0xAF)
}

// U+1680, those of 20xx, 205F and 3000.
fn white_three(a: u8, b: u8, c: u8) -> bool
    ensures { result ≡ is_white (a ∷ b ∷ c ∷ []) }
{
    match (a, b) {
        (0xE1, 0x9A) | (0xE3, 0x80) => c == 0x80,
        (0xE2, 0x80) => white_20(c),
        (0xE2, 0x81) => c == 0x9F,
        _ => false,
    }
}

// Whether the bytes are one character with Unicode's property White_Space.
pub fn is_white(c: &[u8]) -> bool
    ensures { result ≡ is_white c.now }
{
    match c {
        [a] => white_one(*a),
        [a, b] => white_two(*a, *b),
        [a, b, d] => white_three(*a, *b, *d),
        _ => false,
    }
}

// The part without the white space that the text begins with.
pub fn trim_start(s: &[u8]) -> &[u8]
    ensures { result.now ≡ trim_start s.now }
{
    let mut t = s;
    while !t.is_empty() {
        let n = char_len(t);
        if !is_white(&t[..n]) {
            return t;
        }
        t = &t[n..];
    }
    t
}

// The part without the white space that the text ends with.
pub fn trim_end(s: &[u8]) -> &[u8]
    ensures { result.now ≡ trim_end s.now }
{
    let mut t = s;
    while !t.is_empty() {
        let k = last_at(t);
        if !is_white(&t[k..]) {
            return t;
        }
        t = &t[..k];
    }
    t
}

// The part without white space at either end.
pub fn trim(s: &[u8]) -> &[u8]
    ensures { result.now ≡ trim s.now }
{
    trim_end(trim_start(s))
}
