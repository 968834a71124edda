// Trees as rows: the kinds of elements, what the rows of an element say, and the typed views of syntax.rs. A node's rows and its
// text are parts of the caller's tree file.
#![tactic(auto)]

ghost use Rattle.std.specs.Prelude.{◌≡◌, ◌+◌, ◌-◌, ◌%◌, ◌≤◌, ◌<◌, length, take, drop, Some};
ghost use Rattle.std.proofs.Math.Option.{Option as Maybe};
ghost use Rattle.text.specs.Writing.{cap};
ghost use Rattle.utf8.specs.Trim.{trim};
ghost use Rattle.mitex_syntax.specs.Syntax.{is_trivia, is_token, is_node};
ghost use Rattle.mitex_syntax.specs.Tree.{Tree, Forest, rows_of, rows_ofs};
ghost use Rattle.mitex_syntax.specs.Rows.{num_of, extent_of, token_at, token_sum, Spans};
ghost use Rattle.mitex_syntax.specs.Views.{is_argument_with, first_node, is_token_of, inner};
ghost use Rattle.mitex_syntax.specs.Spells.{SomeRows, SomeElement};
ghost use Rattle.mitex_syntax.specs.Places.{is_wanted, kind_found, TokenIs, LastHop};

mod children;

pub use children::{Children, find, text_at};

// ---- kinds, in the order in which the main match of `Converter::convert` names them
// They are numbers and no enum: a row's first byte is the caller's, any of 256, and `is_token`, `is_node` and `is_trivia` answer for each
// of them. A match on the constants is what a match on an enum would be, with no conversion of a byte that may be no kind.

pub const TOKEN_ERROR: u8 = 1;

pub const ITEM_LR: u8 = 2;

pub const CLAUSE_ARGUMENT: u8 = 3;

pub const SCOPE_ROOT: u8 = 4;

pub const ITEM_TEXT: u8 = 5;

pub const ITEM_BRACKET: u8 = 6;

pub const ITEM_PAREN: u8 = 7;

pub const ITEM_FORMULA: u8 = 8;

pub const ITEM_CURLY: u8 = 9;

pub const CLAUSE_LR: u8 = 10;

pub const ITEM_ATTACH_COMPONENT: u8 = 11;

pub const CLAUSE_COMMAND_NAME: u8 = 12;

pub const ITEM_BEGIN: u8 = 13;

pub const ITEM_END: u8 = 14;

pub const TOKEN_WORD: u8 = 15;

pub const TOKEN_LBRACE: u8 = 16;

pub const TOKEN_RBRACE: u8 = 17;

pub const TOKEN_DOLLAR: u8 = 18;

pub const TOKEN_BEGIN_MATH: u8 = 19;

pub const TOKEN_END_MATH: u8 = 20;

pub const TOKEN_COMMENT: u8 = 21;

pub const ITEM_BLOCK_COMMENT: u8 = 22;

pub const TOKEN_WHITE_SPACE: u8 = 23;

pub const TOKEN_LINE_BREAK: u8 = 24;

pub const TOKEN_APOSTROPHE: u8 = 25;

pub const TOKEN_COMMA: u8 = 26;

pub const TOKEN_SLASH: u8 = 27;

pub const TOKEN_CARET: u8 = 28;

pub const TOKEN_UNDERSCORE: u8 = 29;

pub const TOKEN_HASH: u8 = 30;

pub const TOKEN_ASTERISK: u8 = 31;

pub const TOKEN_AT_SIGN: u8 = 32;

pub const TOKEN_DITTO: u8 = 33;

pub const TOKEN_SEMICOLON: u8 = 34;

pub const TOKEN_LPAREN: u8 = 35;

pub const TOKEN_RPAREN: u8 = 36;

pub const TOKEN_LBRACKET: u8 = 37;

pub const TOKEN_RBRACKET: u8 = 38;

pub const TOKEN_TILDE: u8 = 39;

pub const TOKEN_AMPERSAND: u8 = 40;

pub const ITEM_NEW_LINE: u8 = 41;

pub const TOKEN_COMMAND_SYM: u8 = 42;

pub const ITEM_CMD: u8 = 43;

pub const ITEM_ENV: u8 = 44;

pub const ITEM_TYPST_CODE: u8 = 45;

// Whether the kind is trivia.
pub fn is_trivia(k: u8) -> bool
    ensures { result ≡ is_trivia k }
{
    matches!(
        k,
        TOKEN_LINE_BREAK | TOKEN_WHITE_SPACE | TOKEN_COMMENT | ITEM_NEW_LINE
    )
}

// Whether a token may be of this kind.
pub fn is_token(k: u8) -> bool
    ensures { result ≡ is_token k }
{
    matches!(
        k,
        TOKEN_ERROR
            | CLAUSE_COMMAND_NAME
            | TOKEN_WORD..=TOKEN_COMMENT
            | TOKEN_WHITE_SPACE..=TOKEN_COMMAND_SYM
    )
}

// Whether a node may be of this kind.
pub fn is_node(k: u8) -> bool
    ensures { result ≡ is_node k }
{
    k == TOKEN_ERROR || (1 <= k && k <= ITEM_TYPST_CODE && !is_token(k))
}

// ---- rows

// The bytes of the rows and of the text of an element.
#[derive(Clone, Copy)]
pub struct Span {
    pub rows: usize,
    pub text: usize,
}

// The number of the row at `i`: a token's text length, or how many rows lie under a node.
pub fn number(rows: &[u8], i: usize) -> usize
    requires { i + 8 ≤ length rows.now }
    ensures { (result ≡ num_of (drop i rows.now)) × (result < cap) }
{
    text::read_u32(rows, i + 4)
}

// The bytes of the rows of the element at `i`.
pub fn extent(rows: &[u8], i: usize) -> usize
    requires { i + 8 ≤ length rows.now }
    ensures { result ≡ extent_of (drop i rows.now) }
{
    if rows[i + 1] == 1 {
        8
    } else {
        8 + 8 * number(rows, i)
    }
}

// The text bytes of the row at `i`, 0 of a node. The number is read of either, which leaves a choice in place of a jump.
pub fn token_len(rows: &[u8], i: usize) -> usize
    requires { i + 8 ≤ length rows.now }
    ensures { result ≡ token_at (drop i rows.now) }
{
    let n = number(rows, i);
    if rows[i + 1] == 1 { n } else { 0 }
}

// The text bytes of these rows.
pub fn text_len(rows: &[u8]) -> usize
    requires { (token_sum rows.now < cap) × (length rows.now % 8 ≡ 0) }
    ensures { result ≡ token_sum rows.now }
{
    rows.chunks_exact(8).map(|row| token_len(row, 0)).sum()
}

// The bytes of the element at `i`.
pub fn span_at(rows: &[u8], i: usize) -> Span
    requires { Spans rows.now i }
    ensures rows { result.rows ≡ extent_of (drop i rows.now) }
    ensures text { result.text ≡ token_sum (take (extent_of (drop i rows.now)) (drop i rows.now)) }
{
    let e = extent(rows, i);
    let n = text_len(&rows[i..i + e]);
    Span { rows: e, text: n }
}

// ---- what is found among the children of a node

// Where a child stands: its rows from `row` to `end`, its text from `from` to `to`, in bytes.
#[derive(Clone, Copy)]
pub struct Spot {
    pub row: usize,
    pub end: usize,
    pub from: usize,
    pub to: usize,
}

// A place among the children, between two of them.
#[derive(Clone, Copy)]
pub struct Cursor {
    pub row: usize,
    pub text: usize,
}

// What is looked for: a child of a kind, an argument whose first node is of a kind, or a child of any other kind.
#[derive(Clone, Copy)]
pub enum Wanted {
    Kind(u8),
    ArgumentWith(u8),
    Other(u8),
}

// A token: its kind and its text.
#[derive(Clone, Copy)]
pub struct Token<'a> {
    pub kind: u8,
    pub text: &'a [u8],
}

impl<'a> Token<'a> {
    // Whether the token is of this kind and has this text.
    fn is(self, kind: u8, text: &[u8]) -> bool
        ensures { (o : Maybe Tree) → TokenIs o (Some self.entry) → result ≡ is_token_of kind text.now o }
    {
        self.kind == kind && self.text == text
    }
}

// The kind of the first child that is a node.
pub fn first_node_kind(rows: &[u8]) -> Option<u8>
    requires { SomeRows rows.now }
    ensures { (f : Forest) → rows.now ≡ rows_ofs f → result ≡ kind_found (first_node f) }
{
    rows.chunks_exact(8)
        .find(|row| row[1] != 1)
        .map(|row| row[0])
}

// Whether an element is an argument whose first node is of this kind; kind 0: it has no node.
fn is_argument_with(rows: &[u8], kind: u8) -> bool
    requires { SomeElement rows.now }
    ensures { (t : Tree) → rows.now ≡ rows_of t → result ≡ is_argument_with kind t }
{
    rows[0] == CLAUSE_ARGUMENT && first_node_kind(&rows[8..]).unwrap_or(0) == kind
}

// Whether an element is what is looked for.
fn is_wanted(rows: &[u8], wanted: Wanted) -> bool
    requires { SomeElement rows.now }
    ensures { (t : Tree) → rows.now ≡ rows_of t → result ≡ is_wanted wanted t }
{
    match wanted {
        Wanted::Kind(k) => rows[0] == k,
        Wanted::ArgumentWith(k) => is_argument_with(rows, k),
        Wanted::Other(k) => rows[0] != k,
    }
}

// A step on the way to the last token: over the first element, or into it where it is the last.
fn hop(rows: &[u8]) -> Span
    requires { Spans rows.now 0 }
    ensures { LastHop rows.now 0 result }
{
    if extent(rows, 0) < rows.len() {
        span_at(rows, 0)
    } else {
        Span { rows: 8, text: 0 }
    }
}

// ---- a text between two ends

// The text without its first and its last byte; none of a shorter one.
pub fn inner<'a>(s: &'a [u8]) -> &'a [u8]
    ensures { result.now ≡ inner s.now }
{
    match s {
        [_, inner @ .., _] => inner,
        _ => &[],
    }
}

// What stands between the ends of a text, trimmed: the label in `{eq:one}`.
pub fn trimmed_inner<'a>(s: &'a [u8]) -> &'a [u8]
    ensures { result.now ≡ trim (inner s.now) }
{
    utf8::trim(inner(s))
}
