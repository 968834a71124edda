// The check of a tree file: its layout, its depth, and the tree-shape rules; first a survey in one pass, which accepts or says nothing.
#![tactic(auto)]

ghost use Rattle.std.specs.Prelude.{◌≡◌, true, List, ℕ, ◌*◌, ◌≤◌, ◌<◌, length, IfSome};
ghost use Rattle.std.proofs.Math.Option.Option.{some};
ghost use Rattle.text.specs.Writing.{cap};
ghost use Rattle.text.specs.Trailer.{file_most};
ghost use Rattle.utf8.specs.Utf8.{one_byte_each};
ghost use Rattle.mitex_syntax.specs.Tree.{Tree, Forest, rows_ofs, count};
ghost use Rattle.mitex_syntax.specs.Tree.Forest.{more};
ghost use Rattle.mitex_syntax.specs.Syntax.{ItemCurly, ItemBracket, TokenCommandSym, is_token};
ghost use Rattle.mitex_syntax.specs.Views.{text_in, argument_with, good_ends};
ghost use Rattle.mitex_syntax.specs.Spells.{token_fits, Spells, SpellsAll, Begins};
ghost use Rattle.tree_file.specs.Layout.{Line, token_row, node_row, tree_row_at, row_taken, lines, split, grow, grows};
ghost use Rattle.tree_file.specs.Depth.{depths, depth_most};
ghost use Rattle.tree_file.specs.Shape.{is_some, slashed, sym_fits, lr_fits, label_fits, ends_in, image_fits};
ghost use Rattle.tree_file.specs.Shape.{color_fits, arguments_fit, cmd_fits, env_fits, node_fits, unless, lowest};
ghost use Rattle.tree_file.specs.Check.{check_tree, checked_answer};
ghost use Rattle.tree_file.specs.declared.Unnested.TheVariants.{Deep};
ghost use Rattle.tree_file.specs.Parts.{bytes_of, LinesFit, under_of, Nested, root_blocks, shape_of, is_frame, is_ruled};
ghost use Rattle.tree_file.specs.Parts.{first_fits, PassSays, answer_to, SomeLines, FewRows, SomeTrees, Areas, Scannable, Checkable};
ghost use Rattle.tree_file.specs.Parts.{TokenStands, NodeStands, Surveyable, Surveyed, SurveySays};

use mitex_syntax::{
    CLAUSE_ARGUMENT, CLAUSE_LR, Children, ITEM_BEGIN, ITEM_BLOCK_COMMENT, ITEM_BRACKET, ITEM_CMD,
    ITEM_CURLY, ITEM_END, ITEM_ENV, SCOPE_ROOT, Span, TOKEN_COMMAND_SYM, TOKEN_WORD,
};
use refusals::{Reason, Refusal, no_row};

// No row lies deeper.
pub const DEPTH_MOST: usize = 64;

// The blocks are at most so many.
pub const BLOCKS_MOST: usize = 512;

// The kind of what is not there.
const NO_KIND: u8 = 0;

// The first four bytes of a row, as a number, are the kind; of a token, the kind and this.
const TOKEN_HEAD: usize = 256;

// A row that was read: a token with its text length, or a node with how many rows lie under it.
#[derive(Clone, Copy)]
pub enum TreeRow {
    Token(usize),
    Node(usize),
}

// Why rows do not nest as they are to.
#[derive(Clone, Copy, PartialEq, Eq, Debug)]
pub enum Unnested {
    Broken,
    Deep,
}

// A file that was accepted: where the rows start, how many they are, and how many the blocks are.
#[derive(Clone, Copy)]
pub struct Whole {
    pub start: usize,
    pub rows: usize,
    pub blocks: usize,
}

// ---- the layout

// Of the layout, `plain` says that the characters of the text have one byte each: then no part of it is looked at again.

// Most loops go over what is left of the rows, and not over single rows: how far a step goes is read from the rows.

// Whether this is a token's kind and text.
pub fn token_fits(k: u8, s: &[u8], plain: bool) -> bool
    requires { plain ≡ true → one_byte_each s.now ≡ true }
    ensures { result ≡ token_fits k s.now }
{
    mitex_syntax::is_token(k) && !s.is_empty() && (plain || utf8::valid(s))
}

// The row that stands first, a token, where `text` is left.
fn token_row(rows: &[u8], text: &[u8], plain: bool) -> Option<TreeRow>
    requires { (8 ≤ length rows.now) × (plain ≡ true → one_byte_each text.now ≡ true) }
    ensures { result ≡ token_row rows.now text.now }
{
    let n = text::read_u32(rows, 4);
    let s = text.get(..n)?;
    token_fits(rows[0], s, plain).then_some(TreeRow::Token(n))
}

// The row that stands first, a node.
fn node_row(rows: &[u8]) -> Option<TreeRow>
    requires { 8 ≤ length rows.now }
    ensures { result ≡ node_row rows.now }
{
    if rows[1] == 0 && mitex_syntax::is_node(rows[0]) {
        return Some(TreeRow::Node(text::read_u32(rows, 4)));
    }
    None
}

// The row that stands first, where `text` is left.
fn tree_row_at(rows: &[u8], text: &[u8], plain: bool) -> Option<TreeRow>
    requires { (8 ≤ length rows.now) × (plain ≡ true → one_byte_each text.now ≡ true) }
    ensures { result ≡ tree_row_at rows.now text.now }
{
    if rows[2] != 0 || rows[3] != 0 {
        return None;
    }
    if rows[1] == 1 {
        return token_row(rows, text, plain);
    }
    node_row(rows)
}

// The bytes of text that a row takes.
fn row_taken(r: TreeRow) -> usize
    ensures { result ≡ row_taken r }
{
    match r {
        TreeRow::Token(n) => n,
        TreeRow::Node(_) => 0,
    }
}

// Whether each row is one, and the token texts fill the text.
fn lines_fit(rows: &[u8], text: &[u8]) -> bool
    ensures { (n : ℕ) → length rows.now ≡ 8 * n → result ≡ is_some (lines n rows.now text.now) }
{
    let plain = utf8::one_byte_each(text);
    let mut left = text;
    for row in rows.chunks_exact(8) {
        let Some(read) = tree_row_at(row, left, plain) else {
            return false;
        };
        left = &left[row_taken(read)..];
    }
    left.is_empty()
}

// How many rows lie under the row that stands first.
fn under(rows: &[u8]) -> usize
    requires { 8 ≤ length rows.now }
    ensures { (result ≡ under_of rows.now) × (result < cap) }
{
    if rows[1] == 1 {
        return 0;
    }
    text::read_u32(rows, 4)
}

// Whether the rows nest, no deeper than `left`: a child's rows end no later than its parent's.
fn check_rows(rows: &[u8], left: usize) -> Result<(), Unnested>
    ensures { (ls : List Line) → rows.now ≡ bytes_of ls → LinesFit ls → Nested (grow ls) left result }
{
    let mut rest = rows;
    while 8 <= rest.len() {
        if left == 0 {
            return Err(Unnested::Deep);
        }
        let n = under(rest);
        let end = 8 + 8 * n;
        if rest.len() < end {
            return Err(Unnested::Broken);
        }
        if 0 < n {
            check_rows(&rest[8..end], left - 1)?;
        }
        rest = &rest[end..];
    }
    Ok(())
}

// Whether n rows from the first on are whole trees.
fn lands(rows: &[u8], n: usize) -> bool
    ensures { (ls : List Line) (f : Forest) → rows.now ≡ bytes_of ls → LinesFit ls → grow ls ≡ some f → result ≡ is_some (split n f) }
{
    let mut rest = rows;
    let mut left = n;
    while 0 < left {
        if rest.len() < 8 {
            return false;
        }
        let m = under(rest);
        let past = 8 + 8 * m;
        if left <= m || rest.len() < past {
            return false;
        }
        left = left - m - 1;
        rest = &rest[past..];
    }
    true
}

// Whether the rows nest, however deep: each node's rows are whole trees.
fn rows_nest(rows: &[u8]) -> bool
    ensures { (ls : List Line) → rows.now ≡ bytes_of ls → LinesFit ls → result ≡ is_some (grow ls) }
{
    let mut rest = rows;
    while 8 <= rest.len() {
        let (row, after) = rest.split_at(8);
        if !lands(after, under(row)) {
            return false;
        }
        rest = after;
    }
    true
}

// How many trees stand side by side.
fn count_trees(rows: &[u8]) -> usize
    requires { FewRows rows.now }
    ensures { (f : Forest) → rows.now ≡ rows_ofs f → result ≡ count f }
{
    let mut rest = rows;
    let mut m = 0;
    while 8 <= rest.len() {
        let end = mitex_syntax::extent(rest, 0);
        rest = &rest[end..];
        m += 1;
    }
    m
}

// The blocks of a root that is a ScopeRoot over all other rows.
fn root_blocks(rows: &[u8]) -> Option<usize>
    requires { FewRows rows.now }
    ensures { (f : Forest) → rows.now ≡ rows_ofs f → result ≡ root_blocks f }
{
    if rows.len() < 8 || rows[0] != SCOPE_ROOT || rows[1] == 1 {
        return None;
    }
    if rows.len() != mitex_syntax::extent(rows, 0) {
        return None;
    }
    let m = count_trees(&rows[8..]);
    (m <= BLOCKS_MOST).then_some(m)
}

// ---- the shape

// Whether the text begins with a backslash.
fn begins_slashed(s: &[u8]) -> bool
    ensures { result ≡ slashed s.now }
{
    s.first() == Some(&b'\\')
}

// Whether the text has 2 bytes or more, both ends one-byte characters.
fn good_ends(s: &[u8]) -> bool
    ensures { result ≡ good_ends s.now }
{
    matches!(s, [first, .., last] if first.is_ascii() && last.is_ascii())
}

// Whether a token under a node of the kind `up` may be so.
fn sym_fits(up: u8, k: u8, s: &[u8]) -> bool
    ensures { result ≡ sym_fits up k s.now }
{
    k != TOKEN_COMMAND_SYM || is_frame(up) || begins_slashed(s)
}

// Of the rules on a node, `children` are those under it.

// Whether a ClauseLR's first child is a token that begins with a backslash: of any rows, and the text that begins with theirs.
fn lr_fits(rows: &[u8], text: &[u8]) -> bool
    ensures { (f : Forest) → Begins f rows.now text.now → result ≡ lr_fits f }
{
    let [_, mark, ..] = rows else {
        return false;
    };
    *mark == 1 && begins_slashed(text)
}

// Whether `\label` has an argument whose text has good ends.
fn label_fits(children: Children) -> bool
    ensures { (f : Forest) → Begins f children.entry.rows.now children.entry.text.now → result ≡ label_fits f }
{
    good_ends(children.text_at(children.find_kind(CLAUSE_ARGUMENT)))
}

// Whether `\includegraphics` has an argument with an ItemCurly, and the first has good ends.
fn curly_fits(children: Children) -> bool
    ensures { (f : Forest) → Begins f children.entry.rows.now children.entry.text.now → result ≡ good_ends (text_in (argument_with ItemCurly f)) }
{
    good_ends(children.text_at(children.argument_with(ITEM_CURLY)))
}

// Whether its first argument with an ItemBracket, if there is one, has them.
fn bracket_fits(children: Children) -> bool
    ensures { (f : Forest) → Begins f children.entry.rows.now children.entry.text.now → result ≡ ends_in (argument_with ItemBracket f) }
{
    let place = children.argument_with(ITEM_BRACKET);
    place.is_none() || good_ends(children.text_at(place))
}

// Whether, besides, each of its arguments has a child node.
fn image_fits(children: Children) -> bool
    ensures { (f : Forest) → Begins f children.entry.rows.now children.entry.text.now → result ≡ image_fits f }
{
    children.argument_with(NO_KIND).is_none() && curly_fits(children) && bracket_fits(children)
}

// Whether `\color` has an argument.
fn color_fits(children: Children) -> bool
    ensures { (f : Forest) → Begins f children.entry.rows.now children.entry.text.now → result ≡ color_fits f }
{
    children.find_kind(CLAUSE_ARGUMENT).is_some()
}

// Whether a command of this name may be over these children.
fn arguments_fit(name: &[u8], children: Children) -> bool
    ensures { (f : Forest) → Begins f children.entry.rows.now children.entry.text.now → result ≡ arguments_fit name.now f }
{
    // A `match` on the texts tests them byte by byte, and leaves a goal for each byte.
    if text::same(name, b"\\label") {
        return label_fits(children);
    }
    if text::same(name, b"\\includegraphics") {
        return image_fits(children);
    }
    if text::same(name, b"\\color") {
        return color_fits(children);
    }
    true
}

// Whether an ItemCmd may be over these children: it has a name, which begins with a backslash, and the arguments that the name asks.
fn cmd_fits(children: Children) -> bool
    ensures { (f : Forest) → Begins f children.entry.rows.now children.entry.text.now → result ≡ cmd_fits f }
{
    let name = children.name_tok();
    begins_slashed(name) && arguments_fit(name, children)
}

// Whether an ItemEnv may be over these children: the first token of its first ItemBegin is a TokenCommandSym.
fn env_fits(children: Children) -> bool
    ensures { (f : Forest) → Begins f children.entry.rows.now children.entry.text.now → result ≡ env_fits f }
{
    let Some(begin) = children.begin() else {
        return false;
    };
    let name = children.children_at(begin).first_token();
    name.is_some_and(|token| token.kind == TOKEN_COMMAND_SYM)
}

// Whether a node of the kind `k` may be over these children.
fn node_fits(k: u8, children: Children) -> bool
    ensures { (f : Forest) → Begins f children.entry.rows.now children.entry.text.now → result ≡ node_fits k f }
{
    match k {
        CLAUSE_LR => lr_fits(children.rows, children.text),
        ITEM_CMD => cmd_fits(children),
        ITEM_ENV => env_fits(children),
        _ => true,
    }
}

// The row as one that breaks a rule, unless it fits.
fn unless(fits: bool, row: usize) -> Result<(), usize>
    ensures { result ≡ shape_of (unless fits row) }
{
    if fits { Ok(()) } else { Err(row) }
}

// Whether no row of an element breaks a shape rule, or the lowest that does; `up` is the kind above it, `row` the number of its own row.
fn check_shape(rows: &[u8], text: &[u8], up: u8, row: usize) -> Result<(), usize>
    requires { Checkable rows.now text.now row }
    ensures { (t : Tree) → Spells t rows.now text.now → result ≡ shape_of (lowest up row t) }
{
    let k = rows[0];
    if rows[1] == 1 {
        return unless(sym_fits(up, k, text), row);
    }
    let children = Children {
        rows: &rows[8..],
        text,
    };
    unless(node_fits(k, children), row)?;
    let mut l = children.rows;
    let mut t = children.text;
    let mut at = row + 1;
    while !l.is_empty() {
        let s = mitex_syntax::span_at(l, 0);
        check_shape(&l[..s.rows], &t[..s.text], k, at)?;
        l = &l[s.rows..];
        t = &t[s.text..];
        at += s.rows / 8;
    }
    Ok(())
}

// Whether the kind exempts the names right under it.
fn is_frame(k: u8) -> bool
    ensures { result ≡ is_frame k }
{
    matches!(k, ITEM_BEGIN | ITEM_END)
}

// Whether a rule is on elements of this kind.
fn is_ruled(k: u8) -> bool
    ensures { result ≡ is_ruled k }
{
    matches!(k, CLAUSE_LR | TOKEN_COMMAND_SYM..=ITEM_ENV)
}

// Whether the row that stands first, not right under an ItemBegin or ItemEnd, breaks no rule.
fn first_fits(rows: &[u8], text: &[u8]) -> bool
    requires { Scannable rows.now text.now }
    ensures { (t : Tree) (f : Forest) → SpellsAll (more t f) rows.now text.now → result ≡ first_fits t }
{
    let k = rows[0];
    if !is_ruled(k) {
        return true;
    }
    if k == TOKEN_COMMAND_SYM {
        return begins_slashed(text);
    }
    let end = mitex_syntax::extent(rows, 0);
    let children = Children {
        rows: &rows[8..end],
        text,
    };
    node_fits(k, children)
}

// The element that stands first, passed as a whole.
fn pass_whole(rows: &[u8], text: &[u8], row: usize) -> Result<Span, usize>
    requires { Scannable rows.now text.now × (row ≤ file_most) }
    ensures { PassSays rows.now text.now row result }
{
    let s = mitex_syntax::span_at(rows, 0);
    check_shape(&rows[..s.rows], &text[..s.text], 0, row)?;
    Ok(s)
}

// The row that stands first, passed: what is under a node comes next. An ItemBegin or ItemEnd is passed as a whole.
fn pass_row(rows: &[u8], text: &[u8], row: usize) -> Result<Span, usize>
    requires { Scannable rows.now text.now × (row ≤ file_most) }
    ensures { PassSays rows.now text.now row result }
{
    if is_frame(rows[0]) {
        return pass_whole(rows, text, row);
    }
    unless(first_fits(rows, text), row)?;
    Ok(Span {
        rows: 8,
        text: mitex_syntax::token_len(rows, 0),
    })
}

// Whether no row of a tree breaks a shape rule, or the lowest that does: row by row, whatever is above.
fn scan_shape(rows: &[u8], text: &[u8]) -> Result<(), usize>
    requires { Checkable rows.now text.now 0 }
    ensures { (t : Tree) → Spells t rows.now text.now → result ≡ shape_of (lowest 0 0 t) }
{
    let mut l = rows;
    let mut t = text;
    let mut at: usize = 0;
    while 8 <= l.len() {
        let s = pass_row(l, t, at)?;
        l = &l[s.rows..];
        t = &t[s.text..];
        at += s.rows / 8;
    }
    Ok(())
}

// ---- the survey: one pass over rows and text, sure of a tree that is right

// Whether a token may be of this kind, and no rule is on it: so it is with most tokens.
fn is_free(k: u8) -> bool
    ensures { result ≡ true → (is_token k ≡ true) × (k < TokenCommandSym) }
{
    TOKEN_WORD <= k && k < TOKEN_COMMAND_SYM && k != ITEM_BLOCK_COMMENT
}

// Whether it is known, or seen at once, that the characters of the text have one byte each.
fn plain_text(s: &[u8], plain: bool) -> bool
    requires { plain ≡ true → one_byte_each s.now ≡ true }
    ensures { result ≡ true → one_byte_each s.now ≡ true }
{
    plain || (s.len() == 1 && s[0].is_ascii())
}

// The text bytes of a token that stands first and keeps its shape rule under a node of the kind `up`, where that is sure.
fn sure_token(rows: &[u8], text: &[u8], up: u8, plain: bool) -> Option<usize>
    requires { (8 ≤ length rows.now) × (plain ≡ true → one_byte_each text.now ≡ true) }
    ensures { IfSome result (λ n. TokenStands up rows.now text.now n) }
{
    let head = text::read_u32(rows, 0);
    if head < TOKEN_HEAD || 2 * TOKEN_HEAD <= head {
        return None;
    }
    let n = text::read_u32(rows, 4);
    let s = text.get(..n)?;
    let k = rows[0];
    if 0 < n && is_free(k) && plain_text(s, plain) {
        return Some(n);
    }
    (token_fits(k, s, plain) && sym_fits(up, k, s)).then_some(n)
}

// The bytes of the rows of a node that stands first, where one does.
fn sure_node(rows: &[u8]) -> Option<usize>
    requires { 8 ≤ length rows.now }
    ensures { IfSome result (λ e. NodeStands rows.now e) }
{
    if TOKEN_HEAD <= text::read_u32(rows, 0) || !mitex_syntax::is_node(rows[0]) {
        return None;
    }
    Some(8 + 8 * text::read_u32(rows, 4))
}

// Whether a node of the kind `k` may be over these children: of most kinds it may.
fn ruled_fits(k: u8, children: Children) -> bool
    ensures { (f : Forest) → Begins f children.entry.rows.now children.entry.text.now → result ≡ node_fits k f }
{
    !is_ruled(k) || node_fits(k, children)
}

// The text that elements side by side take, no deeper than `left`, under a node of the kind `up`: `text` begins with theirs.
fn survey_rows(rows: &[u8], text: &[u8], up: u8, left: usize, plain: bool) -> Option<usize>
    requires { Surveyable rows.now text.now plain }
    ensures { SurveySays up left rows.now text.now result }
{
    let mut l = rows;
    let mut t = text;
    while 8 <= l.len() {
        if left == 0 {
            return None;
        }
        if let Some(n) = sure_token(l, t, up, plain) {
            l = &l[8..];
            t = &t[n..];
            continue;
        }
        let end = sure_node(l)?;
        let inner = l.get(8..end)?;
        let n = survey_rows(inner, t, l[0], left - 1, plain)?;
        let children = Children {
            rows: inner,
            text: t,
        };
        if !ruled_fits(l[0], children) {
            return None;
        }
        l = &l[end..];
        t = &t[n..];
    }
    l.is_empty().then_some(text.len() - t.len())
}

// Whether the rows and the text are sure to be those of elements that are right.
fn survey_all(rows: &[u8], text: &[u8]) -> bool
    requires { (length rows.now ≤ file_most) × (length text.now ≤ file_most) }
    ensures { result ≡ true → Surveyed 0 depth_most rows.now text.now (length text.now) }
{
    let plain = utf8::one_byte_each(text);
    survey_rows(rows, text, NO_KIND, DEPTH_MOST, plain) == Some(text.len())
}

// ---- the check

// The refusal of rows that lie deeper than allowed, or do not nest.
fn check_deep(rows: &[u8]) -> Refusal
    requires { SomeLines rows.now }
    ensures { (ls : List Line) → rows.now ≡ bytes_of ls → LinesFit ls → Nested (grow ls) depth_most (Err Deep) → Err result ≡ answer_to (grow ls) }
{
    if rows_nest(rows) && root_blocks(rows).is_some() {
        return no_row(Reason::TooDeep);
    }
    no_row(Reason::BadLayout)
}

// The answer for rows that nest no deeper than allowed.
fn check_root(rows: &[u8], text: &[u8]) -> Result<Whole, Refusal>
    requires { SomeTrees rows.now text.now }
    ensures { (f : Forest) → SpellsAll f rows.now text.now → depths f ≤ depth_most → result ≡ answer_to (some f) }
{
    let blocks = root_blocks(rows).ok_or(no_row(Reason::BadLayout))?;
    // Not `map_err`: what its closure gives is not known where a proof needs it.
    if let Err(row) = scan_shape(rows, text) {
        return Err(Refusal {
            reason: Reason::BadShape,
            row,
        });
    }
    Ok(Whole {
        start: text.len(),
        rows: rows.len() / 8,
        blocks,
    })
}

// The check of the rows and the text area.
fn check_areas(rows: &[u8], text: &[u8]) -> Result<Whole, Refusal>
    requires { Areas rows.now text.now }
    ensures { (n : ℕ) → length rows.now ≡ 8 * n → result ≡ answer_to (grows (lines n rows.now text.now)) }
{
    if !lines_fit(rows, text) {
        return Err(no_row(Reason::BadLayout));
    }
    match check_rows(rows, DEPTH_MOST) {
        Err(Unnested::Broken) => Err(no_row(Reason::BadLayout)),
        Err(Unnested::Deep) => Err(check_deep(rows)),
        Ok(()) => check_root(rows, text),
    }
}

// The same, after a survey: only what it is not sure of is checked part by part.
fn check_quickly(rows: &[u8], text: &[u8]) -> Result<Whole, Refusal>
    requires { Areas rows.now text.now }
    ensures { (n : ℕ) → length rows.now ≡ 8 * n → result ≡ answer_to (grows (lines n rows.now text.now)) }
{
    if !survey_all(rows, text) {
        return check_areas(rows, text);
    }
    let blocks = root_blocks(rows).ok_or(no_row(Reason::BadLayout))?;
    Ok(Whole {
        start: text.len(),
        rows: rows.len() / 8,
        blocks,
    })
}

// The check of a tree file: refusal 3, 4 or 5, or where its rows start, how many they are, and how many the blocks are.
pub fn check_tree(file: &[u8]) -> Result<Whole, Refusal>
    ensures { result ≡ checked_answer (check_tree file.now) }
{
    if !text::trailed(file) {
        return Err(no_row(Reason::BadLayout));
    }
    let start = text::start_of(file);
    let end = file.len() - 8;
    check_quickly(&file[start..end], &file[..start])
}
