// Environments: the one of a class, what they begin and end with, the held label at their end, and where their parts stand among
// their children. Nothing here recurses.
#![tactic(auto)]

ghost use Rattle.std.specs.Prelude.{◌≡◌, ◌++◌, ℕ, ◌+◌, ◌*◌, ◌≤◌, length, take, drop};
ghost use Rattle.text.specs.Outputs.{Puts};
ghost use Rattle.text.specs.Slices.{PartOf};
ghost use Rattle.mitex_syntax.specs.Syntax.{ClauseArgument};
ghost use Rattle.mitex_syntax.specs.Tree.{Tree, Forest, size};
ghost use Rattle.mitex_syntax.specs.Views.{first_of, text_in, begin_of, children_of};
ghost use Rattle.mitex_syntax.specs.Spells.{Spells, SpellsAll};
ghost use Rattle.mitex_syntax.specs.Places.{SpotIn};
ghost use Rattle.mitex_meaning.specs.Outcome.{label_most};
ghost use Rattle.mitex_meaning.specs.Texts.{left_paren, right_paren, hash, dollar_begin, dollar_end};
ghost use Rattle.mitex_meaning.specs.Contract.{Takes};
ghost use Rattle.mitex_meaning.specs.Environments.{env_of, is_list, env_begin, env_end, is_caption, caption_from_row};
ghost use Rattle.mitex_meaning.specs.Tables.{table_head};
ghost use Rattle.mitex_meaning.specs.Parts.{part_rows, part_text, BeginFound, CaptionFound};
ghost use Rattle.mitex_environments.specs.Captions.{caption_there, child_caption, Shows, caption_text, caption_close};

use mitex_meaning::{Converter, LaTeXEnv, LaTeXMode};
use mitex_syntax::{CLAUSE_ARGUMENT, Children, ITEM_CMD, Spot};
use mitex_tables::put_table_head;
use text::Output;

// The classes of environments, in the order of `ContextFeature`; from 3 on, and any other is None. A class is a byte of the rule file,
// and what is said of it is said of every number: so it is no enum.
const CLASS_MATH: u8 = 4;

const CLASS_MATRIX: u8 = 5;

const CLASS_CASES: u8 = 6;

const CLASS_FIGURE: u8 = 7;

const CLASS_TABLE: u8 = 8;

const CLASS_ITEMIZE: u8 = 9;

const CLASS_ENUMERATE: u8 = 10;

// The environment of a class.
pub fn env_of(class: u8) -> LaTeXEnv
    ensures { result ≡ env_of class }
{
    match class {
        CLASS_MATH => LaTeXEnv::Math,
        CLASS_MATRIX => LaTeXEnv::Matrix,
        CLASS_CASES => LaTeXEnv::Cases,
        CLASS_FIGURE => LaTeXEnv::Figure,
        CLASS_TABLE => LaTeXEnv::Table,
        CLASS_ITEMIZE => LaTeXEnv::Itemize,
        CLASS_ENUMERATE => LaTeXEnv::Enumerate,
        _ => LaTeXEnv::None,
    }
}

// Whether an environment is a list.
pub fn is_list(env: LaTeXEnv) -> bool
    ensures { result ≡ is_list env }
{
    matches!(env, LaTeXEnv::Itemize | LaTeXEnv::Enumerate)
}

// ---- what they begin and end with

// The call of a function in Text: its name, and what its arguments begin with.
fn put_call(out: &mut Output, name: &[u8], opening: &[u8])
    ensures { Puts out.old (hash ++ (name.now ++ opening.now)) out.new }
{
    out.put(b"#");
    out.put(name);
    out.put(opening);
}

// What a figure or a table begins with.
pub fn put_hash_begin(out: &mut Output, name: &[u8])
    ensures { Puts out.old (hash ++ (name.now ++ left_paren)) out.new }
{
    put_call(out, name, b"(");
}

// What a list or a normal environment begins with: only a normal one has a text of its own.
pub fn put_env_begin(out: &mut Output, env: LaTeXEnv, name: &[u8])
    ensures { Puts out.old (env_begin env name.now) out.new }
{
    if env == LaTeXEnv::None {
        put_call(out, name, b"[");
    }
}

// What a list or a normal environment ends with.
pub fn put_env_end(out: &mut Output, env: LaTeXEnv)
    ensures { Puts out.old (env_end env) out.new }
{
    if env == LaTeXEnv::None {
        out.put(b"];");
    }
}

// What a formula of its own begins with, in Text.
fn put_dollar_begin(out: &mut Output, mode: LaTeXMode)
    ensures { Puts out.old (dollar_begin mode) out.new }
{
    if mode == LaTeXMode::Text {
        out.put(b"$ ");
    }
}

// What an environment for Math begins with.
pub fn put_math_begin(out: &mut Output, mode: LaTeXMode, name: &[u8])
    ensures { Puts out.old (dollar_begin mode ++ (name.now ++ left_paren)) out.new }
{
    put_dollar_begin(out, mode);
    out.put(name);
    out.put(b"(");
}

// What an environment for Math ends with.
pub fn put_math_end(out: &mut Output, mode: LaTeXMode)
    ensures { Puts out.old (right_paren ++ dollar_end mode) out.new }
{
    match mode {
        LaTeXMode::Text => out.put(b") $"),
        LaTeXMode::Math => out.put(b")"),
    }
}

// What a table begins with: the call, and the head by its column letters.
pub fn put_table_begin(out: &mut Output, name: &[u8], letters: &[u8])
    ensures { Puts out.old (hash ++ (name.now ++ (left_paren ++ table_head letters.now))) out.new }
{
    put_hash_begin(out, name);
    put_table_head(out, letters);
}

// What a figure begins with: the call, and the begin of its caption if it has one.
pub fn put_figure_begin(out: &mut Output, name: &[u8], captioned: bool)
    ensures { Puts out.old ((hash ++ (name.now ++ left_paren)) ++ caption_text captioned) out.new }
{
    put_hash_begin(out, name);
    if captioned {
        out.put(b"caption: [");
    }
}

// The end of a figure's caption, if it has one, and the begin of its body.
pub fn put_caption_end(out: &mut Output, captioned: bool)
    ensures { Puts out.old (caption_close captioned) out.new }
{
    if captioned {
        out.put(b"],");
    }
    out.put(b")[");
}

// ---- the held label

// The end of an environment: any but a list that ends in Text takes the held label, which is then written and dropped.
pub fn take_label(c: &mut Converter, out: &mut Output, list: bool)
    requires { c.old.label_len ≤ label_most }
    ensures { Takes c.old out.old list c.old.mode c.new out.new }
{
    if list || c.mode == LaTeXMode::Math {
        return;
    }
    if c.label_held {
        mitex_commands::put_label(out, &c.label[..c.label_len]);
    }
    *c = c.without_label();
}

// ---- where the parts stand

// The children of an environment's begin, and from which byte on their rows stand among those of its children.
#[derive(Clone, Copy)]
pub struct BeginPart<'r, 't> {
    pub row: usize,
    pub children: Children<'r, 't>,
}

// The children of the first ItemBegin; none where there is none.
pub fn begin_part<'r, 't>(children: Children<'r, 't>) -> BeginPart<'r, 't>
    ensures found { (f : Forest) → SpellsAll f children.entry.rows.now children.entry.text.now
        → BeginFound f result.row result.children.rows.now result.children.text.now }
    ensures inside { result.row + length result.children.rows.now ≤ length children.entry.rows.now }
    ensures stop { length result.children.text.now ≤ length children.entry.text.now }
    ensures rows { result.children.rows.now ≡ take (length result.children.rows.now) (drop result.row children.entry.rows.now) }
    ensures text { PartOf result.children.text.now children.entry.text.now }
{
    match children.begin() {
        Some(spot) => BeginPart {
            row: spot.row + 8,
            children: children.children_at(spot),
        },
        None => BeginPart {
            row: 0,
            children: Children {
                rows: &children.rows[..0],
                text: &children.text[..0],
            },
        },
    }
}

// The text of the first argument of a table; none where there is none.
pub fn table_argument<'a>(children: Children<'_, 'a>) -> &'a [u8]
    ensures { (f : Forest) → SpellsAll f children.entry.rows.now children.entry.text.now → result.now ≡ text_in (first_of ClauseArgument (begin_of f)) }
{
    mitex_commands::argument_text(begin_part(children).children)
}

// ---- captions

// Whether this child is a caption.
fn is_caption(children: Children, child: Spot) -> bool
    requires { SpotIn children.rows.now children.text.now child }
    ensures { (t : Tree) → Spells t (part_rows child children.entry.rows.now) (part_text child children.entry.text.now) → result ≡ is_caption t }
{
    children.rows[child.row] == ITEM_CMD
        && text::same(children.children_at(child).name_tok(), b"\\caption")
}

// The first argument of this child, a caption; where it has none, how many rows below the first child it stands.
fn argument_at(children: Children, child: Spot) -> Result<Spot, usize>
    requires { SpotIn children.rows.now children.text.now child }
    ensures { (t : Tree) (o : ℕ) → child.row ≡ 8 * o → Spells t (part_rows child children.entry.rows.now) (part_text child children.entry.text.now)
        → Shows (caption_from_row (1 + o) t (first_of ClauseArgument (children_of t))) (size t) children.entry.rows.now children.entry.text.now (caption_there result) }
{
    let Some(argument) = children.children_at(child).find_kind(CLAUSE_ARGUMENT) else {
        return Err(child.row / 8);
    };
    Ok(Spot {
        row: child.row + 8 + argument.row,
        end: child.row + 8 + argument.end,
        from: child.from + argument.from,
        to: child.from + argument.to,
    })
}

// The caption that this child is, if any.
fn caption_at(children: Children, child: Spot) -> Result<Option<Spot>, usize>
    requires { SpotIn children.rows.now children.text.now child }
    ensures { (t : Tree) (o : ℕ) → child.row ≡ 8 * o → Spells t (part_rows child children.entry.rows.now) (part_text child children.entry.text.now)
        → Shows (child_caption (1 + o) t) (size t) children.entry.rows.now children.entry.text.now result }
{
    if !is_caption(children, child) {
        return Ok(None);
    }
    argument_at(children, child).map(Some)
}

// The argument of the last caption among the children of a figure, if it has a caption; or, of the first caption without an argument,
// how many rows below the first child it stands.
pub fn last_caption(children: Children) -> Result<Option<Spot>, usize>
    ensures { (f : Forest) → SpellsAll f children.entry.rows.now children.entry.text.now → CaptionFound f children.entry.rows.now children.entry.text.now result }
{
    let mut last = None;
    let mut row = 0;
    let mut from = 0;
    while row < children.rows.len() {
        let span = mitex_syntax::span_at(children.rows, row);
        let end = row + span.rows;
        let to = from + span.text;
        let found = caption_at(children, Spot { row, end, from, to })?;
        last = found.or(last);
        row = end;
        from = to;
    }
    Ok(last)
}
