// Commands, by their name without the backslash: which arm an element and a command have, `\item` and `\label`, and the name that a
// command is written by. Nothing here recurses.
#![tactic(auto)]

ghost use Rattle.std.specs.Prelude.{◌≡◌, ◌∷◌, ◌≤◌, length, leb, OnErr};
ghost use Rattle.text.specs.Compare.{same};
ghost use Rattle.text.specs.Outputs.{Puts};
ghost use Rattle.mitex_syntax.specs.Syntax.{ClauseArgument};
ghost use Rattle.mitex_syntax.specs.Tree.{Forest};
ghost use Rattle.mitex_syntax.specs.Views.{first_of, text_in};
ghost use Rattle.mitex_syntax.specs.Spells.{Begins, SpellsAll};
ghost use Rattle.mitex_meaning.specs.Outcome.{label_most};
ghost use Rattle.mitex_meaning.specs.State.{carry_of};
ghost use Rattle.mitex_meaning.specs.Contract.{Agrees, place_of, walked_by};
ghost use Rattle.mitex_meaning.specs.Texts.{space, label_mark, substack_name};
ghost use Rattle.mitex_meaning.specs.Commands.{command_of, item_text, item_in, label_in, label_text, typst_name, other_arguments, arguments_of};
ghost use Rattle.mitex_meaning.specs.Conversion.{element_of};
ghost use Rattle.mitex_commands.specs.Leaves.{mark_of, writes_now, stack_in};

use mitex_meaning::{Arguments, Command, Converter, Element, LABEL_MOST, LaTeXEnv, LaTeXMode};
use mitex_syntax::{
    CLAUSE_ARGUMENT, CLAUSE_LR, Children, ITEM_ATTACH_COMPONENT, ITEM_BEGIN, ITEM_BLOCK_COMMENT,
    ITEM_BRACKET, ITEM_CMD, ITEM_CURLY, ITEM_END, ITEM_ENV, ITEM_FORMULA, ITEM_LR, ITEM_PAREN,
    ITEM_TEXT, ITEM_TYPST_CODE, SCOPE_ROOT, TOKEN_ERROR,
};
use refusals::{Reason, Refusal};
use text::Output;

// The classes of a command with no arguments and of one with a Greedy argument. A class is a byte of the rule file, and what is said of
// it is said of every number: so it is no enum.
const CLASS_NONE: u8 = 0;

const CLASS_GREEDY: u8 = 1;

// ---- arms

// The arm of the main match, by the kind of an element.
pub fn element_of(kind: u8) -> Element
    ensures { result ≡ element_of kind }
{
    match kind {
        TOKEN_ERROR | ITEM_BEGIN | ITEM_END => Element::Unexpected,
        ITEM_LR | CLAUSE_ARGUMENT | SCOPE_ROOT | ITEM_TEXT | ITEM_BRACKET | ITEM_PAREN => {
            Element::Children
        }
        ITEM_FORMULA => Element::Formula,
        ITEM_CURLY => Element::CurlyGroup,
        CLAUSE_LR => Element::ClauseLr,
        ITEM_ATTACH_COMPONENT => Element::AttachComponent,
        ITEM_BLOCK_COMMENT => Element::Silent,
        ITEM_CMD => Element::Command,
        ITEM_ENV => Element::Environment,
        ITEM_TYPST_CODE => Element::TypstCode,
        _ => Element::Token,
    }
}

// The arm of a command, by its name. In a match on the texts the proof would follow each of their bytes.
pub fn command_of(name: &[u8]) -> Command
    ensures { result ≡ command_of name.now }
{
    if text::same(name, b"item") {
        Command::Item
    } else if text::same(name, b"label") {
        Command::Label
    } else if text::same(name, b"includegraphics") {
        Command::IncludeGraphics
    } else if text::same(name, b"array") {
        Command::Array
    } else if text::same(name, b"color") {
        Command::Color
    } else if text::same(name, b"textcolor") || text::same(name, b"colorbox") {
        Command::ColorArguments
    } else {
        Command::Normal
    }
}

// ---- `\item`

// What marks an item of a list; none where the environment is no list.
pub fn mark_of(env: LaTeXEnv) -> Option<u8>
    ensures { result ≡ mark_of env }
{
    match env {
        LaTeXEnv::Itemize => Some(b'-'),
        LaTeXEnv::Enumerate => Some(b'+'),
        _ => None,
    }
}

// A line feed, the indent of the item, which is two less than that of what stands in it, and the mark.
pub fn put_item(out: &mut Output, indent: usize, mark: u8)
    ensures { Puts out.old (item_text indent (mark ∷ space)) out.new }
{
    out.put(b"\n");
    out.put_spaces(indent.saturating_sub(2));
    out.put_byte(mark);
    out.put(b" ");
}

// `\item`
pub fn convert_command_item(c: &Converter, out: &mut Output, row: usize) -> Result<(), Refusal>
    requires { c.now.label_len ≤ label_most }
    ensures agrees { Agrees (walked_by c.now out.new.at result) (place_of c.now) row out.old.at
        out.old.buffer.now out.new.buffer.now (item_in c.now.env c.now.indent (carry_of c.now)) }
    ensures lent { out.new.buffer.ghost_name ≡ out.old.buffer.ghost_name }
    ensures kept { length out.new.buffer.now ≡ length out.old.buffer.now }
    ensures untouched { OnErr result (out.new ≡ out.old) }
{
    let Some(mark) = mark_of(c.env) else {
        return Err(Refusal {
            reason: Reason::NoList,
            row,
        });
    };
    put_item(out, c.indent, mark);
    Ok(())
}

// ---- `\label`

// Whether a label in the environment is written at once.
fn writes_now(env: LaTeXEnv) -> bool
    ensures { result ≡ writes_now env }
{
    matches!(
        env,
        LaTeXEnv::None | LaTeXEnv::Itemize | LaTeXEnv::Enumerate
    )
}

// A label as Typst has it.
pub fn put_label(out: &mut Output, s: &[u8])
    ensures { Puts out.old (label_mark s.now) out.new }
{
    out.put(b"<");
    out.put(s);
    out.put(b">");
}

// The text of the first argument; none where there is none.
pub fn argument_text<'a>(children: Children<'_, 'a>) -> &'a [u8]
    ensures { (f : Forest) → Begins f children.entry.rows.now children.entry.text.now → result.now ≡ text_in (first_of ClauseArgument f) }
{
    children.text_at(children.find_kind(CLAUSE_ARGUMENT))
}

// The text of a label: the first argument without its ends, trimmed.
pub fn label_text<'a>(children: Children<'_, 'a>) -> &'a [u8]
    ensures { (f : Forest) → Begins f children.entry.rows.now children.entry.text.now → result.now ≡ label_text f }
{
    mitex_syntax::trimmed_inner(argument_text(children))
}

// Whether a label can be held.
fn is_short(s: &[u8]) -> bool
    ensures { result ≡ leb (length s.now) label_most }
{
    s.len() <= LABEL_MOST
}

// `\label`: written at once, which in Math is nothing; or held, in place of the one before.
pub fn convert_command_label(
    c: &mut Converter,
    out: &mut Output,
    children: Children,
    row: usize,
) -> Result<(), Refusal>
    requires { c.old.label_len ≤ label_most }
    ensures agrees { (f : Forest) → SpellsAll f children.entry.rows.now children.entry.text.now
        → Agrees (walked_by c.new out.new.at result) (place_of c.old) row out.old.at
        out.old.buffer.now out.new.buffer.now (label_in c.old.env c.old.mode (label_text f) (carry_of c.old)) }
    ensures lent { out.new.buffer.ghost_name ≡ out.old.buffer.ghost_name }
    ensures kept { length out.new.buffer.now ≡ length out.old.buffer.now }
    ensures untouched { OnErr result (out.new ≡ out.old) }
    ensures same { OnErr result (c.new ≡ c.old) }
{
    let s = label_text(children);
    if writes_now(c.env) {
        if c.mode == LaTeXMode::Text {
            put_label(out, s);
        }
        return Ok(());
    }
    if !is_short(s) {
        return Err(Refusal {
            reason: Reason::LongLabel,
            row,
        });
    }
    *c = c.with_label(s);
    Ok(())
}

// ---- all others

// Typst's name of a command: in Text `textbf` and `textit` have others.
fn typst_name<'a>(mode: LaTeXMode, name: &[u8], written: &'a [u8]) -> &'a [u8]
    ensures { result.now ≡ typst_name mode name.now written.now }
{
    if mode == LaTeXMode::Text && text::same(name, b"textbf") {
        b"#strong"
    } else if mode == LaTeXMode::Text && text::same(name, b"textit") {
        b"#emph"
    } else {
        written
    }
}

// Typst's name of a command.
pub fn put_typst_name(out: &mut Output, mode: LaTeXMode, name: &[u8], written: &[u8])
    ensures { Puts out.old (typst_name mode name.now written.now) out.new }
{
    out.put(typst_name(mode, name, written));
}

// Whether that name is `substack`.
pub fn is_stack(mode: LaTeXMode, name: &[u8], written: &[u8]) -> bool
    ensures { result ≡ same (typst_name mode name.now written.now) substack_name }
{
    text::same(typst_name(mode, name, written), b"substack")
}

// The environment of a command's arguments: a stack, or the one that it stands in.
pub fn stack_env(env: LaTeXEnv, stack: bool) -> LaTeXEnv
    ensures { result ≡ stack_in env stack }
{
    if stack { LaTeXEnv::SubStack } else { env }
}

// How a command that is neither without arguments nor Greedy takes its arguments.
fn other_arguments(mode: LaTeXMode, written: &[u8]) -> Arguments
    ensures { result ≡ other_arguments mode written.now }
{
    if mode == LaTeXMode::Text || text::starts_with(written, b"#") {
        return Arguments::TextArguments;
    }
    Arguments::MathArguments
}

// How a command takes its arguments; the two names that differ in Text do not matter.
pub fn arguments_of(class: u8, mode: LaTeXMode, name: &[u8], written: &[u8]) -> Arguments
    ensures { result ≡ arguments_of class mode (typst_name mode name.now written.now) }
{
    match class {
        CLASS_NONE => Arguments::NoArguments,
        CLASS_GREEDY => Arguments::GreedyArgument,
        _ => other_arguments(mode, typst_name(mode, name, written)),
    }
}
