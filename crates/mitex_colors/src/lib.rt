// The parts of a command that its arm walks over: the argument of a Greedy command, and the model, the colour and the body of a colour
// command; and what is written around a model, a colour and a body.
#![tactic(auto)]

ghost use Rattle.std.specs.Prelude.{◌≡◌, List, [], ◌++◌, ℕ, ◌-◌, length};
ghost use Rattle.text.specs.Outputs.{Puts};
ghost use Rattle.mitex_spec.specs.LookUp.{rule_of};
ghost use Rattle.mitex_syntax.specs.Tree.{Forest};
ghost use Rattle.mitex_syntax.specs.Views.{is_solid};
ghost use Rattle.mitex_syntax.specs.Spells.{SpellsAll};
ghost use Rattle.mitex_syntax.specs.Places.{FoundIn};
ghost use Rattle.mitex_meaning.specs.Texts.{left_paren, left_bracket, black, color_end};
ghost use Rattle.mitex_meaning.specs.Colors.{Rest, seek, model_in, is_model, argument_model, color_alias, body_end};
ghost use Rattle.mitex_meaning.specs.Parts.{GreedyFound};
ghost use Rattle.mitex_colors.specs.Scanning.{stops_at, picks, Left, Sought, FirstPassed};
ghost use Rattle.mitex_colors.specs.Models.{model_text, ModelPassed, ModelFound, ColorFound};

use mitex_meaning::LaTeXMode;
use mitex_spec::Found;
use mitex_syntax::{
    CLAUSE_ARGUMENT, CLAUSE_COMMAND_NAME, Children, Cursor, Spot, TOKEN_LBRACKET, TOKEN_RBRACKET,
    Wanted,
};
use text::Output;

// ---- the Greedy argument

// The mark of a token in the second byte of its row.
const TOKEN_MARK: u8 = 1;

// Where the first child that is no command name stands, if it is a node.
pub fn greedy_node(children: Children) -> Option<Spot>
    ensures found { (f : Forest) → SpellsAll f children.entry.rows.now children.entry.text.now
        → GreedyFound f children.entry.rows.now children.entry.text.now result }
    ensures inside { FoundIn children.entry.rows.now children.entry.text.now result }
{
    let first = Cursor { row: 0, text: 0 };
    let argument = children.find(first, Wanted::Other(CLAUSE_COMMAND_NAME))?;
    if children.rows[argument.row + 1] == TOKEN_MARK {
        return None;
    }
    Some(argument)
}

// ---- scanning: what is left of the elements, from one of them on, is again elements

// What a scan stops at: an element that is no trivia, or one of a kind.
#[derive(Clone, Copy)]
enum Stop {
    Solid,
    Kind(u8),
}

// Whether a scan stops at an element of this kind.
fn stops(kind: u8, stop: Stop) -> bool
    ensures { result ≡ stops_at stop kind }
{
    match stop {
        Stop::Solid => !mitex_syntax::is_trivia(kind),
        Stop::Kind(k) => kind == k,
    }
}

// Past the first element, if there is one.
fn past_child<'r, 't>(elements: Children<'r, 't>) -> Children<'r, 't>
    ensures { (tail : List ℕ) (s : Rest) → Left elements.entry.rows.now elements.entry.text.now tail s.elements
        → FirstPassed elements.entry.rows.now elements.entry.text.now tail s result.rows.now result.text.now }
{
    if elements.rows.is_empty() {
        return elements;
    }
    let first = mitex_syntax::span_at(elements.rows, 0);
    Children {
        rows: &elements.rows[first.rows..],
        text: &elements.text[first.text..],
    }
}

// From the first element on that a scan stops at.
fn seek<'r, 't>(elements: Children<'r, 't>, stop: Stop) -> Children<'r, 't>
    ensures { (tail : List ℕ) (s : Rest) → Left elements.entry.rows.now elements.entry.text.now tail s.elements
        → Sought (picks stop) elements.entry.rows.now elements.entry.text.now tail s result.rows.now result.text.now }
{
    let mut rest = elements;
    while !rest.rows.is_empty() && !stops(rest.rows[0], stop) {
        rest = past_child(rest);
    }
    rest
}

// ---- a colour's model

// A colour's model, if it has one, and the place of the elements after it.
#[derive(Clone, Copy)]
pub struct ColorModel<'a> {
    pub text: Option<&'a [u8]>,
    pub rest: Spot,
}

// The place of the last elements, which are left: up to `end` of the rows and `to` of the text.
fn last_place(rest: Children, end: usize, to: usize) -> Spot
    ensures { result ≡ record { row = end - length rest.entry.rows.now; end = end; from = to - length rest.entry.text.now; to = to } }
{
    Spot {
        row: end.saturating_sub(rest.rows.len()),
        end,
        from: to.saturating_sub(rest.text.len()),
        to,
    }
}

// `\color`: a model in brackets, with trivia around it passed over; and the elements that are left after it.
fn greedy_model<'r, 't>(elements: Children<'r, 't>) -> (Option<&'t [u8]>, Children<'r, 't>)
    ensures { (s : Rest) → Left elements.entry.rows.now elements.entry.text.now [] s.elements
        → ModelPassed (model_in (seek is_solid s)) s elements.entry.rows.now elements.entry.text.now result.0 result.1.rows.now result.1.text.now }
{
    let first = seek(elements, Stop::Solid);
    if first.rows.is_empty() || first.rows[0] != TOKEN_LBRACKET {
        return (None, first);
    }
    let begin = past_child(first);
    let end = seek(begin, Stop::Kind(TOKEN_RBRACKET));
    let text = &begin.text[..begin.text.len() - end.text.len()];
    let beyond = past_child(end);
    let behind = seek(beyond, Stop::Solid);
    (Some(text), behind)
}

// The model of `\color`, among the children of its first argument, wherever that stands.
pub fn color_model<'a>(children: Children<'_, 'a>) -> ColorModel<'a>
    ensures { (f : Forest) → SpellsAll f children.entry.rows.now children.entry.text.now
        → ColorFound f children.entry.rows.now children.entry.text.now result }
{
    let Some(argument) = children.find_kind(CLAUSE_ARGUMENT) else {
        let end = children.rows.len();
        let to = children.text.len();
        let rest = Spot {
            row: end,
            end,
            from: to,
            to,
        };
        return ColorModel { text: None, rest };
    };
    let (text, rest) = greedy_model(children.children_at(argument));
    let rest = last_place(rest, argument.end, argument.to);
    ColorModel { text, rest }
}

// Whether an argument's text is a model.
fn is_model(s: &[u8]) -> bool
    ensures { result ≡ is_model s.now }
{
    text::starts_with(s, b"[") && text::ends_with(s, b"]") && 2 <= s.len()
}

// The model of `\textcolor` and `\colorbox`, their first argument.
pub fn argument_model<'a>(children: Children<'_, 'a>) -> ColorModel<'a>
    ensures { (f : Forest) → SpellsAll f children.entry.rows.now children.entry.text.now
        → ModelFound (argument_model 1 f) f children.entry.rows.now children.entry.text.now result }
{
    let end = children.rows.len();
    let to = children.text.len();
    let first = seek(children, Stop::Kind(CLAUSE_ARGUMENT));
    let next = past_child(first);
    let argument = &first.text[..first.text.len() - next.text.len()];
    if is_model(argument) {
        let behind = seek(next, Stop::Kind(CLAUSE_ARGUMENT));
        let text = &argument[1..argument.len() - 1];
        let rest = last_place(behind, end, to);
        return ColorModel {
            text: Some(text),
            rest,
        };
    }
    let rest = last_place(first, end, to);
    ColorModel { text: None, rest }
}

// ---- what is written

// The name of a colour command: its alias, or `mitexcolor`.
fn put_color_name(out: &mut Output, found: Option<Found>)
    ensures { (name : List ℕ) → Puts out.old (color_alias (rule_of name found.entry)) out.new }
{
    let name = found.and_then(|found| found.alias).unwrap_or(b"mitexcolor");
    out.put(name);
}

// A model, or that there is none.
fn put_model(out: &mut Output, model: Option<&[u8]>)
    ensures { Puts out.old (model_text model.entry) out.new }
{
    match model {
        Some(s) => {
            out.put(b"[");
            out.put(s);
            out.put(b"], ");
        }
        None => out.put(b"none, "),
    }
}

// A colour command up to its colour.
pub fn put_color_head(out: &mut Output, found: Option<Found>, model: ColorModel)
    ensures { (name : List ℕ) → Puts out.old (color_alias (rule_of name found.entry)
        ++ (left_paren ++ (model_text model.entry.text ++ left_bracket))) out.new }
{
    put_color_name(out, found);
    out.put(b"(");
    put_model(out, model.text);
    out.put(b"[");
}

// The colour where none is given, and its end.
pub fn put_black(out: &mut Output)
    ensures { Puts out.old (black ++ color_end) out.new }
{
    out.put(b"black])[");
}

// What a colour ends with.
pub fn put_color_end(out: &mut Output)
    ensures { Puts out.old color_end out.new }
{
    out.put(b"])[");
}

// What the body of a colour ends with.
pub fn put_body_end(out: &mut Output, mode: LaTeXMode)
    ensures { Puts out.old (body_end mode) out.new }
{
    match mode {
        LaTeXMode::Text => out.put(b"];"),
        LaTeXMode::Math => out.put(b"]"),
    }
}
