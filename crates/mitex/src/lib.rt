// The walk: `convert` and its helpers, which call each other as in the Rust. Each is lent the converter and the output; elements come down
// as parts of the tree file. The mode and the environment are entered before what stands in them and left behind it.
#![tactic(auto)]

ghost use Rattle.std.specs.Prelude.{◌≡◌, ◌+◌, length};
ghost use Rattle.mitex_syntax.specs.Spells.{SomeTree};
ghost use Rattle.mitex_meaning.specs.Contract.{walked_by};
ghost use Rattle.mitex_meaning.specs.Groups.{children, formula, curly_group, clause_lr};
ghost use Rattle.mitex_meaning.specs.Commands.{command, arguments_by, normal_command};
ghost use Rattle.mitex_meaning.specs.Environments.{environment, env_body, math_env, figure_env, table_env};
ghost use Rattle.mitex_meaning.specs.Conversion.{element_of, arm_by};
ghost use Rattle.mitex_loops.specs.Given.{number_of};
ghost use Rattle.mitex.specs.Walks.{Room, ColorGiven, looping, ConvertsElement, Walks, Turns, Colors};

mod elements;

pub use elements::Elements;
use mitex_colors::ColorModel;
use mitex_meaning::{Act, Arguments, Command, Converter, Element, LaTeXEnv, LaTeXMode, Loop};
use mitex_spec::Rules;
use mitex_syntax::Spot;
use refusals::{Reason, Refusal};
use text::Output;

// The second byte of a token's row.
const TOKEN_MARK: u8 = 1;

// Where no elements stand.
const NOTHING: Spot = Spot {
    row: 0,
    end: 0,
    from: 0,
    to: 0,
};

// A block, one element, from the converter that the block before left. It stands one row after `e.row`.
pub fn convert_block<'a>(
    c: &mut Converter,
    out: &mut Output,
    e: Elements<'a>,
    rules: Rules<'a, 'a>,
) -> Result<(), Refusal>
    requires room { Room 0 e.rows.now c.old }
    requires some_tree { SomeTree e.rows.now e.text.now }
    ensures converts { ConvertsElement rules.entry.file.now rules.entry.index.now e.entry.rows.now e.entry.text.now (1 + e.entry.row)
        c.old out.old.at out.old.buffer.now (walked_by c.new out.new.at result) out.new.buffer.now }
    ensures lent { out.new.buffer.ghost_name ≡ out.old.buffer.ghost_name }
    ensures kept { length out.new.buffer.now ≡ length out.old.buffer.now }
{
    convert(c, out, e, rules)
}

// Elements side by side. Tokens go in runs; a node that only clears the flag is entered here: its children come next.
#[cycle(walk)]
fn convert<'a>(
    c: &mut Converter,
    out: &mut Output,
    e: Elements<'a>,
    rules: Rules<'a, 'a>,
) -> Result<(), Refusal>
    requires { Room 0 e.rows.now c.old }
    ensures walks { Walks rules.entry.file.now rules.entry.index.now e.entry.rows.now e.entry.text.now e.entry.row
        c.old out.old.at out.old.buffer.now (walked_by c.new out.new.at result) out.new.buffer.now children }
    ensures lent { out.new.buffer.ghost_name ≡ out.old.buffer.ghost_name }
    ensures kept { length out.new.buffer.now ≡ length out.old.buffer.now }
{
    let mut rest = e;
    while !rest.rows.is_empty() {
        if rest.rows[1] == TOKEN_MARK {
            let run = mitex_tokens::convert_tokens(c, out, rest.rows, rest.text, rest.row, rules)?;
            rest = rest.behind(run.rows, run.text);
            continue;
        }
        let kind = rest.rows[0];
        c.skip_next_space = false;
        if mitex_loops::is_flat(kind, c.mode) {
            rest = rest.behind(8, 0);
            continue;
        }
        let span = mitex_syntax::span_at(rest.rows, 0);
        arm(c, out, rest.inside_first(span), rules, kind)?;
        rest = rest.behind(span.rows, span.text);
    }
    Ok(())
}

// A node, by its kind; the caller has cleared the flag.
#[cycle(walk)]
fn arm<'a>(
    c: &mut Converter,
    out: &mut Output,
    e: Elements<'a>,
    rules: Rules<'a, 'a>,
    kind: u8,
) -> Result<(), Refusal>
    requires { Room 8 e.rows.now c.old }
    ensures walks { Walks rules.entry.file.now rules.entry.index.now e.entry.rows.now e.entry.text.now e.entry.row
        c.old out.old.at out.old.buffer.now (walked_by c.new out.new.at result) out.new.buffer.now (arm_by (element_of kind)) }
    ensures lent { out.new.buffer.ghost_name ≡ out.old.buffer.ghost_name }
    ensures kept { length out.new.buffer.now ≡ length out.old.buffer.now }
{
    match mitex_commands::element_of(kind) {
        Element::Unexpected | Element::Token => Err(Refusal {
            reason: Reason::Misplaced,
            row: e.row,
        }),
        Element::Children => convert(c, out, e, rules),
        Element::Formula => convert_formula(c, out, e, rules),
        Element::CurlyGroup => convert_curly_group(c, out, e, rules),
        Element::ClauseLr => convert_clause_lr(c, out, e, rules),
        Element::AttachComponent => {
            let how = mitex_loops::attach_loop(c.mode);
            each(c, out, e, rules, how)
        }
        Element::Silent => Ok(()),
        Element::Command => cmd(c, out, e, rules),
        Element::Environment => convert_env(c, out, e, rules),
        Element::TypstCode => {
            out.put(e.text);
            Ok(())
        }
    }
}

// One child in a loop: what is written before it, the child itself if it is converted, and what is written after.
#[cycle(walk)]
fn turn<'a>(
    c: &mut Converter,
    out: &mut Output,
    e: Elements<'a>,
    rules: Rules<'a, 'a>,
    act: Act,
) -> Result<(), Refusal>
    requires room { Room 0 e.rows.now c.old }
    requires some_tree { SomeTree e.rows.now e.text.now }
    ensures walks { Turns rules.entry.file.now rules.entry.index.now e.entry.rows.now e.entry.text.now e.entry.row
        c.old out.old.at out.old.buffer.now (walked_by c.new out.new.at result) out.new.buffer.now act }
    ensures lent { out.new.buffer.ghost_name ≡ out.old.buffer.ghost_name }
    ensures kept { length out.new.buffer.now ≡ length out.old.buffer.now }
{
    mitex_loops::put_before(out, act, e.text);
    if !mitex_loops::converts(act) {
        return Ok(());
    }
    convert(c, out, e, rules)?;
    mitex_loops::put_behind(out, act);
    Ok(())
}

// Elements side by side, by a loop. Those that the loop converts with nothing around them, and that leave it as it is, go in one call.
#[cycle(walk)]
fn each<'a>(
    c: &mut Converter,
    out: &mut Output,
    e: Elements<'a>,
    rules: Rules<'a, 'a>,
    how: Loop,
) -> Result<(), Refusal>
    requires room { Room 0 e.rows.now c.old }
    requires how_value { number_of how ≡ 0 }
    ensures walks { Walks rules.entry.file.now rules.entry.index.now e.entry.rows.now e.entry.text.now e.entry.row
        c.old out.old.at out.old.buffer.now (walked_by c.new out.new.at result) out.new.buffer.now (looping how) }
    ensures lent { out.new.buffer.ghost_name ≡ out.old.buffer.ghost_name }
    ensures kept { length out.new.buffer.now ≡ length out.old.buffer.now }
{
    let mut l = how;
    let mut rest = e;
    while !rest.rows.is_empty() {
        let run = mitex_loops::steady_run(l, rest.rows);
        if 0 < run.rows {
            convert(c, out, rest.front(run), rules)?;
            rest = rest.behind(run.rows, run.text);
            continue;
        }
        let span = mitex_syntax::span_at(rest.rows, 0);
        let child = rest.first_child(span);
        let act = mitex_loops::act_of(l, child);
        turn(c, out, rest.front(span), rules, act)?;
        l = mitex_loops::next_loop(l, child.kind, act);
        rest = rest.behind(span.rows, span.text);
    }
    mitex_loops::put_loop_end(out, l);
    Ok(())
}

// A formula like `$x$` or `$$x$$`.
#[cycle(walk)]
fn convert_formula<'a>(
    c: &mut Converter,
    out: &mut Output,
    e: Elements<'a>,
    rules: Rules<'a, 'a>,
) -> Result<(), Refusal>
    requires { Room 8 e.rows.now c.old }
    ensures walks { Walks rules.entry.file.now rules.entry.index.now e.entry.rows.now e.entry.text.now e.entry.row
        c.old out.old.at out.old.buffer.now (walked_by c.new out.new.at result) out.new.buffer.now formula }
    ensures lent { out.new.buffer.ghost_name ≡ out.old.buffer.ghost_name }
    ensures kept { length out.new.buffer.now ≡ length out.old.buffer.now }
{
    let children = e.children();
    if !children.is_valid() {
        let reason = Reason::UnlikeEnds;
        return Err(Refusal { reason, row: e.row });
    }
    let inline = children.is_inline();
    mitex_loops::put_formula_begin(out, c.mode, inline);
    let prev = c.enter_mode(LaTeXMode::Math);
    convert(c, out, e, rules)?;
    c.exit_mode(prev);
    mitex_loops::put_formula_end(out, c.mode, inline);
    Ok(())
}

// A curly group like `{abc}`; only in Math a blank one is marked.
#[cycle(walk)]
fn convert_curly_group<'a>(
    c: &mut Converter,
    out: &mut Output,
    e: Elements<'a>,
    rules: Rules<'a, 'a>,
) -> Result<(), Refusal>
    requires { Room 8 e.rows.now c.old }
    ensures walks { Walks rules.entry.file.now rules.entry.index.now e.entry.rows.now e.entry.text.now e.entry.row
        c.old out.old.at out.old.buffer.now (walked_by c.new out.new.at result) out.new.buffer.now curly_group }
    ensures lent { out.new.buffer.ghost_name ≡ out.old.buffer.ghost_name }
    ensures kept { length out.new.buffer.now ≡ length out.old.buffer.now }
{
    match c.mode {
        LaTeXMode::Text => convert(c, out, e, rules),
        LaTeXMode::Math => {
            let group = mitex_loops::group_env(c.env);
            let prev = c.enter_env(group);
            convert(c, out, e, rules)?;
            c.exit_env(prev);
            mitex_loops::put_curly_end(out, mitex_loops::is_blank_group(e.rows));
            Ok(())
        }
    }
}

// `\left` and `\right`: the first child is the name.
#[cycle(walk)]
fn convert_clause_lr<'a>(
    c: &mut Converter,
    out: &mut Output,
    e: Elements<'a>,
    rules: Rules<'a, 'a>,
) -> Result<(), Refusal>
    requires { Room 8 e.rows.now c.old }
    ensures walks { Walks rules.entry.file.now rules.entry.index.now e.entry.rows.now e.entry.text.now e.entry.row
        c.old out.old.at out.old.buffer.now (walked_by c.new out.new.at result) out.new.buffer.now clause_lr }
    ensures lent { out.new.buffer.ghost_name ≡ out.old.buffer.ghost_name }
    ensures kept { length out.new.buffer.now ≡ length out.old.buffer.now }
{
    let children = e.children();
    let first = mitex_loops::first_span(children);
    let name = mitex_loops::lr_name(children);
    mitex_loops::put_lr_begin(out, name);
    each(
        c,
        out,
        e.behind(first.rows, first.text),
        rules,
        Loop::Spaced,
    )?;
    mitex_loops::put_lr_end(out, name);
    Ok(())
}

// A command, by its name.
#[cycle(walk)]
fn cmd<'a>(
    c: &mut Converter,
    out: &mut Output,
    e: Elements<'a>,
    rules: Rules<'a, 'a>,
) -> Result<(), Refusal>
    requires { Room 8 e.rows.now c.old }
    ensures walks { Walks rules.entry.file.now rules.entry.index.now e.entry.rows.now e.entry.text.now e.entry.row
        c.old out.old.at out.old.buffer.now (walked_by c.new out.new.at result) out.new.buffer.now command }
    ensures lent { out.new.buffer.ghost_name ≡ out.old.buffer.ghost_name }
    ensures kept { length out.new.buffer.now ≡ length out.old.buffer.now }
{
    let children = e.children();
    let name = mitex_loops::past_first(children.name_tok());
    match mitex_commands::command_of(name) {
        Command::Item => mitex_commands::convert_command_item(c, out, e.row),
        Command::Label => mitex_commands::convert_command_label(c, out, children, e.row),
        Command::IncludeGraphics => {
            mitex_images::convert_command_includegraphics(out, children);
            Ok(())
        }
        Command::Array => Ok(()),
        Command::Color => {
            let how = mitex_loops::body_loop(c.mode);
            let model = mitex_colors::color_model(children);
            convert_command_color(c, out, e, rules, name, model, how)
        }
        Command::ColorArguments => {
            let how = mitex_loops::arguments_loop(c.mode);
            let model = mitex_colors::argument_model(children);
            convert_command_color(c, out, e, rules, name, model, how)
        }
        Command::Normal => convert_normal_command(c, out, e, rules, name),
    }
}

// A colour command: its model, then the colour and the body; where there is neither, the colour is black.
#[cycle(walk)]
fn convert_command_color<'a>(
    c: &mut Converter,
    out: &mut Output,
    e: Elements<'a>,
    rules: Rules<'a, 'a>,
    name: &'a [u8],
    model: ColorModel<'a>,
    how: Loop,
) -> Result<(), Refusal>
    requires room { Room 8 e.rows.now c.old }
    requires color_given { ColorGiven e.rows.now e.text.now model how }
    ensures walks { Colors rules.entry.file.now rules.entry.index.now e.entry.rows.now e.entry.text.now e.entry.row
        c.old out.old.at out.old.buffer.now (walked_by c.new out.new.at result) out.new.buffer.now name.now model.entry how }
    ensures lent { out.new.buffer.ghost_name ≡ out.old.buffer.ghost_name }
    ensures kept { length out.new.buffer.now ≡ length out.old.buffer.now }
{
    mitex_colors::put_color_head(out, rules.get_cmd(name), model);
    let rest = e.part(model.rest);
    if rest.rows.is_empty() {
        mitex_colors::put_black(out);
        mitex_colors::put_body_end(out, c.mode);
        return Ok(());
    }
    let span = mitex_syntax::span_at(rest.rows, 0);
    let prev = c.enter_mode(LaTeXMode::Text);
    convert(c, out, rest.front(span), rules)?;
    c.exit_mode(prev);
    mitex_colors::put_color_end(out);
    each(c, out, rest.behind(span.rows, span.text), rules, how)?;
    mitex_colors::put_body_end(out, c.mode);
    Ok(())
}

// A command by its rule; the arguments of `\substack` stand in an environment of their own, which is not further in.
#[cycle(walk)]
fn convert_normal_command<'a>(
    c: &mut Converter,
    out: &mut Output,
    e: Elements<'a>,
    rules: Rules<'a, 'a>,
    name: &'a [u8],
) -> Result<(), Refusal>
    requires { Room 8 e.rows.now c.old }
    ensures walks { Walks rules.entry.file.now rules.entry.index.now e.entry.rows.now e.entry.text.now e.entry.row
        c.old out.old.at out.old.buffer.now (walked_by c.new out.new.at result) out.new.buffer.now (normal_command name.now) }
    ensures lent { out.new.buffer.ghost_name ≡ out.old.buffer.ghost_name }
    ensures kept { length out.new.buffer.now ≡ length out.old.buffer.now }
{
    let Some(found) = rules.get_cmd(name) else {
        let reason = Reason::NoCommand;
        return Err(Refusal { reason, row: e.row });
    };
    let written = mitex_spec::written_name(name, found);
    let how = mitex_commands::arguments_of(found.class, c.mode, name, written);
    let stack = mitex_commands::is_stack(c.mode, name, written);
    mitex_commands::put_typst_name(out, c.mode, name, written);
    let prev = c.env;
    c.env = mitex_commands::stack_env(prev, stack);
    args(c, out, e, rules, how)?;
    c.env = prev;
    Ok(())
}

// The arguments of a command, after its name.
#[cycle(walk)]
fn args<'a>(
    c: &mut Converter,
    out: &mut Output,
    e: Elements<'a>,
    rules: Rules<'a, 'a>,
    how: Arguments,
) -> Result<(), Refusal>
    requires { Room 8 e.rows.now c.old }
    ensures walks { Walks rules.entry.file.now rules.entry.index.now e.entry.rows.now e.entry.text.now e.entry.row
        c.old out.old.at out.old.buffer.now (walked_by c.new out.new.at result) out.new.buffer.now (arguments_by how) }
    ensures lent { out.new.buffer.ghost_name ≡ out.old.buffer.ghost_name }
    ensures kept { length out.new.buffer.now ≡ length out.old.buffer.now }
{
    match how {
        Arguments::NoArguments => {
            out.put(b" ");
            Ok(())
        }
        Arguments::GreedyArgument => {
            let Some(node) = mitex_colors::greedy_node(e.children()) else {
                let reason = Reason::NoArgument;
                return Err(Refusal { reason, row: e.row });
            };
            out.put(b"(");
            each(c, out, e.inside(node), rules, Loop::Greedy)?;
            out.put(b")");
            Ok(())
        }
        Arguments::MathArguments => {
            out.put(b"(");
            each(c, out, e, rules, Loop::Separated)?;
            out.put(b")");
            Ok(())
        }
        Arguments::TextArguments => {
            let prev = c.enter_mode(LaTeXMode::Text);
            each(c, out, e, rules, Loop::Bracketed)?;
            c.exit_mode(prev);
            out.put(b";");
            Ok(())
        }
    }
}

// An environment, by its rule; where it ends in Text, any but a list takes the held label.
#[cycle(walk)]
fn convert_env<'a>(
    c: &mut Converter,
    out: &mut Output,
    e: Elements<'a>,
    rules: Rules<'a, 'a>,
) -> Result<(), Refusal>
    requires { Room 8 e.rows.now c.old }
    ensures walks { Walks rules.entry.file.now rules.entry.index.now e.entry.rows.now e.entry.text.now e.entry.row
        c.old out.old.at out.old.buffer.now (walked_by c.new out.new.at result) out.new.buffer.now environment }
    ensures lent { out.new.buffer.ghost_name ≡ out.old.buffer.ghost_name }
    ensures kept { length out.new.buffer.now ≡ length out.old.buffer.now }
{
    let name = utf8::trim(e.children().env_name());
    let Some(found) = rules.get_env(name) else {
        let reason = Reason::NoEnvironment;
        return Err(Refusal { reason, row: e.row });
    };
    let env = mitex_environments::env_of(found.class);
    body(c, out, e, rules, mitex_spec::written_name(name, found), env)?;
    mitex_environments::take_label(c, out, mitex_environments::is_list(env));
    Ok(())
}

// What stands in an environment.
#[cycle(walk)]
fn body<'a>(
    c: &mut Converter,
    out: &mut Output,
    e: Elements<'a>,
    rules: Rules<'a, 'a>,
    name: &'a [u8],
    env: LaTeXEnv,
) -> Result<(), Refusal>
    requires { Room 8 e.rows.now c.old }
    ensures walks { Walks rules.entry.file.now rules.entry.index.now e.entry.rows.now e.entry.text.now e.entry.row
        c.old out.old.at out.old.buffer.now (walked_by c.new out.new.at result) out.new.buffer.now (env_body env name.now) }
    ensures lent { out.new.buffer.ghost_name ≡ out.old.buffer.ghost_name }
    ensures kept { length out.new.buffer.now ≡ length out.old.buffer.now }
{
    match env {
        LaTeXEnv::None | LaTeXEnv::Itemize | LaTeXEnv::Enumerate => {
            mitex_environments::put_env_begin(out, env, name);
            let prev = c.enter_env(env);
            each(c, out, e, rules, Loop::Inside)?;
            c.exit_env(prev);
            mitex_environments::put_env_end(out, env);
            Ok(())
        }
        LaTeXEnv::Figure => convert_env_figure(c, out, e, rules, name),
        LaTeXEnv::Table => convert_env_table(c, out, e, rules, name),
        LaTeXEnv::Math
        | LaTeXEnv::Matrix
        | LaTeXEnv::Cases
        | LaTeXEnv::SubStack
        | LaTeXEnv::MathCurlyGroup => math(c, out, e, rules, name, env),
    }
}

// An environment for Math: a function like `mat(a, b; c, d)`, its arguments first.
#[cycle(walk)]
fn math<'a>(
    c: &mut Converter,
    out: &mut Output,
    e: Elements<'a>,
    rules: Rules<'a, 'a>,
    name: &'a [u8],
    env: LaTeXEnv,
) -> Result<(), Refusal>
    requires { Room 8 e.rows.now c.old }
    ensures walks { Walks rules.entry.file.now rules.entry.index.now e.entry.rows.now e.entry.text.now e.entry.row
        c.old out.old.at out.old.buffer.now (walked_by c.new out.new.at result) out.new.buffer.now (math_env env name.now) }
    ensures lent { out.new.buffer.ghost_name ≡ out.old.buffer.ghost_name }
    ensures kept { length out.new.buffer.now ≡ length out.old.buffer.now }
{
    let begin = mitex_environments::begin_part(e.children());
    let arguments = Elements {
        rows: begin.children.rows,
        text: begin.children.text,
        row: e.row + begin.row / 8,
    };
    mitex_environments::put_math_begin(out, c.mode, name);
    let prev_mode = c.enter_mode(LaTeXMode::Math);
    let prev = c.enter_env(env);
    each(c, out, arguments, rules, Loop::Named(0))?;
    each(c, out, e, rules, Loop::Inside)?;
    c.exit_env(prev);
    c.exit_mode(prev_mode);
    mitex_environments::put_math_end(out, c.mode);
    Ok(())
}

// A figure: its last caption, then the children.
#[cycle(walk)]
fn convert_env_figure<'a>(
    c: &mut Converter,
    out: &mut Output,
    e: Elements<'a>,
    rules: Rules<'a, 'a>,
    name: &'a [u8],
) -> Result<(), Refusal>
    requires { Room 8 e.rows.now c.old }
    ensures walks { Walks rules.entry.file.now rules.entry.index.now e.entry.rows.now e.entry.text.now e.entry.row
        c.old out.old.at out.old.buffer.now (walked_by c.new out.new.at result) out.new.buffer.now (figure_env name.now) }
    ensures lent { out.new.buffer.ghost_name ≡ out.old.buffer.ghost_name }
    ensures kept { length out.new.buffer.now ≡ length out.old.buffer.now }
{
    let caption = match mitex_environments::last_caption(e.children()) {
        Ok(caption) => caption,
        Err(below) => {
            let reason = Reason::NoArgument;
            let row = e.row + 1 + below;
            return Err(Refusal { reason, row });
        }
    };
    mitex_environments::put_figure_begin(out, name, caption.is_some());
    let prev = c.enter_env(LaTeXEnv::Figure);
    convert(c, out, e.part(caption.unwrap_or(NOTHING)), rules)?;
    mitex_environments::put_caption_end(out, caption.is_some());
    each(c, out, e, rules, Loop::Figure)?;
    c.exit_env(prev);
    out.put(b"];");
    Ok(())
}

// A table: the head by its column letters, then the cells.
#[cycle(walk)]
fn convert_env_table<'a>(
    c: &mut Converter,
    out: &mut Output,
    e: Elements<'a>,
    rules: Rules<'a, 'a>,
    name: &'a [u8],
) -> Result<(), Refusal>
    requires { Room 8 e.rows.now c.old }
    ensures walks { Walks rules.entry.file.now rules.entry.index.now e.entry.rows.now e.entry.text.now e.entry.row
        c.old out.old.at out.old.buffer.now (walked_by c.new out.new.at result) out.new.buffer.now (table_env name.now) }
    ensures lent { out.new.buffer.ghost_name ≡ out.old.buffer.ghost_name }
    ensures kept { length out.new.buffer.now ≡ length out.old.buffer.now }
{
    let argument = mitex_environments::table_argument(e.children());
    if !mitex_tables::has_ends(argument) {
        let reason = Reason::NoArgument;
        return Err(Refusal { reason, row: e.row });
    }
    let letters = mitex_syntax::trimmed_inner(argument);
    if !mitex_tables::letters_fit(letters) {
        let reason = Reason::BadColumn;
        return Err(Refusal { reason, row: e.row });
    }
    mitex_environments::put_table_begin(out, name, letters);
    let prev = c.enter_env(LaTeXEnv::Table);
    each(c, out, e, rules, Loop::Table(true))?;
    c.exit_env(prev);
    Ok(())
}
