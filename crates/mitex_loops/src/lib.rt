// What the loops of the converter over children do, child by child, and the small leaves that its arms need: nothing here recurses.
#![tactic(auto)]

ghost use Rattle.std.specs.Prelude.{◌≡◌, true, false, ◌&&◌, ◌||◌, cond, List, [], ◌++◌, ℕ, ◌+◌, ◌≤◌, ◌<◌, length, drop, eqb};
ghost use Rattle.text.specs.Writing.{cap, decimal};
ghost use Rattle.text.specs.Outputs.{Puts};
ghost use Rattle.mitex_syntax.specs.Syntax.{ClauseArgument, ClauseCommandName, ItemCurly, ItemAttachComponent};
ghost use Rattle.mitex_syntax.specs.Tree.{Tree, Forest, kind_of, rows_ofs, texts_of};
ghost use Rattle.mitex_syntax.specs.Views.{children_of, cmd_name};
ghost use Rattle.mitex_syntax.specs.Spells.{SpellsAll, Begins};
ghost use Rattle.mitex_meaning.specs.Children.{is_blank, is_dot, is_split, is_ends, follows, others_follow, is_named, act_of, attach_act, rule_act, cell_act, before, converts, behind, next_attach, next_exterior, next_loop, attach_end, loop_end};
ghost use Rattle.mitex_meaning.specs.Texts.{left_paren, colon_space, formula_begin, formula_end};
ghost use Rattle.mitex_meaning.specs.Texts.{blank_group, no_base, named_arg, last_cell_end, table_end};
ghost use Rattle.mitex_meaning.specs.Groups.{group_env, lr_begin, lr_end, attach_loop};
ghost use Rattle.mitex_meaning.specs.Colors.{body_loop, arguments_loop};
ghost use Rattle.mitex_meaning.specs.Runs.{is_children, is_flat, is_steady, all_blank};
ghost use Rattle.mitex_meaning.specs.declared.Act.TheVariants.{Skip, Convert, Space, ThenSpace, ThenComma, InDollars};
ghost use Rattle.mitex_loops.specs.Given.{OthersGiven, ChildIs, Decides, number_of};
ghost use Rattle.mitex_loops.specs.Steady.{SteadyGiven, SteadyRun};
ghost use Rattle.mitex_loops.specs.FirstChild.{FirstApart, lr_name};

use mitex_meaning::{Act, Attach, LaTeXEnv, LaTeXMode, Loop};
use mitex_syntax::{
    CLAUSE_ARGUMENT, CLAUSE_COMMAND_NAME, Children, ITEM_ATTACH_COMPONENT, ITEM_BEGIN,
    ITEM_BRACKET, ITEM_CMD, ITEM_CURLY, ITEM_END, ITEM_LR, ITEM_NEW_LINE, ITEM_PAREN, ITEM_TEXT,
    SCOPE_ROOT, Span, TOKEN_AMPERSAND, TOKEN_CARET, TOKEN_LBRACE, TOKEN_LINE_BREAK, TOKEN_RBRACE,
    TOKEN_UNDERSCORE, TOKEN_WHITE_SPACE, TOKEN_WORD,
};
use text::Output;

// A child in a loop: its kind, what stands in it with its text, and the rows of the children behind it.
#[derive(Clone, Copy)]
pub struct Child<'a> {
    pub kind: u8,
    pub inner: Children<'a, 'a>,
    pub behind: &'a [u8],
}

// ---- what a loop looks at

// White space, a line break or a brace: leaves a curly group blank.
pub fn is_blank(kind: u8) -> bool
    ensures { result ≡ is_blank kind }
{
    matches!(
        kind,
        TOKEN_WHITE_SPACE | TOKEN_LINE_BREAK | TOKEN_LBRACE | TOKEN_RBRACE
    )
}

// The lone dot of `\left.`.
fn is_dot(kind: u8, s: &[u8]) -> bool
    ensures { result ≡ is_dot kind s.now }
{
    kind == TOKEN_WORD && text::same(s, b".")
}

// The underscore or caret that splits an attachment.
pub fn is_split(kind: u8) -> bool
    ensures { result ≡ is_split kind }
{
    matches!(kind, TOKEN_UNDERSCORE | TOKEN_CARET)
}

// The begin or the end of an environment.
fn is_ends(kind: u8) -> bool
    ensures { result ≡ is_ends kind }
{
    matches!(kind, ITEM_BEGIN | ITEM_END)
}

// A text without its first byte, the backslash of a name.
pub fn past_first(s: &[u8]) -> &[u8]
    ensures { result.now ≡ drop 1 s.now }
{
    match s {
        [_, rest @ ..] => rest,
        [] => s,
    }
}

impl Child<'_> {
    // Whether a child follows.
    fn is_followed(self) -> bool
        ensures { (t : Tree) (f : Forest) → ChildIs t f self.entry → result ≡ follows f }
    {
        !self.behind.is_empty()
    }

    // Whether one of the children behind is no command name. It goes by a place, since children have unlike numbers of rows.
    fn others_follow(self) -> bool
        requires { OthersGiven self.behind.now }
        ensures { (t : Tree) (f : Forest) → ChildIs t f self.entry → result ≡ others_follow f }
    {
        let behind = self.behind;
        let mut i = 0;
        while i < behind.len() {
            if behind[i] != CLAUSE_COMMAND_NAME {
                return true;
            }
            i += mitex_syntax::extent(behind, i);
        }
        false
    }

    // A command that a figure takes for itself.
    fn is_named(self) -> bool
        ensures { (t : Tree) (f : Forest) → ChildIs t f self.entry → result ≡ is_named t }
    {
        if self.kind != ITEM_CMD {
            return false;
        }
        let name = self.inner.name_tok();
        text::same(name, b"\\caption") || text::same(name, b"\\centering")
    }
}

// ---- what a loop does with a child

// `\left` and `\right`: a space after each child, or in place of a lone dot.
fn spaced_act(kind: u8, s: &[u8]) -> Act
    ensures { result ≡ cond (is_dot kind s.now) Space ThenSpace }
{
    if is_dot(kind, s) {
        Act::Space
    } else {
        Act::ThenSpace
    }
}

// An attachment: its first underscore or caret splits it.
fn attach_act(state: Attach, kind: u8) -> Act
    ensures { result ≡ attach_act state (is_split kind) }
{
    match state {
        Attach::Bare if is_split(kind) => Act::SplitBare,
        Attach::Based if is_split(kind) => Act::SplitBased,
        _ => Act::Convert,
    }
}

// The argument of a Greedy command: a comma after a curly group that another child follows.
fn greedy_act(child: Child) -> Act
    ensures { (t : Tree) (f : Forest) → ChildIs t f child.entry → result ≡ cond (eqb child.entry.kind ItemCurly && follows f) ThenComma Convert }
{
    match child.kind {
        ITEM_CURLY if child.is_followed() => Act::ThenComma,
        _ => Act::Convert,
    }
}

// The arguments of a command in Math: a comma after an argument that another element follows.
fn separated_act(child: Child) -> Act
    requires { OthersGiven child.behind.now }
    ensures { (t : Tree) (f : Forest) → ChildIs t f child.entry → result ≡ cond (eqb child.entry.kind ClauseCommandName) Skip (cond (eqb child.entry.kind ClauseArgument && others_follow f) ThenComma Convert) }
{
    match child.kind {
        CLAUSE_COMMAND_NAME => Act::Skip,
        CLAUSE_ARGUMENT if child.others_follow() => Act::ThenComma,
        _ => Act::Convert,
    }
}

// An argument, with which the loop does `act`; anything else is passed over.
fn argument_act(kind: u8, act: Act) -> Act
    ensures { result ≡ cond (eqb kind ClauseArgument) act Skip }
{
    if kind == CLAUSE_ARGUMENT {
        act
    } else {
        Act::Skip
    }
}

// The further argument of a colour: between dollars or not.
fn dollars_act(dollars: bool) -> Act
    ensures { result ≡ cond dollars InDollars Convert }
{
    if dollars {
        Act::InDollars
    } else {
        Act::Convert
    }
}

// What stands in an environment, without its begin and end.
fn inside_act(kind: u8) -> Act
    ensures { result ≡ cond (is_ends kind) Skip Convert }
{
    if is_ends(kind) {
        Act::Skip
    } else {
        Act::Convert
    }
}

// A command outside a cell: a rule command, or a cell's first child. The names are compared one by one, since a `match` on them would
// leave a case to prove for each of their bytes.
fn rule_act(name: &[u8]) -> Act
    ensures { result ≡ rule_act name.now }
{
    if text::same(name, b"hline") {
        Act::ThinRule
    } else if text::same(name, b"toprule") {
        Act::ThickRule
    } else if text::same(name, b"midrule") {
        Act::ThinRule
    } else if text::same(name, b"bottomrule") {
        Act::ThickRule
    } else {
        Act::Open
    }
}

// A child of a table outside a cell; any but those named here opens one.
fn outside_act(child: Child) -> Act
    ensures { (t : Tree) (f : Forest) → ChildIs t f child.entry → result ≡ cell_act true (kind_of t) (drop 1 (cmd_name (children_of t))) }
{
    match child.kind {
        TOKEN_WHITE_SPACE | TOKEN_LINE_BREAK => Act::Skip,
        TOKEN_AMPERSAND => Act::Empty,
        ITEM_NEW_LINE => Act::EmptyLast,
        ITEM_CMD => rule_act(past_first(child.inner.name_tok())),
        _ => Act::Open,
    }
}

// A child of a table in a cell, where rule commands do not count.
fn cell_act(child: Child) -> Act
    ensures { (t : Tree) (f : Forest) → ChildIs t f child.entry → result ≡ cell_act false (kind_of t) (drop 1 (cmd_name (children_of t))) }
{
    match child.kind {
        TOKEN_AMPERSAND => Act::Close,
        ITEM_NEW_LINE => Act::CloseLast,
        _ => Act::Convert,
    }
}

// What stands in a table.
fn table_act(exterior: bool, child: Child) -> Act
    ensures { Decides (Loop.Table exterior) child.entry result }
{
    if is_ends(child.kind) {
        Act::Skip
    } else if exterior {
        outside_act(child)
    } else {
        cell_act(child)
    }
}

// What stands in a figure, without its captions.
fn figure_act(child: Child) -> Act
    ensures { Decides Loop.Figure child.entry result }
{
    if is_ends(child.kind) || child.is_named() {
        Act::Skip
    } else {
        Act::Convert
    }
}

// What a loop does with a child.
pub fn act_of(l: Loop, child: Child) -> Act
    requires { OthersGiven child.behind.now }
    ensures { Decides l child.entry result }
{
    let kind = child.kind;
    match l {
        Loop::Plain | Loop::Curly(_) => Act::Convert,
        Loop::Spaced => spaced_act(kind, child.inner.text),
        Loop::Attached(state) => attach_act(state, kind),
        Loop::Greedy => greedy_act(child),
        Loop::Separated => separated_act(child),
        Loop::Bracketed => argument_act(kind, Act::InBrackets),
        Loop::Dollars => Act::InDollars,
        Loop::Arguments(dollars) => argument_act(kind, dollars_act(dollars)),
        Loop::Named(n) => argument_act(kind, Act::Name(n)),
        Loop::Inside => inside_act(kind),
        Loop::Figure => figure_act(child),
        Loop::Table(exterior) => table_act(exterior, child),
    }
}

// Whether a child with which the loop does this is converted.
pub fn converts(act: Act) -> bool
    ensures { result ≡ converts act }
{
    match act {
        Act::Convert | Act::ThenSpace | Act::ThenComma => true,
        Act::InBrackets | Act::InDollars | Act::Name(_) | Act::Open => true,
        _ => false,
    }
}

// ---- how a loop goes on

// White space before the split is no base, anything else is.
fn next_attach(state: Attach, kind: u8) -> Attach
    ensures { result ≡ next_attach state kind }
{
    if is_split(kind) {
        Attach::Split
    } else if state == Attach::Bare && kind != TOKEN_WHITE_SPACE {
        Attach::Based
    } else {
        state
    }
}

// Whether the next child stands outside a cell.
fn next_exterior(exterior: bool, act: Act) -> bool
    ensures { result ≡ next_exterior exterior act }
{
    match act {
        Act::Open => false,
        Act::Close | Act::CloseLast => true,
        _ => exterior,
    }
}

// The number of the next named argument.
fn next_number(n: usize, kind: u8) -> usize
    requires { n < cap }
    ensures { result ≡ cond (eqb kind ClauseArgument) (n + 1) n }
{
    if kind == CLAUSE_ARGUMENT { n + 1 } else { n }
}

// The loop's state after a child of this kind; the number of a named argument stays below the cap.
pub fn next_loop(l: Loop, kind: u8, act: Act) -> Loop
    requires { number_of l < cap }
    ensures { result ≡ next_loop l kind act }
{
    match l {
        Loop::Curly(blank) => Loop::Curly(blank && is_blank(kind)),
        Loop::Attached(state) => Loop::Attached(next_attach(state, kind)),
        Loop::Named(n) => Loop::Named(next_number(n, kind)),
        Loop::Table(exterior) => Loop::Table(next_exterior(exterior, act)),
        _ => l,
    }
}

// ---- runs of children

// A node that means its children, in every mode.
fn is_children(kind: u8) -> bool
    ensures { result ≡ is_children kind }
{
    matches!(
        kind,
        ITEM_LR | CLAUSE_ARGUMENT | SCOPE_ROOT | ITEM_TEXT | ITEM_BRACKET | ITEM_PAREN
    )
}

// A curly group or an attachment.
fn is_group(kind: u8) -> bool
    ensures { result ≡ (eqb kind ItemCurly || eqb kind ItemAttachComponent) }
{
    matches!(kind, ITEM_CURLY | ITEM_ATTACH_COMPONENT)
}

// A node that means its children in this mode: it clears the flag, and no more.
pub fn is_flat(kind: u8, mode: LaTeXMode) -> bool
    ensures { result ≡ is_flat mode kind }
{
    is_children(kind) || mode == LaTeXMode::Text && is_group(kind)
}

// Whether the loop converts every child of this kind with nothing around it, and stays as it is.
fn is_steady(l: Loop, kind: u8) -> bool
    ensures { result ≡ is_steady l kind }
{
    match l {
        Loop::Plain | Loop::Attached(Attach::Split) => true,
        Loop::Greedy => kind != ITEM_CURLY,
        Loop::Inside => !is_ends(kind),
        // a command might be the figure's caption
        Loop::Figure => !is_ends(kind) && kind != ITEM_CMD,
        // an ampersand or a new line ends a cell
        Loop::Table(false) => !matches!(
            kind,
            ITEM_BEGIN | ITEM_END | TOKEN_AMPERSAND | ITEM_NEW_LINE
        ),
        _ => false,
    }
}

// How many bytes of rows and of text the first of these children have, up to the first that the loop is not steady on. It goes by a
// place, since children have unlike numbers of rows.
pub fn steady_run(l: Loop, rows: &[u8]) -> Span
    requires { SteadyGiven rows.now }
    ensures { (f : Forest) → rows.now ≡ rows_ofs f → length (texts_of f) < cap → SteadyRun l f result }
{
    let mut k = 0;
    let mut n = 0;
    while k < rows.len() && is_steady(l, rows[k]) {
        let s = mitex_syntax::span_at(rows, k);
        k += s.rows;
        n += s.text;
    }
    Span { rows: k, text: n }
}

// Whether these children leave a curly group blank. They are tokens then, each with one row.
pub fn is_blank_group(rows: &[u8]) -> bool
    ensures { (f : Forest) (text : List ℕ) → Begins f rows.now text → result ≡ all_blank f }
{
    rows.chunks_exact(8).all(|row| is_blank(row[0]))
}

// ---- the first child

// The bytes of the first child, none where there is no child.
pub fn first_span(children: Children) -> Span
    ensures inside { (result.rows ≤ length children.entry.rows.now) × (result.text ≤ length children.entry.text.now) }
    ensures parts { (f : Forest) → SpellsAll f children.entry.rows.now children.entry.text.now → FirstApart f children.entry.rows.now children.entry.text.now result }
{
    if children.rows.is_empty() {
        return Span { rows: 0, text: 0 };
    }
    mitex_syntax::span_at(children.rows, 0)
}

// The name of `\left` or `\right`: the first child without its backslash; none where there is no child.
pub fn lr_name<'a>(children: Children<'_, 'a>) -> &'a [u8]
    ensures { (f : Forest) → SpellsAll f children.entry.rows.now children.entry.text.now → result.now ≡ lr_name f }
{
    let first = first_span(children);
    past_first(&children.text[..first.text])
}

// ---- what is written

// The token that splits an attachment, and the bracket that the rest stands in.
pub fn put_split(out: &mut Output, s: &[u8])
    ensures { Puts out.old (s.now ++ left_paren) out.new }
{
    out.put(s);
    out.put(b"(");
}

// The same where no base stands before it.
fn put_split_bare(out: &mut Output, s: &[u8])
    ensures { Puts out.old (no_base ++ (s.now ++ left_paren)) out.new }
{
    out.put(b"zws");
    put_split(out, s);
}

// The name of the n-th argument.
fn put_name(out: &mut Output, n: usize)
    ensures { Puts out.old (named_arg ++ (decimal n ++ colon_space)) out.new }
{
    out.put(b"arg");
    out.put_decimal(n);
    out.put(b": ");
}

// What is written before a child, or in its place.
pub fn put_before(out: &mut Output, act: Act, s: &[u8])
    ensures { Puts out.old (before act s.now) out.new }
{
    match act {
        Act::Space => out.put(b" "),
        Act::InBrackets | Act::Open => out.put(b"["),
        Act::InDollars => out.put(b"$"),
        Act::SplitBare => put_split_bare(out, s),
        Act::SplitBased => put_split(out, s),
        Act::Name(n) => put_name(out, n),
        Act::Empty => out.put(b"[], "),
        Act::EmptyLast => out.put(b"[],\n"),
        Act::ThinRule => out.put(b"table.hline(stroke: .5pt),\n"),
        Act::ThickRule => out.put(b"table.hline(stroke: 1pt),\n"),
        Act::Close => out.put(b"], "),
        Act::CloseLast => out.put(b"],\n"),
        _ => {}
    }
}

// What is written behind a child.
pub fn put_behind(out: &mut Output, act: Act)
    ensures { Puts out.old (behind act) out.new }
{
    match act {
        Act::ThenSpace => out.put_byte(b' '),
        Act::ThenComma | Act::Name(_) => out.put_byte(b','),
        Act::InBrackets => out.put_byte(b']'),
        Act::InDollars => out.put_byte(b'$'),
        _ => {}
    }
}

// What an attachment ends with.
fn put_attach_end(out: &mut Output, state: Attach)
    ensures { Puts out.old (attach_end state) out.new }
{
    if state == Attach::Split {
        out.put(b")");
    }
}

// What a curly group in Math ends with.
pub fn put_curly_end(out: &mut Output, blank: bool)
    ensures { Puts out.old (cond blank blank_group []) out.new }
{
    if blank {
        out.put(b"zws ");
    }
}

// What a table ends with: a cell that is still open is closed.
fn put_table_end(out: &mut Output, exterior: bool)
    ensures { Puts out.old (cond exterior [] last_cell_end ++ table_end) out.new }
{
    if exterior {
        out.put(b");");
    } else {
        out.put(b"],\n);");
    }
}

// What a loop ends with.
pub fn put_loop_end(out: &mut Output, l: Loop)
    ensures { Puts out.old (loop_end l) out.new }
{
    match l {
        Loop::Curly(blank) => put_curly_end(out, blank),
        Loop::Attached(state) => put_attach_end(out, state),
        Loop::Table(exterior) => put_table_end(out, exterior),
        _ => {}
    }
}

// What a formula begins with.
pub fn put_formula_begin(out: &mut Output, mode: LaTeXMode, inline: bool)
    ensures { Puts out.old (formula_begin mode inline) out.new }
{
    match (mode, inline) {
        (LaTeXMode::Text, true) => out.put(b"#math.equation(block: false, $"),
        (LaTeXMode::Text, false) => out.put(b"$ "),
        (LaTeXMode::Math, _) => {}
    }
}

// What a formula ends with.
pub fn put_formula_end(out: &mut Output, mode: LaTeXMode, inline: bool)
    ensures { Puts out.old (formula_end mode inline) out.new }
{
    match (mode, inline) {
        (LaTeXMode::Text, true) => out.put(b"$);"),
        (LaTeXMode::Text, false) => out.put(b" $"),
        (LaTeXMode::Math, _) => {}
    }
}

// What `\left` begins with.
pub fn put_lr_begin(out: &mut Output, name: &[u8])
    ensures { Puts out.old (lr_begin name.now) out.new }
{
    if text::same(name, b"left") {
        out.put(b"lr(");
    }
}

// What the clause of `\right` ends with; one of any other name ends with nothing.
pub fn put_lr_end(out: &mut Output, name: &[u8])
    ensures { Puts out.old (lr_end name.now) out.new }
{
    if text::same(name, b"right") {
        out.put(b")");
    }
}

// ---- where the arms begin

// The environment in a curly group in Math.
pub fn group_env(env: LaTeXEnv) -> LaTeXEnv
    ensures { result ≡ group_env env }
{
    match env {
        LaTeXEnv::SubStack => env,
        _ => LaTeXEnv::MathCurlyGroup,
    }
}

// The loop over an attachment.
pub fn attach_loop(mode: LaTeXMode) -> Loop
    ensures { result ≡ attach_loop mode }
{
    match mode {
        LaTeXMode::Text => Loop::Plain,
        LaTeXMode::Math => Loop::Attached(Attach::Bare),
    }
}

// The loop over the body of `\color`.
pub fn body_loop(mode: LaTeXMode) -> Loop
    ensures { result ≡ body_loop mode }
{
    match mode {
        LaTeXMode::Text => Loop::Plain,
        LaTeXMode::Math => Loop::Dollars,
    }
}

// The loop over the further arguments of the other colours: in Math each between dollars.
pub fn arguments_loop(mode: LaTeXMode) -> Loop
    ensures { result ≡ arguments_loop mode }
{
    Loop::Arguments(mode == LaTeXMode::Math)
}
