// The converter's state, and what its loops over children do with a child. The meaning of a conversion is in specs/.
#![tactic(auto)]

ghost use Rattle.std.specs.Prelude.{◌≡◌, ◌+◌, ◌<◌, ◌≤◌, ◌^◌, length};
ghost use Rattle.mitex_meaning.specs.Outcome.{label_most, step_of};
ghost use Rattle.mitex_meaning.specs.State.{new_of, opening_of, with_mode, entered_env, exited_env, with_flag, with_label, without_label};

// The mode of the text that is written.
#[derive(Clone, Copy, PartialEq, Eq, Debug)]
pub enum LaTeXMode {
    Text,
    Math,
}

// The environment around an element.
#[derive(Clone, Copy, PartialEq, Eq, Debug)]
pub enum LaTeXEnv {
    // Text mode
    None,
    Figure,
    Table,
    Itemize,
    Enumerate,
    // Math mode
    Math,
    Matrix,
    Cases,
    SubStack,
    MathCurlyGroup,
}

// The longest label that can be held.
pub const LABEL_MOST: usize = 120;

// The state: the held label is bytes, of which label_len count while label_held.
#[derive(Clone, Copy)]
pub struct Converter {
    pub mode: LaTeXMode,
    pub env: LaTeXEnv,
    // twice the number of lists around
    pub indent: usize,
    pub label: [u8; LABEL_MOST],
    pub label_len: usize,
    pub label_held: bool,
    // skip the space at the beginning of a line
    pub skip_next_space: bool,
}

// How far an attachment like `x_1^2` has come: nothing before the split, a base before it, or past the split.
#[derive(Clone, Copy, PartialEq, Eq, Debug)]
pub enum Attach {
    Bare,
    Based,
    Split,
}

// The loops of the converter over the children of an element, each with its own state. Loops and acts are values, and no functions of
// their own, because the definitions say of these values what each loop does (`act_of`, `next_loop`, `loop_end`).
#[derive(Clone, Copy, PartialEq, Eq, Debug)]
pub enum Loop {
    // each child is converted
    Plain,
    // a curly group in Math: blank so far or not
    Curly(bool),
    // `\left` and `\right`: a space after each, a lone dot is not converted
    Spaced,
    // an attachment in Math
    Attached(Attach),
    // the argument of a Greedy command: a comma after each curly group but the last child
    Greedy,
    // the arguments of a command in Math: a comma after each argument but the last child
    Separated,
    // the arguments of a command in Text, each in brackets
    Bracketed,
    // the body of a colour in Math, each element between dollars
    Dollars,
    // the further arguments of a colour: between dollars or not
    Arguments(bool),
    // the arguments of an environment for Math, the next one's number
    Named(usize),
    // what stands in an environment, without its begin and end
    Inside,
    // what stands in a figure, without its captions
    Figure,
    // what stands in a table: outside a cell or in one
    Table(bool),
}

// What a loop does with a child.
#[derive(Clone, Copy, PartialEq, Eq, Debug)]
pub enum Act {
    // passed over
    Skip,
    // converted
    Convert,
    // converted, and a space after it
    ThenSpace,
    // a space in its place
    Space,
    // converted, and a comma after it
    ThenComma,
    // converted between brackets
    InBrackets,
    // converted between dollars
    InDollars,
    // the splitting token of an attachment, without a base and with one
    SplitBare,
    SplitBased,
    // converted as a named argument
    Name(usize),
    // an empty cell, and one at the end of a line
    Empty,
    EmptyLast,
    // a rule, thin and thick
    ThinRule,
    ThickRule,
    // the first child of a cell
    Open,
    // the end of a cell, and one at the end of a line
    Close,
    CloseLast,
}

// The arms of the converter's match on the kind of an element.
#[derive(Clone, Copy, PartialEq, Eq, Debug)]
pub enum Element {
    // refused: TokenError, and ItemBegin or ItemEnd outside of an environment
    Unexpected,
    Children,
    Formula,
    CurlyGroup,
    ClauseLr,
    AttachComponent,
    // a block comment
    Silent,
    Command,
    Environment,
    TypstCode,
    Token,
}

// The commands that have an arm of their own, and all others.
#[derive(Clone, Copy, PartialEq, Eq, Debug)]
pub enum Command {
    Item,
    Label,
    IncludeGraphics,
    Array,
    Color,
    // `\textcolor` and `\colorbox`
    ColorArguments,
    Normal,
}

// How a command takes its arguments.
#[derive(Clone, Copy, PartialEq, Eq, Debug)]
pub enum Arguments {
    NoArguments,
    GreedyArgument,
    MathArguments,
    TextArguments,
}

// By how much an environment indents.
pub fn step_of(env: LaTeXEnv) -> usize
    ensures { result ≡ step_of env }
{
    match env {
        LaTeXEnv::Itemize | LaTeXEnv::Enumerate => 2,
        _ => 0,
    }
}

impl Converter {
    pub fn new(mode: LaTeXMode) -> Converter
        ensures { result ≡ new_of mode }
    {
        Converter {
            mode,
            env: LaTeXEnv::None,
            indent: 0,
            label: [0; LABEL_MOST],
            label_len: 0,
            label_held: false,
            skip_next_space: true,
        }
    }

    // The converter in a mode; the caller keeps the mode before.
    pub fn entered_mode(mut self, context: LaTeXMode) -> Converter
        ensures { result ≡ with_mode context self }
    {
        self.enter_mode(context);
        self
    }

    // The converter back in the mode before.
    pub fn exited_mode(mut self, prev: LaTeXMode) -> Converter
        ensures { result ≡ with_mode prev self }
    {
        self.exit_mode(prev);
        self
    }

    // The converter in an environment; a list is two further in.
    pub fn entered_env(mut self, context: LaTeXEnv) -> Converter
        requires { self.indent + step_of context < 2 ^ 64 }
        ensures { result ≡ entered_env context self }
    {
        self.enter_env(context);
        self
    }

    // The converter back in the environment before; the indent of a list is at least 2.
    pub fn exited_env(mut self, prev: LaTeXEnv) -> Converter
        requires { step_of self.env ≤ self.indent }
        ensures { result ≡ exited_env prev self }
    {
        self.exit_env(prev);
        self
    }

    // In a mode; the mode before is returned.
    pub fn enter_mode(&mut self, context: LaTeXMode) -> LaTeXMode
        ensures { (result ≡ self.old.mode) × (self.new ≡ with_mode context self.old) }
    {
        let prev = self.mode;
        self.mode = context;
        prev
    }

    // Back in the mode before.
    pub fn exit_mode(&mut self, prev: LaTeXMode)
        ensures { self.new ≡ with_mode prev self.old }
    {
        self.mode = prev;
    }

    // In an environment; a list is two further in. The environment before is returned.
    pub fn enter_env(&mut self, context: LaTeXEnv) -> LaTeXEnv
        requires { self.old.indent + step_of context < 2 ^ 64 }
        ensures { (result ≡ self.old.env) × (self.new ≡ entered_env context self.old) }
    {
        let prev = self.env;
        self.indent += step_of(context);
        self.env = context;
        prev
    }

    // Back in the environment before; the indent of a list is at least 2.
    pub fn exit_env(&mut self, prev: LaTeXEnv)
        requires { step_of self.old.env ≤ self.old.indent }
        ensures { self.new ≡ exited_env prev self.old }
    {
        self.indent -= step_of(self.env);
        self.env = prev;
    }

    // The flag set so.
    pub fn with_flag(self, flag: bool) -> Converter
        ensures { result ≡ with_flag flag self }
    {
        Converter {
            skip_next_space: flag,
            ..self
        }
    }

    // A new converter past the root, which clears the flag: so a space that begins a document is written.
    pub fn opening(mode: LaTeXMode) -> Converter
        ensures { result ≡ opening_of mode }
    {
        Converter::new(mode).with_flag(false)
    }

    // With no label held.
    pub fn without_label(self) -> Converter
        ensures { result ≡ without_label self }
    {
        Converter {
            label_len: 0,
            label_held: false,
            ..self
        }
    }

    // With this label held.
    pub fn with_label(self, s: &[u8]) -> Converter
        requires { length s.now ≤ label_most }
        ensures { result ≡ with_label s.now self }
    {
        let mut label = self.label;
        text::copy_bytes(&mut label[..s.len()], s);
        Converter {
            label,
            label_len: s.len(),
            label_held: true,
            ..self
        }
    }
}

// By how much what stands in an environment is further in than what follows it: the environment is entered and left on a converter
// that this function lends. Its own parameters are plain, so that whoever calls it needs to know nothing of a loan.
pub fn indent_in(mut c: Converter, context: LaTeXEnv) -> usize
    requires { c.indent + step_of context < 2 ^ 64 }
    ensures { result ≡ step_of context }
{
    let prev = c.enter_env(context);
    let inside = c.indent;
    c.exit_env(prev);
    inside - c.indent
}
