// What a token writes: a leaf of the converter, since a token has no children. And what tokens that stand one behind the other write.
#![tactic(auto)]

ghost use Rattle.std.specs.Prelude.{◌≡◌, true, false, List, ◌++◌, ◌+◌, ◌≤◌, ◌<◌, length, get_or, OnErr};
ghost use Rattle.std.proofs.Math.Option.Option.{some};
ghost use Rattle.text.specs.Writing.{spaces};
ghost use Rattle.text.specs.Outputs.{Puts};
ghost use Rattle.utf8.specs.Chars.{chars};
ghost use Rattle.mitex_spec.specs.Rules.{Rule};
ghost use Rattle.mitex_spec.specs.RuleFile.{rules_of};
ghost use Rattle.mitex_syntax.specs.Syntax.{TokenApostrophe};
ghost use Rattle.mitex_meaning.specs.Outcome.{Context, Label};
ghost use Rattle.mitex_meaning.specs.State.{context_of, with_flag};
ghost use Rattle.mitex_meaning.specs.Texts.{escape, tilde, ampersand, new_line};
ghost use Rattle.mitex_meaning.specs.Tokens.{spaced, word, token_text, white_space, command_sym, token_out};
ghost use Rattle.mitex_tokens.specs.Escapes.{escape_of};
ghost use Rattle.mitex_tokens.specs.Comes.{carrying, Comes, Unrefused};
ghost use Rattle.mitex_tokens.specs.Running.{is_copied};
ghost use Rattle.mitex_tokens.specs.Runs.{RunGiven, Copies, PartGoes, RunGoes};

use mitex_meaning::{Converter, LaTeXEnv, LaTeXMode};
use mitex_spec::Rules;
use mitex_syntax::{
    CLAUSE_COMMAND_NAME, ITEM_NEW_LINE, Span, TOKEN_AMPERSAND, TOKEN_APOSTROPHE, TOKEN_ASTERISK,
    TOKEN_AT_SIGN, TOKEN_CARET, TOKEN_COMMA, TOKEN_COMMAND_SYM, TOKEN_DITTO, TOKEN_ERROR,
    TOKEN_HASH, TOKEN_LBRACKET, TOKEN_LINE_BREAK, TOKEN_LPAREN, TOKEN_RBRACKET, TOKEN_RPAREN,
    TOKEN_SEMICOLON, TOKEN_SLASH, TOKEN_TILDE, TOKEN_UNDERSCORE, TOKEN_WHITE_SPACE, TOKEN_WORD,
};
use refusals::{Reason, Refusal};
use text::Output;

// Each character of `s` and a space.
pub fn put_spaced(out: &mut Output, s: &[u8])
    ensures { Puts out.old (spaced (chars s.now)) out.new }
{
    let mut t = s;
    while !t.is_empty() {
        let n = utf8::char_len(t);
        out.put(&t[..n]);
        out.put_byte(b' ');
        t = &t[n..];
    }
}

// The byte that is escaped for a token of this kind, if one is.
fn escaped(kind: u8) -> Option<u8>
    ensures { (kind ≡ TokenApostrophe → ⊥) → escape_of result ≡ escape kind }
{
    let b = match kind {
        TOKEN_COMMA => b',',
        TOKEN_SLASH => b'/',
        TOKEN_CARET => b'^',
        TOKEN_UNDERSCORE => b'_',
        TOKEN_HASH => b'#',
        TOKEN_ASTERISK => b'*',
        TOKEN_AT_SIGN => b'@',
        TOKEN_DITTO => b'"',
        TOKEN_SEMICOLON => b';',
        TOKEN_LPAREN => b'(',
        TOKEN_RPAREN => b')',
        TOKEN_LBRACKET => b'[',
        TOKEN_RBRACKET => b']',
        _ => return None,
    };
    Some(b)
}

// The escape of a token of this kind; most kinds have none.
pub fn put_escape(out: &mut Output, kind: u8)
    ensures { Puts out.old (escape kind) out.new }
{
    if kind == TOKEN_APOSTROPHE {
        out.put_byte(b'\'');
    } else if let Some(b) = escaped(kind) {
        out.put_byte(b'\\');
        out.put_byte(b);
    }
}

// A word; in Math each character and a space.
fn put_word(out: &mut Output, s: &[u8], mode: LaTeXMode)
    ensures { Puts out.old (word mode s.now) out.new }
{
    match mode {
        LaTeXMode::Text => out.put(s),
        LaTeXMode::Math => put_spaced(out, s),
    }
}

// A tilde.
fn put_tilde(out: &mut Output, mode: LaTeXMode)
    ensures { Puts out.old (tilde mode) out.new }
{
    match mode {
        LaTeXMode::Text => out.put(b"\\~"),
        LaTeXMode::Math => out.put(b"space.nobreak "),
    }
}

// An ampersand.
fn put_ampersand(out: &mut Output, env: LaTeXEnv)
    ensures { Puts out.old (ampersand env) out.new }
{
    match env {
        LaTeXEnv::Matrix => out.put(b"zws ,"),
        _ => out.put(b"&"),
    }
}

// A new line, `\\`.
fn put_new_line(out: &mut Output, env: LaTeXEnv)
    ensures { Puts out.old (new_line env) out.new }
{
    match env {
        LaTeXEnv::Matrix => out.put(b"zws ;"),
        LaTeXEnv::Cases => out.put(b","),
        LaTeXEnv::MathCurlyGroup => {}
        _ => out.put(b"\\ "),
    }
}

// The tokens that only write.
pub fn put_token_text(out: &mut Output, kind: u8, s: &[u8], mode: LaTeXMode, env: LaTeXEnv)
    ensures { (x : Context) → x.mode ≡ mode → x.env ≡ env → Puts out.old (token_text x kind s.now) out.new }
{
    match kind {
        TOKEN_WORD => put_word(out, s, mode),
        TOKEN_TILDE => put_tilde(out, mode),
        TOKEN_AMPERSAND => put_ampersand(out, env),
        ITEM_NEW_LINE => put_new_line(out, env),
        _ => put_escape(out, kind),
    }
}

// White space: with the flag set it clears it and writes nothing.
fn put_space(c: &mut Converter, out: &mut Output, s: &[u8])
    ensures comes { (l : Label) → Comes (Ok tt) c.new.skip_next_space l out.old out.new
        (white_space c.old.skip_next_space s.now (carrying c.old.skip_next_space l)) }
    ensures flag_alone { c.new ≡ with_flag c.new.skip_next_space c.old }
{
    if c.skip_next_space {
        c.skip_next_space = false;
    } else {
        out.put(s);
    }
}

// A line break: its text and the indent; the next space is skipped.
fn put_break(c: &mut Converter, out: &mut Output, s: &[u8])
    ensures puts { Puts out.old (s.now ++ spaces c.old.indent) out.new }
    ensures flag_set { c.new ≡ with_flag true c.old }
{
    out.put(s);
    out.put_spaces(c.indent);
    c.skip_next_space = true;
}

// The tokens that only write, which clear the flag.
fn put_mark(c: &mut Converter, out: &mut Output, kind: u8, s: &[u8])
    ensures puts { (x : Context) → x.mode ≡ c.old.mode → x.env ≡ c.old.env → Puts out.old (token_text x kind s.now) out.new }
    ensures flag_clear { c.new ≡ with_flag false c.old }
{
    put_token_text(out, kind, s, c.mode, c.env);
    c.skip_next_space = false;
}

// A token that is never refused: any but an error, the name of a command and a command symbol.
fn put_plain(c: &mut Converter, out: &mut Output, kind: u8, s: &[u8])
    ensures comes { (rs : List Rule) (l : Label) → Unrefused kind
        → Comes (Ok tt) c.new.skip_next_space l out.old out.new (token_out (context_of rs c.old) kind s.now (carrying c.old.skip_next_space l)) }
    ensures flag_alone { c.new ≡ with_flag c.new.skip_next_space c.old }
{
    match kind {
        TOKEN_WHITE_SPACE => put_space(c, out, s),
        TOKEN_LINE_BREAK => put_break(c, out, s),
        _ => put_mark(c, out, kind, s),
    }
}

// A command symbol like `\alpha`: its name must be a command in the rules. It clears the flag.
fn put_symbol(c: &mut Converter, out: &mut Output, s: &[u8], rules: Rules) -> Result<(), Reason>
    ensures comes { (x : Context) (l : Label) → rules_of rules.entry.file.now ≡ some x.rules
        → Comes result false l out.old out.new (command_sym x s.now (carrying false l)) }
    ensures flag_clear { c.new ≡ with_flag false c.old }
    ensures untouched { OnErr result (out.new ≡ out.old) }
{
    c.skip_next_space = false;
    let name = mitex_loops::past_first(s);
    let Some(found) = rules.get_cmd(name) else {
        return Err(Reason::NoCommand);
    };
    out.put(mitex_spec::written_name(name, found));
    Ok(())
}

// A token. Every one but white space clears the flag first.
pub fn put_token(
    c: &mut Converter,
    out: &mut Output,
    kind: u8,
    s: &[u8],
    rules: Rules,
) -> Result<(), Reason>
    ensures comes { (rs : List Rule) (l : Label) → rules_of rules.entry.file.now ≡ some rs
        → Comes result c.new.skip_next_space l out.old out.new (token_out (context_of rs c.old) kind s.now (carrying c.old.skip_next_space l)) }
    ensures flag_alone { c.new ≡ with_flag c.new.skip_next_space c.old }
    ensures untouched { OnErr result (out.new ≡ out.old) }
{
    match kind {
        TOKEN_ERROR | CLAUSE_COMMAND_NAME => Err(Reason::Misplaced),
        TOKEN_COMMAND_SYM => put_symbol(c, out, s, rules),
        _ => {
            put_plain(c, out, kind, s);
            Ok(())
        }
    }
}

// Whether a row is left at `i`, and it is a token's.
fn token_at(rows: &[u8], i: usize) -> bool
    requires { (i ≤ length rows.now) × (i < length rows.now → i + 8 ≤ length rows.now) }
    ensures i_in_bounds { result ≡ true → (i < length rows.now) × (get_or rows.now (i + 1) 0 ≡ 1) }
    ensures ends { result ≡ false → i < length rows.now → get_or rows.now (i + 1) 0 ≡ 1 → ⊥ }
{
    i < rows.len() && rows[i + 1] == 1
}

// Whether a token of this kind writes its text as it is, in Text and while the flag is not set.
fn is_copied(kind: u8) -> bool
    ensures { result ≡ is_copied kind }
{
    matches!(kind, TOKEN_WORD | TOKEN_WHITE_SPACE)
}

// Whether the row at `i` is such a token's.
fn copied_at(rows: &[u8], i: usize) -> bool
    requires { (i ≤ length rows.now) × (i < length rows.now → i + 8 ≤ length rows.now) }
    ensures { result ≡ true → (i < length rows.now) × (get_or rows.now (i + 1) 0 ≡ 1) × (is_copied (get_or rows.now i 0) ≡ true) }
{
    token_at(rows, i) && is_copied(rows[i])
}

// Words and white space in Text: their texts stand one behind the other, and are copied at once. The index is a part of the answer, so
// that an iterator would have to be counted beside.
fn put_copied(out: &mut Output, rows: &[u8], text: &[u8]) -> Span
    requires run_given { RunGiven rows.now text.now × (get_or rows.now 1 0 ≡ 1) }
    requires rows_value { is_copied (get_or rows.now 0 0) ≡ true }
    ensures { Copies rows.now text.now out.old result out.new }
{
    let mut i = 8;
    let mut j = mitex_syntax::number(rows, 0);
    while copied_at(rows, i) {
        j += mitex_syntax::number(rows, i);
        i += 8;
    }
    out.put(&text[..j]);
    Span { rows: i, text: j }
}

// The token that these rows begin with; where it is copied, with those behind it that are copied too.
fn put_part(
    c: &mut Converter,
    out: &mut Output,
    rows: &[u8],
    text: &[u8],
    rules: Rules,
) -> Result<Span, Reason>
    requires run_given { RunGiven rows.now text.now × (get_or rows.now 1 0 ≡ 1) }
    ensures goes { (rs : List Rule) → rules_of rules.entry.file.now ≡ some rs
        → PartGoes (context_of rs c.old) c.old.skip_next_space rows.now text.now out.old result c.new.skip_next_space out.new }
    ensures flag_alone { c.new ≡ with_flag c.new.skip_next_space c.old }
    ensures lent { out.new.buffer.ghost_name ≡ out.old.buffer.ghost_name }
    ensures kept { length out.new.buffer.now ≡ length out.old.buffer.now }
{
    let kind = rows[0];
    if c.mode == LaTeXMode::Text && !c.skip_next_space && is_copied(kind) {
        return Ok(put_copied(out, rows, text));
    }
    let u = mitex_syntax::number(rows, 0);
    put_token(c, out, kind, &text[..u], rules)?;
    Ok(Span { rows: 8, text: u })
}

// The tokens from the first row on, up to the first node or to the end, as children in a plain loop: how many bytes of rows and of text
// they have. A refusal's row is counted from `row`, which stands right before them, as far as a number goes.
pub fn convert_tokens(
    c: &mut Converter,
    out: &mut Output,
    rows: &[u8],
    text: &[u8],
    row: usize,
    rules: Rules,
) -> Result<Span, Refusal>
    requires run_given { RunGiven rows.now text.now × (get_or rows.now 1 0 ≡ 1) }
    ensures goes { (rs : List Rule) → rules_of rules.entry.file.now ≡ some rs
        → RunGoes (context_of rs c.old) c.old.skip_next_space rows.now text.now row out.old result c.new.skip_next_space out.new }
    ensures flag_alone { c.new ≡ with_flag c.new.skip_next_space c.old }
    ensures lent { out.new.buffer.ghost_name ≡ out.old.buffer.ghost_name }
    ensures kept { length out.new.buffer.now ≡ length out.old.buffer.now }
{
    let mut i = 0;
    let mut j = 0;
    while token_at(rows, i) {
        match put_part(c, out, &rows[i..], &text[j..], rules) {
            Ok(part) => {
                i += part.rows;
                j += part.text;
            }
            Err(reason) => {
                let row = row.saturating_add(1 + i / 8);
                return Err(Refusal { reason, row });
            }
        }
    }
    Ok(Span { rows: i, text: j })
}
