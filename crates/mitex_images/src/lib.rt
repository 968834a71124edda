// `\includegraphics[width=0.5\textwidth]{example-image}`, written as `#image(width: 0.5 * 100%, "example-image")`. Every part is a
// part of the caller's bytes.
#![tactic(auto)]

ghost use Rattle.std.specs.Prelude.{◌≡◌, ◌||◌, ◌++◌, ◌<◌, length};
ghost use Rattle.text.specs.Compare.{same};
ghost use Rattle.text.specs.Outputs.{Puts};
ghost use Rattle.mitex_syntax.specs.Tree.{Forest};
ghost use Rattle.mitex_syntax.specs.Views.{argument_with};
ghost use Rattle.mitex_syntax.specs.Spells.{Begins};
ghost use Rattle.mitex_meaning.specs.Texts.{of_page, width_name, height_name};
ghost use Rattle.mitex_meaning.specs.Images.{cut_at, without_end, comma_byte, length_text};
ghost use Rattle.mitex_meaning.specs.Images.{key_text, option_text, options_text, inner_text, image};

use mitex_syntax::{Children, ITEM_BRACKET, ITEM_CURLY};
use text::Output;

const COMMA: u8 = b',';

const EQUALS: u8 = b'=';

// ---- lengths

// The text without an ending, as often as it repeats.
fn without_end<'a>(p: &[u8], v: &'a [u8]) -> &'a [u8]
    requires { 0 < length p.now }
    ensures { result.now ≡ without_end p.now v.now }
{
    let mut t = v;
    while let Some(rest) = t.strip_suffix(p) {
        t = rest;
    }
    t
}

// A share of the page: `0.5\textwidth` is half of its width.
fn put_share(out: &mut Output, p: &[u8], v: &[u8])
    requires { 0 < length p.now }
    ensures { Puts out.old (without_end p.now v.now ++ of_page) out.new }
{
    out.put(without_end(p, v));
    out.put(b" * 100%");
}

// A length: a share of the page, or as it stands.
fn put_length(out: &mut Output, v: &[u8])
    ensures { Puts out.old (length_text v.now) out.new }
{
    if text::ends_with(v, b"\\textwidth") {
        put_share(out, b"\\textwidth", v);
    } else if text::ends_with(v, b"\\textheight") {
        put_share(out, b"\\textheight", v);
    } else {
        out.put(v);
    }
}

// ---- options

// Whether the key is one that is written.
fn is_size(key: &[u8]) -> bool
    ensures { result ≡ (same key.now width_name || same key.now height_name) }
{
    text::same(key, b"width") || text::same(key, b"height")
}

// An option as Typst has it; nothing for another key.
fn put_key(out: &mut Output, key: &[u8], value: &[u8])
    ensures { Puts out.old (key_text key.now value.now) out.new }
{
    if is_size(key) {
        out.put(key);
        out.put(b": ");
        put_length(out, value);
        out.put(b", ");
    }
}

// One option, such as `width=3cm`. Exactly one `=` gives it a value.
fn put_option(out: &mut Output, option: &[u8])
    ensures { Puts out.old (option_text option.now) out.new }
{
    let mut parts = utf8::trim(option).split(|b| *b == EQUALS);
    let key = parts.next().unwrap_or(b"");
    let value = match (parts.next(), parts.next()) {
        (Some(value), None) => value,
        _ => b"",
    };
    put_key(out, utf8::trim(key), utf8::trim(value));
}

// The options, between commas.
fn put_options(out: &mut Output, s: &[u8])
    ensures { Puts out.old (options_text (cut_at comma_byte s.now)) out.new }
{
    for option in s.split(|b| *b == COMMA) {
        put_option(out, option);
    }
}

// ---- the command

// The text of the first argument whose first node is of a kind, without its ends and trimmed; none where there is no such argument.
fn found_argument<'a>(children: Children<'_, 'a>, kind: u8) -> &'a [u8]
    ensures { (f : Forest) → Begins f children.entry.rows.now children.entry.text.now → result.now ≡ inner_text (argument_with kind f) }
{
    mitex_syntax::trimmed_inner(children.text_at(children.argument_with(kind)))
}

// The command over these children: its options in brackets, its path in braces.
pub fn convert_command_includegraphics(out: &mut Output, children: Children)
    ensures { (f : Forest) → Begins f children.entry.rows.now children.entry.text.now → Puts out.old (image f) out.new }
{
    out.put(b"#image(");
    put_options(out, found_argument(children, ITEM_BRACKET));
    out.put(b"\"");
    out.put(found_argument(children, ITEM_CURLY));
    out.put(b"\")");
}
