// The head of a table such as `\begin{tabular}{|l|c|}`: its column letters l, c, r and |, and what is written for them.
#![tactic(auto)]

ghost use Rattle.std.specs.Prelude.{◌≡◌, ◌||◌, ◌++◌, ◌≤◌, length};
ghost use Rattle.text.specs.Writing.{decimal};
ghost use Rattle.text.specs.Outputs.{Puts};
ghost use Rattle.mitex_syntax.specs.Views.{good_ends};
ghost use Rattle.mitex_meaning.specs.Texts.{vline_begin, vline_end};
ghost use Rattle.mitex_meaning.specs.Tables.{is_column, is_line, letters_fit, columns, alignment, alignments, vlines, table_head};

use text::Output;

// ---- the letters

const LEFT: u8 = b'l';

const CENTER: u8 = b'c';

const RIGHT: u8 = b'r';

const LINE: u8 = b'|';

// Whether the letter stands for a column.
fn is_column(b: u8) -> bool
    ensures { result ≡ is_column b }
{
    matches!(b, LEFT | CENTER | RIGHT)
}

// Whether a column letter or a line.
fn is_letter(b: u8) -> bool
    ensures { result ≡ (is_column b || is_line b) }
{
    is_column(b) || b == LINE
}

// Whether all are letters of a table.
pub fn letters_fit(s: &[u8]) -> bool
    ensures { result ≡ letters_fit s.now }
{
    s.iter().all(|b| is_letter(*b))
}

// How many columns.
pub fn columns(s: &[u8]) -> usize
    ensures { (result ≡ columns s.now) × (result ≤ length s.now) }
{
    s.iter().filter(|b| is_column(**b)).count()
}

// Whether an argument has 2 bytes or more and one-byte ends, which can be cut off.
pub fn has_ends(s: &[u8]) -> bool
    ensures { result ≡ good_ends s.now }
{
    match s {
        [first, .., last] => first.is_ascii() && last.is_ascii(),
        _ => false,
    }
}

// ---- what is written for the letters

// The word for a column letter, as `left, `; nothing for a line.
fn put_alignment(out: &mut Output, b: u8)
    ensures { Puts out.old (alignment b) out.new }
{
    match b {
        LEFT => out.put(b"left, "),
        CENTER => out.put(b"center, "),
        RIGHT => out.put(b"right, "),
        _ => {}
    }
}

// The words for all letters.
pub fn put_alignments(out: &mut Output, letters: &[u8])
    ensures { Puts out.old (alignments letters.now) out.new }
{
    for b in letters {
        put_alignment(out, *b);
    }
}

// The line after `n` columns.
fn put_vline(out: &mut Output, n: usize)
    ensures { Puts out.old (vline_begin ++ (decimal n ++ vline_end)) out.new }
{
    out.put(b"table.vline(stroke: .5pt, x: ");
    out.put_decimal(n);
    out.put(b"), ");
}

// All lines, each after as many columns as stand before it.
pub fn put_vlines(out: &mut Output, letters: &[u8])
    ensures { Puts out.old (vlines 0 letters.now) out.new }
{
    let mut n = 0;
    for b in letters {
        if is_column(*b) {
            n += 1;
        } else if *b == LINE {
            put_vline(out, n);
        }
    }
}

// The head of a table with these letters.
pub fn put_table_head(out: &mut Output, letters: &[u8])
    ensures { Puts out.old (table_head letters.now) out.new }
{
    out.put(b"stroke: none,\ncolumns: ");
    out.put_decimal(columns(letters));
    out.put(b",\nalign: (");
    put_alignments(out, letters);
    out.put(b"),\n");
    put_vlines(out, letters);
    out.put(b"\n");
}
