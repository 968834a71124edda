// What the programs share: a file read by its name, the letter of a mode, the line that asks for an edit, and the line of an answer.
// Standard input and output are the programs' own: what is read or printed there is worked out here, over lent bytes.
#![tactic(auto)]

ghost use Rattle.std.specs.Prelude.{◌≡◌, ◌≤◌, cond, Some, None, length};
ghost use Rattle.console.specs.Counts.{IsPrefixLen};
ghost use Rattle.text.specs.Writing.{Wrote};
ghost use Rattle.text.specs.Outputs.{Puts};
ghost use Rattle.console.specs.Mode.{mode_by, mode_in};
ghost use Rattle.console.specs.Request.{digit_fits, with_digit, number_spelt, part_before, part_after, both, line_request, request_in};
ghost use Rattle.console.specs.Answers.{difference, refusal_line, edited_line};

use std::fs::File;
use std::io::Read;
use std::rt::Files;
use text::Output;

// What is no mode: it is refused as 1.
const NO_MODE: u8 = 2;

// What the line `t 3 120` asks for: an edit of block 3 in text mode, where the kept text has 120 bytes.
#[derive(Clone, Copy, PartialEq, Eq, Debug)]
pub struct Request {
    pub mode: u8,
    pub block: usize,
    pub kept: usize,
}

// ---- files

// Fills `buffer` from a reader and answers how many bytes came. A read that fails ends the input.
pub fn read_full<R: Read>(reader: &mut R, buffer: &mut [u8]) -> usize
    ensures { IsPrefixLen result buffer.new }
{
    let mut done = 0;
    while done < buffer.len() {
        let Ok(n) = reader.read(&mut buffer[done..]) else {
            return done;
        };
        if n == 0 {
            return done;
        }
        done += n;
    }
    done
}

// Fills `buffer` from the file of this name and answers how many bytes came. One that is missing or cannot be read counts as empty.
pub fn read_file(rt: &impl Files, name: &[u8], buffer: &mut [u8]) -> usize
    ensures { IsPrefixLen result buffer.new }
{
    let Ok(path) = str::from_utf8(name) else {
        return 0;
    };
    let Ok(mut file) = File::open(rt, path) else {
        return 0;
    };
    read_full(&mut file, buffer)
}

// ---- the mode

// The mode that a letter names.
fn mode_by(letter: u8) -> u8
    ensures { result ≡ mode_by letter }
{
    match letter {
        b't' => 0,
        b'm' => 1,
        _ => NO_MODE,
    }
}

// The mode that the first byte of the input names.
pub fn mode_in(input: &[u8]) -> u8
    ensures { result ≡ mode_in input.now }
{
    match input.first() {
        Some(letter) => mode_by(*letter),
        None => NO_MODE,
    }
}

// ---- the line that asks for an edit

// The number with a digit more, where `x` is a digit and 64 bits hold it.
fn with_digit(n: usize, x: u8) -> Option<usize>
    ensures { result ≡ cond (digit_fits n x) (Some (with_digit n x)) None }
{
    if !x.is_ascii_digit() {
        return None;
    }
    n.checked_mul(10)?.checked_add(usize::from(x - b'0'))
}

// The number that digits spell: at least one, and no more than 64 bits hold.
fn number_spelt(digits: &[u8]) -> Option<usize>
    ensures { result ≡ number_spelt digits.now }
{
    if digits.is_empty() {
        return None;
    }
    let mut n = 0;
    for x in digits {
        n = with_digit(n, *x)?;
    }
    Some(n)
}

// The request whose numbers are these, with a space between them.
fn numbers(mode: u8, rest: &[u8]) -> Option<Request>
    ensures { result ≡ both mode (number_spelt (part_before 32 rest.now)) (number_spelt (part_after 32 rest.now)) }
{
    let space = text::index_of(rest, b' ');
    if rest.len() <= space {
        return None;
    }
    Some(Request {
        mode,
        block: number_spelt(&rest[..space])?,
        kept: number_spelt(&rest[space + 1..])?,
    })
}

// What a line, without its end, asks for.
fn line_request(line: &[u8]) -> Option<Request>
    ensures { result ≡ line_request line.now }
{
    match line {
        [letter, b' ', rest @ ..] => numbers(mode_by(*letter), rest),
        _ => None,
    }
}

// Bytes that no line of the form has.
pub const LINE_MOST: usize = 64;

// What the first line of the input asks for.
pub fn request_in(input: &[u8]) -> Option<Request>
    ensures { result ≡ request_in input.now }
{
    let end = text::index_of(input, b'\n');
    if LINE_MOST <= end {
        return None;
    }
    line_request(&input[..end])
}

// ---- the line of an answer, from the start of a buffer that has room for it

// No answer has more bytes: `ok`, three numbers of 20 digits, a sign, three spaces and a line feed.
pub const ANSWER_MOST: usize = 67;

// The first number less the second.
fn put_difference(out: &mut Output, a: usize, b: usize)
    ensures { Puts out.old (difference a b) out.new }
{
    if b <= a {
        out.put_decimal(a - b);
    } else {
        out.put_byte(b'-');
        out.put_decimal(b - a);
    }
}

// `ok 34 -31 2` and a line feed: the text's length, its growth since `kept`, and the count of blocks converted again.
pub fn put_edited(line: &mut [u8; ANSWER_MOST], size: usize, kept: usize, count: usize) -> usize
    ensures wrote { Wrote 0 line.old (edited_line size kept count) result line.new }
    ensures prefix_len { IsPrefixLen result line.new }
{
    let mut out = Output {
        buffer: line,
        at: 0,
    };
    out.put(b"ok ");
    out.put_decimal(size);
    out.put_byte(b' ');
    put_difference(&mut out, size, kept);
    out.put_byte(b' ');
    out.put_decimal(count);
    out.put_byte(b'\n');
    out.at
}

// `refused 11 at 1` and a line feed.
pub fn put_refusal(line: &mut [u8; ANSWER_MOST], number: u8, row: usize) -> usize
    ensures wrote { Wrote 0 line.old (refusal_line number row) result line.new }
    ensures prefix_len { IsPrefixLen result line.new }
{
    let mut out = Output {
        buffer: line,
        at: 0,
    };
    out.put(b"refused ");
    out.put_decimal(usize::from(number));
    out.put(b" at ");
    out.put_decimal(row);
    out.put_byte(b'\n');
    out.at
}
