// Replays cases through Convert and the changes and compares every answer and every byte of both buffers; and through the steps of a
// writer, with every answer, the finished file, and what refused steps leave. Standard input is what tools/pack_cases.py packs: cases, each
// a length (4 bytes, the lowest first) and so many bytes, which are parts: each a tag (1 byte), a length (4 bytes) and so many bytes.
#![tactic(auto)]

ghost use Rattle.std.specs.Prelude.{◌≡◌, ◌+◌, ◌≤◌, length, IfSome};
ghost use Rattle.console.specs.Counts.{IsPrefixLen};
ghost use Rattle.cases.specs.Held.{buffer_most};

mod case;

use calls::{Converted, Edited};
use case::{BUFFER, Case};
use refusals::Refusal;
use std::io;
use std::io::Read;
use tree_file::BLOCKS_MOST;

// ---- the tags

// The case's name.
const NAME: u8 = 1;

// Its files.
const RULES: u8 = 2;

const TREE: u8 = 3;

// How long text buffer and ledger are (4 bytes each); both are filled with one byte.
const SIZES: u8 = 4;

// What the text buffer, or the ledger, begins with.
const TEXT: u8 = 5;

const LEDGER: u8 = 6;

// What they are due to begin with.
const TEXT_DUE: u8 = 7;

const LEDGER_DUE: u8 = 8;

// A call and its answer, numbers of 4 bytes: 0 convert, 1 edit, 2 insertion, 3 removal or 4 several blocks replaced; mode; block or
// position, and kept length (8 bytes each); refusal, row or length, growth (the first of two numbers less the second), count, and how many
// bytes of the ledger's front the case does not name.
const CALL: u8 = 9;

const CALL_SIZE: usize = 48;

const CONVERT: usize = 0;

const EDIT: usize = 1;

const INSERT: usize = 2;

const REPLACE: usize = 4;

// The numbers of the blocks that such a call replaces together, 8 bytes each.
const BLOCKS: u8 = 10;

const BLOCK_SIZE: usize = 8;

// A step of a writer, whose buffer is the text buffer, and its answer: 0 open, 1 token, 2 close or 3 finish; kind; refusal; a zero; the
// length that a finish gives (4 bytes); and the token's text, spelt: how often its first byte stands there (4 bytes), and its bytes from
// the last of these on.
const STEP: u8 = 11;

const STEP_SIZE: usize = 12;

const STEP_OPEN: u8 = 0;

const STEP_TOKEN: u8 = 1;

const STEP_CLOSE: u8 = 2;

const STEP_FINISH: u8 = 3;

// The file that a finish is due to leave, spelt.
const FILE: u8 = 12;

// ---- what is held

// How many numbers a writer's state has here: one more than it needs.
const STATE: usize = 8;

// How many numbers of a list are read at most: more than a document has blocks, so that a list that is cut is refused as the whole is.
const LIST_MOST: usize = 2 * BLOCKS_MOST;

// How many bytes a case has at most.
const CASE_MOST: usize = 262144;

// More cases than there are.
const CASES_MOST: usize = 100000;

// What was counted so far.
#[derive(Clone, Copy)]
struct Tally {
    cases: usize,
    calls: usize,
    failed: usize,
}

// A refusal's number and row; or 0, the text's length, its growth and a count of blocks.
#[derive(Clone, Copy, PartialEq, Eq)]
struct Reply {
    number: usize,
    first: usize,
    growth: i64,
    count: usize,
}

// A sum, as far as a program counts.
fn sum(m: usize, n: usize) -> usize {
    if m < 1000000 && n < 1000000 { m + n } else { m }
}

// ---- buffers

// What buffers are filled with: a byte that no conversion writes by itself.
const FILLED: u8 = 0xA5;

// The front of a buffer overwritten, as far as there is room.
fn begin_with(out: &mut [u8; BUFFER], s: &[u8]) {
    let n = s.len().min(BUFFER);
    out[..n].copy_from_slice(&s[..n]);
}

// The first `n` bytes of a buffer taken over by another.
fn take_over(from: &[u8; BUFFER], to: &mut [u8; BUFFER], n: usize) {
    if n <= BUFFER {
        to[..n].copy_from_slice(&from[..n]);
    }
}

// ---- a call

// The reply of a refused call, or of a step.
fn numbered(number: u8, row: usize) -> Reply {
    Reply {
        number: usize::from(number),
        first: row,
        growth: 0,
        count: 0,
    }
}

fn convert_reply(answer: Result<Converted, Refusal>) -> Reply {
    match answer {
        Ok(converted) => Reply {
            number: 0,
            first: converted.length,
            growth: 0,
            count: converted.blocks,
        },
        Err(refusal) => numbered(u8::from(refusal.reason), refusal.row),
    }
}

fn change_reply(answer: Result<Edited, Refusal>) -> Reply {
    match answer {
        Ok(edited) => Reply {
            number: 0,
            first: edited.length,
            growth: edited.growth,
            count: edited.count,
        },
        Err(refusal) => numbered(u8::from(refusal.reason), refusal.row),
    }
}

// The growth that two numbers name.
fn growth_at(input: &[u8], at: usize) -> i64
    requires { at + 8 ≤ length input.now }
{
    let grown = text::read_u32(input, at);
    let shrunk = text::read_u32(input, at + 4);
    grown as i64 - shrunk as i64
}

// The answer that is due.
fn due(part: &[u8]) -> Reply
    requires { 48 ≤ length part.now }
{
    Reply {
        number: text::read_u32(part, 24),
        first: text::read_u32(part, 28),
        growth: growth_at(part, 32),
        count: text::read_u32(part, 40),
    }
}

// A number of 8 bytes.
fn read_u64(input: &[u8], at: usize) -> usize
    requires { at + 8 ≤ length input.now }
{
    let high = text::read_u32(input, at + 4);
    text::read_u32(input, at) + 4294967296 * high
}

// Reads the numbers of a list, as far as there is room, and answers how many it read.
fn read_list(list: &[u8], blocks: &mut [usize]) -> usize
    ensures { IsPrefixLen result blocks.new }
{
    let n = (list.len() / BLOCK_SIZE).min(blocks.len());
    for i in 0..n {
        blocks[i] = read_u64(list, BLOCK_SIZE * i);
    }
    n
}

// The blocks of a list replaced together.
fn replaced(part: &[u8], c: Case, text: &mut [u8], ledger: &mut [u8]) -> Reply
    requires { 48 ≤ length part.now }
{
    let mut blocks = [0usize; LIST_MOST];
    let n = read_list(c.list, &mut blocks);
    let kept = read_u64(part, 16);
    change_reply(calls::replace_all(part[4], c.rules, c.tree, &blocks[..n], kept, text, ledger))
}

// The call that a part names, on a case's files and buffers: Convert, or a change of one block or of those of a list.
fn call(part: &[u8], c: Case, text: &mut [u8], ledger: &mut [u8]) -> Reply
    requires { 48 ≤ length part.now }
{
    let mode = part[4];
    let block = read_u64(part, 8);
    let kept = read_u64(part, 16);
    match text::read_u32(part, 0) {
        CONVERT => convert_reply(calls::convert(mode, c.rules, c.tree, text, ledger)),
        EDIT => change_reply(calls::edit(mode, c.rules, c.tree, block, kept, text, ledger)),
        INSERT => change_reply(calls::insert(mode, c.rules, c.tree, block, kept, text, ledger)),
        REPLACE => replaced(part, c, text, ledger),
        _ => change_reply(calls::remove(mode, c.rules, c.tree, block, kept, text, ledger)),
    }
}

// Whether a call answers as is due and leaves both buffers as is due.
fn passes(
    part: &[u8],
    c: Case,
    text: &mut [u8; BUFFER],
    ledger: &mut [u8; BUFFER],
    text_due: &[u8; BUFFER],
    ledger_due: &mut [u8; BUFFER],
) -> bool
    requires { 48 ≤ length part.now }
{
    let answer = call(
        part,
        c,
        &mut text[..c.text_size],
        &mut ledger[..c.ledger_size],
    );
    take_over(ledger, ledger_due, text::read_u32(part, 44));
    answer == due(part) && text::same(text, text_due) && text::same(ledger, ledger_due)
}

// ---- a step

// Bytes from how they are spelt, and how many there are, as far as there is room.
fn spell(s: &[u8], out: &mut [u8; BUFFER]) -> usize
    requires { 4 ≤ length s.now }
    ensures { result ≤ buffer_most }
{
    let times = text::read_u32(s, 0);
    if s.len() == 4 || BUFFER < times {
        return 0;
    }
    let n = (s.len() - 5).min(BUFFER - times);
    out[..times].fill(s[4]);
    out[times..times + n].copy_from_slice(&s[5..5 + n]);
    times + n
}

// A step by its number, on a state and a buffer as a caller keeps them.
fn call_step(part: &[u8], s: &[u8], state: &mut [usize], buffer: &mut [u8], place: &mut usize) -> u8
    requires { 2 ≤ length part.now }
{
    let kind = part[1];
    match part[0] {
        STEP_OPEN => tree_writer::open_in(state, buffer, kind),
        STEP_TOKEN => tree_writer::token_in(state, buffer, kind, s),
        STEP_CLOSE => tree_writer::close_in(state, buffer),
        _ => tree_writer::finish_in(state, buffer, place),
    }
}

// Takes the step of a part.
fn reply_to_step(
    part: &[u8],
    c: Case,
    text: &mut [u8; BUFFER],
    spelt: &mut [u8; BUFFER],
    state: &mut [usize; STATE],
) -> Reply
    requires { 12 ≤ length part.now }
{
    let n = spell(&part[8..], spelt);
    let mut first = 0;
    let number = call_step(
        part,
        &spelt[..n],
        state,
        &mut text[..c.text_size],
        &mut first,
    );
    numbered(number, first)
}

// The answer that is due to a step.
fn step_due(part: &[u8]) -> Reply
    requires { 8 ≤ length part.now }
{
    numbered(part[2], text::read_u32(part, 4))
}

// Whether a step that is a finish, and gives the length `n`, leaves the file that is due.
fn leaves_file(
    part: &[u8],
    c: Case,
    n: usize,
    text: &[u8; BUFFER],
    spelt: &mut [u8; BUFFER],
) -> bool
    requires { 12 ≤ length part.now }
{
    if part[0] != STEP_FINISH {
        return true;
    }
    if c.file.len() < 4 {
        return false;
    }
    let size = spell(c.file, spelt);
    size == n && text::same(&text[..size], &spelt[..size])
}

// Whether a step answers as is due; where it is refused, it leaves state and buffer as they were.
fn step_passes(
    part: &[u8],
    c: Case,
    text: &mut [u8; BUFFER],
    spelt: &mut [u8; BUFFER],
    text_due: &mut [u8; BUFFER],
    state: &mut [usize; STATE],
) -> bool
    requires { 12 ≤ length part.now }
{
    let before = *state;
    let answer = reply_to_step(part, c, text, spelt, state);
    if answer != step_due(part) {
        return false;
    }
    if answer.number != 0 {
        return *state == before && text::same(text, text_due);
    }
    take_over(text, text_due, c.text_size);
    leaves_file(part, c, answer.first, text, spelt)
}

// ---- the parts

// A case that failed once more: it is said which, and at which call. A line that cannot be written is left out.
fn fails(rt: &impl Print, c: &mut Case) {
    let call = c.calls;
    let _ = rt.write_all(c.name);
    let _ = println!(rt; " fails at call {call}");
    c.failed = sum(c.failed, 1);
}

// The sizes that a part names, if there are such buffers.
fn sized(rt: &impl Print, part: &[u8], c: &mut Case) {
    if part.len() < 8 {
        return fails(rt, c);
    }
    let text_size = text::read_u32(part, 0);
    let ledger_size = text::read_u32(part, 4);
    if BUFFER < text_size || BUFFER < ledger_size {
        return fails(rt, c);
    }
    c.text_size = text_size;
    c.ledger_size = ledger_size;
}

// What a part says of the case.
fn told<'a>(rt: &impl Print, tag: u8, part: &'a [u8], c: &mut Case<'a>) {
    match tag {
        NAME => c.name = part,
        RULES => c.rules = part,
        TREE => c.tree = part,
        BLOCKS => c.list = part,
        FILE => c.file = part,
        SIZES => sized(rt, part, c),
        CALL | STEP => c.calls = sum(c.calls, 1),
        _ => {}
    }
}

// What a part does to the buffers. They are lent one by one: two fields of one struct cannot be lent as slices at once.
fn lay(
    tag: u8,
    part: &[u8],
    text: &mut [u8; BUFFER],
    ledger: &mut [u8; BUFFER],
    text_due: &mut [u8; BUFFER],
    ledger_due: &mut [u8; BUFFER],
) {
    match tag {
        SIZES => {
            text.fill(FILLED);
            ledger.fill(FILLED);
            text_due.fill(FILLED);
            ledger_due.fill(FILLED);
        }
        TEXT => {
            begin_with(text, part);
            begin_with(text_due, part);
        }
        LEDGER => {
            begin_with(ledger, part);
            begin_with(ledger_due, part);
        }
        TEXT_DUE => begin_with(text_due, part),
        LEDGER_DUE => begin_with(ledger_due, part),
        _ => {}
    }
}

// A part in turn: what it says, what it lays down, and the call or the step that it is. The buffer of a ledger's bytes is free in a case of
// steps, and holds the token's text.
fn take_part<'a>(
    rt: &impl Print,
    tag: u8,
    part: &'a [u8],
    c: &mut Case<'a>,
    text: &mut [u8; BUFFER],
    ledger: &mut [u8; BUFFER],
    text_due: &mut [u8; BUFFER],
    ledger_due: &mut [u8; BUFFER],
    state: &mut [usize; STATE],
) {
    told(rt, tag, part, c);
    lay(tag, part, text, ledger, text_due, ledger_due);
    let good = match tag {
        CALL => { CALL_SIZE <= part.len() && passes(part, *c, text, ledger, text_due, ledger_due) }
        STEP => { STEP_SIZE <= part.len() && step_passes(part, *c, text, ledger, text_due, state) }
        _ => true,
    };
    if !good {
        fails(rt, c);
    }
}

// All parts of a case in turn.
fn replay<'a>(rt: &impl Print, input: &'a [u8]) -> Case<'a> {
    let mut text = [0u8; BUFFER];
    let mut ledger = [0u8; BUFFER];
    let mut text_due = [0u8; BUFFER];
    let mut ledger_due = [0u8; BUFFER];
    let mut state = [0usize; STATE];
    let nothing = &input[..0];
    let mut c = Case {
        name: nothing,
        rules: nothing,
        tree: nothing,
        list: nothing,
        file: nothing,
        text_size: 0,
        ledger_size: 0,
        calls: 0,
        failed: 0,
    };
    let mut rest = input;
    while !rest.is_empty() {
        if rest.len() < 5 || rest.len() - 5 < text::read_u32(rest, 1) {
            fails(rt, &mut c);
            return c;
        }
        let end = 5 + text::read_u32(rest, 1);
        take_part(
            rt,
            rest[0],
            &rest[5..end],
            &mut c,
            &mut text,
            &mut ledger,
            &mut text_due,
            &mut ledger_due,
            &mut state,
        );
        rest = &rest[end..];
    }
    c
}

// ---- the cases

// Fills `buffer` with the next case and answers its length, if there is one and it has room.
fn read_case<R: Read>(reader: &mut R, buffer: &mut [u8]) -> Option<usize>
    ensures { IfSome result (λ n. IsPrefixLen n buffer.new) }
{
    let mut size = [0; 4];
    if console::read_full(reader, &mut size) < 4 {
        return None;
    }
    let n = text::read_u32(&size, 0);
    if buffer.len() < n {
        return None;
    }
    let done = console::read_full(reader, &mut buffer[..n]);
    if done == 0 { None } else { Some(done) }
}

// Replays the next case, if there is one.
fn replay_next<R: Read>(rt: &impl Print, reader: &mut R, t: Tally) -> Option<Tally> {
    let mut buffer = [0; CASE_MOST];
    let n = read_case(reader, &mut buffer)?;
    let c = replay(rt, &buffer[..n]);
    Some(Tally {
        cases: sum(t.cases, 1),
        calls: sum(t.calls, c.calls),
        failed: sum(t.failed, c.failed),
    })
}

// Replays all cases.
fn replay_all<R: Read>(rt: &impl Print, reader: &mut R) -> Tally {
    let mut t = Tally {
        cases: 0,
        calls: 0,
        failed: 0,
    };
    for _ in 0..CASES_MOST {
        let Some(next) = replay_next(rt, reader, t) else {
            return t;
        };
        t = next;
    }
    t
}

fn main(rt: HostRuntime) -> io::Result<()> {
    let t = replay_all(&rt, &mut rt.reader());
    let cases = t.cases;
    let calls = t.calls;
    let failed = t.failed;
    println!(rt; "{cases} cases, {calls} calls, {failed} failed")
}
