// Edits a document that was kept: rules.bin, tree.bin (the new tree), text.bin and ledger.bin (both buffers, whole) in the current
// folder, and a line `t 3 120` on standard input: the mode's letter, the block and the kept length. Writes `ok LENGTH GROWTH COUNT`
// or `refused N at R`, a line feed, and every byte of both buffers.
#![tactic(auto)]

use calls::Edited;
use console::{ANSWER_MOST, LINE_MOST, Request};
use refusals::{Reason, Refusal};
use std::io;
use std::rt::Files;
use text::FILE_MOST;

// A byte more than a file may have, so that a longer one is seen and refused.
const FILE_READ: usize = FILE_MOST + 1;

// How long the buffers that are kept may be.
const BUFFER_MOST: usize = 65536;

// What the first line of standard input asks for.
fn read_request(rt: &impl Input) -> Option<Request> {
    let mut line = [0u8; LINE_MOST];
    let n = console::read_full(&mut rt.reader(), &mut line);
    console::request_in(&line[..n])
}

// Writes the line of a refusal.
fn print_refusal(rt: &impl Print, refusal: Refusal) -> io::Result<()> {
    let mut line = [0u8; ANSWER_MOST];
    let n = console::put_refusal(&mut line, u8::from(refusal.reason), refusal.row);
    rt.write_all(&line[..n])
}

// Writes the line of an edit.
fn print_edited(rt: &impl Print, edited: Edited, kept: usize) -> io::Result<()> {
    let mut line = [0u8; ANSWER_MOST];
    let n = console::put_edited(&mut line, edited.length, kept, edited.count);
    rt.write_all(&line[..n])
}

// Edits, and says what came of it. The growth is the new length less the kept one.
fn edit_block(
    rt: &(impl Files + Print),
    request: Request,
    text: &mut [u8],
    ledger: &mut [u8],
) -> io::Result<()> {
    let mut rules = [0u8; FILE_READ];
    let rules_size = console::read_file(rt, b"rules.bin", &mut rules);
    let mut tree = [0u8; FILE_READ];
    let tree_size = console::read_file(rt, b"tree.bin", &mut tree);
    let Request { mode, block, kept } = request;
    match calls::edit(
        mode,
        &rules[..rules_size],
        &tree[..tree_size],
        block,
        kept,
        text,
        ledger,
    ) {
        Ok(edited) => print_edited(rt, edited, kept),
        Err(refusal) => print_refusal(rt, refusal),
    }
}

// Writes both buffers, whole.
fn print_buffers(rt: &impl Print, text: &[u8], ledger: &[u8]) -> io::Result<()> {
    rt.write_all(text)?;
    rt.write_all(ledger)
}

// Does what standard input asks for. A line of another form is refused as if it named no mode.
fn serve(rt: &(impl Files + Input + Print), text: &mut [u8], ledger: &mut [u8]) -> io::Result<()> {
    match read_request(rt) {
        Some(request) => edit_block(rt, request, text, ledger)?,
        None => print_refusal(rt, refusals::no_row(Reason::NoMode))?,
    }
    print_buffers(rt, text, ledger)
}

// Says that a buffer that was kept is too long for this program: it is not cut.
fn print_too_long(rt: &impl Print, name: &[u8]) -> io::Result<()> {
    rt.write_all(name)?;
    rt.write_all(b" has more than 65536 bytes\n")
}

fn main(rt: HostRuntime) -> io::Result<()> {
    let mut text = [0u8; FILE_READ];
    let text_size = console::read_file(&rt, b"text.bin", &mut text);
    let mut ledger = [0u8; FILE_READ];
    let ledger_size = console::read_file(&rt, b"ledger.bin", &mut ledger);
    if BUFFER_MOST < text_size {
        return print_too_long(&rt, b"text.bin");
    }
    if BUFFER_MOST < ledger_size {
        return print_too_long(&rt, b"ledger.bin");
    }
    serve(&rt, &mut text[..text_size], &mut ledger[..ledger_size])
}
