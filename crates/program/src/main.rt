// Converts the tree of tree.bin by the rules of rules.bin, both in the current folder, in the mode that standard input names (`t` or
// `m`), and writes the text alone; or the number and the row of a refusal.
#![tactic(auto)]

use console::ANSWER_MOST;
use refusals::Refusal;
use std::io;
use std::rt::Files;
use text::FILE_MOST;

// A byte more than a file may have, so that a longer one is seen and refused.
const FILE_READ: usize = FILE_MOST + 1;

// How long the text and the ledger may be here.
const BUFFER_MOST: usize = 65536;

// The mode that the first byte of standard input names.
fn read_mode(rt: &impl Input) -> u8 {
    let mut first = [0u8; 1];
    let n = console::read_full(&mut rt.reader(), &mut first);
    console::mode_in(&first[..n])
}

// Writes the line of a refusal.
fn print_refusal(rt: &impl Print, refusal: Refusal) -> io::Result<()> {
    let mut line = [0u8; ANSWER_MOST];
    let n = console::put_refusal(&mut line, u8::from(refusal.reason), refusal.row);
    rt.write_all(&line[..n])
}

// Converts, and writes what came of it.
fn convert<'a>(rt: &impl Print, mode: u8, rules: &'a [u8], tree: &'a [u8]) -> io::Result<()> {
    let mut text = [0u8; BUFFER_MOST];
    let mut ledger = [0u8; BUFFER_MOST];
    match calls::convert(mode, rules, tree, &mut text, &mut ledger) {
        Ok(converted) => rt.write_all(&text[..converted.length]),
        Err(refusal) => print_refusal(rt, refusal),
    }
}

fn main(rt: HostRuntime) -> io::Result<()> {
    let mode = read_mode(&rt);
    let mut rules = [0u8; FILE_READ];
    let rules_size = console::read_file(&rt, b"rules.bin", &mut rules);
    let mut tree = [0u8; FILE_READ];
    let tree_size = console::read_file(&rt, b"tree.bin", &mut tree);
    convert(&rt, mode, &rules[..rules_size], &tree[..tree_size])
}
