// Replays tree files and compares what the check answers. Standard input holds the cases, one after the other: the number of the
// refusal (0: accepted), its row and the file's length, each in four bytes, and the file.
#![tactic(auto)]

use refusals::Refusal;
use std::io;
use tree_file::Whole;

// How many cases there were, and how many of them failed.
#[derive(Clone, Copy)]
struct Tally {
    cases: usize,
    failed: usize,
}

// Whether an answer is the one that a case names.
fn agrees(answer: Result<Whole, Refusal>, number: usize, row: usize) -> bool {
    match answer {
        Ok(_) => number == 0,
        Err(refusal) => usize::from(u8::from(refusal.reason)) == number && refusal.row == row,
    }
}

// All cases in turn, at most a thousand.
fn replay_all(cases: &[u8]) -> Tally {
    let mut t = Tally {
        cases: 0,
        failed: 0,
    };
    let mut rest = cases;
    for turn in 0..1000 {
        if rest.len() < 12 || rest.len() - 12 < text::read_u32(rest, 8) {
            return t;
        }
        let end = 12 + text::read_u32(rest, 8);
        let answer = tree_file::check_tree(&rest[12..end]);
        t.cases = turn + 1;
        if !agrees(answer, text::read_u32(rest, 0), text::read_u32(rest, 4)) {
            t.failed = t.failed.saturating_add(1);
        }
        rest = &rest[end..];
    }
    t
}

fn main(rt: HostRuntime) -> io::Result<()> {
    let mut buffer = [0u8; 131072];
    let n = console::read_full(&mut rt.reader(), &mut buffer);
    let t = replay_all(&buffer[..n]);
    let cases = t.cases;
    let failed = t.failed;
    println!(rt; "{cases} cases, {failed} failed")
}
