// Several stretches of blocks exchanged at once: each begins at a block that is named, and goes on to the first after which the carry is the
// kept one. All are measured before a byte is written, and noted in a plan; then the text between them is moved, each part once, and they
// are written. The plan has a note for each stretch, and after the last stretch one more, which has the count of blocks as its block.
#![tactic(auto)]

ghost use Rattle.std.specs.Prelude.{◌≡◌, cond, ℕ, ◌+◌, ◌≤◌, ◌<◌, length, take, drop, get_or, ltb};
ghost use Rattle.std.proofs.lemmas.List.Edits.{sets};
ghost use Rattle.edit_meaning.specs.Changes.{named_there};
ghost use Rattle.edit_meaning.specs.Changes.Kind.{replace_all};
ghost use Rattle.stretches.specs.Plans.{plan_size, LedgerFits, PlanStands, PlansStretch, PlansStretches, Writable, WritesStretch, Exchangeable, Exchanges};

use passes::{OpenDocument, Standing};
use refusals::Refusal;
use tree_file::BLOCKS_MOST;

// The notes of a plan.
pub const PLAN_SIZE: usize = BLOCKS_MOST + 1;

// A stretch: its first block, the first block after it, the bytes of its text, and where the first block's rows and its text begin in the
// tree.
#[derive(Clone, Copy)]
pub struct Note {
    pub block: usize,
    pub after: usize,
    pub size: usize,
    pub i: usize,
    pub j: usize,
}

// How far a plan goes: how many stretches it has and of how many blocks, the first block after them and where its text begins now; a block
// at or before that one, and where its rows and its text begin in the tree.
#[derive(Clone, Copy)]
pub struct Planned {
    pub stretches: usize,
    pub count: usize,
    pub block: usize,
    pub at: usize,
    pub from: usize,
    pub i: usize,
    pub j: usize,
}

// Whether some blocks are named, by numbers that rise strictly and stay below the count.
pub fn all_there(named: &[usize], blocks: usize) -> bool
    ensures { result ≡ named_there (replace_all named.now) blocks }
{
    let mut least = 0;
    for k in named {
        if *k < least || blocks <= *k {
            return false;
        }
        least = *k + 1;
    }
    !named.is_empty()
}

// ---- the plan

// The plan with the stretch that begins at block `k`, unless that was converted already.
fn plan_stretch(
    d: OpenDocument,
    ledger: &[u8],
    plan: &mut [Note],
    s: Planned,
    k: usize,
) -> Result<Planned, Refusal>
    requires ledger_fits { LedgerFits d.blocks ledger.now }
    requires plan_stands { PlanStands d.content.rows.now d.blocks s × (k < d.blocks) × (length plan.old ≡ plan_size) }
    ensures { PlansStretch d.entry.content.rules.file.now d.entry.content.rules.index.now d.entry.content.rows.now d.entry.content.text.now ledger.now
        d.entry.mode d.entry.blocks s k plan.old result plan.new }
{
    if k < s.block {
        return Ok(s);
    }
    let before = Standing {
        block: s.from,
        i: s.i,
        j: s.j,
        at: 0,
        converter: passes::carry_before(ledger, k, d.mode),
    };
    let from = passes::stand_on(d.content.rows, before, k);
    let m = passes::measure(d.content, ledger, from, d.blocks, d.blocks)?;
    plan[s.stretches] = Note {
        block: k,
        after: m.block,
        size: m.at,
        i: from.i,
        j: from.j,
    };
    let between = passes::end_before(ledger, k) - passes::end_before(ledger, s.block);
    Ok(Planned {
        stretches: s.stretches + 1,
        count: s.count + (m.block - k),
        block: m.block,
        at: s.at + between + m.at,
        from: k,
        i: from.i,
        j: from.j,
    })
}

// The stretches of the blocks that are named, measured one after the other.
pub fn plan_stretches(
    d: OpenDocument,
    ledger: &[u8],
    named: &[usize],
    plan: &mut [Note],
) -> Result<Planned, Refusal>
    requires ledger_fits { LedgerFits d.blocks ledger.now }
    requires by_index { ((i : ℕ) → i < length named.now → get_or named.now i 0 < d.blocks) × (length plan.old ≡ plan_size) }
    ensures { PlansStretches d.entry.content.rules.file.now d.entry.content.rules.index.now d.entry.content.rows.now d.entry.content.text.now ledger.now
        d.entry.mode d.entry.blocks named.now result plan.new }
{
    let mut s = Planned {
        stretches: 0,
        count: 0,
        block: 0,
        at: 0,
        from: 0,
        i: 0,
        j: 0,
    };
    for k in named {
        s = plan_stretch(d, ledger, plan, s, *k)?;
    }
    plan[s.stretches].block = d.blocks;
    Ok(s)
}

// ---- the exchange

// Bytes moved down, where they move down.
fn lower(out: &mut [u8], old: usize, new: usize, n: usize)
    requires { (old + n ≤ length out.old) × (new + n ≤ length out.old) }
    ensures { out.new ≡ cond (ltb new old) (sets out.old new (take n (drop old out.old))) out.old }
{
    if new < old {
        text::move_bytes(out, old, new, n);
    }
}

// A stretch written with its rows: its text stands from `at` up to `to`.
fn write_stretch(
    d: &OpenDocument,
    note: Note,
    at: usize,
    to: usize,
    out: &mut [u8],
    ledger: &mut [u8],
)
    requires { Writable d.now.content.rules.file.now d.now.content.rules.index.now d.now.content.rows.now d.now.content.text.now d.now.mode d.now.blocks
        note at to out.old ledger.old }
    ensures { WritesStretch d.now.content.rules.file.now d.now.content.rules.index.now d.now.content.rows.now d.now.content.text.now d.now.mode d.now.blocks
        note at to out.old ledger.old out.new ledger.new }
{
    let from = Standing {
        block: note.block,
        i: note.i,
        j: note.j,
        at,
        converter: passes::carry_before(ledger, note.block, d.mode),
    };
    passes::write_blocks(d.content, &mut out[..to], ledger, from, note.after);
}

// The stretches of a plan in the place of the kept blocks, the first of them from `at` on. What is kept after a stretch moves down before
// what follows is handled, or up after that: so nothing is overwritten that has still to be moved. The document is lent, since a level of
// the recursion would else keep a copy of it: as it is, a level takes 528 bytes of stack in the static library.
pub fn exchange_from(d: &OpenDocument, plan: &[Note], at: usize, out: &mut [u8], ledger: &mut [u8])
    requires { Exchangeable d.now.content.rules.file.now d.now.content.rules.index.now d.now.content.rows.now d.now.content.text.now d.now.mode d.now.blocks
        plan.now at out.old ledger.old }
    ensures { Exchanges d.now.content.rules.file.now d.now.content.rules.index.now d.now.content.rows.now d.now.content.text.now d.now.mode d.now.blocks
        plan.now at out.old ledger.old out.new ledger.new }
{
    let note = plan[0];
    if d.blocks <= note.block {
        return;
    }
    let rest = &plan[1..];
    let next = rest[0].block;
    let to = at + note.size;
    let old = passes::end_before(ledger, note.after);
    let tail = passes::end_before(ledger, next) - old;
    lower(out, old, to, tail);
    exchange_from(d, rest, to + tail, out, ledger);
    ledger::move_rows(ledger, note.after, next, old, to);
    if to <= old {
        write_stretch(d, note, at, to, out, ledger);
        return;
    }
    text::move_bytes(out, old, to, tail);
    write_stretch(d, note, at, to, out, ledger);
}
