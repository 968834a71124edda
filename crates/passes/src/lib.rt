// Passes over the blocks of a document, one block a turn. Convert's goes over all blocks, measures and writes. A change has two for each
// stretch of blocks that it converts again: one that measures up to the first block after which the carry is the kept one, and one that
// writes what was measured.
#![tactic(auto)]

ghost use Rattle.std.specs.Prelude.{◌≡◌, true, false, [], ℕ, ◌+◌, ◌*◌, ◌-◌, ◌≤◌, ◌<◌, length};
ghost use Rattle.std.proofs.lemmas.List.Edits.{sets};
ghost use Rattle.text.specs.Writing.{cap};
ghost use Rattle.mitex_meaning.specs.Outcome.{label_most};
ghost use Rattle.mitex_meaning.specs.State.{carry_of};
ghost use Rattle.ledger.specs.Ledger.{row_size, encode_row, HasRow, RowFits};
ghost use Rattle.passes.specs.Passes.{BlocksGiven, BlocksUpTo, Pieced, SomeBlocks, Reaches, EndsBefore, CarriesBefore, Steps, StandsBefore, MeetsBefore, Measures, Writes};

use mitex::Elements;
use mitex_meaning::{Converter, LaTeXMode};
use refusals::Refusal;
use text::Output;

mod open;

pub use open::{Content, OpenDocument};

// The end of a text that a row cannot say any more.
const CAP: usize = 4294967296;

// Where a pass stands: the next block, the bytes of rows and of text before it, where its text goes, and the converter that it begins with.
#[derive(Clone, Copy)]
pub struct Standing {
    pub block: usize,
    pub i: usize,
    pub j: usize,
    pub at: usize,
    pub converter: Converter,
}

// Where block `k` begins, by the row before it.
pub fn end_before(ledger: &[u8], k: usize) -> usize
    requires { 0 < k → HasRow (k - 1) ledger.now }
    ensures { EndsBefore ledger.now k result × (result < cap) }
{
    match k.checked_sub(1) {
        None => 0,
        Some(last) => ledger::row_end(ledger, last),
    }
}

// The converter with which block `k` begins, by the row before it.
pub fn carry_before(ledger: &[u8], k: usize, mode: LaTeXMode) -> Converter
    requires { 0 < k → RowFits (k - 1) ledger.now }
    ensures { CarriesBefore ledger.now k mode result }
{
    let opening = Converter::opening(mode);
    match k.checked_sub(1) {
        None => opening,
        Some(last) => ledger::row_carry(ledger, last, opening),
    }
}

// From a standing on before block `block`, by the rows alone: no block is converted.
pub fn stand_on(rows: &[u8], s: Standing, block: usize) -> Standing
    requires some_blocks { SomeBlocks rows.now block }
    requires reaches { (s.block ≤ block) × Reaches rows.now block s.block s.i s.j }
    ensures { StandsBefore rows.now block s.at s.converter result }
{
    let mut i = s.i;
    let mut j = s.j;
    for _ in s.block..block {
        let span = mitex_syntax::span_at(rows, i);
        i += span.rows;
        j += span.text;
    }
    Standing { block, i, j, ..s }
}

// Before block `block`, where its text goes to `at`.
pub fn stand_at(rows: &[u8], block: usize, at: usize, converter: Converter) -> Standing
    requires { SomeBlocks rows.now block }
    ensures { StandsBefore rows.now block at converter result }
{
    let first = Standing {
        block: 0,
        i: 0,
        j: 0,
        at,
        converter,
    };
    stand_on(rows, first, block)
}

// The next block, converted. It stands one row after those before it, since the root is row 0.
pub fn next_block(d: Content, out: &mut [u8], s: Standing) -> Result<Standing, Refusal>
    requires blocks_given { BlocksGiven d.rules.file.now d.rules.index.now d.rows.now d.text.now s }
    requires i_in_bounds { (s.i < length d.rows.now) × (s.block < cap) × (length out.old ≤ cap) }
    ensures { Steps d.entry.rules.file.now d.entry.rules.index.now d.entry.rows.now d.entry.text.now s out.old result
        out.new }
{
    let span = mitex_syntax::span_at(d.rows, s.i);
    let i = s.i + span.rows;
    let j = s.j + span.text;
    let e = Elements {
        rows: &d.rows[s.i..i],
        text: &d.text[s.j..j],
        row: s.i / 8,
    };
    let mut converter = s.converter;
    let mut output = Output {
        buffer: out,
        at: s.at,
    };
    mitex::convert_block(&mut converter, &mut output, e, d.rules)?;
    Ok(Standing {
        block: s.block + 1,
        i,
        j,
        at: output.at,
        converter,
    })
}

// Whether the carry at a standing is the one that stood before block `j` of the kept document: that of the row before the block, or a
// document's first.
pub fn met(kept: &[u8], j: usize, s: Standing) -> bool
    requires { (0 < j → RowFits (j - 1) kept.now) × (s.converter.label_len ≤ label_most) }
    ensures { MeetsBefore j s kept.now result }
{
    match j.checked_sub(1) {
        None => ledger::opening_carry(s.converter),
        Some(last) => ledger::same_carry(kept, last, s.converter),
    }
}

// Blocks measured from a standing on, up to the first after which the carry is the kept one, or up to the last. Of the `was` kept blocks
// as many are left as of the new ones, so the carry is compared with that before the kept block as far from the last.
pub fn measure(
    d: Content,
    kept: &[u8],
    from: Standing,
    blocks: usize,
    was: usize,
) -> Result<Standing, Refusal>
    requires blocks_up_to { BlocksUpTo d.rules.file.now d.rules.index.now d.rows.now d.text.now from blocks }
    requires blocks_bound { (blocks ≤ from.block + 1 + was) × (was ≤ blocks + 1) × ((i : ℕ) → i < was → RowFits i kept.now) }
    ensures { Measures d.entry.rules.file.now d.entry.rules.index.now d.entry.rows.now d.entry.text.now from blocks was true
        kept.now result }
{
    let mut s = from;
    // The standing itself counts the blocks, here and in the passes below: a `for` would count them once more.
    while s.block < blocks {
        let next = next_block(d, &mut [], s)?;
        let j = next.block + was - blocks;
        if met(kept, j, next) {
            return Ok(next);
        }
        s = next;
    }
    Ok(s)
}

// The row of block `k`, after which a pass stands at `s`, where a row can say the text's end.
fn draft_row(ledger: &mut [u8], k: usize, s: Standing)
    requires { HasRow k ledger.old × (s.converter.label_len ≤ label_most) }
    ensures { s.at < cap → ledger.new ≡ sets
        ledger.old (row_size * k) (encode_row (record { end = s.at; carry = carry_of s.converter })) }
{
    if s.at < CAP {
        ledger::write_row(ledger, k, s.at, s.converter);
    }
}

// All blocks from a standing on, measured and written with their rows in one pass: what falls outside the buffer is not written but counted.
pub fn draft_blocks(
    d: Content,
    out: &mut [u8],
    ledger: &mut [u8],
    from: Standing,
    blocks: usize,
) -> Result<Standing, Refusal>
    requires blocks_up_to { BlocksUpTo d.rules.file.now d.rules.index.now d.rows.now d.text.now from blocks }
    requires out_len_bound { (length out.old ≤ cap) × (row_size * blocks ≤ length ledger.old) }
    ensures measured { Measures d.entry.rules.file.now d.entry.rules.index.now d.entry.rows.now d.entry.text.now from blocks blocks false [] result }
    ensures written { Writes d.entry.rules.file.now d.entry.rules.index.now d.entry.rows.now d.entry.text.now from blocks
        out.old ledger.old out.new ledger.new }
{
    let mut s = from;
    while s.block < blocks {
        let next = next_block(d, out, s)?;
        draft_row(ledger, s.block, next);
        s = next;
    }
    Ok(s)
}

// Blocks written from a standing up to one that was measured, with their rows.
pub fn write_blocks(d: Content, out: &mut [u8], ledger: &mut [u8], from: Standing, to: usize)
    requires pieced { Pieced d.rules.file.now d.rules.index.now d.rows.now d.text.now from to ledger.old }
    requires out_len_bound { length out.old ≤ cap }
    ensures { Writes d.entry.rules.file.now d.entry.rules.index.now d.entry.rows.now d.entry.text.now from to
        out.old ledger.old out.new ledger.new }
{
    let mut s = from;
    while s.block < to {
        let next = next_block(d, out, s).unwrap();
        ledger::write_row(ledger, s.block, next.at, next.converter);
        s = next;
    }
}
