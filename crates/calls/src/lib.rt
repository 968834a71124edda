// Convert, the three changes of one block, and several blocks replaced together, for any caller with any bytes: the files are checked, the
// blocks measured, and only then any lent byte is written.
#![tactic(auto)]

ghost use Rattle.std.specs.Prelude.{◌≡◌, true, ◌&&◌, ℕ, suc, ◌+◌, ◌*◌, ◌-◌, ◌≤◌, ◌<◌, min, length, take, drop, replicate, leb, ltb, MatchOption};
ghost use Rattle.std.proofs.Math.Option.Option.{none as nothing, some};
ghost use Rattle.std.proofs.lemmas.List.Edits.{sets};
ghost use Rattle.text.specs.Writing.{cap};
ghost use Rattle.mitex_spec.specs.Index.{index_size};
ghost use Rattle.tree_file.specs.Layout.{blocks_most};
ghost use Rattle.mitex_meaning.specs.Outcome.{label_most};
ghost use Rattle.mitex_meaning.specs.State.{carry_of};
ghost use Rattle.ledger.specs.Ledger.{row_size, RowFits, decode_rows, same_carry};
ghost use Rattle.edit_meaning.specs.Edit.{text_most, room_for_text, carry_before};
ghost use Rattle.edit_meaning.specs.Run.{size_after};
ghost use Rattle.edit_meaning.specs.Calls.{Converts, Edits};
ghost use Rattle.edit_meaning.specs.Changes.{named_there, old_count, change_fits};
ghost use Rattle.edit_meaning.specs.Changes.Kind.{put_in, take_out, replace_all};
ghost use Rattle.edit_meaning.specs.ChangeCalls.{Alters, RunsChanges, DemandedChanges};
ghost use Rattle.manuscript.specs.Manuscript.{mode_of, manuscript};
ghost use Rattle.passes.specs.Passes.{BlocksUpTo};
ghost use Rattle.calls.specs.Calls.{answer_of_convert, answer_of_edit, CallBegins, block_rows, Draft};
ghost use Rattle.calls.specs.Calls.{Delivers, ConvertsBlocks, kind_by, Measured, Roomy, Overwrites, Splices, MeasuresAgain, ChangesBlocks, PlanMade, ExchangesPlanned};
ghost use Rattle.calls.specs.Three.{three_changes, three_answers};

use ledger::ROW_SIZE;
use mitex_meaning::{Converter, LaTeXMode};
use mitex_spec::{INDEX_SIZE, Rules};
use passes::{Content, OpenDocument, Standing};
use refusals::{Reason, Refusal, no_row};
use stretches::{Note, PLAN_SIZE, Planned};
use tree_file::BLOCKS_MOST;

// A text buffer counts as at most so many bytes.
const TEXT_MOST: usize = 4294967295;

// Bytes of a draft's text. Its rows are those of the most blocks that a document has.
const DRAFT: usize = 65536;

const DRAFT_ROWS: usize = ROW_SIZE * BLOCKS_MOST;

// The same for a short document, which has at most so many blocks, and at most so many bytes of token texts: half of what the draft
// holds, since the text that they come to is seldom twice as long.
const SHORT_DRAFT: usize = 8192;

const SHORT_ROWS: usize = ROW_SIZE * SHORT_BLOCKS;

const SHORT_BLOCKS: usize = 64;

const SHORT_TEXT: usize = 4096;

// A document that is not short, and not long either, has rows for fewer blocks. Its text is drafted as that of any other: what a table
// comes to is four times as long as its tokens.
const MIDDLE_ROWS: usize = ROW_SIZE * MIDDLE_BLOCKS;

const MIDDLE_BLOCKS: usize = 128;

const MIDDLE_TEXT: usize = 16384;

// What Convert gives: the text's length and the count of blocks.
#[derive(Clone, Copy, PartialEq, Eq, Debug)]
pub struct Converted {
    pub length: usize,
    pub blocks: usize,
}

// What a call does to one block.
#[derive(Clone, Copy, PartialEq, Eq, Debug)]
pub enum Way {
    Replace,
    PutIn,
    TakeOut,
}

// What a change gives: the new length, the growth, and the count of blocks converted again.
#[derive(Clone, Copy, PartialEq, Eq, Debug)]
pub struct Edited {
    pub length: usize,
    pub growth: i64,
    pub count: usize,
}

// What three changes in a row answered, and the text's length after them.
#[derive(Clone, Copy)]
pub struct Three {
    pub first: Result<Edited, Refusal>,
    pub second: Result<Edited, Refusal>,
    pub third: Result<Edited, Refusal>,
    pub kept: usize,
}

// ---- the files

// The mode of a number: 0 is text, 1 is math.
fn mode_of(mode: u8) -> Option<LaTeXMode>
    ensures { MatchOption result (mode_of mode ≡ nothing) (λ m. mode_of mode ≡ some m) }
{
    match mode {
        0 => Some(LaTeXMode::Text),
        1 => Some(LaTeXMode::Math),
        _ => None,
    }
}

// The rows of the blocks in a tree file whose rows start there: those after the root's.
fn block_rows(tree: &[u8], start: usize) -> &[u8]
    requires { start + 16 ≤ length tree.now }
    ensures { result.now ≡ block_rows start tree.now }
{
    &tree[start + 8..tree.len() - 8]
}

// What every call begins with: refusals 1 to 5, or the document that is open, over the index of its rules.
fn open<'a>(
    mode: u8,
    rules: &'a [u8],
    tree: &'a [u8],
    index: &'a mut [u32],
) -> Result<OpenDocument<'a>, Refusal>
    requires { length index.old ≡ index_size }
    ensures { CallBegins mode rules.now tree.now result }
{
    let mode = mode_of(mode).ok_or(no_row(Reason::NoMode))?;
    if !mitex_spec::check_rules(rules, index) {
        return Err(no_row(Reason::BadRules));
    }
    let whole = tree_file::check_tree(tree)?;
    Ok(OpenDocument {
        mode,
        content: Content {
            rules: Rules { file: rules, index },
            rows: block_rows(tree, whole.start),
            text: &tree[..whole.start],
        },
        blocks: whole.blocks,
    })
}

// ---- what Convert and the changes share

// The text buffer as far as it counts.
fn text_room(out: &[u8]) -> usize
    ensures { result ≡ min (length out.now) text_most }
{
    out.len().min(TEXT_MOST)
}

// Whether the buffers have room for a text of so many bytes and a row for each of so many blocks.
fn has_room(out: &[u8], ledger: &[u8], at: usize, blocks: usize) -> bool
    ensures { result ≡ room_for_text at (length out.now) && leb (row_size * blocks) (length ledger.now) }
{
    at <= text_room(out) && blocks <= ledger.len() / ROW_SIZE
}

// ---- Convert

// The draft's text and rows, where the draft is long enough for the text; else the blocks are converted once more.
fn deliver(
    d: OpenDocument,
    draft: &[u8],
    draft_rows: &[u8],
    from: Standing,
    out: &mut [u8],
    ledger: &mut [u8],
)
    requires { Draft d from draft.now draft_rows.now out.old ledger.old }
    ensures { Delivers d.entry from draft.now draft_rows.now out.old ledger.old out.new ledger.new }
{
    let at = out.len();
    if draft.len() < at {
        passes::write_blocks(d.content, out, ledger, from, d.blocks);
        return;
    }
    let end = ROW_SIZE * d.blocks;
    text::copy_bytes(out, &draft[..at]);
    text::copy_bytes(&mut ledger[..end], &draft_rows[..end]);
}

// The blocks of a document, drafted and then delivered: the text, and a row for each.
fn convert_by_draft(
    d: OpenDocument,
    draft: &mut [u8],
    draft_rows: &mut [u8],
    out: &mut [u8],
    ledger: &mut [u8],
) -> Result<Converted, Refusal>
    requires { (length draft.old ≤ cap) × (row_size * d.blocks ≤ length draft_rows.old) }
    ensures { ConvertsBlocks d.entry out.old ledger.old result out.new ledger.new }
{
    let from = passes::stand_at(d.content.rows, 0, 0, Converter::opening(d.mode));
    let m = passes::draft_blocks(d.content, draft, draft_rows, from, d.blocks)?;
    if !has_room(out, ledger, m.at, d.blocks) {
        return Err(no_row(Reason::TooShort));
    }
    deliver(d, draft, draft_rows, from, &mut out[..m.at], ledger);
    Ok(Converted {
        length: m.at,
        blocks: d.blocks,
    })
}

// The same over a draft with room for so many bytes of text and of rows.
fn convert_over<const TEXT: usize, const ROWS: usize>(
    d: OpenDocument,
    out: &mut [u8],
    ledger: &mut [u8],
) -> Result<Converted, Refusal>
    requires { (TEXT ≤ cap) × (ROWS ≤ cap) × (row_size * d.blocks ≤ ROWS) }
    ensures { ConvertsBlocks d.entry out.old ledger.old result out.new ledger.new }
{
    let mut draft = [0u8; TEXT];
    let mut draft_rows = [0u8; ROWS];
    convert_by_draft(d, &mut draft, &mut draft_rows, out, ledger)
}

// Whether a document has at most so much text and so many blocks.
fn is_within(d: OpenDocument, longest: usize, most: usize) -> bool
    ensures { result ≡ true → d.entry.blocks ≤ most }
{
    d.content.text.len() <= longest && d.blocks <= most
}

// The blocks of a document, over a draft: a shorter one for a shorter document, since a draft is cleared before it is used.
fn convert_blocks(d: OpenDocument, out: &mut [u8], ledger: &mut [u8]) -> Result<Converted, Refusal>
    ensures { ConvertsBlocks d.entry out.old ledger.old result out.new ledger.new }
{
    if is_within(d, SHORT_TEXT, SHORT_BLOCKS) {
        return convert_over::<SHORT_DRAFT, SHORT_ROWS>(d, out, ledger);
    }
    if is_within(d, MIDDLE_TEXT, MIDDLE_BLOCKS) {
        return convert_over::<DRAFT, MIDDLE_ROWS>(d, out, ledger);
    }
    convert_over::<DRAFT, DRAFT_ROWS>(d, out, ledger)
}

// A tree file converted from its start, for mode 0 (text) or 1 (math): the text and a ledger row for each block are written.
pub fn convert(
    mode: u8,
    rules: &[u8],
    tree: &[u8],
    text: &mut [u8],
    ledger: &mut [u8],
) -> Result<Converted, Refusal>
    ensures { Converts (manuscript mode rules.now) tree.now text.old ledger.old
        (answer_of_convert result) text.new ledger.new }
{
    let mut index = [0u32; INDEX_SIZE];
    let d = open(mode, rules, tree, &mut index)?;
    convert_blocks(d, text, ledger)
}

// `convert_text` of the Rust.
pub fn convert_text(
    rules: &[u8],
    tree: &[u8],
    text: &mut [u8],
    ledger: &mut [u8],
) -> Result<Converted, Refusal>
    ensures { Converts (manuscript 0 rules.now) tree.now text.old ledger.old
        (answer_of_convert result) text.new ledger.new }
{
    convert(0, rules, tree, text, ledger)
}

// `convert_math` of the Rust.
pub fn convert_math(
    rules: &[u8],
    tree: &[u8],
    text: &mut [u8],
    ledger: &mut [u8],
) -> Result<Converted, Refusal>
    ensures { Converts (manuscript 1 rules.now) tree.now text.old ledger.old
        (answer_of_convert result) text.new ledger.new }
{
    convert(1, rules, tree, text, ledger)
}

// ---- a change of one block

// How many blocks the document had before.
fn old_count(way: Way, blocks: usize) -> usize
    requires { blocks ≤ blocks_most }
    ensures { (k : ℕ) → result ≡ old_count (kind_by way k) blocks }
{
    match way {
        Way::Replace => blocks,
        Way::PutIn => blocks.saturating_sub(1),
        Way::TakeOut => blocks + 1,
    }
}

// Whether the block to replace or to take out, or the position before which one is put in, is there.
fn named_there(way: Way, blocks: usize, block: usize) -> bool
    ensures { result ≡ named_there (kind_by way block) blocks }
{
    match way {
        Way::Replace | Way::PutIn => block < blocks,
        Way::TakeOut => block <= blocks,
    }
}

// Refusal 6: whether what is named is there, the kept text is in the buffer, and the ledger fits the blocks that there were.
fn change_fits(
    way: Way,
    blocks: usize,
    block: usize,
    kept: usize,
    text: &[u8],
    ledger: &[u8],
) -> bool
    requires { blocks ≤ blocks_most }
    ensures { result ≡ change_fits (kind_by way block) blocks kept text.now ledger.now }
{
    let within = named_there(way, blocks, block) && kept <= text.len();
    within && ledger::ledger_fits(ledger, old_count(way, blocks), kept)
}

// Zeros from `from` up to `to`, where that is after it.
fn clear_between(out: &mut [u8], from: usize, to: usize)
    requires { to ≤ length out.old }
    ensures { out.new ≡ sets out.old from (replicate (to - from) 0) }
{
    out[from.min(to)..to].fill(0);
}

// The rows from `q` on up to `was`, moved to the place of row `to`. Where they stand there, as after an edit, nothing is copied.
fn shift_rows(ledger: &mut [u8], q: usize, to: usize, was: usize)
    requires { (q ≤ was) × (row_size * was ≤ length ledger.old) × (row_size * (to + (was - q)) ≤ length ledger.old) }
    ensures { ledger.new ≡ sets ledger.old (row_size * to)
        (take (row_size * was - row_size * q) (drop (row_size * q) ledger.old)) }
{
    if q == to {
        return;
    }
    let old = ROW_SIZE * q;
    text::move_bytes(ledger, old, ROW_SIZE * to, ROW_SIZE * was - old);
}

// Both tails moved: the kept text from `old` on, and the kept rows from `q` on, which get their new lengths. The blocks that were measured
// are written before them, and zeros where text or rows shrank.
fn overwrite(
    d: OpenDocument,
    was: usize,
    kept: usize,
    from: Standing,
    m: Standing,
    q: usize,
    old: usize,
    out: &mut [u8],
    ledger: &mut [u8],
)
    requires measured { Measured d was kept from m out.old ledger.old }
    requires roomy { Roomy was d.blocks kept m q old out.old ledger.old }
    ensures { Overwrites d.entry was kept from m out.old ledger.old out.new ledger.new }
{
    let at = m.at;
    let to = m.block;
    text::move_bytes(out, old, at, kept - old);
    ledger::move_rows(ledger, q, was, old, at);
    shift_rows(ledger, q, to, was);
    passes::write_blocks(d.content, &mut out[..at], ledger, from, to);
    clear_between(out, at + (kept - old), kept);
    clear_between(ledger, ROW_SIZE * d.blocks, ROW_SIZE * was);
}

// The blocks that were measured, in the place of the kept ones, where there is room for the new text and its rows. After both
// as many kept blocks are left as new ones.
fn splice(
    d: OpenDocument,
    was: usize,
    kept: usize,
    from: Standing,
    m: Standing,
    out: &mut [u8],
    ledger: &mut [u8],
) -> Result<Edited, Refusal>
    requires { Measured d was kept from m out.old ledger.old }
    ensures { Splices d.entry was kept from m out.old ledger.old result out.new ledger.new }
{
    let q = m.block + was - d.blocks;
    let old = passes::end_before(ledger, q);
    let new = m.at + (kept - old);
    if !has_room(out, ledger, new, d.blocks) {
        return Err(no_row(Reason::TooShort));
    }
    overwrite(d, was, kept, from, m, q, old, out, ledger);
    Ok(Edited {
        length: new,
        growth: new as i64 - kept as i64,
        count: m.block - from.block,
    })
}

// Whether nothing is to be converted again: a block was taken out, and the carry before it is that of its kept row.
fn met_at_once(ledger: &[u8], from: Standing, blocks: usize, was: usize) -> bool
    requires block_lt_was { blocks < was → (from.block < was) × RowFits from.block ledger.now }
    requires label_len_bound { (from.converter.label_len ≤ label_most) × (from.block ≤ blocks_most) }
    ensures { result ≡ ltb blocks was && same_carry (carry_of from.converter)
        (carry_before (suc from.block) (decode_rows was ledger.now)) }
{
    blocks < was && passes::met(ledger, from.block + 1, from)
}

// The blocks to convert again, measured.
fn measure_again(
    d: OpenDocument,
    ledger: &[u8],
    from: Standing,
    was: usize,
) -> Result<Standing, Refusal>
    requires blocks_up_to { BlocksUpTo d.content.rules.file.now d.content.rules.index.now d.content.rows.now d.content.text.now from d.blocks }
    requires blocks_bound { (d.blocks ≤ from.block + 1 + was) × (was ≤ d.blocks + 1) × ((i : ℕ) → i < was → RowFits i ledger.now) }
    ensures { MeasuresAgain d.entry from was ledger.now result }
{
    if met_at_once(ledger, from, d.blocks, was) {
        return Ok(from);
    }
    passes::measure(d.content, ledger, from, d.blocks, was)
}

// One block changed, and those after it converted again up to the first after which the carry is the kept one.
fn change_blocks(
    d: OpenDocument,
    way: Way,
    block: usize,
    kept: usize,
    out: &mut [u8],
    ledger: &mut [u8],
) -> Result<Edited, Refusal>
    ensures { ChangesBlocks d.entry (kind_by way block) kept out.old ledger.old result out.new ledger.new }
{
    if !change_fits(way, d.blocks, block, kept, out, ledger) {
        return Err(no_row(Reason::NoFit));
    }
    let was = old_count(way, d.blocks);
    let at = passes::end_before(ledger, block);
    let from = passes::stand_at(
        d.content.rows,
        block,
        at,
        passes::carry_before(ledger, block, d.mode),
    );
    let m = measure_again(d, ledger, from, was)?;
    splice(d, was, kept, from, m, out, ledger)
}

// A call that changes one block: `tree` is the new tree file, `kept` the text's length before; text and ledger are those that were kept.
fn change(
    mode: u8,
    rules: &[u8],
    tree: &[u8],
    way: Way,
    block: usize,
    kept: usize,
    text: &mut [u8],
    ledger: &mut [u8],
) -> Result<Edited, Refusal>
    ensures { Alters (manuscript mode rules.now) tree.now (kind_by way block) kept text.old
        ledger.old (answer_of_edit result) text.new ledger.new }
{
    let mut index = [0u32; INDEX_SIZE];
    let d = open(mode, rules, tree, &mut index)?;
    change_blocks(d, way, block, kept, text, ledger)
}

// An edit: block `block` is replaced by that of the new tree file.
pub fn edit(
    mode: u8,
    rules: &[u8],
    tree: &[u8],
    block: usize,
    kept: usize,
    text: &mut [u8],
    ledger: &mut [u8],
) -> Result<Edited, Refusal>
    ensures { Edits (manuscript mode rules.now) tree.now block kept text.old
        ledger.old (answer_of_edit result) text.new ledger.new }
{
    change(mode, rules, tree, Way::Replace, block, kept, text, ledger)
}

// An insertion: the new tree file has one block more, which stands at `position`.
pub fn insert(
    mode: u8,
    rules: &[u8],
    tree: &[u8],
    position: usize,
    kept: usize,
    text: &mut [u8],
    ledger: &mut [u8],
) -> Result<Edited, Refusal>
    ensures { Alters (manuscript mode rules.now) tree.now (put_in position) kept text.old
        ledger.old (answer_of_edit result) text.new ledger.new }
{
    change(mode, rules, tree, Way::PutIn, position, kept, text, ledger)
}

// A removal: the new tree file has one block less, that which was block `block`.
pub fn remove(
    mode: u8,
    rules: &[u8],
    tree: &[u8],
    block: usize,
    kept: usize,
    text: &mut [u8],
    ledger: &mut [u8],
) -> Result<Edited, Refusal>
    ensures { Alters (manuscript mode rules.now) tree.now (take_out block) kept text.old
        ledger.old (answer_of_edit result) text.new ledger.new }
{
    change(mode, rules, tree, Way::TakeOut, block, kept, text, ledger)
}

// ---- several blocks replaced together

// Refusal 6: whether the blocks that are named can be replaced, the kept text is in the buffer, and the ledger fits.
fn replace_fits(named: &[usize], blocks: usize, kept: usize, text: &[u8], ledger: &[u8]) -> bool
    ensures { result ≡ change_fits (replace_all named.now) blocks kept text.now ledger.now }
{
    let within = stretches::all_there(named, blocks) && kept <= text.len();
    within && ledger::ledger_fits(ledger, blocks, kept)
}

// The stretches of a plan in the place of the kept blocks, where there is room for the new text.
fn exchange_planned(
    d: OpenDocument,
    kept: usize,
    plan: &[Note],
    p: Planned,
    out: &mut [u8],
    ledger: &mut [u8],
) -> Result<Edited, Refusal>
    requires { PlanMade d kept plan.now p out.old ledger.old }
    ensures { ExchangesPlanned d.entry kept plan.now p out.old ledger.old result out.new ledger.new }
{
    let new = p.at + (kept - passes::end_before(ledger, p.block));
    if !has_room(out, ledger, new, d.blocks) {
        return Err(no_row(Reason::TooShort));
    }
    let first = passes::end_before(ledger, plan[0].block);
    stretches::exchange_from(&d, plan, first, out, ledger);
    clear_between(out, new, kept);
    Ok(Edited {
        length: new,
        growth: new as i64 - kept as i64,
        count: p.count,
    })
}

// The blocks that are named, each with those after it up to the first after which the carry is the kept one, converted again.
fn replace_blocks(
    d: OpenDocument,
    named: &[usize],
    kept: usize,
    out: &mut [u8],
    ledger: &mut [u8],
) -> Result<Edited, Refusal>
    ensures { ChangesBlocks d.entry (replace_all named.now) kept out.old ledger.old result out.new ledger.new }
{
    if !replace_fits(named, d.blocks, kept, out, ledger) {
        return Err(no_row(Reason::NoFit));
    }
    let empty = Note {
        block: 0,
        after: 0,
        size: 0,
        i: 0,
        j: 0,
    };
    let mut plan = [empty; PLAN_SIZE];
    let p = stretches::plan_stretches(d, ledger, named, &mut plan)?;
    exchange_planned(d, kept, &plan, p, out, ledger)
}

// Several blocks replaced together: those that `named` lists are replaced by those of the new tree file.
pub fn replace_all(
    mode: u8,
    rules: &[u8],
    tree: &[u8],
    named: &[usize],
    kept: usize,
    text: &mut [u8],
    ledger: &mut [u8],
) -> Result<Edited, Refusal>
    ensures { Alters (manuscript mode rules.now) tree.now (replace_all named.now) kept
        text.old ledger.old (answer_of_edit result) text.new ledger.new }
{
    let mut index = [0u32; INDEX_SIZE];
    let d = open(mode, rules, tree, &mut index)?;
    replace_blocks(d, named, kept, text, ledger)
}

// ---- three calls in a row

// The text's length after a change: a refused one leaves it as it was.
fn length_after(r: Result<Edited, Refusal>, kept: usize) -> usize
    ensures { result ≡ size_after (answer_of_edit r) kept }
{
    r.map_or(kept, |edited| edited.length)
}

// An edit, an insertion and a removal, each with what the call before left: a small example of what a caller does. The calls are a run, so
// demand 3 holds of them.
pub fn three_changes(
    mode: u8,
    rules: &[u8],
    one: &[u8],
    i: usize,
    two: &[u8],
    j: usize,
    three: &[u8],
    k: usize,
    kept: usize,
    text: &mut [u8],
    ledger: &mut [u8],
) -> Three
    ensures run { RunsChanges (manuscript mode rules.now) kept text.old ledger.old
        (three_changes one.now i two.now j three.now k)
        (three_answers result) result.kept text.new ledger.new }
    ensures demand { DemandedChanges (manuscript mode rules.now) kept text.old ledger.old
        (three_changes one.now i two.now j three.now k)
        (three_answers result) result.kept text.new ledger.new }
{
    let first = edit(mode, rules, one, i, kept, text, ledger);
    let after_one = length_after(first, kept);
    let second = insert(mode, rules, two, j, after_one, text, ledger);
    let after_two = length_after(second, after_one);
    let third = remove(mode, rules, three, k, after_two, text, ledger);
    let after_three = length_after(third, after_two);
    Three {
        first,
        second,
        third,
        kept: after_three,
    }
}
