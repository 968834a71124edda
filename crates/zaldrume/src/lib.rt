// Convert, the three changes of one block, several blocks replaced together, and the steps of writing a tree file, for programs in other
// languages, on numbers and slices: `include/zaldrume.h` says how each passes. The answer is a refusal's number, 0 where there is none, and
// numbers written through the lent places.
#![tactic(auto)]

ghost use Rattle.std.specs.Prelude.{◌≡◌};
ghost use Rattle.edit_meaning.specs.Edit.{convert_document, edit as edit_document};
ghost use Rattle.edit_meaning.specs.Changes.{put_in, take_out, replace_all, change};
ghost use Rattle.manuscript.specs.Manuscript.{manuscript};
ghost use Rattle.calls.specs.Calls.{answer_of_edit};
ghost use Rattle.tree_writer.specs.Steps.{opens_node, adds_token, closes_node, finishes};
ghost use Rattle.tree_writer.specs.States.{step_in, length_in, StepsIn};
ghost use Rattle.zaldrume.specs.Answers.{AnswerTold, Tells};

use calls::Edited;
use refusals::Refusal;

// Convert: `place` is the text's length or the refusal's row, `count` the count of blocks.
#[unsafe(no_mangle)]
pub extern "C" fn zaldrume_convert<'a>(
    mode: u8,
    rules: &'a [u8],
    tree: &'a [u8],
    text: &mut [u8],
    ledger: &mut [u8],
    place: &mut usize,
    growth: &mut i64,
    count: &mut usize,
) -> u8
    ensures { Tells (convert_document (manuscript mode rules.now) tree.now text.old
        ledger.old) result place.new growth.new count.new text.new ledger.new }
{
    *growth = 0;
    match calls::convert(mode, rules, tree, text, ledger) {
        Err(refusal) => {
            *place = refusal.row;
            *count = 0;
            u8::from(refusal.reason)
        }
        Ok(converted) => {
            *place = converted.length;
            *count = converted.blocks;
            0
        }
    }
}

// What a change answers, by numbers: `place` is the new length or the refusal's row, `growth` the new length less the old, `count` how
// many blocks were converted again.
fn tell(r: Result<Edited, Refusal>, place: &mut usize, growth: &mut i64, count: &mut usize) -> u8
    ensures { AnswerTold (answer_of_edit r) result place.new growth.new count.new }
{
    match r {
        Err(refusal) => {
            *place = refusal.row;
            *growth = 0;
            *count = 0;
            u8::from(refusal.reason)
        }
        Ok(edited) => {
            *place = edited.length;
            *growth = edited.growth;
            *count = edited.count;
            0
        }
    }
}

// Edit: block `block` is replaced.
#[unsafe(no_mangle)]
pub extern "C" fn zaldrume_edit<'a>(
    mode: u8,
    rules: &'a [u8],
    tree: &'a [u8],
    block: usize,
    kept: usize,
    text: &mut [u8],
    ledger: &mut [u8],
    place: &mut usize,
    growth: &mut i64,
    count: &mut usize,
) -> u8
    ensures { Tells (edit_document (manuscript mode rules.now) tree.now block kept text.old
        ledger.old) result place.new growth.new count.new text.new ledger.new }
{
    let r = calls::edit(mode, rules, tree, block, kept, text, ledger);
    tell(r, place, growth, count)
}

// An insertion: a block is put in before `position`.
#[unsafe(no_mangle)]
pub extern "C" fn zaldrume_insert<'a>(
    mode: u8,
    rules: &'a [u8],
    tree: &'a [u8],
    position: usize,
    kept: usize,
    text: &mut [u8],
    ledger: &mut [u8],
    place: &mut usize,
    growth: &mut i64,
    count: &mut usize,
) -> u8
    ensures { Tells (change (manuscript mode rules.now) tree.now (put_in position) kept text.old
        ledger.old) result place.new growth.new count.new text.new ledger.new }
{
    let r = calls::insert(mode, rules, tree, position, kept, text, ledger);
    tell(r, place, growth, count)
}

// A removal: block `block` is taken out.
#[unsafe(no_mangle)]
pub extern "C" fn zaldrume_remove<'a>(
    mode: u8,
    rules: &'a [u8],
    tree: &'a [u8],
    block: usize,
    kept: usize,
    text: &mut [u8],
    ledger: &mut [u8],
    place: &mut usize,
    growth: &mut i64,
    count: &mut usize,
) -> u8
    ensures { Tells (change (manuscript mode rules.now) tree.now (take_out block) kept text.old
        ledger.old) result place.new growth.new count.new text.new ledger.new }
{
    let r = calls::remove(mode, rules, tree, block, kept, text, ledger);
    tell(r, place, growth, count)
}

// Several blocks replaced together: those of the numbers `blocks`.
#[unsafe(no_mangle)]
pub extern "C" fn zaldrume_replace_all<'a>(
    mode: u8,
    rules: &'a [u8],
    tree: &'a [u8],
    blocks: &[usize],
    kept: usize,
    text: &mut [u8],
    ledger: &mut [u8],
    place: &mut usize,
    growth: &mut i64,
    count: &mut usize,
) -> u8
    ensures { Tells (change (manuscript mode rules.now) tree.now (replace_all blocks.now) kept
        text.old ledger.old) result place.new growth.new count.new text.new
        ledger.new }
{
    let r = calls::replace_all(mode, rules, tree, blocks, kept, text, ledger);
    tell(r, place, growth, count)
}

// Opens a node of a kind. `state` is the writer between two steps, zeros at the start.
#[unsafe(no_mangle)]
pub extern "C" fn zaldrume_writer_open(state: &mut [usize], buffer: &mut [u8], kind: u8) -> u8
    ensures { StepsIn (step_in state.old buffer.old (opens_node kind)) result state.new buffer.new }
{
    tree_writer::open_in(state, buffer, kind)
}

// Adds a token of a kind with its text.
#[unsafe(no_mangle)]
pub extern "C" fn zaldrume_writer_token(
    state: &mut [usize],
    buffer: &mut [u8],
    kind: u8,
    text: &[u8],
) -> u8
    ensures { StepsIn (step_in state.old buffer.old (adds_token kind text.now)) result state.new
        buffer.new }
{
    tree_writer::token_in(state, buffer, kind, text)
}

// Closes the node that was opened last and is open.
#[unsafe(no_mangle)]
pub extern "C" fn zaldrume_writer_close(state: &mut [usize], buffer: &mut [u8]) -> u8
    ensures { StepsIn (step_in state.old buffer.old closes_node) result state.new buffer.new }
{
    tree_writer::close_in(state, buffer)
}

// Finishes: the file stands at the front of the buffer, and `place` is its length, 0 in a refusal.
#[unsafe(no_mangle)]
pub extern "C" fn zaldrume_writer_finish(
    state: &mut [usize],
    buffer: &mut [u8],
    place: &mut usize,
) -> u8
    ensures steps_in { StepsIn (step_in state.old buffer.old finishes) result state.new buffer.new }
    ensures place_after { place.new ≡ length_in (step_in state.old buffer.old finishes) }
{
    tree_writer::finish_in(state, buffer, place)
}
