// A writer of tree files, fed with steps: open a node of a kind, add a token with text, close the node, finish. Writer and buffer are lent
// to each step, and a refused one leaves both as they were. Texts stand from the buffer's front on, rows from its back on, and the finish
// makes the file of them. While a node is open, the number of its row is the row of the node around it.
#![tactic(auto)]

ghost use Rattle.std.specs.Prelude.{◌≡◌, true, false, cond, ◌++◌, ◌+◌, ◌-◌, ◌^◌, ◌≤◌, ◌<◌, length, drop};
ghost use Rattle.std.proofs.lemmas.List.Edits.{sets};
ghost use Rattle.text.specs.Trailer.{file_most};
ghost use Rattle.tree_file.specs.Layout.{blocks_most};
ghost use Rattle.tree_file.specs.Depth.{depth_most};
ghost use Rattle.tree_writer.specs.Steps.{opens_node, adds_token, closes_node, finishes};
ghost use Rattle.tree_writer.specs.SoFar.{size_with, blocks_with, is_in_place, limit_passed, row_limit, out_of_place};
ghost use Rattle.tree_writer.specs.Writers.{new_writer, so_far, within_limits, text_fits, can_be, at_root, block_stands, deepest_fits};
ghost use Rattle.tree_writer.specs.Writers.{in_block, opened_fits, finished_fits, possible, same_room, may_step};
ghost use Rattle.tree_writer.specs.Buffers.{back_number, back_row, back_number_at, filed, reason_number, take_step, TakesStep};
ghost use Rattle.tree_writer.specs.States.{state_size, is_state, load, numbers_of, step_in, length_in, told_number, told_length, StepsIn, NoStep, SteppedIn};

use refusals::Reason;

// The marks of nodes and tokens.
const NODE: u8 = 0;

const TOKEN: u8 = 1;

// What a writer knows between two steps: whether it has finished, how many rows, bytes of text and blocks there are, how many nodes are
// open, the row of the innermost (0 where none is), and the buffer's length from the first accepted step on.
#[derive(Clone, Copy, PartialEq, Eq, Debug)]
pub struct Writer {
    pub finished: bool,
    pub rows: usize,
    pub text: usize,
    pub blocks: usize,
    pub depth: usize,
    pub inner: usize,
    pub room: usize,
}

// The bytes of so much text and so many rows, trailer counted.
fn size_with(text: usize, rows: usize) -> usize
    requires { size_with text rows < 2 ^ 64 }
    ensures { result ≡ size_with text rows }
{
    text + 8 * rows + 8
}

// Whether `rows` rows can be `blocks` blocks.
fn can_be(blocks: usize, rows: usize) -> bool
    ensures { result ≡ can_be blocks rows }
{
    blocks <= rows && (blocks != 0 || rows == 0)
}

// 3, then 4, then 15; accepted where no limit is passed.
fn limit_passed(room: usize, size: usize, blocks: usize, depth: usize) -> Result<(), Reason>
    ensures { reason_number result ≡ limit_passed room size blocks depth }
{
    if text::FILE_MOST < size || tree_file::BLOCKS_MOST < blocks {
        return Err(Reason::BadLayout);
    }
    if tree_file::DEPTH_MOST < depth {
        return Err(Reason::TooDeep);
    }
    if room < size {
        return Err(Reason::TooShort);
    }
    Ok(())
}

// ---- writers that steps can have left

impl Writer {
    // A writer that has written nothing yet.
    pub fn new() -> Writer
        ensures { result ≡ new_writer }
    {
        Writer {
            finished: false,
            rows: 0,
            text: 0,
            blocks: 0,
            depth: 0,
            inner: 0,
            room: 0,
        }
    }

    // Whether the file so far keeps the limits.
    fn within_limits(self) -> bool
        ensures { result ≡ within_limits self }
    {
        if text::FILE_MOST < self.text || text::FILE_MOST < self.rows {
            return false;
        }
        let size = size_with(self.text, self.rows);
        size <= text::FILE_MOST
            && size <= self.room
            && self.blocks <= tree_file::BLOCKS_MOST
            && self.depth <= tree_file::DEPTH_MOST
    }

    // Whether a row that is neither the root nor open can have the text.
    fn text_fits(self) -> bool
        ensures { result ≡ text_fits self }
    {
        self.text == 0 || (1 < self.rows && self.depth < self.rows)
    }

    // Whether the other rows can be the blocks, where at most the root is open.
    fn at_root(self) -> bool
        ensures { result ≡ at_root self }
    {
        self.inner == 0 && can_be(self.blocks, self.rows.saturating_sub(1))
    }

    // Whether the open block can stand before the innermost node, after the other blocks.
    fn block_stands(self) -> bool
        requires { (self.blocks ≤ blocks_most) × ((2 ≤ self.depth) × (self.depth ≤ depth_most)) }
        ensures { result ≡ block_stands self }
    {
        self.blocks + (self.depth - 2) <= self.inner
            && (self.depth != 2 || self.blocks != 1 || self.inner == 1)
    }

    // Whether no row lies under a node as deep as a row may lie.
    fn deepest_fits(self) -> bool
        ensures { result ≡ deepest_fits self }
    {
        self.depth != tree_file::DEPTH_MOST || self.rows.checked_sub(1) == Some(self.inner)
    }

    // Whether the nodes from the open block to the innermost can be open.
    fn in_block(self) -> bool
        requires { (self.blocks ≤ blocks_most) × ((2 ≤ self.depth) × (self.depth ≤ depth_most)) }
        ensures { result ≡ in_block self }
    {
        1 <= self.blocks && self.inner < self.rows && self.block_stands() && self.deepest_fits()
    }

    // Whether the open nodes can stand where they do.
    fn opened_fits(self) -> bool
        requires { within_limits self ≡ true }
        ensures { result ≡ opened_fits self }
    {
        if self.depth <= 1 {
            self.at_root()
        } else {
            self.in_block()
        }
    }

    // Whether it has finished only with the root closed.
    fn finished_fits(self) -> bool
        ensures { result ≡ finished_fits self }
    {
        !self.finished || self.depth == 0
    }

    // Whether steps can have left this writer.
    fn is_possible(self) -> bool
        ensures { result ≡ possible self }
    {
        if self.rows == 0 {
            return self == Writer::new();
        }
        self.within_limits() && self.text_fits() && self.opened_fits() && self.finished_fits()
    }
}

// ---- the answer to a step

impl Writer {
    // Whether the buffer is as long as at the first accepted step.
    fn same_room(self, buffer: &[u8]) -> bool
        ensures { result ≡ same_room self buffer.now }
    {
        self.rows == 0 || buffer.len() == self.room
    }

    // 16 where no step may be tried; `placed` says whether it is in its place.
    fn may_step(self, buffer: &[u8], placed: bool) -> Result<(), Reason>
        ensures { reason_number result ≡ cond (may_step self buffer.now placed) 0 out_of_place }
    {
        if self.is_possible() && self.same_room(buffer) && !self.finished && placed {
            return Ok(());
        }
        Err(Reason::OutOfPlace)
    }

    // The root comes first, a ScopeRoot and the only one.
    fn open_placed(self, kind: u8) -> bool
        ensures { result ≡ is_in_place (so_far self) (opens_node kind) }
    {
        mitex_syntax::is_node(kind)
            && (self.depth != 0 || (self.rows == 0 && kind == mitex_syntax::SCOPE_ROOT))
    }

    // A token lies under a node.
    fn token_placed(self, kind: u8, s: &[u8]) -> bool
        ensures { result ≡ is_in_place (so_far self) (adds_token kind s.now) }
    {
        tree_file::token_fits(kind, s, false) && 1 <= self.depth
    }

    // The finish comes where the root is closed.
    fn finish_placed(self) -> bool
        ensures { result ≡ is_in_place (so_far self) finishes }
    {
        1 <= self.rows && self.depth == 0
    }

    // The blocks with a row more: right under the root it is a block.
    fn blocks_with_row(self) -> usize
        requires { self.blocks ≤ blocks_most }
        ensures { result ≡ blocks_with self.depth self.blocks }
    {
        self.blocks + usize::from(self.depth == 1)
    }

    // The answer to a step that adds a row with `n` bytes of text; `placed` says whether it is in its place.
    fn row_answer(self, buffer: &[u8], placed: bool, n: usize) -> Result<(), Reason>
        ensures { reason_number result ≡ cond (may_step self buffer.now placed) (row_limit (length buffer.now) (so_far self) n) out_of_place }
    {
        self.may_step(buffer, placed)?;
        if text::FILE_MOST < n {
            return Err(Reason::BadLayout);
        }
        let size = size_with(self.text + n, self.rows + 1);
        limit_passed(buffer.len(), size, self.blocks_with_row(), self.depth + 1)
    }
}

// ---- bytes

// Bytes stored from `at` on.
fn put_bytes(out: &mut [u8], at: usize, s: &[u8])
    requires { at + length s.now ≤ length out.old }
    ensures { out.new ≡ sets out.old at s.now }
{
    text::copy_bytes(&mut out[at..at + s.len()], s);
}

// A row's number, its highest byte first.
fn put_number(out: &mut [u8], at: usize, n: usize)
    requires { at + 4 ≤ length out.old }
    ensures { out.new ≡ sets out.old at (back_number n) }
{
    put_bytes(out, at, &n.to_be_bytes()[4..]);
}

// The number that stands there.
fn number_at(out: &[u8], at: usize) -> usize
    requires { at + 4 ≤ length out.now }
    ensures { result ≡ back_number_at out.now at }
{
    u32::from_be_bytes([out[at], out[at + 1], out[at + 2], out[at + 3]]) as usize
}

// A row, its last byte first.
fn put_row(out: &mut [u8], at: usize, kind: u8, mark: u8, n: usize)
    requires { at + 8 ≤ length out.old }
    ensures { out.new ≡ sets out.old at (back_row kind mark n) }
{
    put_number(out, at, n);
    put_bytes(out, at + 4, &[0, 0, mark, kind]);
}

// The rows turned round and moved after the text, and the trailer.
fn put_file(out: &mut [u8], text: usize, rows: usize)
    requires { (size_with text rows ≤ length out.old) × (size_with text rows ≤ file_most) }
    ensures { out.new ≡ filed text rows out.old }
{
    let size = 8 * rows;
    let from = out.len() - size;
    out[from..].reverse();
    text::move_bytes(out, from, text, size);
    text::write_u32(out, text + size, text);
    text::write_u32(out, text + size + 4, rows);
}

// ---- the steps

impl Writer {
    // Opens a node.
    pub fn open_node(&mut self, buffer: &mut [u8], kind: u8) -> Result<(), Reason>
        ensures { TakesStep (take_step self.old buffer.old (opens_node kind)) result self.new buffer.new }
    {
        self.row_answer(buffer, self.open_placed(kind), 0)?;
        let rows = self.rows + 1;
        let room = buffer.len();
        put_row(buffer, room - 8 * rows, kind, NODE, self.inner);
        *self = Writer {
            rows,
            blocks: self.blocks_with_row(),
            depth: self.depth + 1,
            inner: self.rows,
            room,
            ..*self
        };
        Ok(())
    }

    // Adds a token.
    pub fn add_token(&mut self, buffer: &mut [u8], kind: u8, s: &[u8]) -> Result<(), Reason>
        ensures { TakesStep (take_step self.old buffer.old (adds_token kind s.now)) result self.new buffer.new }
    {
        self.row_answer(buffer, self.token_placed(kind, s), s.len())?;
        let rows = self.rows + 1;
        let room = buffer.len();
        put_bytes(buffer, self.text, s);
        put_row(buffer, room - 8 * rows, kind, TOKEN, s.len());
        *self = Writer {
            rows,
            text: self.text + s.len(),
            blocks: self.blocks_with_row(),
            room,
            ..*self
        };
        Ok(())
    }

    // Closes the innermost open node: its row is told how many rows lie under it.
    pub fn close_node(&mut self, buffer: &mut [u8]) -> Result<(), Reason>
        ensures { TakesStep (take_step self.old buffer.old closes_node) result self.new buffer.new }
    {
        self.may_step(buffer, 1 <= self.depth)?;
        let room = buffer.len();
        let place = room - 8 * (self.inner + 1);
        let inner = number_at(buffer, place);
        put_number(buffer, place, self.rows - 1 - self.inner);
        *self = Writer {
            depth: self.depth - 1,
            inner,
            room,
            ..*self
        };
        Ok(())
    }

    // Makes the file: it stands at the front of the buffer, and has as many bytes as the writer's rows and text and the trailer.
    pub fn finish_file(&mut self, buffer: &mut [u8]) -> Result<(), Reason>
        ensures { TakesStep (take_step self.old buffer.old finishes) result self.new buffer.new }
    {
        self.may_step(buffer, self.finish_placed())?;
        let room = buffer.len();
        put_file(buffer, self.text, self.rows);
        *self = Writer {
            finished: true,
            room,
            ..*self
        };
        Ok(())
    }
}

// ---- the same with the writer kept as numbers, zeros at the start, as callers in C keep it

// The writer that the numbers say, where there are enough and the first is 0 or 1.
fn load(state: &[usize]) -> Option<Writer>
    ensures { result ≡ load state.now }
{
    let [
        finished @ (0 | 1),
        rows,
        text,
        blocks,
        depth,
        inner,
        room,
        ..
    ] = *state
    else {
        return None;
    };
    Some(Writer {
        finished: finished == 1,
        rows,
        text,
        blocks,
        depth,
        inner,
        room,
    })
}

// The writer put into the numbers.
fn save(state: &mut [usize], w: Writer)
    requires { state_size ≤ length state.old }
    ensures { state.new ≡ numbers_of w ++ drop state_size state.old }
{
    let finished = usize::from(w.finished);
    let numbers = [finished, w.rows, w.text, w.blocks, w.depth, w.inner, w.room];
    state[..numbers.len()].copy_from_slice(&numbers);
}

// Calls `step` with the writer that the numbers say, and puts the writer that it leaves into them; the numbers stay where it refuses.
fn with_writer<F: FnOnce(&mut Writer, &mut [u8]) -> Result<(), Reason>>(
    state: &mut [usize],
    buffer: &mut [u8],
    step: F,
) -> Result<Writer, Reason>
    requires { F.IsAlwaysCallable step }
    ensures no_state { is_state state.old ≡ false → NoStep state.old buffer.old result state.new buffer.new }
    ensures stepped { is_state state.old ≡ true → SteppedIn (F.post step) state.old buffer.old result state.new buffer.new }
{
    let mut w = load(state).ok_or(Reason::OutOfPlace)?;
    step(&mut w, buffer)?;
    save(state, w);
    Ok(w)
}

// The number that callers in C are told: 0, or the refusal's.
fn told(answer: Result<Writer, Reason>) -> u8
    ensures { result ≡ told_number answer }
{
    match answer {
        Ok(_) => 0,
        Err(reason) => u8::from(reason),
    }
}

// Opens a node.
pub fn open_in(state: &mut [usize], buffer: &mut [u8], kind: u8) -> u8
    ensures { StepsIn (step_in state.old buffer.old (opens_node kind)) result state.new buffer.new }
{
    told(with_writer(state, buffer, |w, b| w.open_node(b, kind)))
}

// Adds a token.
pub fn token_in(state: &mut [usize], buffer: &mut [u8], kind: u8, s: &[u8]) -> u8
    ensures { StepsIn (step_in state.old buffer.old (adds_token kind s.now)) result state.new
        buffer.new }
{
    told(with_writer(state, buffer, |w, b| w.add_token(b, kind, s)))
}

// Closes the innermost open node.
pub fn close_in(state: &mut [usize], buffer: &mut [u8]) -> u8
    ensures { StepsIn (step_in state.old buffer.old closes_node) result state.new buffer.new }
{
    told(with_writer(state, buffer, |w, b| w.close_node(b)))
}

// The length of the file that a finish leaves, 0 in a refusal.
fn file_length(answer: Result<Writer, Reason>) -> usize
    requires { told_length answer ≤ file_most }
    ensures { result ≡ told_length answer }
{
    match answer {
        Ok(w) => size_with(w.text, w.rows),
        Err(_) => 0,
    }
}

// Makes the file: `place` is its length, 0 in a refusal.
pub fn finish_in(state: &mut [usize], buffer: &mut [u8], place: &mut usize) -> u8
    ensures steps_in { StepsIn (step_in state.old buffer.old finishes) result state.new buffer.new }
    ensures place_after { place.new ≡ length_in (step_in state.old buffer.old finishes) }
{
    let answer = with_writer(state, buffer, |w, b| w.finish_file(b));
    *place = file_length(answer);
    told(answer)
}
