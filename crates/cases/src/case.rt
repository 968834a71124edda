// A case: what its parts said of it so far.

ghost use Rattle.std.specs.Prelude.{◌≤◌};
ghost use Rattle.cases.specs.Held.{buffer_most};

use ledger::ROW_SIZE;
use text::FILE_MOST;
use tree_file::BLOCKS_MOST;

// How long a buffer can be: more than a file, and than a ledger of one row more than a document has blocks at most, which a removal may
// read.
pub const BUFFER: usize = FILE_MOST + ROW_SIZE * (BLOCKS_MOST + 1);

// The name, the files and the last list of a case, how long its buffers are, its calls so far and how often it failed.
#[derive(Clone, Copy)]
pub struct Case<'a> {
    pub name: &'a [u8],
    pub rules: &'a [u8],
    pub tree: &'a [u8],
    pub list: &'a [u8],
    pub file: &'a [u8],
    pub text_size: usize,
    pub ledger_size: usize,
    pub calls: usize,
    pub failed: usize,
    ghost text_room: { text_size ≤ buffer_most },
    ghost ledger_room: { ledger_size ≤ buffer_most },
}
