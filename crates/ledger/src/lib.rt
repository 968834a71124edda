// The ledger: a row for each block, read and written. specs/Ledger.antt has the layout.
#![tactic(auto)]

ghost use Rattle.std.specs.Prelude.{◌≡◌, true, cond, [], ◌∷◌, ◌++◌, ℕ, ◌+◌, ◌-◌, ◌*◌, ◌≤◌, ◌<◌, length, take, drop, replicate, MatchOption};
ghost use Rattle.std.proofs.lemmas.List.Edits.{sets};
ghost use Rattle.mitex_meaning.specs.Outcome.{label_most};
ghost use Rattle.mitex_meaning.specs.Outcome.Label.{unheld, held};
ghost use Rattle.mitex_meaning.specs.Conversion.{start_carry};
ghost use Rattle.mitex_meaning.specs.State.{carry_of, with_carry};
ghost use Rattle.ledger.specs.Ledger.{row_size, mark, encode_row, HasRow, RowFits, row_at, all_zero, marks_fit, row_fits, fits, Movable, move_row, move_rows, same_label, same_carry};

use mitex_meaning::{Converter, LABEL_MOST};

// The bytes of a row.
pub const ROW_SIZE: usize = 8 + LABEL_MOST;

// ---- reading

// The bytes of row `i`.
fn row_bytes(ledger: &[u8], i: usize) -> &[u8]
    requires { HasRow i ledger.now }
    ensures { result.now ≡ take row_size (drop (row_size * i) ledger.now) }
{
    let at = ROW_SIZE * i;
    &ledger[at..at + ROW_SIZE]
}

// The text's length after block `i`.
pub fn row_end(ledger: &[u8], i: usize) -> usize
    requires { HasRow i ledger.now }
    ensures { (result ≡ (row_at i ledger.now).end) × (result < 4294967296) }
{
    text::read_u32(ledger, ROW_SIZE * i)
}

// The space flag after block `i`.
fn row_flag(ledger: &[u8], i: usize) -> bool
    requires { HasRow i ledger.now }
    ensures { result ≡ (row_at i ledger.now).carry.flag }
{
    row_bytes(ledger, i)[4] == 1
}

// The label held after block `i`, a part of the ledger.
fn row_label(ledger: &[u8], i: usize) -> Option<&[u8]>
    requires { RowFits i ledger.now }
    ensures { MatchOption result (unheld ≡ (row_at i ledger.now).carry.label) (λ s. held s.now ≡ (row_at i ledger.now).carry.label) }
{
    let row = row_bytes(ledger, i);
    if row[5] != 1 {
        return None;
    }
    let len = usize::from(row[6]);
    Some(&row[8..8 + len])
}

// The converter with the carry of row `i`.
pub fn row_carry(ledger: &[u8], i: usize, converter: Converter) -> Converter
    requires { RowFits i ledger.now }
    ensures { result ≡ with_carry (row_at i ledger.now).carry converter }
{
    let flagged = converter.with_flag(row_flag(ledger, i));
    match row_label(ledger, i) {
        Some(label) => flagged.with_label(label),
        None => flagged.without_label(),
    }
}

// Whether the converter holds a label and its bytes are `s`.
fn holds_label(converter: Converter, s: &[u8]) -> bool
    requires { converter.label_len ≤ label_most }
    ensures { result ≡ same_label (carry_of converter).label (held s.now) }
{
    let label = converter.label;
    let len = converter.label_len;
    converter.label_held && &label[..len] == s
}

// Whether the label that the converter holds is that of row `i`.
fn same_label(ledger: &[u8], i: usize, converter: Converter) -> bool
    requires { RowFits i ledger.now × (converter.label_len ≤ label_most) }
    ensures { result ≡ same_label (carry_of converter).label (row_at i ledger.now).carry.label }
{
    match row_label(ledger, i) {
        Some(label) => holds_label(converter, label),
        None => !converter.label_held,
    }
}

// Whether the converter's carry is that of row `i`: the flag and the label.
pub fn same_carry(ledger: &[u8], i: usize, converter: Converter) -> bool
    requires { RowFits i ledger.now × (converter.label_len ≤ label_most) }
    ensures { result ≡ same_carry (carry_of converter) (row_at i ledger.now).carry }
{
    let flags = converter.skip_next_space == row_flag(ledger, i);
    let labels = same_label(ledger, i, converter);
    flags && labels
}

// Whether the converter's carry is the one that a document begins with.
pub fn opening_carry(converter: Converter) -> bool
    ensures { result ≡ same_carry (carry_of converter) start_carry }
{
    !converter.skip_next_space && !converter.label_held
}

// ---- fitting

// Whether all bytes of `s` are zero. No way leads out of the loop, so that the compiler may look at many bytes at once: `all` stops at the
// first that is not, and an edit in 512 blocks then takes half as long again.
fn all_zero(s: &[u8]) -> bool
    ensures { result ≡ all_zero s.now }
{
    let mut zero = true;
    for b in s {
        zero = *b == 0 && zero;
    }
    zero
}

// Whether bytes 4 to 7 of a row fit: both marks, the label's length (0 for an unheld one), zero.
fn marks_fit(flag: u8, held: u8, len: usize, blank: u8) -> bool
    ensures { result ≡ marks_fit flag held len blank }
{
    flag <= 1 && held <= 1 && len <= LABEL_MOST * usize::from(held) && blank == 0
}

// Whether row `i` fits by itself.
fn row_fits(ledger: &[u8], i: usize) -> bool
    requires { HasRow i ledger.now }
    ensures { result ≡ row_fits (drop (row_size * i) ledger.now) }
{
    let row = row_bytes(ledger, i);
    let len = usize::from(row[6]);
    marks_fit(row[4], row[5], len, row[7]) && all_zero(&row[8 + len..])
}

// Whether the ledger has a row for each of the blocks and these fit a text of the kept length.
pub fn ledger_fits(ledger: &[u8], blocks: usize, kept: usize) -> bool
    ensures { result ≡ fits blocks kept ledger.now }
{
    if ledger.len() / ROW_SIZE < blocks {
        return false;
    }
    let mut end = 0;
    for i in 0..blocks {
        let next = row_end(ledger, i);
        if next < end {
            return false;
        }
        if !row_fits(ledger, i) {
            return false;
        }
        end = next;
    }
    end == kept
}

// ---- writing

// How many label bytes count: none while no label is held.
fn held_len(held: bool, len: usize) -> usize
    ensures { (result ≡ cond held len 0) × (result ≤ len) }
{
    if held { len } else { 0 }
}

// The label's bytes that count, padded with zeros.
fn fill_label(out: &mut [u8], converter: Converter, len: usize)
    requires { (length out.old ≡ label_most) × (len ≤ label_most) }
    ensures { out.new ≡ take len converter.label ++ replicate (label_most - len) 0 }
{
    let label = converter.label;
    text::copy_bytes(&mut out[..len], &label[..len]);
    out[len..].fill(0);
}

// Bytes 4 to 7: the two marks, the label's length, zero.
fn write_marks(row: &mut [u8], flag: bool, held: bool, len: usize)
    requires { (length row.old ≡ row_size) × (len ≤ label_most) }
    ensures { row.new ≡ sets row.old 4 (mark flag ∷ mark held ∷ len ∷ 0 ∷ []) }
{
    row[4..8].copy_from_slice(&[u8::from(flag), u8::from(held), len as u8, 0]);
}

// A whole row: the text's length and the converter's carry.
fn fill_row(row: &mut [u8], end: usize, converter: Converter)
    requires { (length row.old ≡ row_size) × (end < 4294967296) × (converter.label_len ≤ label_most) }
    ensures { row.new ≡ encode_row (record { end = end; carry = carry_of converter }) }
{
    let len = held_len(converter.label_held, converter.label_len);
    text::write_u32(row, 0, end);
    write_marks(row, converter.skip_next_space, converter.label_held, len);
    fill_label(&mut row[8..], converter, len);
}

// Row `i`: the text's length after the block, and the converter's carry.
pub fn write_row(ledger: &mut [u8], i: usize, end: usize, converter: Converter)
    requires { HasRow i ledger.old × (end < 4294967296) × (converter.label_len ≤ label_most) }
    ensures { ledger.new ≡ sets ledger.old (row_size * i) (encode_row (record { end = end; carry = carry_of converter })) }
{
    let at = ROW_SIZE * i;
    let to = at + ROW_SIZE;
    fill_row(&mut ledger[at..to], end, converter);
}

// The length of row `i`, its text moved from the place `old` to `new`.
pub fn move_row(ledger: &mut [u8], i: usize, old: usize, new: usize)
    requires { HasRow i ledger.old × Movable i old new ledger.old }
    ensures { ledger.new ≡ sets ledger.old (row_size * i) (move_row old new (drop (row_size * i) ledger.old)) }
{
    let end = row_end(ledger, i);
    text::write_u32(ledger, ROW_SIZE * i, new + (end - old));
}

// The lengths of the rows from `from` on up to `to`, their text moved from the place `old` to `new`.
pub fn move_rows(ledger: &mut [u8], from: usize, to: usize, old: usize, new: usize)
    requires { (from ≤ to) × (row_size * to ≤ length ledger.old) × ((j : ℕ) → from ≤ j → j < to → Movable j old new ledger.old) }
    ensures { ledger.new ≡ sets ledger.old (row_size * from) (move_rows (to - from) old new (drop (row_size * from) ledger.old)) }
{
    for i in from..to {
        move_row(ledger, i, old, new);
    }
}
