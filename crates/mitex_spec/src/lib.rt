// The rules of a conversion, in a sorted file: its check, and what `get_cmd` and `get_env` answer.
#![tactic(auto)]

ghost use Rattle.std.specs.Prelude.{◌≡◌, true, List, ℕ, ◌+◌, ◌*◌, ◌≤◌, ◌<◌, length, set, unwrap_or};
ghost use Rattle.std.proofs.Math.Option.Option.{some};
ghost use Rattle.std.proofs.lemmas.List.Edits.{sets};
ghost use Rattle.text.specs.Trailer.{file_most, start_of};
ghost use Rattle.utf8.specs.Utf8.{one_byte_each};
ghost use Rattle.mitex_spec.specs.Rules.{Rule};
ghost use Rattle.mitex_spec.specs.RuleFile.{rules_of, rules_in, rising, padded, rule_row_fits, alias_size, rule_taken, may_follow};
ghost use Rattle.mitex_spec.specs.Index.{starts_from, firsts_start, index_size, first_byte, firsts_below, firsts, has_rules};
ghost use Rattle.mitex_spec.specs.Index.{ChecksRules, rule_row_at, rule_no, Numbered, SomeRule};
ghost use Rattle.mitex_spec.specs.LookUp.{lent};

mod rules;

pub use rules::{Found, Rules, written_name};

const NO_ALIAS: usize = 65535;

// The places of an index: 8,192 for where names begin, of which there are at most 8,191, and a table of 257.
pub const INDEX_SIZE: usize = 8449;

// Where the table of first bytes begins in the index.
const FIRSTS: usize = 8192;

const CLASS_MOST: u8 = 10;

// ---- the check

// The length of the alias of a row, if it has one.
fn alias_size(row: &[u8]) -> Option<usize>
    requires { 8 ≤ length row.now }
    ensures size { result ≡ alias_size row.now }
    ensures small { unwrap_or result 0 < 65536 }
{
    let size = text::read_u16(row, 2);
    (size != NO_ALIAS).then_some(size)
}

// The bytes of text that a row takes.
fn rule_taken(row: &[u8]) -> usize
    requires { 8 ≤ length row.now }
    ensures { (result ≡ rule_taken row.now) × (result < 131072) }
{
    text::read_u16(row, 0) + alias_size(row).unwrap_or(0)
}

// Whether the last three bytes of a row are zeros.
fn padded(row: &[u8]) -> bool
    requires { 8 ≤ length row.now }
    ensures { result ≡ padded row.now }
{
    row[5..8] == [0, 0, 0]
}

// Whether a row is one, with its texts first in `text`.
// `plain` says that the characters of the text have one byte each: then its name and alias are not looked at again.
fn rule_row_fits(row: &[u8], text: &[u8], plain: bool) -> bool
    requires { (8 ≤ length row.now) × (plain ≡ true → one_byte_each text.now ≡ true) }
    ensures { result ≡ rule_row_fits row.now text.now }
{
    let end = rule_taken(row);
    if !padded(row) || text.len() < end || row[4] > CLASS_MOST {
        return false;
    }
    let (name, alias) = text[..end].split_at(text::read_u16(row, 0));
    plain || utf8::valid(name) && utf8::valid(alias)
}

// Whether a name follows the one before it; the first follows none.
fn may_follow(last: Option<&[u8]>, name: &[u8]) -> bool
    ensures { result ≡ may_follow (lent last.entry) name.now }
{
    match last {
        Some(last) => text::precedes(last, name),
        None => true,
    }
}

// Whether each row is one, the texts fill the text, and the names rise.
fn rules_fit(rows: &[u8], text: &[u8]) -> bool
    ensures { (n : ℕ) → length rows.now ≡ 8 * n → result ≡ has_rules (rising (rules_in n rows.now text.now)) }
{
    let plain = utf8::one_byte_each(text);
    let mut rest = text;
    let mut last = None;
    for row in rows.chunks_exact(8) {
        if !rule_row_fits(row, rest, plain) {
            return false;
        }
        let name = &rest[..text::read_u16(row, 0)];
        if !may_follow(last, name) {
            return false;
        }
        rest = &rest[rule_taken(row)..];
        last = Some(name);
    }
    rest.is_empty()
}

// `at` as number `k` of the index, if it has so many.
fn store(index: &mut [u32], k: usize, at: usize)
    requires { at < 4294967296 }
    ensures { index.new ≡ set index.old k at }
{
    // After `get_mut` a proof would know the length of the index alone.
    if k < index.len() {
        index[k] = at as u32;
    }
}

// Where the name of each row begins.
fn fill_index(rows: &[u8], index: &mut [u32])
    requires { length rows.now ≤ file_most }
    ensures { (n : ℕ) → length rows.now ≡ 8 * n → index.new ≡ sets index.old 0 (starts_from 0 n rows.now) }
{
    let mut at = 0;
    for (k, row) in rows.chunks_exact(8).enumerate() {
        store(index, k, at);
        at += rule_taken(row);
    }
}

// ---- the table of first bytes

// A number of the index.
fn wide_u32(n: u32) -> usize
    ensures { (result ≡ n) × (result < 4294967296) }
{
    n as usize
}

// The row of a number, and the rows after it.
fn rule_row_at(file: &[u8], k: usize) -> &[u8]
    requires { (start_of file.now + 8 * k + 8 ≤ length file.now) × (length file.now ≤ file_most) }
    ensures { (result.now ≡ rule_row_at file.now k) × (8 ≤ length result.now) }
{
    &file[text::start_of(file) + 8 * k..]
}

// The name of the rule of a number.
fn name_at<'a>(file: &'a [u8], index: &[u32], k: usize) -> &'a [u8]
    requires { SomeRule file.now index.now k }
    ensures { (rs : List Rule) → rules_of file.now ≡ some rs → result.now ≡ (rule_no rs k).name }
{
    let at = wide_u32(index[k]);
    &file[at..at + text::read_u16(rule_row_at(file, k), 0)]
}

// The first byte of a name; 0 for the empty name.
fn first_byte(name: &[u8]) -> usize
    ensures { (result ≡ first_byte name.now) × (result < 256) }
{
    usize::from(name.first().copied().unwrap_or(0))
}

// How many names begin with a byte lower than `b`; at least `from` do.
fn firsts_below(file: &[u8], index: &[u32], b: usize, from: usize) -> usize
    requires numbered { Numbered file.now index.now }
    requires from_bound { (rs : List Rule) → rules_of file.now ≡ some rs → from ≤ firsts_below b rs }
    ensures { (rs : List Rule) → rules_of file.now ≡ some rs → result ≡ firsts_below b rs }
{
    let count = text::count_of(file);
    for k in from..count {
        if b <= first_byte(name_at(file, index, k)) {
            return k;
        }
    }
    count
}

// The table of first bytes, after where each name begins.
fn fill_firsts(file: &[u8], index: &mut [u32])
    requires { Numbered file.now index.old }
    ensures { (rs : List Rule) → rules_of file.now ≡ some rs → index.new ≡ sets index.old firsts_start (firsts rs) }
{
    let mut k = 0;
    for b in 0..=256 {
        k = firsts_below(file, index, b, k);
        store(index, FIRSTS + b, k);
    }
}

// Whether a rule file keeps its layout; if so, where each name begins goes into the index, and the table after it.
pub fn check_rules(file: &[u8], index: &mut [u32]) -> bool
    requires { index_size ≤ length index.old }
    ensures { ChecksRules file.now index.old result index.new }
{
    if !text::trailed(file) {
        return false;
    }
    let start = text::start_of(file);
    let rows = &file[start..file.len() - 8];
    if !rules_fit(rows, &file[..start]) {
        return false;
    }
    fill_index(rows, index);
    fill_firsts(file, index);
    true
}
