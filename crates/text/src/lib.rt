// Bytes: numbers, files of rows, comparing, finding, writing to an output, clearing and moving.
#![tactic(auto)]

ghost use Rattle.std.specs.Prelude.{◌≡◌, [], ◌∷◌, ◌+◌, ◌≤◌, ◌<◌, ◌%◌, length, take, drop, replicate};
ghost use Rattle.std.proofs.lemmas.List.Edits.{sets};
ghost use Rattle.text.specs.Numbers.{four, two_at, four_at};
ghost use Rattle.text.specs.Compare.{same, precedes, starts_with, ends_with, index_of};
ghost use Rattle.text.specs.Trailer.{start_of, count_of, trailed};

mod output;

pub use output::Output;

// ---- numbers

// A byte as a number.
pub fn wide(b: u8) -> usize
    ensures { (result ≡ b) × (result < 256) }
{
    usize::from(b)
}

// The lowest byte of a number.
pub fn low_byte(n: usize) -> u8
    ensures { result ≡ n % 256 }
{
    (n % 256) as u8
}

// The number in the two bytes from `i` on.
pub fn read_u16(s: &[u8], i: usize) -> usize
    requires { i + 2 ≤ length s.now }
    ensures { (result ≡ two_at i s.now) × (result < 65536) }
{
    usize::from(u16::from_le_bytes([s[i], s[i + 1]]))
}

// The number in the four bytes from `i` on.
pub fn read_u32(s: &[u8], i: usize) -> usize
    requires { i + 4 ≤ length s.now }
    ensures { (result ≡ four_at i s.now) × (result < 4294967296) }
{
    u32::from_le_bytes([s[i], s[i + 1], s[i + 2], s[i + 3]]) as usize
}

// The four bytes of `n`, from `i` on.
pub fn write_u32(out: &mut [u8], i: usize, n: usize)
    requires { (i + 4 ≤ length out.old) × (n < 4294967296) }
    ensures { out.new ≡ sets out.old i (four n []) }
{
    out[i..i + 4].copy_from_slice(&(n as u32).to_le_bytes());
}

// ---- files of rows

// No file has more bytes.
pub const FILE_MOST: usize = 65536;

// Where the rows start, by the trailer.
pub fn start_of(file: &[u8]) -> usize
    requires { 8 ≤ length file.now }
    ensures { (result ≡ start_of file.now) × (result < 4294967296) }
{
    read_u32(file, file.len() - 8)
}

// How many rows there are, by the trailer.
pub fn count_of(file: &[u8]) -> usize
    requires { 8 ≤ length file.now }
    ensures { (result ≡ count_of file.now) × (result < 4294967296) }
{
    read_u32(file, file.len() - 4)
}

// Whether the length of a file is in its bounds and the one that the trailer says.
pub fn trailed(file: &[u8]) -> bool
    ensures { result ≡ trailed file.now }
{
    if file.len() < 8 {
        return false;
    }
    if FILE_MOST < file.len() {
        return false;
    }
    start_of(file) + 8 * count_of(file) + 8 == file.len()
}

// ---- comparing and finding

// Whether `a` and `b` are the same bytes.
pub fn same(a: &[u8], b: &[u8]) -> bool
    ensures { result ≡ same a.now b.now }
{
    a == b
}

// Whether `a` comes strictly before `b` in the order by bytes. It asks of each pair whether they differ, and only then which is less: `a < b`
// takes more than twice as many instructions for a byte that is the same, and names of rules begin alike.
pub fn precedes(a: &[u8], b: &[u8]) -> bool
    ensures { result ≡ precedes a.now b.now }
{
    let n = a.len().min(b.len());
    for i in 0..n {
        if a[i] != b[i] {
            return a[i] < b[i];
        }
    }
    a.len() < b.len()
}

// Whether `s` begins with `p`.
pub fn starts_with(s: &[u8], p: &[u8]) -> bool
    ensures { result ≡ starts_with s.now p.now }
{
    s.starts_with(p)
}

// Whether `s` ends with `p`.
pub fn ends_with(s: &[u8], p: &[u8]) -> bool
    ensures { result ≡ ends_with s.now p.now }
{
    s.ends_with(p)
}

// Where `b` first stands in `s`, or the length of `s`.
pub fn index_of(s: &[u8], b: u8) -> usize
    ensures { result ≡ index_of b s.now }
{
    s.iter().position(|x| *x == b).unwrap_or(s.len())
}

// ---- clearing and moving

// All bytes zero.
pub fn clear(out: &mut [u8])
    ensures { out.new ≡ replicate (length out.old) 0 }
{
    out.fill(0);
}

// The bytes of `s` over as many others. It goes byte by byte, since for `copy_from_slice` the archive for C would need `memmove` from outside.
pub fn copy_bytes(to: &mut [u8], s: &[u8])
    requires { length to.old ≡ length s.now }
    ensures { to.new ≡ s.now }
{
    for i in 0..s.len() {
        to[i] = s[i];
    }
}

// `n` bytes moved from `old` to `new`; the two parts may overlap.
pub fn move_bytes(out: &mut [u8], old: usize, new: usize, n: usize)
    requires { (old + n ≤ length out.old) × (new + n ≤ length out.old) }
    ensures { out.new ≡ sets out.old new (take n (drop old out.old)) }
{
    out.copy_within(old..old + n, new);
}
