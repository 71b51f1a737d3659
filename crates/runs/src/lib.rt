// Whole sample words, read one after another. 0024, 0044 and 0048 share a loop, which the compiler makes anew for each of them, and 0015 has its own: the decoders are made of constants; 0022 and 0042 share one, over the table that they are lent. And four bytes as one number, for `stream`.
// A loop writes its samples by their places, and over no chunks of the output: of what is written through `chunks_mut` Rattle knows the length alone.
#![tactic(auto)]

ghost use Rattle.std.specs.Prelude.{◌≡◌, min, ◌+◌, ◌*◌, ◌/◌, ◌%◌, ◌≤◌, ◌<◌, length, set};
ghost use Rattle.basis.specs.Digits.{written, byte_in};
ghost use Rattle.words.specs.Words.{off_one};
ghost use Rattle.runs.specs.Words.{four_at, words_in, grouped_in, group_exponent, group_word, tabled_at, plain_value, grouped_value, rest_value};
ghost use Rattle.runs.specs.Runs.{offs, marked, numbers, over, ran, filled};

use words::{Plain, Value, tables};

// What a run came to: the samples that it wrote, and how many of their words are off rule.
#[derive(Clone, Copy)]
pub struct Ran {
    pub samples: usize,
    pub off: usize,
}

// Writes sample k, M and then X; 1 if its word is off rule.
fn put(out: &mut [i32], k: usize, w: Value) -> usize
    requires { 2 * k + 1 < length out.old }
    ensures value { result ≡ off_one w }
    ensures out_after { out.new ≡ set (set out.old (2 * k) w.m) (2 * k + 1) w.x }
{
    out[2 * k] = w.m;
    out[2 * k + 1] = w.x;
    usize::from(w.off)
}

// The two bytes of a group from i on.
fn big2(bytes: &[u8], i: usize) -> u16
    requires { i + 1 < length bytes.now }
    ensures { result ≡ written 256 (byte_in bytes.now) i 2 }
{
    u16::from_be_bytes([bytes[i], bytes[i + 1]])
}

// The four bytes from i on; 0 where they are not all there.
pub fn four_at(bytes: &[u8], i: usize) -> u32
    ensures { result ≡ four_at bytes.now i }
{
    if bytes.len() < 4 || bytes.len() - 4 < i {
        return 0;
    }
    u32::from_be_bytes([bytes[i], bytes[i + 1], bytes[i + 2], bytes[i + 3]])
}

// The off-rule words among a few bytes. Their count is a byte, as they are: so many of them are looked at in one instruction.
fn off_few(code: u16, bytes: &[u8]) -> u8
    requires { length bytes.now ≤ 255 }
    ensures { result ≡ marked code bytes.now }
{
    let mut off = 0;
    for b in bytes {
        off += u8::from(tables::off(code, *b));
    }
    off
}

// The off-rule words among some bytes: of 224 at a time, which the compiled loop takes 32 at a turn.
fn off_bytes(code: u16, bytes: &[u8]) -> usize
    ensures { result ≡ marked code bytes.now }
{
    let mut off = 0;
    for few in bytes.chunks(224) {
        off += usize::from(off_few(code, few));
    }
    off
}

// Words of one byte, as a table says them, with the marks of 0022 or else of 0042. Off-rule words are counted apart, since that takes less than to count each with its sample.
pub fn byte_words(table: &[u64; 256], code: u16, bytes: &[u8], out: &mut [i32]) -> Ran
    ensures value { result ≡ ran (words_in 1) (tabled_at table.now code) bytes.now out.old }
    ensures out_after { out.new ≡ filled (words_in 1) (tabled_at table.now code) bytes.now out.old }
{
    let n = bytes.len().min(out.len() / 2);
    let words = &bytes[..n];
    for (k, b) in words.iter().enumerate() {
        put(out, k, tables::value(table, code, *b));
    }
    let off = off_bytes(code, words);
    Ran { samples: n, off }
}

// Words of a code whose words stand alone: the compiler makes the loop anew for each code, of that code's constants.
pub fn plain_words<const N: usize, P: Plain<N>>(bytes: &[u8], out: &mut [i32]) -> Ran
    ensures value { result ≡ ran (words_in N) (plain_value P.CODE N) bytes.now out.old }
    ensures out_after { out.new ≡ filled (words_in N) (plain_value P.CODE N) bytes.now out.old }
{
    let (words, _) = bytes.as_chunks::<N>();
    let n = words.len().min(out.len() / 2);
    let mut off = 0;
    for (k, word) in words[..n].iter().enumerate() {
        off += put(out, k, P::value(*word));
    }
    Ran { samples: n, off }
}

// The exponent of word k of groups of 0015, in the lowest four bits.
fn group_exponent(bytes: &[u8], k: usize) -> u32
    requires { 10 * (k / 4) + 1 < length bytes.now }
    ensures { result % 16 ≡ group_exponent bytes.now k }
{
    u32::from(big2(bytes, 10 * (k / 4))) >> (12 - 4 * (k % 4))
}

// Word k of groups of 0015.
fn group_word(bytes: &[u8], k: usize) -> u16
    requires { 10 * (k / 4) + 2 + 2 * (k % 4) + 1 < length bytes.now }
    ensures { result ≡ group_word bytes.now k }
{
    big2(bytes, 10 * (k / 4) + 2 + 2 * (k % 4))
}

// Writes sample j of group g of 0015, by the group's exponents; 1 if its word is off rule.
fn sample15(bytes: &[u8], exponents: u32, g: usize, j: usize, out: &mut [i32]) -> usize
    requires j_bound { j < 4 }
    requires g_in_bounds { 10 * g + 9 < length bytes.now }
    requires j_in_bounds { 2 * (4 * g + j) + 1 < length out.old }
    requires exponents_value { exponents ≡ written 256 (byte_in bytes.now) (10 * g) 2 }
    ensures value { result ≡ off_one (grouped_value 0x0015 bytes.now (4 * g + j)) }
    ensures out_after { out.new ≡ set (set out.old (2 * (4 * g + j)) (grouped_value 0x0015 bytes.now (4 * g + j)).m) (2 * (4 * g + j) + 1) (grouped_value 0x0015 bytes.now (4 * g + j)).x }
{
    let w = words::value15(exponents >> (12 - 4 * j), big2(bytes, 10 * g + 2 + 2 * j));
    put(out, 4 * g + j, w)
}

// The first groups of 0015, as far as n samples fill them: the exponents of a group are read once.
fn whole_groups(bytes: &[u8], n: usize, out: &mut [i32]) -> usize
    requires { n ≡ min (grouped_in (length bytes.now)) (length out.old / 2) }
    ensures value { result ≡ offs (grouped_value 0x0015 bytes.now) (n / 4 * 4) }
    ensures out_after { out.new ≡ over (numbers (grouped_value 0x0015 bytes.now) (n / 4 * 4)) out.old }
{
    let mut off = 0;
    for g in 0..n / 4 {
        let exponents = u32::from(big2(bytes, 10 * g));
        for j in 0..4 {
            off += sample15(bytes, exponents, g, j, out);
        }
    }
    off
}

// The words that n bytes of groups of 0015 hold.
fn grouped_in(n: usize) -> usize
    ensures { result ≡ grouped_in n }
{
    let rest = n % 10;
    if rest < 2 {
        return n / 10 * 4;
    }
    n / 10 * 4 + (rest - 2) / 2
}

// Groups of 0015; of the last, those of its words that are there.
pub fn groups15(bytes: &[u8], out: &mut [i32]) -> Ran
    ensures value { result ≡ ran grouped_in (grouped_value 0x0015) bytes.now out.old }
    ensures out_after { out.new ≡ filled grouped_in (grouped_value 0x0015) bytes.now out.old }
{
    let n = grouped_in(bytes.len()).min(out.len() / 2);
    let mut off = whole_groups(bytes, n, out);
    // over the places: the words of a group that is not whole have no chunk of their own
    for k in n / 4 * 4..n {
        let w = words::value15(group_exponent(bytes, k), group_word(bytes, k));
        off += put(out, k, w);
    }
    Ran { samples: n, off }
}

// Words of 0015 from word j of a group on, by the group's exponents; past its fourth word these begin again, but `stream` never goes so far.
pub fn rest15(exponents: u32, j: usize, bytes: &[u8], out: &mut [i32]) -> Ran
    ensures value { result ≡ ran (words_in 2) (rest_value 0x0015 exponents j) bytes.now out.old }
    ensures out_after { out.new ≡ filled (words_in 2) (rest_value 0x0015 exponents j) bytes.now out.old }
{
    let (words, _) = bytes.as_chunks::<2>();
    let n = words.len().min(out.len() / 2);
    let first = j % 4;
    let mut off = 0;
    for (k, word) in words[..n].iter().enumerate() {
        let turn = (first + k) % 4;
        let w = words::value15(exponents >> (12 - 4 * turn), u16::from_be_bytes(*word));
        off += put(out, k, w);
    }
    Ran { samples: n, off }
}
