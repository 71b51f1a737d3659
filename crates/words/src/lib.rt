// Sample words: the fraction, the exponent and the off-rule mark of a word in each of the twelve codes. Words of one byte are read from the tables of tables.rt.
#![tactic(auto)]

pub mod tables;

ghost use Rattle.std.specs.Prelude.{ℕ, ◌≡◌, ◌<◌, ◌≤◌, ◌^◌, ◌*◌, ◌+◌, ◌-◌, ◌/◌, ◌%◌, ◌&&◌, ◌||◌, eqb, ltb, pos, neg_ℤ, Ok, Some};
ghost use Rattle.std.proofs.Common.{rules};
ghost use Rattle.basis.specs.Choice.{pick};
ghost use Rattle.basis.specs.Digits.{written, byte_in};
ghost use Rattle.basis.specs.Fields.{field};
ghost use Rattle.codes.specs.Codes.{SoundRow, row_of};
ghost use Rattle.codes.specs.declared.Kind.TheVariants.{OnesComplement, SignMagnitude, Justified};
ghost use Rattle.words.specs.Tables.{OneByte};
ghost use Rattle.words.specs.Words.{signed_fraction, power_of, last_bit, negative_zero, all_ones, off_rule, sample_in, word_in, word_of, valued, value_of};

use codes::{Kind, Row};
use refusals::Refusal;

// A sample M x 2^X, and whether it is off rule.
#[derive(Clone, Copy, Default)]
pub struct Value {
    pub m: i32,
    pub x: i32,
    pub off: bool,
}

// 2 to the n.
fn two_to(n: u32) -> u32
    requires { n < 32 }
    ensures { result ≡ 2 ^ n }
{
    1 << n
}

// The number of n bits that are all set.
fn ones(n: u32) -> u32
    requires { n < 32 }
    ensures { result ≡ 2 ^ n - 1 }
{
    two_to(n) - 1
}

// The bits of a word from `at` on, counted from its last, as many as `size`.
fn bits(word: u32, at: u32, size: u32) -> u32
    requires { (at < 32) × (size < 32) }
    ensures { result ≡ field word at size }
{
    (word >> at) & ones(size)
}

// M of a fraction Q with its sign S: Q, or minus what a negative Q keeps. LLVM makes a choice of two numbers of it, and no branch, which would be predicted badly.
fn with_sign(s: u32, q: u32, kept: u32) -> i32
    requires { (q < 2 ^ 31) × (kept < 2 ^ 31) }
    ensures { result ≡ pick (eqb s 0) (pos q) (neg_ℤ (pos kept)) }
{
    if s == 0 { q as i32 } else { -(kept as i32) }
}

// M, by how the fraction is kept: minus the complemented Q, or minus Q.
fn signed_fraction(kind: Kind, n: u32, s: u32, q: u32) -> i32
    requires { (n < 31) × (q < 2 ^ n) }
    ensures { result ≡ signed_fraction kind n s q }
{
    match kind {
        Kind::OnesComplement => with_sign(s, q, ones(n) - q),
        Kind::SignMagnitude | Kind::Justified => with_sign(s, q, q),
    }
}

// X.
fn power(base: u32, bias: u32, n: u32, e: u32) -> i32
    requires { (base * e < 2 ^ 31) × (base * bias + n < 2 ^ 31) }
    ensures { result ≡ power_of base bias n e }
{
    basis::difference(base * e, base * bias + n)
}

// What is off rule: straight lines, since a branch on a sample's bits is predicted badly.

// A bit below the fraction is set.
fn last_bit(last: u32) -> bool
    ensures { result ≡ last_bit last }
{
    0 < last
}

// The sign is set, and so is every bit of Q.
fn negative_zero(n: u32, s: u32, q: u32) -> bool
    requires { (n < 31) × (s < 2) × (q < 2 ^ n) }
    ensures { result ≡ negative_zero n s q }
{
    s + q == two_to(n)
}

// Each part is at most all ones, so that one sum says it of all three.
fn all_ones(n: u32, b: u32, s: u32, e: u32, q: u32) -> bool
    requires { (b < 31) × (n < 31) × (s < 2) × (e < 2 ^ b) × (q < 2 ^ n) }
    ensures { result ≡ all_ones n b s e q }
{
    s + e + q == 1 + ones(b) + ones(n)
}

// Every way in which a justified fraction is off rule: the word is not zero, and a bit below Q is set or the first four bits of Q are zero.
fn justified_off(n: u32, some: bool, last: u32, q: u32) -> bool
    requires { (4 ≤ n) × (n < 31) }
    ensures { result ≡ (some && (last_bit last || ltb q (2 ^ (n - 4)))) }
{
    some & (last_bit(last) | (q < two_to(n - 4)))
}

// Whether a word is off rule, by its parts, and whether any bit of it is set.
fn off_rule(kind: Kind, n: u32, b: u32, some: bool, last: u32, s: u32, e: u32, q: u32) -> bool
    requires { (4 ≤ n) × (n < 31) × (b < 31) × (s < 2) × (e < 2 ^ b) × (q < 2 ^ n) × (some ≡ ltb 0 (last + (s + e + q))) }
    ensures { result ≡ off_rule kind n b last s e q }
{
    match kind {
        Kind::OnesComplement => last_bit(last) | negative_zero(n, s, q),
        Kind::SignMagnitude => last_bit(last) | all_ones(n, b, s, e, q),
        Kind::Justified => justified_off(n, some, last, q),
    }
}

// A word's sample, by its row; c is the exponent apart from it. Put where it is called, with a known row it is worked out of the row's constants.
#[inline(always)]
fn sample(r: Row, c: u32, word: u32) -> Value
    requires sound { SoundRow r }
    requires c_bits { c < 2 ^ r.apart }
    requires word_bits { word < 2 ^ (r.width - r.apart) }
    ensures { result ≡ sample_in r c word }
{
    let n = r.fraction;
    let spare = r.width - 1 - r.exponent - n;
    let s = bits(word, r.width - r.apart - 1, 1);
    let e = c + bits(word, spare + n, r.exponent - r.apart);
    let q = bits(word, spare, n);
    let some = (0 < c) | (0 < word);
    let last = bits(word, 0, spare);
    Value {
        m: signed_fraction(r.kind, n, s, q),
        x: power(r.base, r.bias, n, e),
        off: off_rule(r.kind, n, r.exponent, some, last, s, e, q),
    }
}

// Whether a number has at most `w` bits.
fn has_bits(word: u32, w: u32) -> bool
    requires { w ≤ 32 }
    ensures { result ≡ ltb word (2 ^ w) }
{
    if w == 32 {
        return true;
    }
    word < two_to(w)
}

// The answer to a word of a row: INDEX, or its sample.
fn of_row(row: Row, c: u32, word: u32) -> Result<Value, Refusal>
    requires { SoundRow row }
    ensures { result ≡ word_in row c word }
{
    if has_bits(c, row.apart) && has_bits(word, row.width - row.apart) {
        return Ok(sample(row, c, word));
    }
    Err(Refusal::Index)
}

// The answer to a word of a code whose words have one byte, from the code's table.
fn by_table(code: u16, c: u32, word: u32) -> Result<Value, Refusal>
    requires { OneByte code }
    ensures { result ≡ word_of code c word }
{
    if c != 0 || 255 < word {
        return Err(Refusal::Index);
    }
    Ok(tables::value(tables::lent(code), code, word as u8))
}

// The sample that a word of a format code is, with the exponent c that stands apart from it (0015 and 8015; elsewhere 0); or FORMAT, INDEX. Code, c and word come one by one, as in segd_read_word.
// 0022 and 0042, and the same as 80xx, have tables: a column of the rows for it would be no plainer.
pub fn read_word(code: u16, c: u32, word: u32) -> Result<Value, Refusal>
    ensures { result ≡ word_of code c word }
{
    let stem = code % 0x8000;
    if stem == 0x0022 || stem == 0x0042 {
        return by_table(stem, c, word);
    }
    let row = codes::find(code).ok_or(Refusal::Format)?;
    of_row(row, c, word)
}

// The same as numbers alone: 0 x 2^0, not off rule, where the word is refused.
pub fn read(code: u16, c: u32, word: u32) -> Value
    ensures { result ≡ value_of code c word }
{
    read_word(code, c, word).unwrap_or_default()
}

// A word of a code, by its row, where no exponent stands apart from it. Put where it is called, it is worked out of the row's constants.
#[inline(always)]
fn by_row(r: Row, word: u32) -> Value
    requires { (row_of r.code ≡ Some r) × (word < 2 ^ (r.width - r.apart)) }
    ensures { result ≡ value_of r.code 0 word }
{
    sample(r, 0, word)
}

// A code whose words stand alone, of N bytes each.
pub trait Plain<const N: usize> {
    const CODE: u16;

    ghost CODE: { ℕ };

    // A word, as its bytes stand on tape.
    fn value(word: [u8; N]) -> Value
        ensures { result ≡ value_of CODE 0 (written 256 (byte_in word.entry) 0 N) };

    ghost short: { (0 < N) × (N ≤ 4) };
}

pub struct Code24;

impl Plain<2> for Code24 {
    const CODE: u16 = 0x0024;

    ghost CODE = { 0x0024 };

    fn value(word: [u8; 2]) -> Value
        ensures { result ≡ value_of 0x0024 0 (written 256 (byte_in word) 0 2) }
    {
        by_row(codes::ROW_24, u32::from(u16::from_be_bytes(word)))
    }

    ghost short = { Prim.search rules };
}

pub struct Code44;

impl Plain<2> for Code44 {
    const CODE: u16 = 0x0044;

    ghost CODE = { 0x0044 };

    fn value(word: [u8; 2]) -> Value
        ensures { result ≡ value_of 0x0044 0 (written 256 (byte_in word) 0 2) }
    {
        by_row(codes::ROW_44, u32::from(u16::from_be_bytes(word)))
    }

    ghost short = { Prim.search rules };
}

pub struct Code48;

impl Plain<4> for Code48 {
    const CODE: u16 = 0x0048;

    ghost CODE = { 0x0048 };

    fn value(word: [u8; 4]) -> Value
        ensures { result ≡ value_of 0x0048 0 (written 256 (byte_in word) 0 4) }
    {
        by_row(codes::ROW_48, u32::from_be_bytes(word))
    }

    ghost short = { Prim.search rules };
}

// One more than the greatest Q of an 0015 word, by its row.
const HALF: u32 = 1 << codes::ROW_15.fraction;

// One more than the greatest number that S and Q make side by side.
const FULL: u32 = 2 * HALF;

// One more than the greatest exponent.
const EXPONENTS: u32 = 1 << codes::ROW_15.apart;

// M of an 0015 word, S and Q being one number t. As two's complement it is v, and where S is set the complemented Q is v's complement, -1 - v: so LLVM needs an addition where a choice between Q and minus the complemented Q takes more.
fn fraction15(t: u32) -> i32
    requires { t < 32768 }
    ensures { result ≡ signed_fraction OnesComplement 14 (t / 2 ^ 14) (t % 2 ^ 14) }
{
    let v = basis::difference((t + HALF) % FULL, HALF);
    if t < HALF { v } else { -(-1 - v) }
}

// A word of 0015, with the exponent in the lowest four bits of c. Its last bit is not used.
pub fn value15(c: u32, word: u16) -> Value
    ensures { result ≡ value_of 0x0015 (c % 16) word }
{
    let r = codes::ROW_15;
    let w = u32::from(word);
    let t = w / 2;
    Value {
        m: fraction15(t),
        x: power(r.base, r.bias, r.fraction, c % EXPONENTS),
        off: last_bit(w % 2) | (t == FULL - 1),
    }
}
