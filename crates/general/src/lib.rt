// The general header: refusals 1 to 6, in the order of the description's table.
#![tactic(auto)]

ghost use Rattle.std.specs.Prelude.{◌≡◌, ◌<◌};
ghost use Rattle.general.specs.General.{general_digits, time_in_range, is_interval, scan_in_range, counts_in_range, fields_before, header_length, general_fault};

use block::{all_pairs, byte_at, lower_at, pair_at, three_digits, three_pairs, upper_at, word_at};
use refusals::Refusal;

// "bytes 1-2, 11, lower half 12, 13-22, lower half 26, 27-32"
#[tactic(auto, unfolding(crate::specs::General::general_digits))]
fn general_digits(b: &[u8]) -> bool
    ensures { result ≡ general_digits b.now }
{
    all_pairs(b, 1, 2)
        && all_pairs(b, 11, 11)
        && lower_at(b, 12) <= 9
        && all_pairs(b, 13, 22)
        && lower_at(b, 26) <= 9
        && all_pairs(b, 27, 32)
}

#[tactic(auto, unfolding(crate::specs::General::time_in_range, crate::specs::General::within))]
fn time_in_range(b: &[u8]) -> bool
    ensures { result ≡ time_in_range b.now }
{
    upper_at(b, 12) == 0
        && (1..=366).contains(&three_digits(b, 12))
        && (0..=23).contains(&pair_at(b, 14))
        && (0..=59).contains(&pair_at(b, 15))
        && (0..=59).contains(&pair_at(b, 16))
}

#[tactic(auto, unfolding(crate::specs::General::is_interval))]
fn is_interval(i: u8) -> bool
    ensures { result ≡ is_interval i }
{
    matches!(i, 1 | 2 | 4 | 8 | 16 | 32 | 64 | 128)
}

// Bytes per scan: none in an 80xx code.
#[tactic(auto, unfolding(crate::specs::General::scan_in_range, crate::specs::General::within, basis::specs::Choice::pick))]
fn scan_in_range(code: u16, scan: u32) -> bool
    ensures { result ≡ scan_in_range code scan }
{
    if 0x8000 <= code {
        scan == 0
    } else {
        (1..=999_999).contains(&scan)
    }
}

#[tactic(auto, unfolding(crate::specs::General::counts_in_range, crate::specs::General::within))]
fn counts_in_range(b: &[u8]) -> bool
    ensures { result ≡ counts_in_range b.now }
{
    scan_in_range(word_at(b, 3), three_pairs(b, 20))
        && is_interval(byte_at(b, 23))
        && (1..=99).contains(&pair_at(b, 28))
        && (1..=99).contains(&pair_at(b, 29))
}

// The 32-byte fields of the first t scan types.
pub fn fields_before(b: &[u8], t: u8) -> u32
    ensures { (result ≡ fields_before b.now t) × (result < 131072) }
{
    let fields = u32::from(pair_at(b, 29)) + u32::from(pair_at(b, 30));
    u32::from(t) * fields
}

// E4.
#[tactic(auto, unfolding(crate::specs::General::header_length))]
fn header_length(b: &[u8]) -> usize
    ensures { result ≡ header_length b.now }
{
    let before = fields_before(b, pair_at(b, 28));
    let extended = u32::from(pair_at(b, 31));
    let external = u32::from(pair_at(b, 32));
    32 * (before + 1 + extended + external) as usize
}

// The first of the refusals 1 to 6.
#[tactic(auto, unfolding(crate::specs::General::general_fault, basis::specs::Choice::pick))]
pub fn general_fault(b: &[u8]) -> Result<(), Refusal>
    ensures { result ≡ general_fault b.now }
{
    if b.len() < 32 {
        return Err(Refusal::Short);
    }
    if codes::find(word_at(b, 3)).is_none() {
        return Err(Refusal::Format);
    }
    if !general_digits(b) {
        return Err(Refusal::Digit);
    }
    if !(time_in_range(b) && counts_in_range(b)) {
        return Err(Refusal::Range);
    }
    if b.len() != header_length(b) {
        return Err(Refusal::Length);
    }
    Ok(())
}
