// The header block of a record: accepted with its fields, or refused, and the descriptor of each channel set.
#![tactic(auto)]

ghost use Rattle.std.specs.Prelude.{◌≡◌};
ghost use Rattle.sets.specs.Samples.{samples_of};
ghost use Rattle.header.specs.Faults.{size_holds, sizes_fault, skew_holds, header_fault};
ghost use Rattle.header.specs.Answers.{header_of, header_answer, is_set, descriptor_answer};

mod accepted_block;

pub use accepted_block::AcceptedBlock;
use block::{byte_at, lower_at, pair_at, three_digits, three_pairs, two_pairs, upper_at, word_at};
use refusals::Refusal;
use sets::{ChannelSet, samples};

// What an accepted header says.
#[repr(C)]
#[derive(Clone, Copy, Debug, Default, PartialEq, Eq)]
pub struct Header {
    pub file: u16,
    // the format code's sixteen bits
    pub code: u16,
    pub year: u8,
    pub day: u16,
    pub hour: u8,
    pub minute: u8,
    pub second: u8,
    pub manufacturer: u8,
    pub serial: u16,
    // B
    pub bytes_per_scan: u32,
    // I, in 1/16 ms
    pub interval: u8,
    pub polarity: u8,
    // S/BX and S/B
    pub block_exponent: u8,
    pub block_scans: u8,
    pub record_type: u8,
    // the three digits R1 R2 R3, in 0.1024 s; 0: not determined
    pub record_length: u16,
    // ST/R, CS, SK, EC, EX
    pub scan_types: u8,
    pub channel_sets: u8,
    pub skew_fields: u8,
    pub extended_fields: u8,
    pub external_fields: u8,
    // S/S
    pub samples_per_scan: u32,
}

// E2; of an 80xx code, S/S like scan type 1.
#[tactic(auto, unfolding(crate::specs::Faults::size_holds, basis::specs::Choice::pick))]
fn size_holds(b: &[u8], t: u8) -> bool
    ensures { result ≡ size_holds b.now t }
{
    let code = word_at(b, 3);
    let n = samples(b, t);
    if 0x8000 <= code {
        n == samples(b, 0)
    } else {
        8 * three_pairs(b, 20) as usize == 64 + n * codes::bits(code) as usize
    }
}

// The first scan type of another size than B.
#[tactic(auto, unfolding(crate::specs::Faults::sizes_fault, crate::specs::Faults::size_fault, basis::specs::Upto::upto, basis::specs::Choice::pick))]
fn sizes_fault(b: &[u8]) -> Result<(), Refusal>
    ensures { result ≡ sizes_fault b.now }
{
    let scan_types = pair_at(b, 28);
    for t in 0..scan_types {
        if !size_holds(b, t) {
            return Err(Refusal::Size { scan_type: t + 1 });
        }
    }
    Ok(())
}

// E3.
#[tactic(auto, unfolding(crate::specs::Faults::skew_holds))]
fn skew_holds(b: &[u8]) -> bool
    ensures { result ≡ skew_holds b.now }
{
    let fields = usize::from(pair_at(b, 30));
    fields == 0 || fields == samples(b, 0).div_ceil(32)
}

// The first refusal of a header block, if any.
#[tactic(auto, unfolding(crate::specs::Faults::header_fault, basis::specs::Choice::pick))]
pub fn header_fault(block: &[u8]) -> Result<(), Refusal>
    ensures { result ≡ header_fault block.now }
{
    general::general_fault(block)?;
    sets::descriptors_fault(block)?;
    sizes_fault(block)?;
    if skew_holds(block) {
        Ok(())
    } else {
        Err(Refusal::Skew)
    }
}

// The fields of a block of which n is S/S.
#[tactic(auto, unfolding(crate::specs::Answers::header_of))]
fn fields(b: &[u8], n: u32) -> Header
    requires { n ≡ samples_of b.now 0 }
    ensures { result ≡ header_of b.now }
{
    Header {
        file: two_pairs(b, 1),
        code: word_at(b, 3),
        year: pair_at(b, 11),
        day: three_digits(b, 12),
        hour: pair_at(b, 14),
        minute: pair_at(b, 15),
        second: pair_at(b, 16),
        manufacturer: pair_at(b, 17),
        serial: two_pairs(b, 18),
        bytes_per_scan: three_pairs(b, 20),
        interval: byte_at(b, 23),
        polarity: upper_at(b, 24),
        block_exponent: lower_at(b, 24),
        block_scans: byte_at(b, 25),
        record_type: upper_at(b, 26),
        record_length: three_digits(b, 26),
        scan_types: pair_at(b, 28),
        channel_sets: pair_at(b, 29),
        skew_fields: pair_at(b, 30),
        extended_fields: pair_at(b, 31),
        external_fields: pair_at(b, 32),
        samples_per_scan: n,
    }
}

// A header block read: its fields, or the first refusal in the table's order.
#[tactic(auto, using(crate::proofs::Accepted::first_small), unfolding(crate::specs::Answers::header_answer))]
pub fn read_header(block: &[u8]) -> Result<Header, Refusal>
    ensures { result ≡ header_answer block.now }
{
    header_fault(block)?;
    Ok(fields(block, samples(block, 0) as u32))
}

// Whether there are such a scan type and set, both counting from 1.
#[tactic(auto, unfolding(crate::specs::Answers::is_set, general::specs::General::within))]
pub fn is_set(block: &[u8], scan_type: u32, set: u32) -> bool
    ensures { result ≡ is_set block.now scan_type set }
{
    let scan_types = u32::from(pair_at(block, 28));
    let channel_sets = u32::from(pair_at(block, 29));
    (1..=scan_types).contains(&scan_type) && (1..=channel_sets).contains(&set)
}

// The descriptor of a channel set, scan types and sets counting from 1.
#[tactic(auto, using(crate::proofs::Accepted::set_few), unfolding(crate::specs::Answers::descriptor_answer, basis::specs::Choice::pick))]
pub fn descriptor(block: &[u8], scan_type: u32, set: u32) -> Result<ChannelSet, Refusal>
    ensures { result ≡ descriptor_answer block.now scan_type set }
{
    header_fault(block)?;
    if !is_set(block, scan_type, set) {
        return Err(Refusal::Index);
    }
    Ok(sets::channel_set(block, (scan_type - 1) as u8, (set - 1) as u8))
}
