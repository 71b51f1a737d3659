// The parts of a header block, handed out as parts of the slice that the caller lent.
// Every question takes any block. A refused one hands out an empty part, and `header::header_fault` tells the refusal.
#![tactic(auto)]

ghost use Rattle.std.specs.Prelude.{◌≡◌, ◌+◌, ◌≤◌, ◌<◌, ◌^◌, length, Ok};
ghost use Rattle.header.specs.Faults.{header_fault};
ghost use Rattle.parts.specs.Slices.{slice, part};
ghost use Rattle.parts.specs.Parts.{extended_place, part_after, constants_part, extended_part, external_part};

use block::pair_at;
use general::fields_before;
use header::header_fault;

// The bytes before the extended header.
pub fn extended_place(b: &[u8]) -> usize
    ensures { (result ≡ extended_place b.now) × (result < 2 ^ 23) }
{
    32 * (1 + fields_before(b, pair_at(b, 28))) as usize
}

// n bytes of a block after its first a, where it is accepted and has them.
fn part_of(block: &[u8], a: usize, n: usize) -> &[u8]
    requires { header_fault block.now ≡ Ok tt → a + n ≤ length block.now }
    ensures { slice result.ref_ptr result.now ≡
        part_after (header_fault block.now) (slice block.entry.ref_ptr block.now) (part (slice block.entry.ref_ptr block.now) a n) }
{
    match header_fault(block) {
        Ok(()) => &block[a..a + n],
        Err(_) => &block[..0],
    }
}

// Bytes 5 to 10 of the general header.
pub fn constants(block: &[u8]) -> &[u8]
    ensures { slice result.ref_ptr result.now ≡ constants_part (slice block.entry.ref_ptr block.now) }
{
    part_of(block, 4, 6)
}

// The extended header.
pub fn extended(block: &[u8]) -> &[u8]
    ensures { slice result.ref_ptr result.now ≡ extended_part (slice block.entry.ref_ptr block.now) }
{
    let n = 32 * usize::from(pair_at(block, 31));
    part_of(block, extended_place(block), n)
}

// The external header.
pub fn external(block: &[u8]) -> &[u8]
    ensures { slice result.ref_ptr result.now ≡ external_part (slice block.entry.ref_ptr block.now) }
{
    let start = extended_place(block) + 32 * usize::from(pair_at(block, 31));
    part_of(block, start, 32 * usize::from(pair_at(block, 32)))
}
