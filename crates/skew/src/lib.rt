// The skew bytes of a header block or of the crew's sheet lent beside it, and what they say of a sample.
// Every question takes any block and sheet. Where the skew bytes are refused `skew` hands out an empty part, and `skew_fault` tells why; the others answer their refusal.
// Block and sheet stay two parameters: a struct of the two would be made in each question and taken apart in the next call, and be no plainer. Nor do scan type and k make one: every question is asked by them.
#![tactic(auto)]

ghost use Rattle.std.specs.Prelude.{◌≡◌, ◌+◌, ◌-◌, ◌≤◌, ◌<◌, ◌^◌, length, not, Ok};
ghost use Rattle.refusals.specs.declared.Refusal.TheVariants.{Sheet};
ghost use Rattle.refusals.specs.Order.{when};
ghost use Rattle.sets.specs.Samples.{samples_of};
ghost use Rattle.parts.specs.Slices.{slice};
ghost use Rattle.skew.specs.Skews.{source, skew_place, sheet_holds, skew_fault, skew_of, skew_part, skew_byte, skew_byte_fault, skew_answer};
ghost use Rattle.skew.specs.Times.{time_by, time_fault, time_answer};

use block::{byte_at, pair_at};
use general::fields_before;
use header::header_fault;
use layout::{is_scan_type, place_fault};
use refusals::Refusal;
use sets::samples;

// 12: a sheet that is used has S/S bytes for each scan type.
fn sheet_fault(block: &[u8], sheet: &[u8]) -> Result<(), Refusal>
    ensures { result ≡ when (not (sheet_holds block.now sheet.now)) Sheet }
{
    let scan_types = usize::from(pair_at(block, 28));
    let n = samples(block, 0);
    let holds = (pair_at(block, 30) != 0) | (sheet.len() == scan_types * n);
    holds.then_some(()).ok_or(Refusal::Sheet)
}

// What refuses the skew bytes of a scan type.
pub fn skew_fault(block: &[u8], sheet: &[u8], scan_type: u32) -> Result<(), Refusal>
    ensures { result ≡ skew_fault block.now sheet.now scan_type }
{
    header_fault(block)?;
    if !is_scan_type(block, scan_type) {
        return Err(Refusal::Index);
    }
    sheet_fault(block, sheet)
}

// The slice that has the skew bytes.
fn lent<'a>(block: &'a [u8], sheet: &'a [u8]) -> &'a [u8]
    ensures { slice result.ref_ptr result.now ≡ source block.now (slice block.entry.ref_ptr block.now) (slice sheet.entry.ref_ptr sheet.now) }
{
    if pair_at(block, 30) == 0 {
        sheet
    } else {
        block
    }
}

// The bytes of that slice before those of scan type t, counting from 0.
pub fn skew_place(b: &[u8], t: u8) -> usize
    ensures { (result ≡ skew_place b.now t) × (result < 2 ^ 48) }
{
    if pair_at(b, 30) == 0 {
        usize::from(t) * samples(b, t)
    } else {
        32 * (1 + fields_before(b, t) + u32::from(pair_at(b, 29))) as usize
    }
}

// The skew bytes of scan type t, counting from 0, which there are.
fn skew_bytes<'a>(block: &'a [u8], sheet: &'a [u8], t: u8) -> &'a [u8]
    requires { skew_place block.now t + samples_of block.now t ≤ length (source block.now block.now sheet.now) }
    ensures { slice result.ref_ptr result.now ≡ skew_of (slice block.entry.ref_ptr block.now) (slice sheet.entry.ref_ptr sheet.now) t }
{
    let from = lent(block, sheet);
    let start = skew_place(block, t);
    let n = samples(block, t);
    &from[start..start + n]
}

// The skew bytes of a scan type, a part of the block where it has them and else of the sheet.
pub fn skew<'a>(block: &'a [u8], sheet: &'a [u8], scan_type: u32) -> &'a [u8]
    ensures { slice result.ref_ptr result.now ≡ skew_part (slice block.entry.ref_ptr block.now) (slice sheet.entry.ref_ptr sheet.now) scan_type }
{
    match skew_fault(block, sheet, scan_type) {
        Ok(()) => skew_bytes(block, sheet, (scan_type - 1) as u8),
        Err(_) => &block[..0],
    }
}

// What refuses the skew byte of sample k.
fn skew_byte_fault(block: &[u8], sheet: &[u8], scan_type: u32, k: u32) -> Result<(), Refusal>
    ensures { result ≡ skew_byte_fault block.now sheet.now scan_type k }
{
    place_fault(block, scan_type, k)?;
    sheet_fault(block, sheet)
}

// The skew byte of sample k, which there is.
fn skew_byte(block: &[u8], sheet: &[u8], scan_type: u32, k: u32) -> u8
    requires { skew_byte_fault block.now sheet.now scan_type k ≡ Ok tt }
    ensures { result ≡ skew_byte block.now sheet.now (scan_type - 1) k }
{
    let i = skew_place(block, (scan_type - 1) as u8) + k as usize;
    lent(block, sheet)[i]
}

// The skew byte of sample k.
pub fn skew_at(block: &[u8], sheet: &[u8], scan_type: u32, k: u32) -> Result<u8, Refusal>
    ensures { result ≡ skew_answer block.now sheet.now scan_type k }
{
    skew_byte_fault(block, sheet, scan_type, k)?;
    Ok(skew_byte(block, sheet, scan_type, k))
}

// What refuses the time of sample k.
fn time_fault(block: &[u8], sheet: &[u8], scan_type: u32, k: u32, word: u32) -> Result<(), Refusal>
    ensures { result ≡ time_fault block.now sheet.now scan_type k word }
{
    place_fault(block, scan_type, k)?;
    if 0x100_0000 <= word {
        return Err(Refusal::Index);
    }
    sheet_fault(block, sheet)
}

// 16 T + SS x I.
fn time_by(word: u32, skew: u8, interval: u8) -> u32
    requires { word < 2 ^ 24 }
    ensures { result ≡ time_by word skew interval }
{
    16 * word + u32::from(skew) * u32::from(interval)
}

// The time of sample k in a scan with this timing word.
pub fn sample_time(
    block: &[u8],
    sheet: &[u8],
    scan_type: u32,
    k: u32,
    word: u32,
) -> Result<u32, Refusal>
    ensures { result ≡ time_answer block.now sheet.now scan_type k word }
{
    time_fault(block, sheet, scan_type, k, word)?;
    let skew = skew_byte(block, sheet, scan_type, k);
    Ok(time_by(word, skew, byte_at(block, 23)))
}
