// Where samples stand, the parts of the block, skew and time. A part is told by its place in what was lent, and its length. The parameters come one by one, as in include/segd.h.
ghost use Rattle.std.specs.Prelude.{◌≡◌, ◌*◌};
ghost use Rattle.general.specs.General.{extended_fields, external_fields};
ghost use Rattle.header.specs.Faults.{header_fault};
ghost use Rattle.layout.specs.Indexes.{index_answer, place_answer};
ghost use Rattle.parts.specs.Parts.{constants_place, constants_length, extended_place, external_place};
ghost use Rattle.skew.specs.Skews.{skew_fault, skew_answer};
ghost use Rattle.skew.specs.Times.{time_answer};
ghost use Rattle.deck.specs.Places.{flat_index, flat_place, flat_part, flat_skew, flat_byte, flat_time};

use crate::flat_fault;
use block::pair_at;
use refusals::{Refusal, Told};

// Sample k of a scan; 0 where it is refused.
#[repr(C)]
#[derive(Clone, Copy)]
pub struct SegdIndex {
    pub refusal: Told,
    pub k: u32,
}

pub fn segd_sample_index(
    block: &[u8],
    scan_type: u32,
    set: u32,
    channel: u32,
    subscan: u32,
) -> SegdIndex
    ensures { result ≡ flat_index (index_answer block.now scan_type set channel subscan) }
{
    let answer = layout::sample_index(block, scan_type, set, channel, subscan);
    SegdIndex {
        refusal: flat_fault(&answer),
        k: answer.unwrap_or(0),
    }
}

// A sample's set, channel and subscan; 0 where it is refused.
#[repr(C)]
#[derive(Clone, Copy)]
pub struct SegdPlace {
    pub refusal: Told,
    pub set: u32,
    pub channel: u32,
    pub subscan: u32,
}

pub fn segd_sample_place(block: &[u8], scan_type: u32, k: u32) -> SegdPlace
    ensures { result ≡ flat_place (place_answer block.now scan_type k) }
{
    let answer = layout::sample_place(block, scan_type, k);
    let place = answer.unwrap_or_default();
    SegdPlace {
        refusal: flat_fault(&answer),
        set: place.set,
        channel: place.channel,
        subscan: place.subscan,
    }
}

// A part of the block: how many bytes come before it, and how many it has.
#[repr(C)]
#[derive(Clone, Copy)]
pub struct SegdPart {
    pub refusal: Told,
    pub offset: u64,
    pub length: u64,
}

// The part where there is no fault, else the refusal and no part.
fn part(fault: Result<(), Refusal>, offset: usize, length: usize) -> SegdPart
    ensures { result ≡ flat_part fault offset length }
{
    match fault {
        Ok(()) => SegdPart {
            refusal: Told::default(),
            offset: offset as u64,
            length: length as u64,
        },
        Err(r) => SegdPart {
            refusal: refusals::tell(r),
            offset: 0,
            length: 0,
        },
    }
}

pub fn segd_constants(block: &[u8]) -> SegdPart
    ensures { result ≡ flat_part (header_fault block.now) constants_place constants_length }
{
    part(header::header_fault(block), 4, 6)
}

pub fn segd_extended(block: &[u8]) -> SegdPart
    ensures { result ≡ flat_part (header_fault block.now) (extended_place block.now) (32 * extended_fields block.now) }
{
    let fault = header::header_fault(block);
    part(
        fault,
        parts::extended_place(block),
        32 * usize::from(pair_at(block, 31)),
    )
}

pub fn segd_external(block: &[u8]) -> SegdPart
    ensures { result ≡ flat_part (header_fault block.now) (external_place block.now) (32 * external_fields block.now) }
{
    let fault = header::header_fault(block);
    let start = parts::extended_place(block) + 32 * usize::from(pair_at(block, 31));
    part(fault, start, 32 * usize::from(pair_at(block, 32)))
}

// The skew bytes of a scan type: whether they stand in the sheet, how many bytes come before them there, and how many they are.
#[repr(C)]
#[derive(Clone, Copy)]
pub struct SegdSkew {
    pub refusal: Told,
    pub of_sheet: u8,
    pub offset: u64,
    pub length: u64,
}

pub fn segd_skew(block: &[u8], sheet: &[u8], scan_type: u32) -> SegdSkew
    ensures { result ≡ flat_skew (skew_fault block.now sheet.now scan_type) block.now scan_type }
{
    match skew::skew_fault(block, sheet, scan_type) {
        Ok(()) => {
            let t = (scan_type - 1) as u8;
            SegdSkew {
                refusal: Told::default(),
                of_sheet: u8::from(pair_at(block, 30) == 0),
                offset: skew::skew_place(block, t) as u64,
                length: sets::samples(block, t) as u64,
            }
        }
        Err(r) => SegdSkew {
            refusal: refusals::tell(r),
            of_sheet: 0,
            offset: 0,
            length: 0,
        },
    }
}

// A sample's skew byte.
#[repr(C)]
#[derive(Clone, Copy)]
pub struct SegdByte {
    pub refusal: Told,
    pub value: u8,
}

pub fn segd_skew_at(block: &[u8], sheet: &[u8], scan_type: u32, k: u32) -> SegdByte
    ensures { result ≡ flat_byte (skew_answer block.now sheet.now scan_type k) }
{
    let answer = skew::skew_at(block, sheet, scan_type, k);
    SegdByte {
        refusal: flat_fault(&answer),
        value: answer.unwrap_or(0),
    }
}

// A sample's time, in 1/4096 ms.
#[repr(C)]
#[derive(Clone, Copy)]
pub struct SegdTime {
    pub refusal: Told,
    pub time: u32,
}

pub fn segd_sample_time(block: &[u8], sheet: &[u8], scan_type: u32, k: u32, t: u32) -> SegdTime
    ensures { result ≡ flat_time (time_answer block.now sheet.now scan_type k t) }
{
    let answer = skew::sample_time(block, sheet, scan_type, k, t);
    SegdTime {
        refusal: flat_fault(&answer),
        time: answer.unwrap_or(0),
    }
}
