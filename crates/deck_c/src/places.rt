// Where samples stand, the parts of the block, skew and time.
ghost use Rattle.std.specs.Prelude.{◌≡◌, ◌*◌};
ghost use Rattle.general.specs.General.{extended_fields, external_fields};
ghost use Rattle.header.specs.Faults.{header_fault};
ghost use Rattle.layout.specs.Indexes.{index_answer, place_answer};
ghost use Rattle.parts.specs.Parts.{constants_place, constants_length, extended_place, external_place};
ghost use Rattle.skew.specs.Skews.{skew_fault, skew_answer};
ghost use Rattle.skew.specs.Times.{time_answer};
ghost use Rattle.deck.specs.Places.{flat_index, flat_place, flat_part, flat_skew, flat_byte, flat_time};

use deck::places::{SegdByte, SegdIndex, SegdPart, SegdPlace, SegdSkew, SegdTime};

#[unsafe(no_mangle)]
pub extern "C" fn segd_sample_index(
    block: &[u8],
    scan_type: u32,
    set: u32,
    channel: u32,
    subscan: u32,
) -> SegdIndex
    ensures { result ≡ flat_index (index_answer block.now scan_type set channel subscan) }
{
    deck::places::segd_sample_index(block, scan_type, set, channel, subscan)
}

#[unsafe(no_mangle)]
pub extern "C" fn segd_sample_place(block: &[u8], scan_type: u32, k: u32) -> SegdPlace
    ensures { result ≡ flat_place (place_answer block.now scan_type k) }
{
    deck::places::segd_sample_place(block, scan_type, k)
}

#[unsafe(no_mangle)]
pub extern "C" fn segd_constants(block: &[u8]) -> SegdPart
    ensures { result ≡ flat_part (header_fault block.now) constants_place constants_length }
{
    deck::places::segd_constants(block)
}

#[unsafe(no_mangle)]
pub extern "C" fn segd_extended(block: &[u8]) -> SegdPart
    ensures { result ≡ flat_part (header_fault block.now) (extended_place block.now) (32 * extended_fields block.now) }
{
    deck::places::segd_extended(block)
}

#[unsafe(no_mangle)]
pub extern "C" fn segd_external(block: &[u8]) -> SegdPart
    ensures { result ≡ flat_part (header_fault block.now) (external_place block.now) (32 * external_fields block.now) }
{
    deck::places::segd_external(block)
}

#[unsafe(no_mangle)]
pub extern "C" fn segd_skew(block: &[u8], sheet: &[u8], scan_type: u32) -> SegdSkew
    ensures { result ≡ flat_skew (skew_fault block.now sheet.now scan_type) block.now scan_type }
{
    deck::places::segd_skew(block, sheet, scan_type)
}

#[unsafe(no_mangle)]
pub extern "C" fn segd_skew_at(block: &[u8], sheet: &[u8], scan_type: u32, k: u32) -> SegdByte
    ensures { result ≡ flat_byte (skew_answer block.now sheet.now scan_type k) }
{
    deck::places::segd_skew_at(block, sheet, scan_type, k)
}

#[unsafe(no_mangle)]
pub extern "C" fn segd_sample_time(
    block: &[u8],
    sheet: &[u8],
    scan_type: u32,
    k: u32,
    t: u32,
) -> SegdTime
    ensures { result ≡ flat_time (time_answer block.now sheet.now scan_type k t) }
{
    deck::places::segd_sample_time(block, sheet, scan_type, k, t)
}
