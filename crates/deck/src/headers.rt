// The header block and its channel sets.
ghost use Rattle.std.specs.Prelude.{◌≡◌};
ghost use Rattle.block.specs.Bytes.{packed_of};
ghost use Rattle.header.specs.Answers.{header_answer, descriptor_answer};
ghost use Rattle.deck.specs.Headers.{flat_pair, flat_header, flat_set};

use crate::flat_fault;
use header::Header;
use refusals::Told;
use sets::ChannelSet;

// A digit pair; `found` is 0 where a half of the byte is no digit. C has no Option: the flag stands beside the value, as in segd.h.
#[repr(C)]
#[derive(Clone, Copy)]
pub struct SegdPair {
    pub found: u8,
    pub value: u8,
}

pub fn segd_packed(byte: u8) -> SegdPair
    ensures { result ≡ flat_pair (packed_of byte) }
{
    let pair = block::packed(byte);
    SegdPair {
        found: u8::from(pair.is_some()),
        value: pair.unwrap_or(0),
    }
}

// An accepted header's fields; or a refusal, with the fields all 0.
#[repr(C)]
#[derive(Clone, Copy)]
pub struct SegdHeader {
    pub refusal: Told,
    pub header: Header,
}

pub fn segd_read_header(block: &[u8]) -> SegdHeader
    ensures { result ≡ flat_header (header_answer block.now) }
{
    let answer = header::read_header(block);
    SegdHeader {
        refusal: flat_fault(&answer),
        header: answer.unwrap_or_default(),
    }
}

// A channel set's fields; or a refusal, with the fields all 0.
#[repr(C)]
#[derive(Clone, Copy)]
pub struct SegdChannelSet {
    pub refusal: Told,
    pub set: ChannelSet,
}

pub fn segd_descriptor(block: &[u8], scan_type: u32, set: u32) -> SegdChannelSet
    ensures { result ≡ flat_set (descriptor_answer block.now scan_type set) }
{
    let answer = header::descriptor(block, scan_type, set);
    SegdChannelSet {
        refusal: flat_fault(&answer),
        set: answer.unwrap_or_default(),
    }
}
