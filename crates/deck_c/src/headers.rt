// The header block and its channel sets.
ghost use Rattle.std.specs.Prelude.{◌≡◌};
ghost use Rattle.block.specs.Bytes.{packed_of};
ghost use Rattle.header.specs.Answers.{header_answer, descriptor_answer};
ghost use Rattle.deck.specs.Headers.{flat_pair, flat_header, flat_set};

use deck::headers::{SegdChannelSet, SegdHeader, SegdPair};

#[unsafe(no_mangle)]
pub extern "C" fn segd_packed(byte: u8) -> SegdPair
    ensures { result ≡ flat_pair (packed_of byte) }
{
    deck::headers::segd_packed(byte)
}

#[unsafe(no_mangle)]
pub extern "C" fn segd_read_header(block: &[u8]) -> SegdHeader
    ensures { result ≡ flat_header (header_answer block.now) }
{
    deck::headers::segd_read_header(block)
}

#[unsafe(no_mangle)]
pub extern "C" fn segd_descriptor(block: &[u8], scan_type: u32, set: u32) -> SegdChannelSet
    ensures { result ≡ flat_set (descriptor_answer block.now scan_type set) }
{
    deck::headers::segd_descriptor(block, scan_type, set)
}
