// A header, accepted or refused, carried about together with the block that it was read from. Each question takes the view apart and
// asks the plain form on the block, so that its answer is the plain one's, refusals too.
#![tactic(auto)]

ghost use Rattle.std.specs.Prelude.{◌≡◌};
ghost use Rattle.header.specs.Answers.{header_answer, descriptor_answer};
ghost use Rattle.layout.specs.Indexes.{index_answer, place_answer};
ghost use Rattle.parts.specs.Slices.{slice};
ghost use Rattle.parts.specs.Parts.{constants_part, extended_part, external_part};
ghost use Rattle.skew.specs.Skews.{skew_fault, skew_part};
ghost use Rattle.skew.specs.Times.{time_answer};
ghost use Rattle.body.specs.Open.{opened};

use body::Opened;
use header::Header;
use layout::Place;
use refusals::Refusal;
use sets::ChannelSet;

// The whole block, and what reading its header answered.
#[derive(Clone, Copy)]
pub struct Carried<'a> {
    block: &'a [u8],
    answer: Result<Header, Refusal>,
}

impl<'a> Carried<'a> {
    // The very slice that the caller lent, read once.
    pub fn carry(block: &'a [u8]) -> Self
        ensures { (result.block ≡ block.entry) × (result.answer ≡ header_answer block.now) }
    {
        Carried {
            block,
            answer: header::read_header(block),
        }
    }

    // The header's answer, as it was read.
    pub fn answer(self) -> Result<Header, Refusal>
        ensures { result ≡ self.entry.answer }
    {
        self.answer
    }

    // The descriptor of a channel set.
    pub fn descriptor(self, scan_type: u32, set: u32) -> Result<ChannelSet, Refusal>
        ensures { result ≡ descriptor_answer self.entry.block.now scan_type set }
    {
        header::descriptor(self.block, scan_type, set)
    }

    // Which sample of a scan a set's channel and subscan is.
    pub fn sample_index(
        self,
        scan_type: u32,
        set: u32,
        channel: u32,
        subscan: u32,
    ) -> Result<u32, Refusal>
        ensures { result ≡ index_answer self.entry.block.now scan_type set channel subscan }
    {
        layout::sample_index(self.block, scan_type, set, channel, subscan)
    }

    // The set, channel and subscan of sample k.
    pub fn sample_place(self, scan_type: u32, k: u32) -> Result<Place, Refusal>
        ensures { result ≡ place_answer self.entry.block.now scan_type k }
    {
        layout::sample_place(self.block, scan_type, k)
    }

    // Bytes 5 to 10 of the general header.
    pub fn constants(self) -> &'a [u8]
        ensures { slice result.ref_ptr result.now ≡ constants_part (slice self.entry.block.ref_ptr self.entry.block.now) }
    {
        parts::constants(self.block)
    }

    // The extended header.
    pub fn extended(self) -> &'a [u8]
        ensures { slice result.ref_ptr result.now ≡ extended_part (slice self.entry.block.ref_ptr self.entry.block.now) }
    {
        parts::extended(self.block)
    }

    // The external header.
    pub fn external(self) -> &'a [u8]
        ensures { slice result.ref_ptr result.now ≡ external_part (slice self.entry.block.ref_ptr self.entry.block.now) }
    {
        parts::external(self.block)
    }

    // The skew bytes of a scan type, a part of the block where it has them and else of the sheet.
    pub fn skew(self, sheet: &'a [u8], scan_type: u32) -> &'a [u8]
        ensures { slice result.ref_ptr result.now ≡ skew_part (slice self.entry.block.ref_ptr self.entry.block.now) (slice sheet.entry.ref_ptr sheet.now) scan_type }
    {
        skew::skew(self.block, sheet, scan_type)
    }

    // What refuses them.
    pub fn skew_fault(self, sheet: &[u8], scan_type: u32) -> Result<(), Refusal>
        ensures { result ≡ skew_fault self.entry.block.now sheet.now scan_type }
    {
        skew::skew_fault(self.block, sheet, scan_type)
    }

    // The time of sample k in a scan with timing word t.
    pub fn sample_time(self, sheet: &[u8], scan_type: u32, k: u32, t: u32) -> Result<u32, Refusal>
        ensures { result ≡ time_answer self.entry.block.now sheet.now scan_type k t }
    {
        skew::sample_time(self.block, sheet, scan_type, k, t)
    }

    // Opening a body on the header.
    pub fn open(self) -> Opened
        ensures { result ≡ opened self.entry.block.now }
    {
        body::open(self.block)
    }
}

// A block carried and asked, in plain parameters.
pub fn place_in(block: &[u8], scan_type: u32, k: u32) -> Result<Place, Refusal>
    ensures { result ≡ place_answer block.now scan_type k }
{
    Carried::carry(block).sample_place(scan_type, k)
}
