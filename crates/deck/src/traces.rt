// The body of a demultiplexed record, one block for each trace, streamed. The header block of the opening is lent again at every call; the state is a struct of numbers that the caller keeps.
ghost use Rattle.std.specs.Prelude.{◌≡◌, length};
ghost use Rattle.runs.specs.Runs.{over};
ghost use Rattle.turns.specs.Places.{placed_at};
ghost use Rattle.trace_stream.specs.Calls.{portion, portion_wrote};
ghost use Rattle.trace_body.specs.Calls.{block_end, close};
ghost use Rattle.deck.specs.Bodies.{flat_closing};
ghost use Rattle.deck.specs.Traces.{flat_trace_gave, flat_trace_place};

use crate::bodies::{SegdClosing, answer_fault, closing, outcome, samples_told};
use crate::flat_fault;
use refusals::Told;
use stream::Gave;
use trace::State;

// As SegdGave, with the state of a trace body: C has no generic struct, and the outcome is a number there.
#[repr(C)]
#[derive(Clone, Copy)]
pub struct SegdTraceGave {
    pub state: State,
    pub outcome: u32,
    pub refusal: Told,
    pub samples: u64,
}

fn trace_gave(g: Gave<State>) -> SegdTraceGave
    ensures { result ≡ flat_trace_gave g }
{
    SegdTraceGave {
        state: g.state,
        outcome: outcome(g.answer),
        refusal: flat_fault(&answer_fault(g.answer)),
        samples: samples_told(g.answer),
    }
}

// Where `out` has fewer than two numbers for each byte of the portion, it is refused (ROOM).
pub fn segd_trace_portion(
    block: &[u8],
    state: State,
    bytes: &[u8],
    out: &mut [i32],
) -> SegdTraceGave
    ensures value { result ≡ flat_trace_gave (portion block.now state bytes.now (length out.old)) }
    ensures out_after { out.new ≡ over (portion_wrote block.now state bytes.now (length out.old)) out.old }
{
    trace_gave(trace_stream::portion(block, state, bytes, out))
}

// A block end, which is the end of a trace.
pub fn segd_trace_end(block: &[u8], state: State) -> SegdTraceGave
    ensures { result ≡ flat_trace_gave (block_end block.now state) }
{
    trace_gave(trace_body::block_end(block, state))
}

pub fn segd_trace_close(block: &[u8], state: State) -> SegdClosing
    ensures { result ≡ flat_closing (close block.now state) }
{
    closing(trace_body::close(block, state))
}

// Whose a sample of a trace is: scan type, set and channel from 1, scan and subscan from 0; all 0 where it is refused.
#[repr(C)]
#[derive(Clone, Copy)]
pub struct SegdTracePlace {
    pub refusal: Told,
    pub scan_type: u32,
    pub set: u32,
    pub channel: u32,
    pub scan: u32,
    pub subscan: u32,
}

pub fn segd_trace_place(block: &[u8], trace: u32, sample: u32) -> SegdTracePlace
    ensures { result ≡ flat_trace_place (placed_at block.now trace sample) }
{
    let answer = turns::place(block, trace, sample);
    let placed = answer.unwrap_or_default();
    SegdTracePlace {
        refusal: flat_fault(&answer),
        scan_type: placed.scan_type,
        set: placed.set,
        channel: placed.channel,
        scan: placed.scan,
        subscan: placed.subscan,
    }
}
