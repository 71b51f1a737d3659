// The body of a demultiplexed record, streamed: one block for each trace.
ghost use Rattle.std.specs.Prelude.{◌≡◌, length};
ghost use Rattle.runs.specs.Runs.{over};
ghost use Rattle.turns.specs.Places.{placed_at};
ghost use Rattle.trace_stream.specs.Calls.{portion, portion_wrote};
ghost use Rattle.trace_body.specs.Calls.{block_end, close};
ghost use Rattle.deck.specs.Bodies.{flat_closing};
ghost use Rattle.deck.specs.Traces.{flat_trace_gave, flat_trace_place};

use deck::bodies::SegdClosing;
use deck::traces::{SegdTraceGave, SegdTracePlace};
use trace::State;

#[unsafe(no_mangle)]
pub extern "C" fn segd_trace_portion(
    block: &[u8],
    state: State,
    bytes: &[u8],
    out: &mut [i32],
) -> SegdTraceGave
    ensures value { result ≡ flat_trace_gave (portion block.now state bytes.now (length out.old)) }
    ensures out_after { out.new ≡ over (portion_wrote block.now state bytes.now (length out.old)) out.old }
{
    deck::traces::segd_trace_portion(block, state, bytes, out)
}

#[unsafe(no_mangle)]
pub extern "C" fn segd_trace_end(block: &[u8], state: State) -> SegdTraceGave
    ensures { result ≡ flat_trace_gave (block_end block.now state) }
{
    deck::traces::segd_trace_end(block, state)
}

#[unsafe(no_mangle)]
pub extern "C" fn segd_trace_close(block: &[u8], state: State) -> SegdClosing
    ensures { result ≡ flat_closing (close block.now state) }
{
    deck::traces::segd_trace_close(block, state)
}

#[unsafe(no_mangle)]
pub extern "C" fn segd_trace_place(block: &[u8], trace: u32, sample: u32) -> SegdTracePlace
    ensures { result ≡ flat_trace_place (placed_at block.now trace sample) }
{
    deck::traces::segd_trace_place(block, trace, sample)
}
