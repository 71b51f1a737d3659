// The opening of a body of either kind, and a body of scans, streamed.
ghost use Rattle.std.specs.Prelude.{◌≡◌, length};
ghost use Rattle.runs.specs.Runs.{over};
ghost use Rattle.body.specs.Open.{opened};
ghost use Rattle.stream.specs.Calls.{portion, portion_wrote};
ghost use Rattle.body.specs.Ends.{block_end, close};
ghost use Rattle.trace_body.specs.Open as traces;
ghost use Rattle.deck.specs.Bodies.{flat_opened, flat_gave, flat_closing};

use deck::bodies::{SegdClosing, SegdGave, SegdOpened};
use scan::State;

#[unsafe(no_mangle)]
pub extern "C" fn segd_open(block: &[u8]) -> SegdOpened
    ensures { result ≡ flat_opened (opened block.now) (traces.opened block.now) }
{
    deck::bodies::segd_open(block)
}

#[unsafe(no_mangle)]
pub extern "C" fn segd_portion(state: State, bytes: &[u8], out: &mut [i32]) -> SegdGave
    ensures value { result ≡ flat_gave (portion state bytes.now (length out.old)) }
    ensures out_after { out.new ≡ over (portion_wrote state bytes.now (length out.old)) out.old }
{
    deck::bodies::segd_portion(state, bytes, out)
}

#[unsafe(no_mangle)]
pub extern "C" fn segd_block_end(state: State) -> SegdGave
    ensures { result ≡ flat_gave (block_end state) }
{
    deck::bodies::segd_block_end(state)
}

#[unsafe(no_mangle)]
pub extern "C" fn segd_close(state: State) -> SegdClosing
    ensures { result ≡ flat_closing (close state) }
{
    deck::bodies::segd_close(state)
}
