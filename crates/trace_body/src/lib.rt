// The body of a demultiplexed record, streamed: its opening, its block ends, each the end of a trace, and its closing. `trace_stream` takes its bytes. open, block_end and close have namesakes in body: those ask a state alone, these a header block first, and their tests are others.
#![tactic(auto)]

mod closing;
mod ends;

ghost use Rattle.std.specs.Prelude.{◌≡◌, Ok};
ghost use Rattle.trace.specs.Answers.{admitted};
ghost use Rattle.trace_body.specs.Calls as Calls;
ghost use Rattle.trace_body.specs.Open as Open;

use body::Report;
use header::header_fault;
use refusals::Refusal;
use stream::{Gave, unchanged};
use trace::{State, admit, answered, look_at};

fn fresh(code: u16) -> State
    ensures { result ≡ Open.fresh code }
{
    State {
        code,
        ..State::default()
    }
}

// The state before the first byte; all zero, and so unfit, where the header is refused or its body is of scans.
pub fn open(block: &[u8]) -> State
    ensures { result ≡ Open.opened block.now }
{
    let code = block::word_at(block, 3);
    match header_fault(block) {
        Ok(()) if 0x8000 <= code => fresh(code),
        _ => fresh(0),
    }
}

// The end of a trace, on a fit state, of a record of so many traces.
fn end_gave(b: &[u8], s: State, traces: u32) -> Gave<State>
    requires { admitted b.now s ≡ Ok traces }
    ensures { result ≡ Calls.end_gave b.now s }
{
    let t = ends::ended(b, look_at(b, s.ends, traces), s);
    Gave {
        state: t,
        answer: answered(b, t, 0),
    }
}

// A block end.
pub fn block_end(block: &[u8], s: State) -> Gave<State>
    ensures { result ≡ Calls.block_end block.now s }
{
    match admit(block, s) {
        Ok(traces) => end_gave(block, s, traces),
        Err(r) => unchanged(s, r),
    }
}

// The closing question.
pub fn close(block: &[u8], s: State) -> Result<Report, Refusal>
    ensures { result ≡ Calls.close block.now s }
{
    admit(block, s)?;
    closing::finish(block, s)
}
