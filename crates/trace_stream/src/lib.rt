// A portion of a trace body's bytes: a state by value comes in and goes out, samples go to what is lent. No portion passes a block end, so it is of one trace.
#![tactic(auto)]

mod byte;
mod feed;

ghost use Rattle.std.specs.Prelude.{◌≡◌, length};
ghost use Rattle.runs.specs.Runs.{over};
ghost use Rattle.trace_stream.specs.Calls as Calls;

use stream::{Gave, unchanged};
use trace::{State, admit};

// A portion of the body's bytes. Each sample that it completes goes to `out`, M and then X.
pub fn portion(block: &[u8], s: State, bytes: &[u8], out: &mut [i32]) -> Gave<State>
    ensures value { result ≡ Calls.portion block.now s bytes.now (length out.old) }
    ensures out_after { out.new ≡ over (Calls.portion_wrote block.now s bytes.now (length out.old)) out.old }
{
    match admit(block, s) {
        Ok(traces) => feed::fit_portion(block, s, traces, bytes, out),
        Err(r) => unchanged(s, r),
    }
}
