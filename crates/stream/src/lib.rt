// A portion of a multiplexed body's bytes: a state by value comes in and goes out, samples go to what is lent.
#![tactic(auto)]

mod bulk;
pub mod byte;
mod feed;
mod reading;
mod start;

ghost use Rattle.std.specs.Prelude.{◌≡◌, length};
ghost use Rattle.runs.specs.Runs.{over};
ghost use Rattle.stream.specs.Calls as Calls;

use refusals::Refusal;
use scan::State;

// What a portion or a block end answers. Three ways and no Result: a stop tells the samples that came before it and is kept in the state, a refusal changes nothing.
#[derive(Clone, Copy)]
pub enum Answer {
    GoingOn { samples: usize },
    // one of 14 to 18, or in a body of traces of 8, 14, 15, 24 and 25, with its place
    Stopped { samples: usize, refusal: Refusal },
    // nothing is changed and nothing stopped
    Refused(Refusal),
}

// A call's answer, with the state after it, of this reader or of that of a trace.
#[derive(Clone, Copy)]
pub struct Gave<S> {
    pub state: S,
    pub answer: Answer,
}

// Some bytes at once: the state after them, and how many numbers they wrote.
#[derive(Clone, Copy)]
struct Chunk {
    state: State,
    count: usize,
}

// A refused call: the state as it was, and the refusal.
pub fn unchanged<S>(s: S, r: Refusal) -> Gave<S>
    ensures { result ≡ Calls.unchanged s r }
{
    Gave {
        state: s,
        answer: Answer::Refused(r),
    }
}

// A portion of the body's bytes. Each sample that it completes goes to `out`, M and then X.
pub fn portion(s: State, bytes: &[u8], out: &mut [i32]) -> Gave<State>
    ensures value { result ≡ Calls.portion s bytes.now (length out.old) }
    ensures out_after { out.new ≡ over (Calls.portion_wrote s bytes.now (length out.old)) out.old }
{
    let w = codes::group(s.shape.code);
    if scan::fit_by(s, w) {
        feed::fit_portion(s, w, bytes, out)
    } else {
        unchanged(s, Refusal::State)
    }
}
