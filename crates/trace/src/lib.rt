// The body of a demultiplexed record, "each trace is one block": the reader's state, the states fit for a header block, and what a call answers. The header block is lent at every call.
#![tactic(auto)]

mod fit;

ghost use Rattle.std.specs.Prelude.{◌≡◌, ◌≤◌};
ghost use Rattle.trace.specs.Answers as Answers;
ghost use Rattle.trace.specs.Fit as Fit;
ghost use Rattle.trace.specs.Step as Step;

use header::header_fault;
use refusals::{Refusal, stop_refusal};
use stream::Answer;
use turns::{Turn, trace_count, turn_at};

// The state between two calls. Which trace is read, and so its scan type, set and channel, follow from `ends` and the header block.
// C holds it, and lends the block at every call (include/segd.h, SegdTraces): so the block is no field, and a stop is two numbers.
#[repr(C)]
#[derive(Clone, Copy, Default)]
pub struct State {
    pub code: u16,
    // the bytes so far
    pub place: u32,
    // the block ends so far, which is the number of the present trace, from 0
    pub ends: u32,
    // the bytes of the present trace
    pub at: u32,
    // samples and off-rule words so far
    pub samples: u32,
    pub off: u32,
    // the scans of the scan type of the trace that ended last
    pub present: u32,
    // those of all scan types whose first trace has ended
    pub scans: u32,
    // the last four bytes
    pub held: u32,
    // the four exponents of the present group of 8015
    pub exponents: u32,
    // 0, or the number of the refusal that stopped the body, and its place
    pub stop: u32,
    pub stopat: u32,
}

// What the header says of the present trace: worked out once a call, since no portion goes past a block end.
#[derive(Clone, Copy)]
pub struct Look {
    // bytes of a group of words
    pub group: u32,
    // no trace is left
    pub past: bool,
    pub turn: Turn,
}

// A state fit for a header block of so many traces.
pub fn fits(b: &[u8], s: State, traces: u32) -> bool
    ensures { result ≡ Fit.fit_by b.now s traces }
{
    fit::bounds_fit(s) & fit::stop_fits(s.stop) & fit::own_fits(b, s, traces)
}

// The header's refusal, then STATE; else the traces of the record. Every call on a trace body begins with it.
pub fn admit(b: &[u8], s: State) -> Result<u32, Refusal>
    ensures { result ≡ Answers.admitted b.now s }
{
    header_fault(b)?;
    let traces = trace_count(b);
    if fits(b, s, traces) {
        return Ok(traces);
    }
    Err(Refusal::State)
}

// What the header says of trace i, of a record of so many traces.
pub fn look_at(b: &[u8], i: u32, traces: u32) -> Look
    ensures { (result ≡ Step.look_by b.now i traces) × (result.turn.channel ≤ i) }
{
    Look {
        group: codes::group(block::word_at(b, 3)),
        past: traces <= i,
        turn: turn_at(b, i),
    }
}

// The body stops here, by the refusal of this number, which is what the state keeps: C holds it. That of stream, halt, has another state: a trait for both would be longer than they are.
pub fn halted(s: State, number: u32) -> State
    ensures { result ≡ Step.halted s number }
{
    State {
        stop: number,
        stopat: s.place,
        ..s
    }
}

// The stop that a state keeps; FOUR tells the scan type and set of the trace that it stands in.
pub fn stop_of(b: &[u8], s: State) -> Refusal
    ensures { result ≡ Answers.stop_of b.now s }
{
    if s.stop == 8 {
        let u = turn_at(b, s.ends);
        return Refusal::FourAt {
            place: s.stopat,
            scan_type: u.scan_type + 1,
            set: u.set + 1,
        };
    }
    stop_refusal(s.stop, s.stopat)
}

// The answer of a state, after n numbers were written. That of stream needs no block: to share it, the refusal would have to be a closure.
pub fn answered(b: &[u8], s: State, n: usize) -> Answer
    ensures { result ≡ Answers.answered b.now s n }
{
    if s.stop == 0 {
        return Answer::GoingOn { samples: n / 2 };
    }
    Answer::Stopped {
        samples: n / 2,
        refusal: stop_of(b, s),
    }
}
