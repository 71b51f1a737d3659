// The opening of a body of either kind, and a body of scans, streamed. The state is a struct of numbers that the caller keeps and hands in again.
// What a call answers and what a closing reports is laid flat here for both kinds.
ghost use Rattle.std.specs.Prelude.{◌≡◌, length};
ghost use Rattle.runs.specs.Runs.{over};
ghost use Rattle.body.specs.Open.{opened};
ghost use Rattle.stream.specs.Calls.{samples_told, portion, portion_wrote};
ghost use Rattle.body.specs.Ends.{block_end, close};
ghost use Rattle.trace_body.specs.Open as traces;
ghost use Rattle.deck.specs.Bodies.{kind_of, flat_opened, outcome_of, answer_fault, flat_gave, flat_closing};

use crate::flat_fault;
use body::{Body, Report};
use refusals::{Refusal, Told};
use scan::State;
use stream::{Answer, Gave};

// 1: a body of scans, 2: one of traces, and the state before its first byte; 0: the header's refusal. The state of the other kind, or with 0 of
// both, is all 0, which every call refuses.
#[repr(C)]
#[derive(Clone, Copy)]
pub struct SegdOpened {
    pub refusal: Told,
    pub kind: u8,
    pub state: State,
    pub traces: trace::State,
}

// 1: a body of scans; 2: one of traces; 0: none. The numbers are those of segd.h, so they are told here and not by a From in body.
fn kind(answer: Result<Body, Refusal>) -> u8
    ensures { result ≡ kind_of answer }
{
    match answer {
        Ok(Body::Scans) => 1,
        Ok(Body::Traces) => 2,
        Err(_) => 0,
    }
}

pub fn segd_open(block: &[u8]) -> SegdOpened
    ensures { result ≡ flat_opened (opened block.now) (traces.opened block.now) }
{
    let opened = body::open(block);
    SegdOpened {
        refusal: flat_fault(&opened.answer),
        kind: kind(opened.answer),
        state: opened.state,
        traces: trace_body::open(block),
    }
}

// The state after the call; 0 going on, 1 stopped, 2 refused with nothing changed; why, and the samples written.
#[repr(C)]
#[derive(Clone, Copy)]
pub struct SegdGave {
    pub state: State,
    pub outcome: u32,
    pub refusal: Told,
    pub samples: u64,
}

// The numbers are those of segd.h, so they are told here and not by a From in stream.
pub(crate) fn outcome(answer: Answer) -> u32
    ensures { result ≡ outcome_of answer }
{
    match answer {
        Answer::GoingOn { .. } => 0,
        Answer::Stopped { .. } => 1,
        Answer::Refused(_) => 2,
    }
}

// answer_fault and samples_told are told here and are no methods of Answer: C's flat form alone asks them.
pub(crate) fn answer_fault(answer: Answer) -> Result<(), Refusal>
    ensures { result ≡ answer_fault answer }
{
    match answer {
        Answer::GoingOn { .. } => Ok(()),
        Answer::Stopped { refusal, .. } => Err(refusal),
        Answer::Refused(refusal) => Err(refusal),
    }
}

pub(crate) fn samples_told(answer: Answer) -> u64
    ensures { result ≡ samples_told answer }
{
    match answer {
        Answer::GoingOn { samples } => samples as u64,
        Answer::Stopped { samples, .. } => samples as u64,
        Answer::Refused(_) => 0,
    }
}

// By parts, so that the refusal is told at one place: LLVM then compiles this into the calls.
fn gave(g: Gave<State>) -> SegdGave
    ensures { result ≡ flat_gave g }
{
    SegdGave {
        state: g.state,
        outcome: outcome(g.answer),
        refusal: flat_fault(&answer_fault(g.answer)),
        samples: samples_told(g.answer),
    }
}

// Where `out` has fewer than two numbers for each byte of the portion, it is refused (ROOM).
pub fn segd_portion(state: State, bytes: &[u8], out: &mut [i32]) -> SegdGave
    ensures value { result ≡ flat_gave (portion state bytes.now (length out.old)) }
    ensures out_after { out.new ≡ over (portion_wrote state bytes.now (length out.old)) out.old }
{
    gave(stream::portion(state, bytes, out))
}

pub fn segd_block_end(state: State) -> SegdGave
    ensures { result ≡ flat_gave (block_end state) }
{
    gave(body::block_end(state))
}

// The report; or a refusal, with the report all 0. `itb_known` and `window_known` are 0 where there is none: C has no Option.
#[repr(C)]
#[derive(Clone, Copy)]
pub struct SegdClosing {
    pub refusal: Told,
    pub scans: u32,
    pub off: u32,
    pub samples: u64,
    pub last_type: u32,
    pub itb_known: u32,
    pub itb: u32,
    pub window_known: u32,
    pub window: u32,
}

// By parts, as above.
pub(crate) fn closing(answer: Result<Report, Refusal>) -> SegdClosing
    ensures { result ≡ flat_closing answer }
{
    let report = answer.unwrap_or_default();
    SegdClosing {
        refusal: flat_fault(&answer),
        scans: report.scans,
        off: report.off,
        samples: report.samples,
        last_type: report.last_type,
        itb_known: u32::from(report.itb.is_some()),
        itb: report.itb.unwrap_or(0),
        window_known: u32::from(report.window.is_some()),
        window: report.window.unwrap_or(0),
    }
}

pub fn segd_close(state: State) -> SegdClosing
    ensures { result ≡ flat_closing (close state) }
{
    closing(body::close(state))
}
