// The multiplexed body of a record, streamed: its opening, its block ends and its closing. `stream` takes its bytes.
#![tactic(auto)]

mod begin;
mod ends;

ghost use Rattle.std.specs.Prelude.{◌≡◌};
ghost use Rattle.body.specs.Ends as Ends;
ghost use Rattle.body.specs.Open as Open;

use refusals::Refusal;
use scan::State;
use stream::Gave;

// What a record's body is made of.
#[derive(Clone, Copy)]
pub enum Body {
    Scans,
    // a demultiplexed record: it has no body of scans
    Traces,
}

// What opening on a header block answers, or the header's refusal; with the state before the first byte, of a refused opening too.
#[derive(Clone, Copy)]
pub struct Opened {
    pub state: State,
    pub answer: Result<Body, Refusal>,
}

// What a whole body had.
#[derive(Clone, Copy, Default)]
pub struct Report {
    pub scans: u32,
    pub samples: u64,
    pub off: u32,
    pub last_type: u32,
    // ITB of the first scan; none of a body of traces, which has no scans' starts
    pub itb: Option<u32>,
    // T of the first scan with TWI set
    pub window: Option<u32>,
}

// Opening on a header block: the state before the first byte; all zero, and so unfit, where the header is refused or its body is not of scans.
pub fn open(block: &[u8]) -> Opened
    ensures { result ≡ Open.opened block.now }
{
    match header::read_header(block) {
        Ok(h) if h.code < 0x8000 => Opened {
            state: begin::fresh(begin::shape_of(h)),
            answer: Ok(Body::Scans),
        },
        Ok(_) => Opened {
            state: begin::unfit(),
            answer: Ok(Body::Traces),
        },
        Err(r) => Opened {
            state: begin::unfit(),
            answer: Err(r),
        },
    }
}

// A block end.
pub fn block_end(s: State) -> Gave<State>
    ensures { result ≡ Ends.block_end s }
{
    if scan::fit(s) {
        ends::end(s)
    } else {
        stream::unchanged(s, Refusal::State)
    }
}

// The closing question.
pub fn close(s: State) -> Result<Report, Refusal>
    ensures { result ≡ Ends.close s }
{
    if scan::fit(s) {
        ends::finish(s)
    } else {
        Err(Refusal::State)
    }
}
