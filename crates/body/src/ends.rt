// Block ends, and the closing question.
ghost use Rattle.std.specs.Prelude.{◌≡◌, ◌*◌, ◌≤◌, ◌<◌};
ghost use Rattle.codes.specs.Codes.{group_of};
ghost use Rattle.scan.specs.Fit.{Fit};
ghost use Rattle.body.specs.Ends as Ends;

use crate::Report;
use refusals::{Refusal, stop_refusal};
use scan::{Shape, State, Track};
use stream::{Answer, Gave};

// Whether a block end is right after some scans and part bytes of the next.
fn due(block: u32, scans: u32, part: u32, ends: u32) -> bool
    ensures { result ≡ Ends.due block scans part ends }
{
    if part != 0 {
        return false;
    }
    if block == 0 {
        return (ends == 0) & (0 < scans);
    }
    let full = scans / block;
    if full <= ends {
        return false;
    }
    (scans % block == 0) & (full == ends + 1)
}

// An earlier stop, then BLOCK.
pub(crate) fn end(s: State) -> Gave<State>
    requires { Fit s }
    ensures { result ≡ Ends.ended s }
{
    if s.stop != 0 {
        return Gave {
            state: s,
            answer: Answer::Stopped {
                samples: 0,
                refusal: stop_refusal(s.stop, s.stopat),
            },
        };
    }
    if due(
        s.shape.block,
        s.place / s.shape.scan,
        s.place % s.shape.scan,
        s.ends,
    ) {
        return Gave {
            state: State {
                ends: s.ends + 1,
                ..s
            },
            answer: Answer::GoingOn { samples: 0 },
        };
    }
    Gave {
        state: State {
            stop: 15,
            stopat: s.place,
            ..s
        },
        answer: Answer::Stopped {
            samples: 0,
            refusal: Refusal::Block { place: s.place },
        },
    }
}

// The samples of a scan.
fn per_scan(h: Shape) -> u32
    requires { (8 ≤ h.scan) × (0 < group_of h.code) }
    ensures { result ≡ Ends.per_scan h }
{
    let w = codes::group(h.code);
    if w == 10 {
        (h.scan - 8) / 10 * 4
    } else {
        (h.scan - 8) / w
    }
}

// T of the first scan with TWI set.
fn window_of(k: Track) -> Option<u32>
    ensures { result ≡ Ends.window_of k }
{
    (k.twi != 0).then_some(k.window / 256)
}

fn tally(s: State) -> Report
    requires { (8 ≤ s.shape.scan) × (0 < group_of s.shape.code) }
    ensures { result ≡ Ends.tally s }
{
    let scans = s.place / s.shape.scan;
    Report {
        scans,
        samples: u64::from(scans) * u64::from(per_scan(s.shape)),
        off: s.off,
        last_type: s.track.seen,
        itb: Some(s.track.itb),
        window: window_of(s.track),
    }
}

// Whether no byte stands after the last block end.
fn shut(block: u32, scans: u32, ends: u32) -> bool
    ensures { result ≡ Ends.shut block scans ends }
{
    if scans == 0 {
        return true;
    }
    if block == 0 {
        return ends == 1;
    }
    (scans % block == 0) & (scans / block == ends)
}

// An earlier stop, then PART, OPEN, MISSING; else the report.
pub(crate) fn finish(s: State) -> Result<Report, Refusal>
    requires { Fit s }
    ensures { result ≡ Ends.finish s }
{
    if s.stop != 0 {
        return Err(stop_refusal(s.stop, s.stopat));
    }
    if s.place % s.shape.scan != 0 {
        return Err(Refusal::Part);
    }
    if !shut(s.shape.block, s.place / s.shape.scan, s.ends) {
        return Err(Refusal::Open);
    }
    if s.track.seen < s.shape.types {
        return Err(Refusal::Missing);
    }
    Ok(tally(s))
}
