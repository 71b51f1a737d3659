// The closing question of a trace body.
ghost use Rattle.std.specs.Prelude.{◌≡◌, ◌<◌};
ghost use Rattle.header.specs.Faults.{header_fault};
ghost use Rattle.trace_body.specs.Calls as Calls;

use body::Report;
use refusals::Refusal;
use trace::{State, stop_of};
use turns::turn_at;

// Whether bytes are left over of a trace that has n.
fn part(w: u32, n: u32) -> bool
    requires { 0 < w }
    ensures { result ≡ Calls.partb w n }
{
    if n < 20 {
        return 0 < n;
    }
    (n - 20) % w != 0
}

// The scan types whose last trace is among the first n.
fn types_seen(b: &[u8], n: u32) -> u32
    ensures { result ≡ Calls.types_seen b.now n }
{
    if n == 0 {
        return 0;
    }
    u32::from(turn_at(b, n).scan_type)
}

fn report(s: State, types: u32) -> Report
    ensures { result ≡ Calls.report s types }
{
    Report {
        scans: s.scans,
        samples: u64::from(s.samples),
        off: s.off,
        last_type: types,
        itb: None,
        window: None,
    }
}

// An earlier stop, PART, OPEN, MISSING, or the report.
pub(crate) fn finish(b: &[u8], s: State) -> Result<Report, Refusal>
    requires { header_fault b.now ≡ Ok tt }
    ensures { result ≡ Calls.finish b.now s }
{
    if s.stop != 0 {
        return Err(stop_of(b, s));
    }
    let w = codes::group(block::word_at(b, 3));
    if part(w, s.at) {
        return Err(Refusal::Part);
    }
    if s.at != 0 {
        return Err(Refusal::Open);
    }
    let types = types_seen(b, s.ends);
    if types < u32::from(block::pair_at(b, 28)) {
        return Err(Refusal::Missing);
    }
    Ok(report(s, types))
}
