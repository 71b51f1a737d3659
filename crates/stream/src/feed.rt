// A portion handed to a fit state: its bytes one by one, scans' starts and whole words at once.
ghost use Rattle.std.specs.Prelude.{◌≡◌, ◌+◌, ◌*◌, ◌<◌, ◌≤◌, length, slice_set};
ghost use Rattle.codes.specs.Codes.{group_of};
ghost use Rattle.runs.specs.Runs.{over};
ghost use Rattle.scan.specs.Fit.{Fit};
ghost use Rattle.scan.specs.Step.{wrote};
ghost use Rattle.stream.specs.Calls as Calls;

use crate::reading::Reading;
use crate::{Answer, Gave, unchanged};
use refusals::{Refusal, stop_refusal};
use scan::State;
use words::Value;

// The answer of a state, after n numbers were written.
pub(crate) fn answered(s: State, n: usize) -> Answer
    ensures { result ≡ Calls.answered s n }
{
    if s.stop == 0 {
        return Answer::GoingOn { samples: n / 2 };
    }
    Answer::Stopped {
        samples: n / 2,
        refusal: stop_refusal(s.stop, s.stopat),
    }
}

// Writes a sample's M and X at n. `runs` has its own, by the number of a sample and not its place: to share these two lines they would be public.
fn put(out: &mut [i32], n: usize, v: Value)
    requires { n + 1 < length out.old }
    ensures { out.new ≡ slice_set (slice_set out.old n v.m) (n + 1) v.x }
{
    out[n] = v.m;
    out[n + 1] = v.x;
}

impl Reading<'_> {
    // The bytes of a portion that has room: a scan's start or whole words at once where they lie ahead, else one byte. `step` is called nowhere else, so that it is compiled into this loop.
    fn feed(self, bytes: &[u8], out: &mut [i32]) -> Gave<State>
        requires { 2 * length bytes.now ≤ length out.old }
        ensures value { result ≡ Calls.fed self.entry.state bytes.now }
        ensures out_after { out.new ≡ over (wrote self.entry.state bytes.now) out.old }
    {
        let mut t = self.state;
        let mut n: usize = 0;
        let mut i: usize = 0;
        // not a `for`: a turn takes one byte, or as many as lie ahead
        while i < bytes.len() {
            let there = Reading {
                state: t,
                group: self.group,
                tables: self.tables,
            };
            let k = there.ahead_at(bytes, i);
            if k == 0 {
                let r = there.step(bytes[i]);
                t = r.state;
                i += 1;
                if let Some(v) = r.value {
                    put(out, n, v);
                    n += 2;
                }
            } else {
                let r = there.chunk_at(bytes, i, k, out, n);
                t = r.state;
                i += k;
                n += r.count;
            }
        }
        Gave {
            state: t,
            answer: answered(t, n),
        }
    }
}

// An earlier stop, then ROOM; else the loop, called from this one place, so that LLVM compiles it into the portion. Its table is chosen with this call and no earlier: LLVM would make more of it.
pub(crate) fn fit_portion(s: State, w: u32, bytes: &[u8], out: &mut [i32]) -> Gave<State>
    requires { (Fit s) × (group_of s.shape.code ≡ w) }
    ensures value { result ≡ Calls.fit_portion s bytes.now (length out.old) }
    ensures out_after { out.new ≡ over (Calls.fit_wrote s bytes.now (length out.old)) out.old }
{
    if s.stop != 0 {
        return Gave {
            state: s,
            answer: answered(s, 0),
        };
    }
    if out.len() / 2 < bytes.len() {
        return unchanged(s, Refusal::Room);
    }
    Reading::new(s, w).feed(bytes, out)
}
