// A portion handed to a fit state, one byte after another.
ghost use Rattle.std.specs.Prelude.{◌≡◌, ◌*◌, ◌≤◌, ◌<◌, length, Ok};
ghost use Rattle.runs.specs.Runs.{over};
ghost use Rattle.trace_stream.specs.Calls as Calls;
ghost use Rattle.trace.specs.Answers.{admitted};
ghost use Rattle.trace.specs.Fit.{Fit};
ghost use Rattle.trace.specs.Step as Step;

use crate::byte::step;
use refusals::Refusal;
use stream::{Gave, unchanged};
use trace::{Look, State, answered, look_at};

// The bytes of a portion that has room. Each of portion, fit_portion and feed hands its parameters on once: a struct of them would be made and taken apart. `step` is called nowhere else, so that it is compiled into this loop.
fn feed(b: &[u8], k: Look, s: State, bytes: &[u8], out: &mut [i32]) -> Gave<State>
    requires fit { (Fit b.now s) × (k ≡ Step.look_at b.now s.ends) × (0 < k.group) × (k.turn.channel ≤ s.ends) }
    requires bytes_in_bounds { 2 * length bytes.now ≤ length out.old }
    ensures value { result ≡ Calls.fed b.now s bytes.now }
    ensures out_after { out.new ≡ over (Step.wrote b.now s bytes.now) out.old }
{
    let mut t = s;
    let mut n: usize = 0;
    for &x in bytes {
        let r = step(b, k, t, x);
        t = r.state;
        // by the place in out: of what is written through chunks Rattle knows the length alone
        if let Some(v) = r.value {
            out[n] = v.m;
            out[n + 1] = v.x;
            n += 2;
        }
    }
    Gave {
        state: t,
        answer: answered(b, t, n),
    }
}

// An earlier stop, then ROOM, of a record of so many traces. That of stream needs no block and goes on by another loop: to share the two tests, the answer and the loop would be closures.
pub(crate) fn fit_portion(
    b: &[u8],
    s: State,
    traces: u32,
    bytes: &[u8],
    out: &mut [i32],
) -> Gave<State>
    requires { admitted b.now s ≡ Ok traces }
    ensures value { result ≡ Calls.fit_portion b.now s bytes.now (length out.old) }
    ensures out_after { out.new ≡ over (Calls.fit_wrote b.now s bytes.now (length out.old)) out.old }
{
    if s.stop != 0 {
        return Gave {
            state: s,
            answer: answered(b, s, 0),
        };
    }
    if out.len() / 2 < bytes.len() {
        return unchanged(s, Refusal::Room);
    }
    feed(b, look_at(b, s.ends, traces), s, bytes, out)
}
