// A block end of a trace body.
ghost use Rattle.std.specs.Prelude.{◌≡◌, true, ◌+◌, ◌-◌, ◌≤◌, ◌<◌};
ghost use Rattle.trace_body.specs.Ends as Ends;
ghost use Rattle.trace.specs.Fit.{Fit};

use trace::{Look, State, halted};
use turns::subscans_at;

// One trace more.
fn one_end(s: State, scans: u32, first: bool) -> State
    requires { (s.ends < 4294967295) × (first ≡ true → s.scans + scans ≤ 4294967295) }
    ensures { result ≡ Ends.one_end s scans first }
{
    State {
        ends: s.ends + 1,
        at: 0,
        present: scans,
        scans: if first { s.scans + scans } else { s.scans },
        exponents: 0,
        ..s
    }
}

// The end of a trace that has its header: the header block, what it says of the trace, and the state before.
#[derive(Clone, Copy)]
struct End<'a> {
    block: &'a [u8],
    look: Look,
    state: State,
    ghost fit: { Fit block.now state },
    ghost group: { 0 < look.group },
    ghost header: { 20 ≤ state.at },
}

impl End<'_> {
    // The bytes of its words.
    fn bytes(self) -> u32
        ensures { result ≡ self.entry.state.at - 20 }
    {
        self.state.at - 20
    }

    // Its samples.
    fn samples(self) -> u32
        ensures { (result ≡ Ends.samples_of self.entry.look.group self.entry.state.at) × (result ≤ self.entry.state.at) }
    {
        if self.look.group == 10 {
            return self.bytes() / 10 * 4;
        }
        self.bytes() / self.look.group
    }

    // Whether a group of 8015 has one to three samples.
    fn uneven(self) -> bool
        ensures { result ≡ Ends.unevenb self.entry.look.group self.entry.state.at }
    {
        self.look.group == 10 && 4 <= self.bytes() % 10
    }

    // The scans of the scan type.
    fn scans(self) -> u32
        ensures { (result ≡ Ends.scans_by self.entry.block.now self.entry.look self.entry.state) × (self.entry.look.turn.first ≡ true → result ≤ self.entry.state.at) }
    {
        if self.look.turn.first {
            return self.samples() / u32::from(subscans_at(self.block, self.look.turn));
        }
        self.state.present
    }

    // No byte is left over, and there are so many scans of so many samples.
    fn counted(self, scans: u32, per: u16) -> bool
        ensures { result ≡ Ends.countedb self.entry.look.group self.entry.state.at scans per }
    {
        if self.bytes() % self.look.group != 0 || scans == 0 {
            return false;
        }
        u64::from(self.samples()) == u64::from(scans) * u64::from(per)
    }

    // COUNT, or the next trace.
    fn tally(self) -> State
        ensures { result ≡ Ends.tally self.entry.block.now self.entry.look self.entry.state }
    {
        let scans = self.scans();
        if self.counted(scans, subscans_at(self.block, self.look.turn)) {
            one_end(self.state, scans, self.look.turn.first)
        } else {
            halted(self.state, 25)
        }
    }
}

// The end of the trace that `k` tells of.
pub(crate) fn ended(b: &[u8], k: Look, s: State) -> State
    requires { (Fit b.now s) × (0 < k.group) }
    ensures { result ≡ Ends.ended b.now k s }
{
    if s.stop != 0 {
        return s;
    }
    if k.past || s.at < 20 {
        return halted(s, 15);
    }
    let end = End {
        block: b,
        look: k,
        state: s,
    };
    if end.uneven() {
        return halted(s, 8);
    }
    end.tally()
}
