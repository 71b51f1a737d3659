// Whether a state may be handed in with a header block.
ghost use Rattle.std.specs.Prelude.{◌≡◌};
ghost use Rattle.trace.specs.Fit as Fit;

use crate::State;

// No stop, or one of 8, 14, 15, 24, 25. scan has its own numbers: a function that is handed a list of them would be no plainer.
pub(crate) fn stop_fits(n: u32) -> bool
    ensures { result ≡ Fit.stopb n }
{
    (n == 0) | (n == 8) | (n == 14) | (n == 15) | (n == 24) | (n == 25)
}

// The numbers fit each other, r bytes having come before the present trace.
fn rest_fits(s: State, r: u32) -> bool
    ensures { result ≡ Fit.restb s r }
{
    (s.ends <= r)
        & (s.scans <= r)
        & (s.present <= s.place)
        & (s.samples <= s.place)
        & (s.off <= s.place)
        & (s.stopat <= s.place)
        & (s.exponents <= 65535)
}

pub(crate) fn bounds_fit(s: State) -> bool
    ensures { result ≡ Fit.boundsb s }
{
    s.at <= s.place && rest_fits(s, s.place - s.at)
}

// A state of this header block, of so many traces.
pub(crate) fn own_fits(b: &[u8], s: State, traces: u32) -> bool
    ensures { result ≡ Fit.own_by b.now s traces }
{
    let code = block::word_at(b, 3);
    (s.code == code) & (0x8000 <= s.code) & (s.ends <= traces)
}
