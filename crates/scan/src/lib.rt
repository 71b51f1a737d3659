// The body reader's state: what the header says of a body, what its scans told so far, and where its reading stands.
#![tactic(auto)]

ghost use Rattle.std.specs.Prelude.{◌≡◌, ◌≤◌};
ghost use Rattle.scan.specs.Fit.{wholeb, limitsb, shape_by, stopb, trackb, countsb, fit_by, fitb};

use words::Value;

// What the header says of the body.
#[repr(C)]
#[derive(Clone, Copy, Default)]
pub struct Shape {
    pub code: u16,
    // B, the bytes of a scan
    pub scan: u32,
    // what a timing word goes on by, held as timing words are: 16 I in the top three bytes
    pub advance: u32,
    // ST/R, the scan types of the record
    pub types: u32,
    // the scans of a block, S/B x 2^S/BX; 0: the body is one block
    pub block: u32,
}

// What the starts of the scans told so far. C holds it (include/segd.h, SegdState): so TWI is a flag beside its window, and no Option.
#[repr(C)]
#[derive(Clone, Copy, Default)]
pub struct Track {
    // the last timing word, in the top three bytes
    pub timing: u32,
    // the scan types seen
    pub seen: u32,
    // ITB of the first scan
    pub itb: u32,
    // 1 once a scan had TWI set, and the timing word of the first such scan
    pub twi: u32,
    pub window: u32,
}

// Scans, samples and the place in a scan are not kept: `place` gives them. C holds it and hands it in again (include/segd.h): so a stop is two numbers.
#[repr(C)]
#[derive(Clone, Copy, Default)]
pub struct State {
    pub shape: Shape,
    // the bytes so far
    pub place: u32,
    // the block ends so far
    pub ends: u32,
    // the off-rule words so far
    pub off: u32,
    pub track: Track,
    // the last four bytes: at a scan's eighth, the timing word in the top three
    pub held: u32,
    // the four exponents of the present group of 0015
    pub exponents: u32,
    // 0, or the number of the refusal that stopped the body, and its place
    pub stop: u32,
    pub stopat: u32,
}

// What one byte comes to: the next state, of this reader or of that of a trace, and the sample that it completed, if it did.
#[derive(Clone, Copy)]
pub struct Stepped<S> {
    pub state: S,
    pub value: Option<Value>,
}

// Whether there are words, and a scan has a whole number of their groups of w bytes.
fn whole(scan: u32, w: u32) -> bool
    requires { 8 ≤ scan }
    ensures { result ≡ wholeb scan w }
{
    w != 0 && (scan - 8) % w == 0
}

// A multiplexed code, and numbers within the bounds of a header's.
fn limits(h: Shape) -> bool
    ensures { result ≡ limitsb h }
{
    (h.code < 0x8000)
        & (h.advance % 256 == 0)
        & (h.advance <= 524288)
        & (1 <= h.types)
        & (h.types <= 99)
        & (h.block <= 8355840)
}

// What the header says of the body is within its bounds.
fn shape_fits(h: Shape, w: u32) -> bool
    ensures { result ≡ shape_by h w }
{
    if h.scan < 8 {
        return false;
    }
    (h.scan <= 999999) & whole(h.scan, w) & limits(h)
}

// No stop, or one of 14 to 18.
fn stop_fits(stop: u32) -> bool
    ensures { result ≡ stopb stop }
{
    (stop == 0) | (14 <= stop) & (stop <= 18)
}

// What the starts of the scans told is within its bounds.
fn track_fits(k: Track, types: u32) -> bool
    ensures { result ≡ trackb k types }
{
    (k.seen <= types) & (k.itb <= 1) & (k.twi <= 1)
}

// No more block ends or off-rule words than bytes, a stop no later than they; four exponents of 4 bits.
fn counts_fit(s: State) -> bool
    ensures { result ≡ countsb s }
{
    (s.ends <= s.place) & (s.off <= s.place) & (s.stopat <= s.place) & (s.exponents <= 65535)
}

// Whether a state may be handed in whose words stand in groups of w bytes. A portion goes by groups anyway, and without their
// table LLVM compiles this test into it.
pub fn fit_by(s: State, w: u32) -> bool
    ensures { result ≡ fit_by s w }
{
    counts_fit(s) & track_fits(s.track, s.shape.types) & stop_fits(s.stop) & shape_fits(s.shape, w)
}

// Whether a state may be handed in.
pub fn fit(s: State) -> bool
    ensures { result ≡ fitb s }
{
    fit_by(s, codes::group(s.shape.code))
}
