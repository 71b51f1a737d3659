// One byte of a body, by its place in the scan.
ghost use Rattle.std.specs.Prelude.{◌≡◌, ◌+◌, ◌<◌, ◌≤◌, ◌≢◌};
ghost use Rattle.scan.specs.Step as Step;
ghost use Rattle.codes.specs.Codes.{group_of};
ghost use Rattle.stream.specs.Spots as Spots;

use crate::reading::Reading;
use scan::{Shape, State, Stepped, Track};
use words::Value;

// A state as it is, with nothing written.
pub fn still<S>(s: S) -> Stepped<S>
    ensures { result ≡ Step.still s }
{
    Stepped {
        state: s,
        value: None,
    }
}

// The body stops here, by the refusal of this number, which is what the state keeps: C holds it.
fn halt(s: State, number: u32) -> Stepped<State>
    ensures { result ≡ Step.halt s number }
{
    still(State {
        stop: number,
        stopat: s.place,
        ..s
    })
}

// The last four bytes, after one more.
pub fn shift(held: u32, b: u8) -> u32
    ensures { result ≡ Step.shift held b }
{
    held % 16777216 * 256 + u32::from(b)
}

// One byte on.
pub(crate) fn moved(s: State, k: Track, e: u32, off: u32, b: u8) -> State
    requires { s.place < 4294967295 }
    ensures { result ≡ Step.moved s k e off b }
{
    State {
        place: s.place + 1,
        off,
        track: k,
        held: shift(s.held, b),
        exponents: e,
        ..s
    }
}

// A byte that tells nothing by itself: the place and the last four bytes move on.
fn quiet(s: State, b: u8) -> Stepped<State>
    requires { s.place < 4294967295 }
    ensures { result ≡ Step.quiet s b }
{
    still(moved(s, s.track, s.exponents, s.off, b))
}

// Whether no byte may follow: the block has all its scans, or a body of one block has ended.
pub(crate) fn full(h: Shape, place: u32, ends: u32) -> bool
    requires { 8 ≤ h.scan }
    ensures { result ≡ Step.full h place ends }
{
    if h.block == 0 {
        return 1 <= ends;
    }
    ends < place / h.scan / h.block
}

// Bytes 1 to 3 of a scan.
fn sync(s: State, b: u8) -> Stepped<State>
    requires { s.place < 4294967295 }
    ensures { result ≡ Step.sync s b }
{
    if b == 255 { quiet(s, b) } else { halt(s, 16) }
}

// The first byte of a scan: BLOCK, then its sync.
fn start(s: State, b: u8) -> Stepped<State>
    requires { (s.place < 4294967295) × (8 ≤ s.shape.scan) }
    ensures { result ≡ Step.start s b }
{
    if full(s.shape, s.place, s.ends) {
        halt(s, 15)
    } else {
        sync(s, b)
    }
}

// Byte 4 of a scan tells its scan type, and that of the first scan ITB.
pub(crate) fn typed(k: Track, b: u8) -> Track
    requires { k.seen ≤ 99 }
    ensures { result ≡ Step.typed k b }
{
    let mut t = k;
    let n = u32::from(b);
    if k.seen == 0 {
        t.seen = 1;
        t.itb = n / 32 % 2;
        return t;
    }
    if n / 16 % 2 == (k.seen + 1) % 2 {
        return t;
    }
    t.seen = k.seen + 1;
    t
}

// Whether DP of byte 4 may stand after the scan types seen.
pub(crate) fn phased(k: Track, types: u32, b: u8) -> bool
    requires { k.seen ≤ 99 }
    ensures { result ≡ Step.phased k types b }
{
    if k.seen == 0 {
        return b / 16 % 2 == 0;
    }
    let t = typed(k, b);
    t.seen <= types
}

// Byte 4 of a scan: its last bits 01, then DP.
fn phase(s: State, b: u8) -> Stepped<State>
    requires { (s.place < 4294967295) × (s.track.seen ≤ 99) }
    ensures { result ≡ Step.phase s b }
{
    if b % 4 != 1 {
        return halt(s, 16);
    }
    if phased(s.track, s.shape.types, b) {
        still(moved(s, typed(s.track, b), s.exponents, s.off, b))
    } else {
        halt(s, 18)
    }
}

// Byte 8 tells the timing word; that of the first scan with TWI set is kept as the window.
pub(crate) fn timed(k: Track, held: u32, b: u8) -> Track
    ensures { result ≡ Step.timed k held b }
{
    let mut t = k;
    t.timing = shift(held, b);
    if k.twi != 0 {
        return t;
    }
    if held / 1073741824 % 2 == 1 {
        t.twi = 1;
        t.window = t.timing;
        return t;
    }
    t
}

// Whether byte 8 is zero, and the timing word the first or the last plus the advance.
pub(crate) fn instep(s: State, b: u8) -> bool
    ensures { result ≡ Step.instep s b }
{
    if b != 0 {
        return false;
    }
    if s.place < s.shape.scan {
        return true;
    }
    shift(s.held, b) == s.track.timing.wrapping_add(s.shape.advance)
}

// Byte 8 of a scan: in step, or TIMING.
fn time(s: State, b: u8) -> Stepped<State>
    requires { s.place < 4294967295 }
    ensures { result ≡ Step.time s b }
{
    if instep(s, b) {
        still(moved(s, timed(s.track, s.held, b), s.exponents, s.off, b))
    } else {
        halt(s, 17)
    }
}

// The last w bytes.
pub fn low(held: u32, w: u32) -> u32
    ensures { result ≡ Step.low held w }
{
    match w {
        0 => 0,
        1 => held % 256,
        2 => held % 65536,
        3 => held % 16777216,
        _ => held,
    }
}

// The exponent of the word that ends at byte g of its group.
pub fn nibble(e: u32, g: u32) -> u32
    ensures { result ≡ Step.nibble e g }
{
    (e >> (18 - 2 * g.min(9))) % 16
}

// The last byte of a word.
fn sample(s: State, w: Value, b: u8) -> Stepped<State>
    requires { (s.place < 4294967295) × (s.off ≤ s.place) }
    ensures { result ≡ Step.sample s w b }
{
    let off = s.off + u32::from(w.off);
    Stepped {
        state: moved(s, s.track, s.exponents, off, b),
        value: Some(w),
    }
}

// Whether a word of groups of w bytes ends at place q of the scan.
fn word_ends(w: u32, q: u32) -> bool
    requires { (0 < w) × (8 ≤ q) }
    ensures { result ≡ Spots.word_ends w q }
{
    if w != 10 {
        return (q - 7) % w == 0;
    }
    let g = (q - 8) % 10;
    (g % 2 != 0) & (g != 1)
}

// Whether the exponents of a group end at place q.
fn leads(w: u32, q: u32) -> bool
    requires { 8 ≤ q }
    ensures { result ≡ Spots.leads w q }
{
    if w != 10 {
        return false;
    }
    (q - 8) % 10 == 1
}

// The exponent that stands apart from the word that ends at place q.
fn exponent(w: u32, q: u32, e: u32) -> u32
    requires { 8 ≤ q }
    ensures { result ≡ Spots.exponent w q e }
{
    if w != 10 {
        return 0;
    }
    nibble(e, (q - 8) % 10)
}

// The bytes of a word of groups of w bytes.
fn word_bytes(w: u32) -> u32
    ensures { result ≡ Spots.word_bytes w }
{
    if w == 10 { 2 } else { w }
}

// A byte of the sample words, in groups of w bytes, q its place in the scan.
fn word(s: State, w: u32, b: u8, q: u32) -> Stepped<State>
    requires code_value { (group_of s.shape.code ≡ w) × (0 < w) }
    requires place_bound { (s.place < 4294967295) × (s.off ≤ s.place) × (8 ≤ q) }
    ensures { result ≡ Step.word s b q }
{
    let held = shift(s.held, b);
    if word_ends(w, q) {
        let c = exponent(w, q, s.exponents);
        return sample(s, words::read(s.shape.code, c, low(held, word_bytes(w))), b);
    }
    if leads(w, q) {
        return still(moved(s, s.track, low(held, 2), s.off, b));
    }
    quiet(s, b)
}

impl Reading<'_> {
    // One byte.
    pub(crate) fn step(self, b: u8) -> Stepped<State>
        ensures { result ≡ Step.step self.entry.state b }
    {
        let s = self.state;
        if s.stop != 0 {
            return still(s);
        }
        if s.place == u32::MAX {
            return halt(s, 14);
        }
        let q = s.place % s.shape.scan;
        match q {
            0 => start(s, b),
            1..=2 => sync(s, b),
            3 => phase(s, b),
            4..=6 => quiet(s, b),
            7 => time(s, b),
            _ => word(s, self.group, b, q),
        }
    }
}
