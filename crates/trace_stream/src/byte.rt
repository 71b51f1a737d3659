// One byte of a trace body. moved, quiet, sample and word have namesakes in stream, whose state counts other things: a trait for both states, with its laws, would be longer than they are.
ghost use Rattle.std.specs.Prelude.{◌≡◌, ◌≤◌, ◌<◌};
ghost use Rattle.turns.specs.Turns as Turns;
ghost use Rattle.codes.specs.Codes.{group_of};
ghost use Rattle.trace.specs.Step as Step;
ghost use Rattle.trace.specs.Fit.{Fit};

use block::{byte_at, packed, pair_at};
use scan::Stepped;
use stream::byte::{low, nibble, shift, still};
use trace::{Look, State, halted};
use turns::{Turn, skew_at};
use words::Value;

// The body stops at this byte, which writes nothing, by the refusal of this number, which is what the state keeps: C holds it.
fn halt(s: State, number: u32) -> Stepped<State>
    ensures { result ≡ Step.halt s number }
{
    still(halted(s, number))
}

// Whether a byte is the digit pair that writes a number.
fn writes(x: u8, n: u32) -> bool
    ensures { result ≡ Turns.writes x n }
{
    match packed(x) {
        Some(d) => u32::from(d) == n,
        None => false,
    }
}

// The header of a trace whose turn is known: the header block, and the turn.
#[derive(Clone, Copy)]
struct Heading<'a> {
    block: &'a [u8],
    turn: Turn,
    ghost counted: { turn.channel < 4294967295 },
}

impl Heading<'_> {
    // The digit pair that byte n, 3 to 6, must be: scan type, set, channel.
    fn digits(self, n: u32) -> u32
        ensures { result ≡ Step.digits self.entry.turn n }
    {
        match n {
            3 => u32::from(self.turn.scan_type) + 1,
            4 => u32::from(self.turn.set) + 1,
            5 => (self.turn.channel + 1) / 100,
            _ => (self.turn.channel + 1) % 100,
        }
    }

    // Whether a byte may stand as byte 11: the channel's first skew byte, where SK is not 0.
    fn skewed(self, x: u8) -> bool
        ensures { result ≡ Step.skewb self.entry.block.now self.entry.turn x }
    {
        pair_at(self.block, 30) == 0 || x == skew_at(self.block, self.turn)
    }

    // Whether a byte may stand as byte n: of 1 to 6 the file number and the turn, then a free one, the skew byte, or zero.
    fn sound(self, n: u32, x: u8) -> bool
        ensures { result ≡ Step.soundb self.entry.block.now self.entry.turn n x }
    {
        match n {
            0..=2 => x == byte_at(self.block, n as u16),
            3..=6 => writes(x, self.digits(n)),
            7..=9 | 13..=15 => true,
            11 => self.skewed(x),
            _ => x == 0,
        }
    }
}

// A state that takes one byte more.
#[derive(Clone, Copy)]
struct Going {
    state: State,
    ghost place: { state.place < 4294967295 },
    ghost counts: { (state.at ≤ state.place) × (state.off ≤ state.place) × (state.samples ≤ state.place) },
}

impl Going {
    // One byte on.
    fn moved(self, n: u32, off: u32, e: u32, x: u8) -> State
        ensures { result ≡ Step.moved self.state n off e x }
    {
        let s = self.state;
        State {
            place: s.place + 1,
            at: s.at + 1,
            samples: n,
            off,
            held: shift(s.held, x),
            exponents: e,
            ..s
        }
    }

    // A byte that tells nothing by itself.
    fn quiet(self, x: u8) -> Stepped<State>
        ensures { result ≡ Step.quiet self.state x }
    {
        let s = self.state;
        still(self.moved(s.samples, s.off, s.exponents, x))
    }

    // A byte of the trace header, or TRACE.
    fn headed(self, h: Heading, x: u8) -> Stepped<State>
        ensures { result ≡ Step.headed h.entry.block.now h.entry.turn self.state x }
    {
        if h.sound(self.state.at + 1, x) {
            self.quiet(x)
        } else {
            halt(self.state, 24)
        }
    }

    // The last byte of a word.
    fn sample(self, v: Value, x: u8) -> Stepped<State>
        ensures { result ≡ Step.sample self.state v x }
    {
        let s = self.state;
        let off = s.off + u32::from(v.off);
        Stepped {
            state: self.moved(s.samples + 1, off, s.exponents, x),
            value: Some(v),
        }
    }

    // Byte q of words of w bytes.
    fn plain(self, w: u32, x: u8, q: u32) -> Stepped<State>
        requires { (0 < w) × (w ≤ 4) × (w ≡ 3 → ⊥) × (q < 4294967295) }
        ensures { result ≡ Step.plain self.state w x q }
    {
        if (q + 1) % w == 0 {
            let held = shift(self.state.held, x);
            return self.sample(words::read(self.state.code, 0, low(held, w)), x);
        }
        self.quiet(x)
    }

    // Byte g of a group of 8015.
    fn grouped(self, x: u8, g: u32) -> Stepped<State>
        requires { g < 10 }
        ensures { result ≡ Step.grouped self.state x g }
    {
        if g % 2 == 0 {
            return self.quiet(x);
        }
        let s = self.state;
        let two = low(shift(s.held, x), 2);
        if g == 1 {
            return still(self.moved(s.samples, s.off, two, x));
        }
        self.sample(words::read(s.code, nibble(s.exponents, g), two), x)
    }

    // A byte of the sample words, in groups of w bytes.
    fn word(self, w: u32, x: u8) -> Stepped<State>
        requires { (group_of self.state.code ≡ w) × (0 < w) × (20 ≤ self.state.at) }
        ensures { result ≡ Step.word self.state w x }
    {
        let q = self.state.at - 20;
        if w == 10 {
            return self.grouped(x, q % 10);
        }
        self.plain(w, x, q)
    }
}

// One byte, of the trace that `k` tells of.
pub(crate) fn step(b: &[u8], k: Look, s: State, x: u8) -> Stepped<State>
    requires { (Fit b.now s) × (group_of s.code ≡ k.group) × (0 < k.group) × (k.turn.channel ≤ s.place) }
    ensures { result ≡ Step.step b.now k s x }
{
    if s.stop != 0 {
        return still(s);
    }
    if s.place == 4294967295 {
        return halt(s, 14);
    }
    if k.past {
        return halt(s, 15);
    }
    let going = Going { state: s };
    if s.at < 20 {
        let heading = Heading {
            block: b,
            turn: k.turn,
        };
        return going.headed(heading, x);
    }
    going.word(k.group, x)
}
