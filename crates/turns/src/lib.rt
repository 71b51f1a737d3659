// Whose turn a trace of a demultiplexed record is: its scan type, set and channel, by the header block. All count from 0, save in the answer of `place`, which is for callers.
// Every function takes any block: what a trace past the last one gets is fixed by the definitions, and `place` refuses it.
#![tactic(auto)]

ghost use Rattle.std.specs.Prelude.{◌≡◌, ℕ, ◌<◌, ◌≤◌};
ghost use Rattle.turns.specs.Turns.{traces_of, trace_count, Answers, holder_of, type_at, set_in, turn_in, turn_at, subscans_at, skew_at};
ghost use Rattle.turns.specs.Places.{sample_of, placed_at};

use block::{pair_at, word_at};
use header::header_fault;
use refusals::Refusal;
use sets::{channels, samples_before, subscans};

// The scan type, or the set, that a trace is in: its number, and its first trace.
#[derive(Clone, Copy, Debug, PartialEq, Eq)]
pub struct Holder {
    pub number: u8,
    pub first: u32,
}

// A trace's turn.
#[derive(Clone, Copy, Debug, PartialEq, Eq)]
pub struct Turn {
    pub scan_type: u8,
    pub set: u8,
    pub channel: u32,
    // it is the first trace of its scan type
    pub first: bool,
}

// The traces of scan type t.
fn traces_of(b: &[u8], t: u8) -> u32
    ensures { (result ≡ traces_of b.now t) × (result < 16777216) }
{
    let mut sum = 0;
    for s in 0..pair_at(b, 29) {
        sum += u32::from(channels(b, t, s));
    }
    sum
}

// The traces of the record.
pub fn trace_count(b: &[u8]) -> u32
    ensures { result ≡ trace_count b.now }
{
    let mut sum = 0;
    for t in 0..pair_at(b, 28) {
        sum += traces_of(b, t);
    }
    sum
}

// Of n scan types or sets of sizes(0), sizes(1), .. traces the one that trace k is in; past the last n.
fn holding<F: Fn(u8) -> u32>(n: u8, k: u32, sizes: F) -> Holder
    requires { F.IsAlwaysCallable sizes }
    ensures found { (f : ℕ → ℕ) → Answers (F.post sizes) f → result ≡ holder_of f k n }
    ensures bounds { (result.first ≤ k) × (result.number ≤ n) }
{
    let mut first: u32 = 0;
    for number in 0..n {
        let size = sizes(number);
        if k - first < size {
            return Holder { number, first };
        }
        first += size;
    }
    Holder { number: n, first }
}

// The scan type of trace i.
fn type_at(b: &[u8], i: u32) -> Holder
    ensures { (result ≡ type_at b.now i) × (result.first ≤ i) × (result.number < 166) }
{
    holding(pair_at(b, 28), i, |t| traces_of(b, t))
}

// The set of trace k of scan type t.
fn set_in(b: &[u8], t: u8, k: u32) -> Holder
    ensures { (result ≡ set_in b.now t k) × (result.first ≤ k) × (result.number < 166) }
{
    holding(pair_at(b, 29), k, |s| u32::from(channels(b, t, s)))
}

// The turn of trace k of scan type t.
fn turn_in(b: &[u8], t: u8, k: u32) -> Turn
    ensures { (result ≡ turn_in b.now t k) × (result.channel ≤ k) × (result.scan_type ≡ t) × (result.set < 166) }
{
    let s = set_in(b, t, k);
    Turn {
        scan_type: t,
        set: s.number,
        channel: k - s.first,
        first: k == 0,
    }
}

// The turn of trace i of the record.
pub fn turn_at(b: &[u8], i: u32) -> Turn
    ensures { (result ≡ turn_at b.now i) × (result.channel ≤ i) × (result.scan_type < 166) × (result.set < 166) }
{
    let t = type_at(b, i);
    turn_in(b, t.number, i - t.first)
}

// The samples of the turn's channel in a scan.
pub fn subscans_at(b: &[u8], u: Turn) -> u16
    ensures { (result ≡ subscans_at b.now u) × (0 < result) }
{
    subscans(b, u.scan_type, u.set)
}

// The first skew byte of the turn's channel; 0 where SK is 0.
pub fn skew_at(b: &[u8], u: Turn) -> u8
    ensures { result ≡ skew_at b.now u }
{
    if pair_at(b, 30) == 0 {
        return 0;
    }
    let fields = general::fields_before(b, u.scan_type) + u32::from(pair_at(b, 29));
    let front = 32 * (1 + fields) as usize;
    let i = front + (samples_before(b, u.scan_type, u.set) + u.channel as usize);
    b.get(i).copied().unwrap_or(0)
}

// Whose a sample of a trace is: scan type, set and channel from 1, scan and subscan from 0.
#[derive(Clone, Copy, Debug, Default, PartialEq, Eq)]
pub struct Placed {
    pub scan_type: u32,
    pub set: u32,
    pub channel: u32,
    pub scan: u32,
    pub subscan: u32,
}

// Sample i of trace j, which is not the last that 32 bits can count.
fn sample_of(b: &[u8], j: u32, i: u32) -> Placed
    requires { j < 4294967295 }
    ensures { result ≡ sample_of b.now (turn_at b.now j) i }
{
    let u = turn_at(b, j);
    let n = u32::from(subscans_at(b, u));
    Placed {
        scan_type: u32::from(u.scan_type) + 1,
        set: u32::from(u.set) + 1,
        channel: u.channel + 1,
        scan: i / n,
        subscan: i % n,
    }
}

// Whose sample i of trace j is. The sample may be any: how many a trace has, its block tells.
pub fn place(block: &[u8], trace: u32, sample: u32) -> Result<Placed, Refusal>
    ensures { result ≡ placed_at block.now trace sample }
{
    header_fault(block)?;
    if word_at(block, 3) < 0x8000 || trace_count(block) <= trace {
        return Err(Refusal::Index);
    }
    Ok(sample_of(block, trace, sample))
}
