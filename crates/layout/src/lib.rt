// Which sample of a scan is which: its number k, and its set, channel and subscan. A question takes any block, and the header's
// refusals come first. Scan types, sets and channels count from 1 in a question and from 0 inside, subscans and samples always from 0.
#![tactic(auto)]

ghost use Rattle.std.specs.Prelude.{◌≡◌, true, ◌<◌, Ok};
ghost use Rattle.general.specs.General.{scan_types, within};
ghost use Rattle.sets.specs.Samples.{samples_of};
ghost use Rattle.layout.specs.Indexes.{has_place, index_of, index_answer, set_of, has_sample, spot_of, place_fault, place_answer};

use block::pair_at;
use header::{AcceptedBlock, is_set};
use refusals::Refusal;
use sets::{channels, samples, samples_before, subscans};

// Where a sample of a scan sits.
#[derive(Clone, Copy, Debug, Default, PartialEq, Eq)]
pub struct Place {
    pub set: u32,
    pub channel: u32,
    pub subscan: u32,
}

// Whether there is such a scan type.
pub fn is_scan_type(block: &[u8], scan_type: u32) -> bool
    ensures { result ≡ within 1 scan_type (scan_types block.now) }
{
    (1..=u32::from(pair_at(block, 28))).contains(&scan_type)
}

// Whether there are such a channel and subscan.
fn has_place(h: AcceptedBlock, t: u32, s: u32, c: u32, u: u32) -> bool
    ensures { result ≡ has_place h.entry.block.now t s c u }
{
    let b = h.block;
    if !is_set(b, t, s) {
        return false;
    }
    let t = (t - 1) as u8;
    let s = (s - 1) as u8;
    (1..=u32::from(channels(b, t, s))).contains(&c) & (u < u32::from(subscans(b, t, s)))
}

// The number of a sample that there is.
fn index_of(h: AcceptedBlock, t: u32, s: u32, c: u32, u: u32) -> u32
    requires { has_place h.block.now t s c u ≡ true }
    ensures { result ≡ index_of h.entry.block.now t s c u }
{
    let b = h.block;
    let t = (t - 1) as u8;
    let s = (s - 1) as u8;
    let before = samples_before(b, t, s) as u32;
    let n = u32::from(channels(b, t, s));
    before + (u * n + (c - 1))
}

// Which sample of a scan a set's channel and subscan is.
pub fn sample_index(
    block: &[u8],
    scan_type: u32,
    set: u32,
    channel: u32,
    subscan: u32,
) -> Result<u32, Refusal>
    ensures { result ≡ index_answer block.now scan_type set channel subscan }
{
    let h = AcceptedBlock::of(block)?;
    if !has_place(h, scan_type, set, channel, subscan) {
        return Err(Refusal::Index);
    }
    Ok(index_of(h, scan_type, set, channel, subscan))
}

// Whether there is such a sample.
fn has_sample(h: AcceptedBlock, t: u32, k: u32) -> bool
    ensures { result ≡ has_sample h.entry.block.now t k }
{
    is_scan_type(h.block, t) && (k as usize) < samples(h.block, (t - 1) as u8)
}

// What turns a question about sample k away.
pub fn place_fault(block: &[u8], scan_type: u32, k: u32) -> Result<(), Refusal>
    ensures { result ≡ place_fault block.now scan_type k }
{
    let h = AcceptedBlock::of(block)?;
    has_sample(h, scan_type, k)
        .then_some(())
        .ok_or(Refusal::Index)
}

// The set of sample k: as many as lie wholly before it.
fn set_of(b: &[u8], t: u8, k: u32) -> u8
    ensures { result ≡ set_of b.now t k }
{
    let mut passed = 0;
    let mut end = 0;
    for s in 0..pair_at(b, 29) {
        end += usize::from(channels(b, t, s)) * usize::from(subscans(b, t, s));
        passed += u8::from(end <= k as usize);
    }
    passed
}

// The place of sample k, which there is.
fn spot(b: &[u8], t: u8, k: u32) -> Place
    requires { k < samples_of b.now t }
    ensures { result ≡ spot_of b.now t k }
{
    let s = set_of(b, t, k);
    let j = k - samples_before(b, t, s) as u32;
    let n = u32::from(channels(b, t, s));
    Place {
        set: u32::from(s) + 1,
        channel: j % n + 1,
        subscan: j / n,
    }
}

// The set, channel and subscan of sample k.
pub fn sample_place(block: &[u8], scan_type: u32, k: u32) -> Result<Place, Refusal>
    ensures { result ≡ place_answer block.now scan_type k }
{
    place_fault(block, scan_type, k)?;
    Ok(spot(block, (scan_type - 1) as u8, k))
}
