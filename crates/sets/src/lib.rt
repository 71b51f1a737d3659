// The channel set descriptors of a header block: refusals 7 and 8, the fields of each, and the samples of a scan.
// Scan types t and sets s count from 0 here. Every question takes any numbers: past the block's end its bytes read as 0.
#![tactic(auto)]

ghost use Rattle.std.specs.Prelude.{◌≡◌, ◌^◌, ◌*◌, ◌<◌};
ghost use Rattle.codes.specs.Codes.{per_of};
ghost use Rattle.block.specs.Bytes.{upper};
ghost use Rattle.sets.specs.Descriptors.{channels_in, descriptor_at, descriptor_holds, four_holds, set_fault, scan_type_fault, descriptors_fault};
ghost use Rattle.sets.specs.Samples.{channels_of, subscans_of, samples_before, samples_of};
ghost use Rattle.sets.specs.ChannelSets.{quarters, channel_set_in, channel_set_of};

use block::{all_pairs, byte_at, lower_at, pair_at, two_pairs, upper_at, word_at};
use refusals::Refusal;

// What a channel set descriptor says.
#[repr(C)]
#[derive(Clone, Copy, Debug, Default, PartialEq, Eq)]
pub struct ChannelSet {
    // the set's first and last time, in 2 ms
    pub start: u16,
    pub end: u16,
    // MP: a sample is descaled by 2^(MP/4), MP in signed quarters
    pub descale: i32,
    pub channels: u16,
    pub channel_type: u8,
    // S/C: each channel has 2^(S/C) samples in a scan
    pub subscan_exponent: u8,
    pub gain: u8,
    pub alias_frequency: u16,
    pub alias_slope: u16,
    pub low_cut: u16,
    pub low_cut_slope: u16,
    pub first_notch: u16,
    pub second_notch: u16,
    pub third_notch: u16,
}

// A channel set's descriptor: the block from it on, so that its byte 1 is the first.
#[derive(Clone, Copy)]
struct Descriptor<'a>(&'a [u8]);

impl<'a> Descriptor<'a> {
    // E6: the descriptor of set s of scan type t.
    #[tactic(auto, using(std::proofs::lemmas::List::drop_min), unfolding(crate::specs::Descriptors::descriptor_at, crate::specs::Descriptors::descriptor_place))]
    fn of(b: &'a [u8], t: u8, s: u8) -> Descriptor<'a>
        ensures { result.0.now ≡ descriptor_at b.now t s }
    {
        let place = 32 * (1 + general::fields_before(b, t) + u32::from(s)) as usize;
        Descriptor(&b[place.min(b.len())..])
    }

    #[tactic(auto, unfolding(crate::specs::Descriptors::descriptor_holds))]
    fn holds(self, t: u8, s: u8) -> bool
        requires { (t < 255) × (s < 255) }
        ensures { result ≡ descriptor_holds self.entry.0.now t s }
    {
        let d = self.0;
        all_pairs(d, 1, 2)
            && all_pairs(d, 9, 10)
            && all_pairs(d, 13, 26)
            && pair_at(d, 1) == t + 1
            && pair_at(d, 2) == s + 1
            && lower_at(d, 11) == 0
            && upper_at(d, 12) <= 9
            && upper_at(d, 15) == 0
            && upper_at(d, 19) == 0
    }

    fn channels(self) -> u16
        ensures { result ≡ channels_in self.entry.0.now }
    {
        two_pairs(self.0, 9)
    }

    // 2^(S/C).
    fn subscans(self) -> u16
        ensures { result ≡ 2 ^ upper self.entry.0.now 12 }
    {
        1 << upper_at(self.0, 12)
    }

    fn samples(self) -> u32
        ensures { result ≡ channels_in self.entry.0.now * 2 ^ upper self.entry.0.now 12 }
    {
        u32::from(self.channels()) * u32::from(self.subscans())
    }

    #[tactic(auto, unfolding(crate::specs::ChannelSets::channel_set_in))]
    fn fields(self) -> ChannelSet
        ensures { result ≡ channel_set_in self.entry.0.now }
    {
        let d = self.0;
        ChannelSet {
            start: word_at(d, 3),
            end: word_at(d, 5),
            descale: quarters_of(byte_at(d, 8)),
            channels: two_pairs(d, 9),
            channel_type: upper_at(d, 11),
            subscan_exponent: upper_at(d, 12),
            gain: lower_at(d, 12),
            alias_frequency: two_pairs(d, 13),
            alias_slope: two_pairs(d, 15),
            low_cut: two_pairs(d, 17),
            low_cut_slope: two_pairs(d, 19),
            first_notch: two_pairs(d, 21),
            second_notch: two_pairs(d, 23),
            third_notch: two_pairs(d, 25),
        }
    }
}

// The samples that stand together in a group, 0 where the code is not among the twelve.
#[tactic(auto, unfolding(codes::specs::Codes::per_of, codes::specs::Codes::per_in, basis::specs::Choice::pick))]
fn per(code: u16) -> u8
    ensures { result ≡ per_of code }
{
    codes::find(code).map_or(0, |row| if row.apart == 0 { 1 } else { 4 })
}

#[tactic(auto, unfolding(crate::specs::Descriptors::four_holds))]
fn four_holds(code: u16, channels: u16) -> bool
    ensures { result ≡ four_holds code channels }
{
    0x8000 <= code || per(code) != 4 || channels % 4 == 0
}

// Refusal 7 or 8 of one descriptor.
#[tactic(auto, unfolding(crate::specs::Descriptors::set_fault, basis::specs::Choice::pick))]
fn set_fault(b: &[u8], t: u8, s: u8) -> Result<(), Refusal>
    requires { (t < 255) × (s < 255) }
    ensures { result ≡ set_fault b.now t s }
{
    let d = Descriptor::of(b, t, s);
    if !d.holds(t, s) {
        return Err(Refusal::Descriptor {
            scan_type: t + 1,
            set: s + 1,
        });
    }
    if !four_holds(word_at(b, 3), d.channels()) {
        return Err(Refusal::Four {
            scan_type: t + 1,
            set: s + 1,
        });
    }
    Ok(())
}

// The first descriptor of scan type t that breaks a rule. That t + 1 is a byte is asked by the three private steps of this one search: a type of such numbers would be made anew in each loop.
#[tactic(auto, unfolding(crate::specs::Descriptors::scan_type_fault, basis::specs::Upto::upto))]
fn scan_type_fault(b: &[u8], t: u8) -> Result<(), Refusal>
    requires { t < 255 }
    ensures { result ≡ scan_type_fault b.now t }
{
    let channel_sets = pair_at(b, 29);
    for s in 0..channel_sets {
        set_fault(b, t, s)?;
    }
    Ok(())
}

// The first descriptor that breaks a rule, with refusal 7 or 8.
#[tactic(auto, unfolding(crate::specs::Descriptors::descriptors_fault, basis::specs::Upto::upto))]
pub fn descriptors_fault(b: &[u8]) -> Result<(), Refusal>
    ensures { result ≡ descriptors_fault b.now }
{
    let scan_types = pair_at(b, 28);
    for t in 0..scan_types {
        scan_type_fault(b, t)?;
    }
    Ok(())
}

// The channels of a set. The block, t and s come one by one in what is open to callers (channels, subscans and channel_set of Unique).
pub fn channels(b: &[u8], t: u8, s: u8) -> u16
    ensures { result ≡ channels_of b.now t s }
{
    Descriptor::of(b, t, s).channels()
}

// The subscans of a set, 2^(S/C).
pub fn subscans(b: &[u8], t: u8, s: u8) -> u16
    ensures { result ≡ subscans_of b.now t s }
{
    Descriptor::of(b, t, s).subscans()
}

// The samples of the first n sets of scan type t in one scan.
#[tactic(auto, unfolding(crate::specs::Samples::set_samples, basis::specs::Upto::upto))]
pub fn samples_before(b: &[u8], t: u8, n: u8) -> usize
    ensures { (result ≡ samples_before b.now t n) × (result < 2 ^ 40) }
{
    let mut sum = 0;
    for s in 0..n {
        sum += Descriptor::of(b, t, s).samples() as usize;
    }
    sum
}

// S/S: the samples of a scan of scan type t.
#[tactic(auto, unfolding(crate::specs::Samples::samples_of))]
pub fn samples(b: &[u8], t: u8) -> usize
    ensures { (result ≡ samples_of b.now t) × (result < 2 ^ 40) }
{
    samples_before(b, t, pair_at(b, 29))
}

// MP: the sign in a byte's first bit, the magnitude in the others.
#[tactic(auto, unfolding(crate::specs::ChannelSets::quarters, basis::specs::Choice::pick, basis::specs::Fields::field))]
fn quarters_of(x: u8) -> i32
    ensures { result ≡ quarters x }
{
    let magnitude = u32::from(x % 128);
    if x / 128 == 0 {
        basis::difference(magnitude, 0)
    } else {
        basis::difference(0, magnitude)
    }
}

// What the descriptor of a set says.
pub fn channel_set(b: &[u8], t: u8, s: u8) -> ChannelSet
    ensures { result ≡ channel_set_of b.now t s }
{
    Descriptor::of(b, t, s).fields()
}
