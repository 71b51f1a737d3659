// What is turned away: the rows of the description's table, by name, each with the values that its row names.
#![tactic(auto)]

ghost use Rattle.std.specs.Prelude.{◌≡◌, get_or};
ghost use Rattle.refusals.specs.Table.{said, told, stop_refusal};

#[derive(Clone, Copy, Debug, PartialEq, Eq)]
pub enum Refusal {
    Short,
    Format,
    Demux,
    Digit,
    Range,
    Length,
    // the first descriptor that breaks a rule, by its place: scan type and set, counting from 1
    Descriptor { scan_type: u8, set: u8 },
    Four { scan_type: u8, set: u8 },
    // the first scan type whose size is not B
    Size { scan_type: u8 },
    Skew,
    Index,
    Sheet,
    Room,
    // 14 to 18 stop a body at a place, counting its bytes from 0; so do the last three below
    Long { place: u32 },
    Block { place: u32 },
    Sync { place: u32 },
    Timing { place: u32 },
    Phase { place: u32 },
    Part,
    Open,
    Missing,
    Large,
    State,
    // of a trace body: FOUR as a stop, at the end of a trace of that scan type and set; a wrong trace header byte; a wrong number of samples
    FourAt { place: u32, scan_type: u8, set: u8 },
    Trace { place: u32 },
    Count { place: u32 },
}

// A refusal in numbers, for a listing or a caller in C: its row's number, and its values in order, 0 where it has fewer. Of number 8 the third is the place of a stop, and 0 where the header is refused.
#[repr(C)]
#[derive(Clone, Copy, Debug, Default, PartialEq, Eq)]
pub struct Told {
    pub number: u32,
    pub first: u32,
    pub second: u32,
    pub third: u32,
}

impl Refusal {
    // its row's number
    fn number(self) -> u32
        ensures { result ≡ (said self).number }
    {
        match self {
            Refusal::Short => 1,
            Refusal::Format => 2,
            Refusal::Demux => 3,
            Refusal::Digit => 4,
            Refusal::Range => 5,
            Refusal::Length => 6,
            Refusal::Descriptor { .. } => 7,
            Refusal::Four { .. } | Refusal::FourAt { .. } => 8,
            Refusal::Size { .. } => 9,
            Refusal::Skew => 10,
            Refusal::Index => 11,
            Refusal::Sheet => 12,
            Refusal::Room => 13,
            Refusal::Long { .. } => 14,
            Refusal::Block { .. } => 15,
            Refusal::Sync { .. } => 16,
            Refusal::Timing { .. } => 17,
            Refusal::Phase { .. } => 18,
            Refusal::Part => 19,
            Refusal::Open => 20,
            Refusal::Missing => 21,
            Refusal::Large => 22,
            Refusal::State => 23,
            Refusal::Trace { .. } => 24,
            Refusal::Count { .. } => 25,
        }
    }

    // the values that its row names, in the row's order, 0 where it has fewer
    fn values(self) -> (u32, u32, u32)
        ensures { result ≡ (get_or (said self).values 0 0, get_or (said self).values 1 0, get_or (said self).values 2 0) }
    {
        match self {
            Refusal::Descriptor { scan_type, set } | Refusal::Four { scan_type, set } => {
                (scan_type.into(), set.into(), 0)
            }
            Refusal::FourAt {
                place,
                scan_type,
                set,
            } => (scan_type.into(), set.into(), place),
            Refusal::Size { scan_type } => (scan_type.into(), 0, 0),
            Refusal::Long { place }
            | Refusal::Block { place }
            | Refusal::Sync { place }
            | Refusal::Timing { place }
            | Refusal::Phase { place }
            | Refusal::Trace { place }
            | Refusal::Count { place } => (place, 0, 0),
            _ => (0, 0, 0),
        }
    }
}

impl From<Refusal> for Told {
    ghost from_gives = { λ r t. t ≡ told r };

    fn from(refusal: Refusal) -> Told {
        let (first, second, third) = refusal.values();
        Told {
            number: refusal.number(),
            first,
            second,
            third,
        }
    }
}

// A refusal in numbers: its row, and the values that the row names. It is `Told::from` by the name that the theorem `tell` of demands' Unique speaks of.
pub fn tell(refusal: Refusal) -> Told
    ensures { result ≡ told refusal }
{
    Told::from(refusal)
}

// The refusal of a stop whose row names its place alone, by its number; PHASE for 18 and for any other number. By a number, since a state keeps its stop as one: C holds states (include/segd.h).
#[tactic(auto, unfolding(crate::specs::Table::stop_refusal, basis::specs::Choice::pick))]
pub fn stop_refusal(number: u32, place: u32) -> Refusal
    ensures { result ≡ stop_refusal number place }
{
    match number {
        14 => Refusal::Long { place },
        15 => Refusal::Block { place },
        16 => Refusal::Sync { place },
        17 => Refusal::Timing { place },
        24 => Refusal::Trace { place },
        25 => Refusal::Count { place },
        _ => Refusal::Phase { place },
    }
}
