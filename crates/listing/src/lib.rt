// The text of the lister's lines: one for each record, and the last.
#![tactic(auto, using(basis::proofs::Rules::tests), unfolding(basis::specs::Choice::pick))]

ghost use Rattle.std.specs.Prelude.{◌≡◌, ◌+◌, ◌%◌, ◌≤◌, ◌<◌, length, ltb, leb};
ghost use Rattle.io.specs.Digits.{last_digits, hex_digit_ascii};
ghost use Rattle.listing.specs.Lines.{decimal_of, place_of, line_of, last_of};
ghost use Rattle.listing.specs.Lent.{line_room, line_in, line_end, stored_in, Wrote};

use framing::Ending;
use refusals::Refusal;

// What the lister says of a file: its file number, format code and counts ..
#[derive(Clone, Copy, Debug, PartialEq, Eq)]
pub struct Listed {
    pub file: u16,
    pub format: u16,
    pub scans: u32,
    pub samples: u64,
    pub off: u32,
}

// .. or why it was refused, and how long its body was by then.
#[derive(Clone, Copy, Debug, PartialEq, Eq)]
pub struct TurnedAway {
    pub refusal: Refusal,
    pub bytes: u32,
}

pub type Outcome = Result<Listed, TurnedAway>;

// A line in a lent buffer: its next byte goes to place `at`.
#[derive(Drop)]
struct Line<'a> {
    out: &'a mut [u8],
    at: usize,
}

// `write!` would not do: it says what was written only where it succeeds, and no clause says that it does.
impl Line<'_> {
    fn text(&mut self, text: &[u8])
        requires { self.old.at + length text.now ≤ length self.old.out.now }
        ensures { Wrote self.old text.now self.new }
    {
        let to = self.at + text.len();
        self.out[self.at..to].copy_from_slice(text);
        self.at = to;
    }

    // The decimal digits of n, the fewest that hold it. The most are 20, and no heap is needed.
    fn decimal(&mut self, n: u64)
        requires { self.old.at + 20 ≤ length self.old.out.now }
        ensures text { Wrote self.old (decimal_of n) self.new }
        ensures most { self.new.at ≤ self.old.at + 20 }
    {
        let mut text = [0u8; 20];
        let k = io::decimal(n, &mut text);
        self.text(&text[..k]);
    }

    // The last four digits of n in base.
    fn four(&mut self, base: u16, n: u16)
        requires { (self.old.at + 4 ≤ length self.old.out.now) × (0 < base) × (base ≤ 16) }
        ensures text { Wrote self.old (last_digits base 4 n) self.new }
        ensures most { self.new.at ≤ self.old.at + 4 }
    {
        let fronts = [n / base / base / base, n / base / base, n / base, n];
        self.text(&fronts.map(|n| last_digit(n, base)));
    }

    // The line of a file with its counts.
    fn listed(&mut self, number: u64, l: Listed)
        requires { self.old.at + line_room ≤ length self.old.out.now }
        ensures { Wrote self.old (line_of number (Ok l)) self.new }
    {
        self.decimal(number);
        self.text(b" file ");
        self.four(10, l.file);
        self.text(b" format ");
        self.four(16, l.format);
        self.text(b" scans ");
        self.decimal(u64::from(l.scans));
        self.text(b" samples ");
        self.decimal(l.samples);
        self.text(b" off ");
        self.decimal(u64::from(l.off));
        self.text(b"\n");
    }

    // The line of a file that was turned away.
    fn refused(&mut self, number: u64, away: TurnedAway)
        requires { self.old.at + line_room ≤ length self.old.out.now }
        ensures { Wrote self.old (line_of number (Err away)) self.new }
    {
        let told = refusals::tell(away.refusal);
        self.decimal(number);
        self.text(b" refused ");
        self.decimal(u64::from(told.number));
        self.text(b" at ");
        self.decimal(u64::from(place(away.refusal, away.bytes)));
        self.text(b"\n");
    }
}

// The last digit of n in base.
fn last_digit(n: u16, base: u16) -> u8
    requires { (0 < base) × (base ≤ 16) }
    ensures { result ≡ hex_digit_ascii (n % base) }
{
    b"0123456789abcdef"[usize::from(n % base)]
}

// P of `refused R at P`, for a body of so many bytes.
fn place(refusal: Refusal, bytes: u32) -> u32
    ensures { result ≡ place_of refusal bytes }
{
    match refusal {
        Refusal::FourAt { place, .. }
        | Refusal::Long { place }
        | Refusal::Block { place }
        | Refusal::Sync { place }
        | Refusal::Timing { place }
        | Refusal::Phase { place }
        | Refusal::Trace { place }
        | Refusal::Count { place } => place,
        Refusal::Part | Refusal::Open | Refusal::Missing => bytes,
        _ => 0,
    }
}

// Whether out has no room for any line from place at on.
fn no_room(out: &[u8], at: usize) -> bool
    ensures { result ≡ ltb (length out.now) (at + line_room) }
{
    out.len() < 128 || out.len() - 128 < at
}

// A buffer and a place in what follows, since they are open to callers, who hold the buffer (line_end, stored_in).
// Puts the line of a record into out from place at on, and answers the place after it. Where out has
// fewer than 128 bytes from there on, which hold any line, it puts nothing and answers at.
pub fn record_line(out: &mut [u8], at: usize, number: u64, outcome: Outcome) -> usize
    ensures { (result ≡ line_end out.old at (line_of number outcome)) × (out.new ≡ line_in out.old at (line_of number outcome)) }
{
    if no_room(out, at) {
        return at;
    }
    let mut line = Line { out, at };
    match outcome {
        Ok(l) => line.listed(number, l),
        Err(away) => line.refused(number, away),
    }
    line.at
}

// Puts the last line at the start of out in the same way, and answers its length.
pub fn last_line(out: &mut [u8], ending: Ending) -> usize
    ensures { (result ≡ line_end out.old 0 (last_of ending)) × (out.new ≡ line_in out.old 0 (last_of ending)) }
{
    if no_room(out, 0) {
        return 0;
    }
    let mut line = Line { out, at: 0 };
    match ending {
        Ending::Ok => line.text(b"reel ok\n"),
        Ending::Cut => line.text(b"reel cut\n"),
        Ending::Version => line.text(b"reel version\n"),
    }
    line.at
}

// Puts bytes into out from place at on if they fit there, and answers whether they do.
pub fn store(out: &mut [u8], at: usize, bytes: &[u8]) -> bool
    ensures { (result ≡ leb (at + length bytes.now) (length out.old)) × (out.new ≡ stored_in out.old at bytes.now) }
{
    if out.len() < at || out.len() - at < bytes.len() {
        return false;
    }
    Line { out, at }.text(bytes);
    true
}
