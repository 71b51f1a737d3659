// The framing of a reel image, which may come in portions of any size: a version byte 1, then items, each a length
// of four bytes and that many bytes. Length 0 is a file mark, and two in a row end the reel.
#![tactic(auto, using(basis::proofs::Rules::tests), unfolding(basis::specs::Choice::pick))]

ghost use Rattle.std.specs.Prelude.{◌≡◌, ◌<◌};
ghost use Rattle.framing.specs.Next.{next_of, ending_of, after_length, passed_to, after_version, in_item, meet_of};

// Where in an image a reader stands. Every value is a place in some image.
#[derive(Clone, Copy, Debug, PartialEq, Eq)]
pub enum Frame {
    // before the version byte
    Start,
    // before an item's length; whether a mark stands right before it
    Length { marked: bool },
    // before the second, third or fourth byte of a length, with those that came
    Second { marked: bool, a: u8 },
    Third { marked: bool, a: u8, b: u8 },
    Fourth { marked: bool, a: u8, b: u8, c: u8 },
    // before a byte of an item, that many bytes of the item standing after it
    Item { after: u32 },
    // after two marks in a row
    Over,
    // after a version byte that is not 1
    Wrong,
}

// What the bytes passed over were: the framing's own, bytes of an item that goes on, bytes of an
// item with its last, or the last byte of a mark.
#[derive(Clone, Copy, Debug, PartialEq, Eq)]
pub enum Met {
    Framing,
    Part,
    Whole,
    Mark,
}

// The reader's new place, the place of the portion that it came to, and what it passed.
#[derive(Clone, Copy, Debug, PartialEq, Eq)]
pub struct Step {
    pub frame: Frame,
    pub to: usize,
    pub met: Met,
}

// How a reel ends: with two marks, early, or at once since its version is not 1.
#[derive(Clone, Copy, Debug, PartialEq, Eq)]
pub enum Ending {
    Ok,
    Cut,
    Version,
}

// How the reel ends where the image ends here.
pub fn close(f: Frame) -> Ending
    ensures { result ≡ ending_of f }
{
    match f {
        Frame::Over => Ending::Ok,
        Frame::Wrong => Ending::Version,
        _ => Ending::Cut,
    }
}

// The step over a length's last byte, which stands right before to.
fn after_length(marked: bool, n: u32, to: usize) -> Step
    ensures { result ≡ after_length marked n to }
{
    if n != 0 {
        return passed(Frame::Item { after: n - 1 }, to);
    }
    Step {
        frame: if marked {
            Frame::Over
        } else {
            Frame::Length { marked: true }
        },
        to,
        met: Met::Mark,
    }
}

fn passed(frame: Frame, to: usize) -> Step
    ensures { result ≡ passed_to frame to }
{
    Step {
        frame,
        to,
        met: Met::Framing,
    }
}

fn version(x: u8, to: usize) -> Step
    ensures { result ≡ after_version x to }
{
    if x == 1 {
        return passed(Frame::Length { marked: false }, to);
    }
    passed(Frame::Wrong, to)
}

// The step over the bytes of an item that stand from at on, before end: all of them, or what there is.
fn in_item(after: u32, at: usize, end: usize) -> Step
    requires { at < end }
    ensures { result ≡ in_item after at end }
{
    let here = end - at;
    let more = after as usize;
    if more < here {
        return Step {
            frame: Frame::Length { marked: false },
            to: at + more + 1,
            met: Met::Whole,
        };
    }
    Step {
        frame: Frame::Item {
            after: (more - here) as u32,
        },
        to: end,
        met: Met::Part,
    }
}

// The step from place at, where the byte x stands, of bytes that end at end.
#[tactic(auto, using(crate::proofs::Length::length_is))]
fn meet(f: Frame, x: u8, at: usize, end: usize) -> Step
    requires { at < end }
    ensures { result ≡ meet_of f x at end }
{
    match f {
        Frame::Start => version(x, at + 1),
        Frame::Length { marked } => passed(Frame::Second { marked, a: x }, at + 1),
        Frame::Second { marked, a } => passed(Frame::Third { marked, a, b: x }, at + 1),
        Frame::Third { marked, a, b } => passed(Frame::Fourth { marked, a, b, c: x }, at + 1),
        Frame::Fourth { marked, a, b, c } => {
            after_length(marked, u32::from_be_bytes([a, b, c, x]), at + 1)
        }
        Frame::Item { after } => in_item(after, at, end),
        Frame::Over => passed(Frame::Over, end),
        Frame::Wrong => passed(Frame::Wrong, end),
    }
}

// What stands from place at of the bytes: one byte of the framing, or all the bytes of an item that
// there are. From the end of the bytes on it stays.
pub fn next(f: Frame, bytes: &[u8], at: usize) -> Step
    ensures { result ≡ next_of f bytes.now at }
{
    if bytes.len() <= at {
        return passed(f, at);
    }
    meet(f, bytes[at], at, bytes.len())
}
