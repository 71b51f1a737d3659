// The lister: a reel image that comes in portions, a line for each file, and the last line.
#![tactic(auto)]

ghost use Rattle.std.specs.Prelude.{◌≡◌, ◌<◌, true, length, IfOk, IfSome};
ghost use Rattle.std.proofs.lemmas.List.Edits.{sets};
ghost use Rattle.io.specs.Counts.{IsPrefixLen};
ghost use Rattle.listing.specs.Lent.{line_in, line_end};
ghost use Rattle.framing.specs.Next.{next_of};
ghost use Rattle.lister.specs.Run.{Marked, Heard, Turned};
ghost use Rattle.lister.specs.Turn.{walked};
ghost use Rattle.lister.specs.Calls.{begun, roomy, called, made_by, last_by};
ghost use Rattle.lister.specs.Input.{arrival_of};

use files::{File, item_end, outcome, part};
use framing::{Frame, Met};
use std::io;
use std::io::{ErrorKind, Read, Write};

// How far a reel has been read: the framing, the present file, and how many files have a line.
#[derive(Clone, Copy)]
pub struct Progress {
    pub frame: Frame,
    pub file: File,
    pub count: u64,
}

// How far the reel has been read after a portion, and how many bytes of lines it made: a length and no
// slice, since it is what the demands speak of (made_by), and the caller lends the buffer again.
#[derive(Clone, Copy)]
pub struct Made {
    pub progress: Progress,
    pub length: usize,
}

// A portion that is being listed: how far the reel has been read, the buffers that are lent, and where
// the lines end in theirs. Lines and end are no Line of listing, whose calls take a buffer and a place.
#[derive(Drop)]
struct Run<'a> {
    progress: Progress,
    header: &'a mut [u8],
    numbers: &'a mut [i32],
    lines: &'a mut [u8],
    end: usize,
}

impl Run<'_> {
    // A mark: the line of a file that has an item.
    fn mark(&mut self)
        ensures { Marked self.old self.new }
    {
        let said = outcome(self.progress.file);
        self.progress.file = File::Empty;
        if let Some(said) = said {
            let next = self.progress.count.wrapping_add(1);
            self.end = listing::record_line(self.lines, self.end, next, said);
            self.progress.count = next;
        }
    }

    // What one answer of `framing::next` brings; bytes are those that it passed.
    fn hear(&mut self, met: Met, bytes: &[u8])
        ensures { Heard self.old met bytes.now self.new }
    {
        match met {
            Met::Framing => {}
            Met::Part => {
                self.progress.file = part(self.progress.file, bytes, self.header, self.numbers);
            }
            Met::Whole => {
                // named once: a proof then knows that the end of the item reads what the part left
                let header = &mut *self.header;
                let file = part(self.progress.file, bytes, header, self.numbers);
                self.progress.file = item_end(file, header);
            }
            Met::Mark => self.mark(),
        }
    }

    // One step over a portion of an image, from place at on, and the place that it comes to; a new line goes
    // where the others end.
    #[tactic(auto, using(framing::proofs::Forward::forward))]
    fn advance(&mut self, bytes: &[u8], at: usize) -> usize
        requires { at < length bytes.now }
        ensures to { result ≡ (next_of self.old.progress.frame bytes.now at).to }
        ensures run { Turned self.old bytes.now at self.new }
    {
        let s = framing::next(self.progress.frame, bytes, at);
        self.progress.frame = s.frame;
        self.hear(s.met, &bytes[at..s.to]);
        s.to
    }
}

// All of a portion, its lines one after another at the start of their buffer. The buffers have the room
// that `has_room` asks for.
fn walk(
    start: Progress,
    bytes: &[u8],
    header: &mut [u8],
    numbers: &mut [i32],
    lines: &mut [u8],
) -> Made
    requires { roomy (length bytes.now) header.old numbers.old lines.old ≡ true }
    ensures { (result ≡ made_by (walked start bytes.now header.old numbers.old)) × (header.new ≡ (walked start bytes.now header.old numbers.old).header) × (numbers.new ≡ (walked start bytes.now header.old numbers.old).numbers) × (lines.new ≡ sets lines.old 0 (walked start bytes.now header.old numbers.old).out) }
{
    let mut run = Run {
        progress: start,
        header,
        numbers,
        lines,
        end: 0,
    };
    let mut at = 0;
    // not a counted index: a step passes as many bytes as there are of what it meets
    while at < bytes.len() {
        at = run.advance(bytes, at);
    }
    Made {
        progress: run.progress,
        length: run.end,
    }
}

// Whether the buffers that are lent hold what a portion needs.
fn has_room(bytes: &[u8], header: &[u8], numbers: &[i32], lines: &[u8]) -> bool
    ensures { result ≡ roomy (length bytes.now) header.now numbers.now lines.now }
{
    let n = bytes.len();
    header.len() == 65536 && n <= numbers.len() / 2 && n / 9 < lines.len() / 128
}

// How far a reel has been read before its first byte.
pub fn start() -> Progress
    ensures { result ≡ begun }
{
    Progress {
        frame: Frame::Start,
        file: File::Empty,
        count: 0,
    }
}

// A portion of an image: its lines stand at the start of lines. The caller lends 65,536 bytes for a
// header item, two numbers for each byte, and 128 bytes for each nine bytes and for one line more; where
// it does not, nothing moves.
#[tactic(auto, unfolding(basis::specs::Choice::pick, crate::specs::Calls::called))]
pub fn portion(
    t: Progress,
    bytes: &[u8],
    header: &mut [u8],
    numbers: &mut [i32],
    lines: &mut [u8],
) -> Made
    ensures { (result ≡ made_by (called t bytes.now header.old numbers.old lines.old)) × (header.new ≡ (called t bytes.now header.old numbers.old lines.old).header) × (numbers.new ≡ (called t bytes.now header.old numbers.old lines.old).numbers) × (lines.new ≡ sets lines.old 0 (called t bytes.now header.old numbers.old lines.old).out) }
{
    if has_room(bytes, header, numbers, lines) {
        return walk(t, bytes, header, numbers, lines);
    }
    Made {
        progress: t,
        length: 0,
    }
}

// The end of an image: the last line stands at the start of lines, and its length is answered.
pub fn finish(t: Progress, lines: &mut [u8]) -> usize
    ensures { (result ≡ line_end lines.old 0 (last_by t)) × (lines.new ≡ line_in lines.old 0 (last_by t)) }
{
    listing::last_line(lines, framing::close(t.frame))
}

// How many bytes a read that answered got brought, 0 where it was interrupted; None where the input is
// over or failed.
fn arrived(got: io::Result<usize>, buf: &[u8]) -> Option<usize>
    ensures meaning { result ≡ arrival_of got (length buf.now) }
    ensures in_bounds { IfSome result (λ n. IsPrefixLen n buf.now) }
{
    match got {
        Ok(0) => None,
        Ok(n) => Some(n.min(buf.len())),
        Err(e) => (e.kind() == ErrorKind::Interrupted).then_some(0),
    }
}

// A portion of what was read: writes its lines, and answers how far the reel has been read then. The buffers are
// those of `walk`, and hold what it left, written or not. It stays a function of its own: LLVM then sees that what
// `numbers` held before is not read, and does not clear them for each image.
#[inline(never)]
fn list_portion<W: Write>(
    progress: Progress,
    bytes: &[u8],
    header: &mut [u8],
    numbers: &mut [i32],
    lines: &mut [u8],
    output: &mut W,
) -> io::Result<Progress>
    requires { roomy (length bytes.now) header.old numbers.old lines.old ≡ true }
    ensures progress { IfOk result (λ p. p ≡ (walked progress bytes.now header.old numbers.old).progress) }
    ensures buffers { (header.new ≡ (walked progress bytes.now header.old numbers.old).header) × (numbers.new ≡ (walked progress bytes.now header.old numbers.old).numbers) × (lines.new ≡ sets lines.old 0 (walked progress bytes.now header.old numbers.old).out) }
{
    let made = walk(progress, bytes, header, numbers, lines);
    output.write_all(&lines[..made.length])?;
    Ok(made.progress)
}

// Lists the reel image that a reader holds: reads it and writes its lines. The buffers are of fixed size, so
// that a reel of any length is listed in the same memory. What a read brought is two portions, its halves,
// so that the lines of each have room. A proved loop has to end, so the reads are counted, up to a number
// that no run uses up.
pub fn list<R: Read, W: Write>(input: &mut R, output: &mut W) -> io::Result<()> {
    let mut image = [0u8; 65536];
    let mut header = [0u8; 65536];
    let mut numbers = [0i32; 65536];
    let mut lines = [0u8; 466048];
    let mut progress = start();
    for _ in 0..u64::MAX {
        let got = input.read(&mut image);
        let Some(n) = arrived(got, &image) else {
            break;
        };
        let (first, second) = image[..n].split_at(n / 2);
        for bytes in [first, second] {
            progress = list_portion(
                progress,
                bytes,
                &mut header,
                &mut numbers,
                &mut lines,
                output,
            )?;
        }
    }
    let length = finish(progress, &mut lines);
    output.write_all(&lines[..length])
}
