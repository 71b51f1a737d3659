// One file of a reel: its header item gathered, its blocks read as they come, and what is said of it at its mark.
#![tactic(auto, using(basis::proofs::Rules::tests), unfolding(basis::specs::Choice::pick))]

ghost use Rattle.std.specs.Prelude.{◌≡◌, length, take};
ghost use Rattle.listing.specs.Lent.{stored_in};
ghost use Rattle.files.specs.File.{gathered, part_of, buffer_after, numbers_after, told_by, traces_at, headed, item_end, said_of};

use body::Report;
use listing::{Listed, Outcome, TurnedAway};
use refusals::Refusal;
use scan::State;

// A multiplexed record after its header item.
#[derive(Clone, Copy)]
pub struct Multiplexed {
    pub file: u16,
    pub format: u16,
    pub state: State,
}

// A demultiplexed one: its header block, the first `got` bytes of the header's buffer, is lent at every call (so `got` is a
// length and no slice: the library has no heap); and what would be said at a mark after its last item.
#[derive(Clone, Copy)]
pub struct Demultiplexed {
    pub file: u16,
    pub format: u16,
    pub got: usize,
    pub state: trace::State,
    pub said: Outcome,
}

#[derive(Clone, Copy)]
pub enum File {
    // no byte yet
    Empty,
    // so many bytes of the header item, which stand in the buffer that is lent at every call
    Heading { got: usize },
    // a header item that the lent buffer does not hold
    Large,
    // a header that was turned away
    Refused(Refusal),
    // after the header
    Blocks(Multiplexed),
    Traces(Demultiplexed),
}

// More bytes of the header item, of which some have come.
fn gather(got: usize, bytes: &[u8], header: &mut [u8]) -> File
    ensures { (result ≡ gathered got bytes.now header.old) × (header.new ≡ stored_in header.old got bytes.now) }
{
    if listing::store(header, got, bytes) {
        File::Heading {
            got: got + bytes.len(),
        }
    } else {
        File::Large
    }
}

// The header block of `got` bytes: all of the header's buffer, where it has no more.
fn front(header: &[u8], got: usize) -> &[u8]
    ensures { result.now ≡ take got header.now }
{
    header.get(..got).unwrap_or(header)
}

// Some bytes of an item.
pub fn part(f: File, bytes: &[u8], header: &mut [u8], numbers: &mut [i32]) -> File
    ensures { (result ≡ part_of f bytes.now header.old numbers.old) × (header.new ≡ buffer_after f bytes.now header.old) × (numbers.new ≡ numbers_after f bytes.now header.old numbers.old) }
{
    match f {
        File::Empty => gather(0, bytes, header),
        File::Heading { got } => gather(got, bytes, header),
        File::Large | File::Refused(_) => f,
        File::Blocks(b) => File::Blocks(Multiplexed {
            state: stream::portion(b.state, bytes, numbers).state,
            ..b
        }),
        File::Traces(t) => File::Traces(Demultiplexed {
            state: trace_stream::portion(front(header, t.got), t.state, bytes, numbers).state,
            ..t
        }),
    }
}

// What is listed by a closing answer, where a body is so many bytes long.
fn told(file: u16, format: u16, place: u32, closing: Result<Report, Refusal>) -> Outcome
    ensures { result ≡ told_by file format place closing }
{
    match closing {
        Ok(r) => Ok(Listed {
            file,
            format,
            scans: r.scans,
            samples: r.samples,
            off: r.off,
        }),
        Err(refusal) => Err(TurnedAway {
            refusal,
            bytes: place,
        }),
    }
}

// A file of traces, at the end of an item.
fn traces_at(file: u16, format: u16, got: usize, block: &[u8], state: trace::State) -> File
    ensures { result ≡ traces_at file format got block.now state }
{
    File::Traces(Demultiplexed {
        file,
        format,
        got,
        state,
        said: told(file, format, state.place, trace_body::close(block, state)),
    })
}

// The file after its header item.
fn read(block: &[u8]) -> File
    ensures { result ≡ headed block.now }
{
    match header::read_header(block) {
        Ok(h) if h.code < 0x8000 => File::Blocks(Multiplexed {
            file: h.file,
            format: h.code,
            state: body::open(block).state,
        }),
        Ok(h) => traces_at(h.file, h.code, block.len(), block, trace_body::open(block)),
        Err(refusal) => File::Refused(refusal),
    }
}

// The end of an item.
pub fn item_end(f: File, header: &[u8]) -> File
    ensures { result ≡ item_end f header.now }
{
    match f {
        File::Empty | File::Large | File::Refused(_) => f,
        File::Heading { got } => {
            if header.len() < got {
                return File::Large;
            }
            read(&header[..got])
        }
        File::Blocks(b) => File::Blocks(Multiplexed {
            state: body::block_end(b.state).state,
            ..b
        }),
        File::Traces(t) => {
            let block = front(header, t.got);
            let state = trace_body::block_end(block, t.state).state;
            traces_at(t.file, t.format, t.got, block, state)
        }
    }
}

// What is said of a file at its mark: nothing of one that has no item.
pub fn outcome(f: File) -> Option<Outcome>
    ensures { result ≡ said_of f }
{
    match f {
        File::Empty | File::Heading { .. } => None,
        File::Large => Some(Err(TurnedAway {
            refusal: Refusal::Large,
            bytes: 0,
        })),
        File::Refused(refusal) => Some(Err(TurnedAway { refusal, bytes: 0 })),
        File::Blocks(b) => {
            let s = b.state;
            Some(told(b.file, b.format, s.place, body::close(s)))
        }
        File::Traces(t) => Some(t.said),
    }
}
