// A scan's start: its eight bytes at once, where they are all there and none of them stops the body.
ghost use Rattle.std.specs.Prelude.{◌≡◌, ◌+◌, ◌*◌, ◌≤◌, true, length, take, drop};
ghost use Rattle.scan.specs.Fit.{Fit};
ghost use Rattle.scan.specs.Step.{after};
ghost use Rattle.stream.specs.Bulk as Bulk;
ghost use Rattle.stream.specs.Starts as Starts;

use crate::Chunk;
use crate::byte::{full, instep, moved, phased, timed, typed};
use crate::reading::Reading;
use scan::State;

// The state before byte 8 of the scan that begins at byte i.
fn seventh(s: State, bytes: &[u8], i: usize) -> State
    requires { (s.place + 7 ≤ 4294967295) × (s.track.seen ≤ 99) × (i + 8 ≤ length bytes.now) }
    ensures { result ≡ Starts.seventh s bytes.now i }
{
    State {
        place: s.place + 7,
        track: typed(s.track, bytes[i + 3]),
        held: runs::four_at(bytes, i + 3),
        ..s
    }
}

// Bytes 1 to 4 of a scan.
fn synced(bytes: &[u8], i: usize) -> bool
    requires { i + 8 ≤ length bytes.now }
    ensures { result ≡ Starts.synced bytes.now i }
{
    (bytes[i] == 255) & (bytes[i + 1] == 255) & (bytes[i + 2] == 255) & (bytes[i + 3] % 4 == 1)
}

// Whether the eight bytes from i on may be the start of a scan.
fn sound(s: State, bytes: &[u8], i: usize) -> bool
    requires { (Fit s) × (s.place + 8 ≤ 4294967295) × (i + 8 ≤ length bytes.now) }
    ensures { result ≡ Starts.soundb s bytes.now i }
{
    if full(s.shape, s.place, s.ends) {
        return false;
    }
    if !synced(bytes, i) {
        return false;
    }
    if !phased(s.track, s.shape.types, bytes[i + 3]) {
        return false;
    }
    instep(seventh(s, bytes, i), bytes[i + 7])
}

// The state after them.
fn started(s: State, bytes: &[u8], i: usize) -> State
    requires { Starts.Sound s bytes.now i }
    ensures { result ≡ after s (take 8 (drop i bytes.now)) }
{
    let t = seventh(s, bytes, i);
    let b = bytes[i + 7];
    moved(t, timed(t.track, t.held, b), t.exponents, t.off, b)
}

impl Reading<'_> {
    // Whether the eight bytes from i on are there, and a scan may begin with them.
    fn starts(self, bytes: &[u8], i: usize) -> bool
        requires { i ≤ length bytes.now }
        ensures { result ≡ true → Starts.Sound self.entry.state bytes.now i }
    {
        let s = self.state;
        if s.stop != 0 {
            return false;
        }
        if s.place % s.shape.scan != 0 {
            return false;
        }
        if u32::MAX - 8 < s.place {
            return false;
        }
        if bytes.len() - i < 8 {
            return false;
        }
        sound(s, bytes, i)
    }

    // How many of the bytes from i on are taken at once: a scan's start, or whole words; 0 where neither lies ahead.
    pub(crate) fn ahead_at(self, bytes: &[u8], i: usize) -> usize
        requires { i ≤ length bytes.now }
        ensures { Starts.Next self.entry.state bytes.now i result }
    {
        if self.starts(bytes, i) {
            return 8;
        }
        self.ahead(bytes.len() - i)
    }

    // Those k bytes, to n of `out`.
    pub(crate) fn chunk_at(
        self,
        bytes: &[u8],
        i: usize,
        k: usize,
        out: &mut [i32],
        n: usize,
    ) -> Chunk
        requires takes { Starts.Takes self.state self.group bytes.now i k }
        requires k_in_bounds { (i + k ≤ length bytes.now) × (n + 2 * k ≤ length out.old) }
        ensures value { result ≡ Bulk.chunk self.entry.state (take k (drop i bytes.now)) }
        ensures out_after { out.new ≡ Bulk.chunk_out self.entry.state (take k (drop i bytes.now)) n out.old }
    {
        let s = self.state;
        if s.place % s.shape.scan == 0 {
            return Chunk {
                state: started(s, bytes, i),
                count: 0,
            };
        }
        self.run_at(bytes, i, k, out, n)
    }
}
