// Runs of whole words of the present scan: which bytes are such, and the state and the samples that they come to.
ghost use Rattle.std.specs.Prelude.{◌≡◌, ◌+◌, ◌-◌, ◌*◌, ◌%◌, ◌<◌, ◌≤◌, length, take, drop, ◌≢◌};
ghost use Rattle.runs.specs.Runs as Runs;
ghost use Rattle.scan.specs.Step.{wrote};
ghost use Rattle.stream.specs.Bulk as Bulk;

use crate::Chunk;
use crate::byte::shift;
use crate::reading::Reading;
use runs::Ran;
use scan::State;
use words::{Code24, Code44, Code48};

// The last four bytes, after these.
fn held_after(held: u32, bytes: &[u8]) -> u32
    ensures { result ≡ Bulk.held_at bytes.now held (length bytes.now) }
{
    if 4 <= bytes.len() {
        return runs::four_at(bytes, bytes.len() - 4);
    }
    let mut h = held;
    for &b in bytes {
        h = shift(h, b);
    }
    h
}

// The exponents of the group in which a run ends.
fn last_exponents(w: u32, g: u32, e: u32, bytes: &[u8]) -> u32
    requires { w ≡ 10 → g ≡ 0 → (0 < length bytes.now) × (length bytes.now % 2 ≡ 0) }
    ensures { result ≡ Bulk.last_exponents w g e bytes.now }
{
    if w != 10 {
        return e;
    }
    if g != 0 {
        return e;
    }
    let k = (bytes.len() - 1) / 10 * 10;
    let a = shift(0, bytes[k]);
    shift(a, bytes[k + 1])
}

// The state after a run, from place g of a group on, with so many off-rule words.
fn ran_to(s: State, w: u32, g: u32, bytes: &[u8], off: usize) -> State
    requires able { (Bulk.Able s w (length bytes.now)) × ((s.place % s.shape.scan - 8) % w ≡ g) }
    requires off_in_bounds { off ≤ length bytes.now }
    ensures { result ≡ Bulk.ran_to s w g bytes.now off }
{
    State {
        place: s.place + bytes.len() as u32,
        off: s.off + off as u32,
        held: held_after(s.held, bytes),
        exponents: last_exponents(w, g, s.exponents, bytes),
        ..s
    }
}

// The loop of 0015, from place g of a group with exponents e on.
fn by_groups(g: u32, e: u32, bytes: &[u8], out: &mut [i32]) -> Ran
    requires { (g ≢ 0) → 2 ≤ g }
    ensures value { result ≡ Runs.ran (Bulk.words_of 10 g) (Bulk.value_in 0x0015 10 g e) bytes.now out.old }
    ensures out_after { out.new ≡ Runs.filled (Bulk.words_of 10 g) (Bulk.value_in 0x0015 10 g e) bytes.now out.old }
{
    if g == 0 {
        return runs::groups15(bytes, out);
    }
    runs::rest15(e, ((g - 2) / 2) as usize, bytes, out)
}

// The place in its group of w bytes that place q of a scan has. The divisors are constants, by which a division is cheap.
fn group_place(q: u32, w: u32) -> u32
    requires { (8 ≤ q) × (Bulk.GroupBytes w) }
    ensures { result ≡ (q - 8) % w }
{
    match w {
        10 => (q - 8) % 10,
        4 => (q - 8) % 4,
        2 => (q - 8) % 2,
        _ => 0,
    }
}

// How many of k bytes are whole words of w bytes. The divisors are constants here too.
fn whole_words(k: usize, w: u32) -> usize
    requires { (Bulk.GroupBytes w) × (w ≢ 10) }
    ensures { (result ≤ k) × (result % w ≡ 0) }
{
    match w {
        4 => k - k % 4,
        2 => k - k % 2,
        _ => k,
    }
}

// How many of k bytes, from place g of a group of 0015 on, are whole words: up to the group's end, or from its front on to the last.
fn grouped_ahead(g: u32, k: usize) -> usize
    requires { g < 10 }
    ensures { (result ≤ k) × (0 < result → Bulk.Spread 10 g result) }
{
    if g % 2 != 0 {
        return 0;
    }
    if g == 0 {
        return k - k % 2;
    }
    let k = k.min((10 - g) as usize);
    k - k % 2
}

// How many of k bytes, from place g of a group of w bytes on, are whole words.
fn words_ahead(w: u32, g: u32, k: usize) -> usize
    requires { (Bulk.GroupBytes w) × (g < w) }
    ensures { (result ≤ k) × (0 < result → Bulk.Spread w g result) }
{
    if w == 10 {
        return grouped_ahead(g, k);
    }
    if 0 < g {
        return 0;
    }
    whole_words(k, w)
}

impl Reading<'_> {
    // The loop of the code, from place g of a group on; of words of one byte over their table. A match and no closure: the code is known at run time only, and each arm is a loop that is compiled of its code's constants.
    fn by_code(self, g: u32, bytes: &[u8], out: &mut [i32]) -> Ran
        requires { (g ≢ 0) → 2 ≤ g }
        ensures value { result ≡ Runs.ran (Bulk.words_of self.entry.group g) (Bulk.value_in self.entry.state.shape.code self.entry.group g self.entry.state.exponents) bytes.now out.old }
        ensures out_after { out.new ≡ Runs.filled (Bulk.words_of self.entry.group g) (Bulk.value_in self.entry.state.shape.code self.entry.group g self.entry.state.exponents) bytes.now out.old }
    {
        let code = self.state.shape.code;
        match code {
            0x0024 => runs::plain_words::<2, Code24>(bytes, out),
            0x0044 => runs::plain_words::<2, Code44>(bytes, out),
            0x0048 => runs::plain_words::<4, Code48>(bytes, out),
            0x0015 => by_groups(g, self.state.exponents, bytes, out),
            _ => runs::byte_words(&self.tables[0], code, bytes, out),
        }
    }

    // A run of whole words.
    fn run(self, bytes: &[u8], out: &mut [i32]) -> Chunk
        requires able { Bulk.Able self.state self.group (length bytes.now) }
        requires bytes_in_bounds { 2 * length bytes.now ≤ length out.old }
        ensures value { result ≡ Bulk.chunk self.entry.state bytes.now }
        ensures out_after { out.new ≡ Runs.over (wrote self.entry.state bytes.now) out.old }
    {
        let s = self.state;
        let g = group_place(s.place % s.shape.scan, self.group);
        let r = self.by_code(g, bytes, out);
        Chunk {
            state: ran_to(s, self.group, g, bytes, r.off),
            count: 2 * r.samples,
        }
    }

    // How many of the next bytes, of which there are `left`, are whole words of the present scan.
    pub(crate) fn ahead(self, left: usize) -> usize
        ensures { Bulk.Ahead self.entry.state left result }
    {
        let s = self.state;
        if s.stop != 0 {
            return 0;
        }
        let q = s.place % s.shape.scan;
        if q < 8 {
            return 0;
        }
        let k = left.min((u32::MAX - s.place) as usize);
        words_ahead(
            self.group,
            group_place(q, self.group),
            k.min((s.shape.scan - q) as usize),
        )
    }

    // A run of k bytes from byte i, to n of `out`.
    pub(crate) fn run_at(self, bytes: &[u8], i: usize, k: usize, out: &mut [i32], n: usize) -> Chunk
        requires able { Bulk.Able self.state self.group k }
        requires k_in_bounds { (i + k ≤ length bytes.now) × (n + 2 * k ≤ length out.old) }
        ensures value { result ≡ Bulk.chunk self.entry.state (take k (drop i bytes.now)) }
        ensures out_after { out.new ≡ Bulk.chunk_out self.entry.state (take k (drop i bytes.now)) n out.old }
    {
        self.run(&bytes[i..i + k], &mut out[n..])
    }
}
