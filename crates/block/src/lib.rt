// The bytes of a header block, counted from 1 as on the page, and the numbers that they write. Every reader takes any place:
// past the end stands 0, so that no caller has to know a length first.
#![tactic(auto)]

ghost use Rattle.std.specs.Prelude.{◌≡◌, ◌+◌, ◌-◌, ◌<◌};
ghost use Rattle.block.specs.Bytes.{is_pair, pair_of, packed_of, byte, upper, lower, pair, decimal, three_digits, binary, pairs};

// Whether both halves of a byte are digits.
#[tactic(auto, unfolding(crate::specs::Bytes::is_pair))]
fn is_pair(byte: u8) -> bool
    ensures { result ≡ is_pair byte }
{
    (byte / 16 <= 9) & (byte % 16 <= 9)
}

// What a byte's two digits write: the one place where a digit pair is worked out. The byte is the upper digit times sixteen plus the lower, so less six times the upper digit, as the deck's
// service manual has it, it is what the page says: the upper times ten plus the lower.
#[tactic(auto, unfolding(crate::specs::Bytes::pair_of))]
fn pair_of(byte: u8) -> u8
    ensures { result ≡ pair_of byte }
{
    byte - byte / 16 * 6
}

// A byte as a pair of digits.
#[tactic(auto, unfolding(crate::specs::Bytes::packed_of, basis::specs::Choice::pick))]
pub fn packed(byte: u8) -> Option<u8>
    ensures { result ≡ packed_of byte }
{
    is_pair(byte).then_some(pair_of(byte))
}

// Byte n; byte 0 is taken for byte 1, as the definition has it.
#[tactic(auto, unfolding(crate::specs::Bytes::byte))]
pub fn byte_at(b: &[u8], n: u16) -> u8
    ensures { result ≡ byte b.now n }
{
    b.get(usize::from(n.saturating_sub(1)))
        .copied()
        .unwrap_or(0)
}

// The upper half of byte n.
#[tactic(auto, unfolding(crate::specs::Bytes::upper))]
pub fn upper_at(b: &[u8], n: u8) -> u8
    ensures { (result ≡ upper b.now n) × (result < 16) }
{
    byte_at(b, u16::from(n)) / 16
}

// The lower half of byte n.
#[tactic(auto, unfolding(crate::specs::Bytes::lower))]
pub fn lower_at(b: &[u8], n: u8) -> u8
    ensures { (result ≡ lower b.now n) × (result < 16) }
{
    byte_at(b, u16::from(n)) % 16
}

// The digit pair in byte n.
#[tactic(auto, using(crate::proofs::Numbers::pair_small), unfolding(crate::specs::Bytes::pair))]
pub fn pair_at(b: &[u8], n: u16) -> u8
    ensures { (result ≡ pair b.now n) × (result < 166) }
{
    pair_of(byte_at(b, n))
}

// The number of four digits in bytes n and n + 1.
#[tactic(auto, using(crate::proofs::Numbers::two_is))]
pub fn two_pairs(b: &[u8], n: u8) -> u16
    ensures { result ≡ decimal b.now n (n + 1) }
{
    let n = u16::from(n);
    u16::from(pair_at(b, n)) * 100 + u16::from(pair_at(b, n + 1))
}

// The number of six digits in bytes n to n + 2.
#[tactic(auto, using(crate::proofs::Numbers::three_is))]
pub fn three_pairs(b: &[u8], n: u8) -> u32
    ensures { result ≡ decimal b.now n (n + 2) }
{
    u32::from(two_pairs(b, n)) * 100 + u32::from(pair_at(b, u16::from(n) + 2))
}

// The number of three digits in the lower half of byte n and in byte n + 1.
#[tactic(auto, unfolding(crate::specs::Bytes::three_digits))]
pub fn three_digits(b: &[u8], n: u8) -> u16
    ensures { result ≡ three_digits b.now n }
{
    u16::from(lower_at(b, n)) * 100 + u16::from(pair_at(b, u16::from(n) + 1))
}

// The binary number in bytes n and n + 1.
#[tactic(auto, using(crate::proofs::Numbers::word_is))]
pub fn word_at(b: &[u8], n: u8) -> u16
    ensures { result ≡ binary b.now n (n + 1) }
{
    let n = u16::from(n);
    u16::from_be_bytes([byte_at(b, n), byte_at(b, n + 1)])
}

// Whether bytes n to m are digit pairs.
pub fn all_pairs(b: &[u8], n: u8, m: u8) -> bool
    ensures { result ≡ pairs b.now n m }
{
    (u16::from(n)..u16::from(m) + 1).all(|i| is_pair(byte_at(b, i)))
}
