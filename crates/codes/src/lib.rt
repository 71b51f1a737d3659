// The twelve format codes, one row each, and what a row says of the bytes on tape.
#![tactic(auto)]

ghost use Rattle.std.specs.Prelude.{◌≡◌, ◌≤◌};
ghost use Rattle.codes.specs.Codes.{row_of, group_in, group_of, bits_of};

// How a fraction is kept: its negatives complemented; with a sign beside it; or with a sign, and left justified in hexadecimal digits.
#[derive(Clone, Copy, Debug, PartialEq, Eq)]
pub enum Kind {
    OnesComplement,
    SignMagnitude,
    Justified,
}

// One row of the table.
#[derive(Clone, Copy, Debug, PartialEq, Eq)]
pub struct Row {
    // the sixteen bits on the tape
    pub code: u16,
    // bits of a sample on tape
    pub width: u32,
    // those of them that are an exponent apart from the word
    pub apart: u32,
    // fraction bits
    pub fraction: u32,
    // log2 of the exponent's base: 1 binary, 2 quaternary, 4 hexadecimal
    pub base: u32,
    // exponent bits
    pub exponent: u32,
    // what is taken from an exponent
    pub bias: u32,
    pub kind: Kind,
}

// The rows of the multiplexed codes, by name: a reader of one code alone cites its row.
pub const ROW_15: Row = Row {
    code: 0x0015,
    width: 20,
    apart: 4,
    fraction: 14,
    base: 1,
    exponent: 4,
    bias: 0,
    kind: Kind::OnesComplement,
};

pub const ROW_22: Row = Row {
    code: 0x0022,
    width: 8,
    apart: 0,
    fraction: 4,
    base: 2,
    exponent: 3,
    bias: 0,
    kind: Kind::OnesComplement,
};

pub const ROW_24: Row = Row {
    code: 0x0024,
    width: 16,
    apart: 0,
    fraction: 12,
    base: 2,
    exponent: 3,
    bias: 0,
    kind: Kind::OnesComplement,
};

pub const ROW_42: Row = Row {
    code: 0x0042,
    width: 8,
    apart: 0,
    fraction: 5,
    base: 4,
    exponent: 2,
    bias: 0,
    kind: Kind::SignMagnitude,
};

pub const ROW_44: Row = Row {
    code: 0x0044,
    width: 16,
    apart: 0,
    fraction: 13,
    base: 4,
    exponent: 2,
    bias: 0,
    kind: Kind::SignMagnitude,
};

pub const ROW_48: Row = Row {
    code: 0x0048,
    width: 32,
    apart: 0,
    fraction: 23,
    base: 4,
    exponent: 7,
    bias: 64,
    kind: Kind::Justified,
};

static ROWS: [Row; 12] = [
    ROW_15,
    ROW_22,
    ROW_24,
    ROW_42,
    ROW_44,
    ROW_48,
    Row {
        code: 0x8015,
        width: 20,
        apart: 4,
        fraction: 15,
        base: 1,
        exponent: 4,
        bias: 0,
        kind: Kind::OnesComplement,
    },
    Row {
        code: 0x8022,
        width: 8,
        apart: 0,
        fraction: 4,
        base: 2,
        exponent: 3,
        bias: 0,
        kind: Kind::OnesComplement,
    },
    Row {
        code: 0x8024,
        width: 16,
        apart: 0,
        fraction: 12,
        base: 2,
        exponent: 3,
        bias: 0,
        kind: Kind::OnesComplement,
    },
    Row {
        code: 0x8042,
        width: 8,
        apart: 0,
        fraction: 5,
        base: 4,
        exponent: 2,
        bias: 0,
        kind: Kind::SignMagnitude,
    },
    Row {
        code: 0x8044,
        width: 16,
        apart: 0,
        fraction: 13,
        base: 4,
        exponent: 2,
        bias: 0,
        kind: Kind::SignMagnitude,
    },
    Row {
        code: 0x8048,
        width: 32,
        apart: 0,
        fraction: 23,
        base: 4,
        exponent: 7,
        bias: 64,
        kind: Kind::Justified,
    },
];

// The row of a code, if it is among the twelve.
pub fn find(code: u16) -> Option<Row>
    ensures { result ≡ row_of code }
{
    ROWS.iter().find(|r| r.code == code).copied()
}

// The bytes of a row's group of samples on tape.
#[tactic(auto, unfolding(crate::specs::Codes::group_in, basis::specs::Choice::pick))]
fn group_in(r: Row) -> u32
    ensures { result ≡ group_in r }
{
    if r.apart == 0 {
        r.width / 8
    } else {
        r.width / 2
    }
}

// The same of a code, 0 where it is not among the twelve: fit_by and the demands go by that number, so it is no Option.
#[tactic(auto, unfolding(crate::specs::Codes::group_of))]
pub fn group(code: u16) -> u32
    ensures { result ≡ group_of code }
{
    find(code).map_or(0, group_in)
}

// The bits of a code's sample on tape, 0 where it is not among the twelve.
pub fn bits(code: u16) -> u32
    ensures { (result ≡ bits_of code) × (result ≤ 32) }
{
    find(code).map_or(0, |r| r.width)
}
