// The calls that a deck's firmware links, in C's terms: numbers, slices, structs of numbers. Each is a call of a library below, most by
// the same name, its answer laid flat. The crate `deck_c` exports them to C.
#![tactic(auto)]

ghost use Rattle.std.specs.Prelude.{◌≡◌};
ghost use Rattle.codes.specs.Codes.{row_of};
ghost use Rattle.words.specs.Words.{word_of};
ghost use Rattle.deck.specs.Flat.{flat_fault, flat_format, flat_word, kind_number};

use codes::Kind;
use refusals::{Refusal, Told};

pub mod bodies;
pub mod headers;
pub mod places;
pub mod traces;

// An answer's refusal, if it is one.
fn flat_fault<T>(answer: &Result<T, Refusal>) -> Told
    ensures { result ≡ flat_fault answer.now }
{
    match answer {
        Ok(_) => Told::default(),
        Err(r) => refusals::tell(*r),
    }
}

// A format's row; `found` is 0, and so is all else, where there is no such code. C has no Option: here and in the structs below a flag stands beside the values (include/segd.h).
#[repr(C)]
#[derive(Clone, Copy, Default)]
pub struct SegdFormat {
    pub found: u8,
    // 1: negatives complemented; 2: sign and magnitude; 3: the same, left justified
    pub kind: u8,
    pub width: u32,
    pub apart: u32,
    pub fraction: u32,
    pub base: u32,
    pub exponent: u32,
    pub bias: u32,
}

// The numbers are those of segd.h, so they are told here and not by a From in codes.
fn kind_number(kind: Kind) -> u8
    ensures { result ≡ kind_number kind }
{
    match kind {
        Kind::OnesComplement => 1,
        Kind::SignMagnitude => 2,
        Kind::Justified => 3,
    }
}

pub fn segd_format(code: u16) -> SegdFormat
    ensures { result ≡ flat_format (row_of code) }
{
    match codes::find(code) {
        Some(row) => SegdFormat {
            found: 1,
            kind: kind_number(row.kind),
            width: row.width,
            apart: row.apart,
            fraction: row.fraction,
            base: row.base,
            exponent: row.exponent,
            bias: row.bias,
        },
        None => SegdFormat::default(),
    }
}

// A word's sample M x 2^X and its off-rule mark; or a refusal, with the rest 0. `refusal.number` is 0 where it is a sample.
#[repr(C)]
#[derive(Clone, Copy)]
pub struct SegdWord {
    pub refusal: Told,
    pub m: i32,
    pub x: i32,
    pub off: u8,
}

pub fn segd_read_word(code: u16, c: u32, word: u32) -> SegdWord
    ensures { result ≡ flat_word (word_of code c word) }
{
    let answer = words::read_word(code, c, word);
    let sample = answer.unwrap_or_default();
    SegdWord {
        refusal: flat_fault(&answer),
        m: sample.m,
        x: sample.x,
        off: u8::from(sample.off),
    }
}
