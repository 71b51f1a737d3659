// The calls that a deck's firmware links, by the names and in the order of include/segd.h: each is the call of `deck` by the same
// name, and promises what that one promises. There the answers and the states are, and here only the symbols.
#![tactic(auto)]

ghost use Rattle.std.specs.Prelude.{◌≡◌};
ghost use Rattle.codes.specs.Codes.{row_of};
ghost use Rattle.words.specs.Words.{word_of};
ghost use Rattle.deck.specs.Flat.{flat_format, flat_word};

use deck::{SegdFormat, SegdWord};

pub mod bodies;
pub mod headers;
pub mod places;
pub mod traces;

#[unsafe(no_mangle)]
pub extern "C" fn segd_format(code: u16) -> SegdFormat
    ensures { result ≡ flat_format (row_of code) }
{
    deck::segd_format(code)
}

#[unsafe(no_mangle)]
pub extern "C" fn segd_read_word(code: u16, c: u32, word: u32) -> SegdWord
    ensures { result ≡ flat_word (word_of code c word) }
{
    deck::segd_read_word(code, c, word)
}
