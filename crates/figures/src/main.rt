// The bench figures that are run and not proved: a line each, compared with the file stdout beside this folder.
#![tactic(auto)]

use std::io;

// A word of a code, with the exponent c apart, and what it is.
fn word(rt: &impl Print, code: u16, c: u32, word: u32) -> io::Result<()> {
    print!(rt; "word {code:04x} {c} {word:02x}: ")?;
    match words::read_word(code, c, word) {
        Ok(v) => println!(rt; "{} x 2^{}{}", v.m, v.x, if v.off { " off" } else { "" }),
        Err(r) => println!(rt; "refused {}", refusals::tell(r).number),
    }
}

// The least and greatest of each code, its zeros, and what is not off rule though it looks so.
fn words_of_each_code(rt: &impl Print) -> io::Result<()> {
    for (code, c, bits) in [
        (0x0022, 0, 0x00),
        (0x0022, 0, 0x7F),
        (0x0022, 0, 0xF0),
        (0x0022, 0, 0x8F),
        (0x0024, 0, 0x7FFF),
        (0x0024, 0, 0xF000),
        (0x0024, 0, 0xFFFF),
        (0x0015, 15, 0x7FFE),
        (0x0015, 0, 0x0001),
        (0x0015, 3, 0xFFFE),
        (0x0042, 0, 0x80),
        (0x0042, 0, 0x7F),
        (0x0044, 0, 0x7FFF),
        (0x0044, 0, 0x8000),
        (0x0048, 0, 0x00000000),
        (0x0048, 0, 0xC1100000),
        (0x0048, 0, 0x7FFFFFFE),
        (0x0048, 0, 0x41100001),
    ] {
        word(rt, code, c, bits)?;
    }
    Ok(())
}

// Of the 80xx codes: 8015 has a fraction bit more and no last bit to spare, 8048 reads as 0048.
fn words_of_traces(rt: &impl Print) -> io::Result<()> {
    for (code, c, bits) in [
        (0x8015, 15, 0x7FFF),
        (0x8015, 0, 0x0001),
        (0x8015, 3, 0xFFFE),
        (0x8015, 3, 0xFFFF),
        (0x8042, 0, 0xFF),
        (0x8048, 0, 0x41100000),
    ] {
        word(rt, code, c, bits)?;
    }
    Ok(())
}

// What is no word: an unknown code, a word and an exponent too wide.
fn words_refused(rt: &impl Print) -> io::Result<()> {
    for (code, c, bits) in [
        (0x0016, 0, 0x00),
        (0x0022, 0, 0x100),
        (0x0024, 1, 0x0000),
        (0x0015, 16, 0x0000),
        (0x8015, 16, 0x0000),
    ] {
        word(rt, code, c, bits)?;
    }
    Ok(())
}

fn main(rt: HostRuntime) -> io::Result<()> {
    words_of_each_code(&rt)?;
    words_of_traces(&rt)?;
    words_refused(&rt)
}
