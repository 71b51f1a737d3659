// Header blocks: what each is accepted as, or which rule turns it away.
use crate::files::load;
use crate::print::Refused;
use std::env::FillError;
use std::io;
use std::rt::{Env, Files};

// A block under its name, with its length.
fn answer(rt: &impl Print, name: &[u8], b: &[u8]) -> io::Result<()> {
    rt.print("header ")?;
    rt.write_all(name)?;
    print!(rt; ", {} bytes: ", b.len())?;
    match header::read_header(b) {
        Ok(h) => println!(rt;
            "format {:04x}, day {}, S/S {}, B {}",
            h.code, h.day, h.samples_per_scan, h.bytes_per_scan
        ),
        Err(r) => rt.println(Refused(r)),
    }
}

// The block that an argument names.
fn named(rt: &(impl Print + Eprint + Files), name: &[u8]) -> io::Result<()> {
    let mut space = [0u8; 4096];
    answer(rt, name, load(rt, name, &mut space))
}

// cases has this loop too: the two programs share no crate that may read arguments.
// Every block that an argument names. An argument that is longer than a path can be names none, as an empty one does;
// `env::args` would end at one that is no text.
pub(crate) fn of_arguments(rt: &(impl Print + Eprint + Files + Env)) -> io::Result<()> {
    let mut name = [0u8; 4096];
    for i in 1..usize::MAX {
        match rt.arg(i, &mut name) {
            Ok(n) => named(rt, &name[..n])?,
            Err(FillError::TooLong) => named(rt, b"")?,
            Err(FillError::NotPresent) => break,
        }
    }
    Ok(())
}
