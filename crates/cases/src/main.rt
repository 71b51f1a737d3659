// Lists each reel image of data/ that an argument names, under its name.
#![tactic(auto)]

use std::env::FillError;
use std::fs::File;
use std::rt::{Env, Files};
use std::{io, str};

fn list_named(rt: &(impl Print + Eprint + Files), name: &[u8]) -> io::Result<()> {
    rt.write_all(name)?;
    rt.write_all(b":\n")?;
    // A name that is no text names no file.
    let path = str::from_utf8(name).unwrap_or("");
    match File::open(rt, path) {
        Ok(mut file) => lister::list(&mut file, &mut io::writer(rt)),
        Err(e) => eprintln!(rt; "{path}: {e}"),
    }
}

// An argument that is longer than a path can be names none, as an empty one does; `env::args` would end at one that is
// no text.
fn main(rt: HostRuntime) -> io::Result<()> {
    let mut name = [0u8; 4096];
    for i in 1..usize::MAX {
        match rt.arg(i, &mut name) {
            Ok(n) => list_named(&rt, &name[..n])?,
            Err(FillError::TooLong) => list_named(&rt, b"")?,
            Err(FillError::NotPresent) => break,
        }
    }
    Ok(())
}
