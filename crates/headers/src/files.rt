// The header blocks and the sheet that the figures are about: files of data/, which `tools/images` writes.
ghost use Rattle.std.specs.Prelude.{length};
ghost use Rattle.io.specs.Counts.{IsPrefixLen};

use std::fs::File;
use std::io::Read;
use std::rt::Files;
use std::str;

// Reads a file to the front of the lent space, which is more than the files of data/ need, and answers what it has there; nothing where it cannot be opened.
pub(crate) fn load<'a>(rt: &(impl Files + Eprint), name: &[u8], space: &'a mut [u8]) -> &'a [u8]
    ensures { IsPrefixLen (length result.now) space.old }
{
    // A name that is no text names no file.
    let path = str::from_utf8(name).unwrap_or("");
    let n = match File::open(rt, path) {
        Ok(mut file) => read_full(&mut file, space),
        Err(e) => {
            // Where that cannot be said either, it goes unsaid.
            let _said = eprintln!(rt; "{path}: {e}").is_ok();
            0
        }
    };
    &space[..n]
}

// Reads until b is full, the input ends or a read fails, and answers how many bytes it put at the start of b.
fn read_full(input: &mut impl Read, b: &mut [u8]) -> usize
    ensures { IsPrefixLen result b.new }
{
    let mut done = 0;
    // not a `for`: a read brings as many bytes as it likes
    while done < b.len() {
        let n = input.read(&mut b[done..]).unwrap_or(0);
        if n == 0 {
            break;
        }
        done += n;
    }
    done
}
