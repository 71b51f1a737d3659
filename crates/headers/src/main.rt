// The bench figures of headers and of the samples that they place, run and not proved: a line each, compared with the file stdout
// beside this folder.
#![tactic(auto)]

mod answers;
mod files;
mod print;
mod samples;

use std::io;

fn main(rt: HostRuntime) -> io::Result<()> {
    answers::of_arguments(&rt)?;
    samples::of_e6(&rt)?;
    samples::of_e8(&rt)?;
    samples::of_dummies(&rt)?;
    samples::of_none(&rt)?;
    samples::of_many(&rt)
}
