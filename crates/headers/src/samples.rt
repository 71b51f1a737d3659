// Printer, block and sheet come one by one: each figure has another block, many no sheet, and a struct of them would be made for one or two calls.
// Channel sets and samples: what a set is, where a sample stands, its skew and its time.
use crate::files::load;
use crate::print::Refused;
use std::io;
use std::rt::Files;

fn described(rt: &impl Print, b: &[u8], scan_type: u32, set: u32) -> io::Result<()> {
    print!(rt; "set {scan_type} {set}: ")?;
    match header::descriptor(b, scan_type, set) {
        Ok(s) => println!(rt;
            "{} channels of type {}, exponent {}",
            s.channels, s.channel_type, s.subscan_exponent
        ),
        Err(r) => rt.println(Refused(r)),
    }
}

// Where sample k stands.
fn placed(rt: &impl Print, b: &[u8], scan_type: u32, k: u32) -> io::Result<()> {
    print!(rt; "sample {scan_type} {k}: ")?;
    match layout::sample_place(b, scan_type, k) {
        Ok(p) => println!(rt; "channel {scan_type} {} {} {}", p.set, p.channel, p.subscan),
        Err(r) => rt.println(Refused(r)),
    }
}

fn skewed(rt: &impl Print, b: &[u8], sheet: &[u8], scan_type: u32, k: u32) -> io::Result<()> {
    print!(rt; "sample {k}, sheet of {} bytes: skew ", sheet.len())?;
    match skew::skew_at(b, sheet, scan_type, k) {
        Ok(x) => rt.println(x),
        Err(r) => rt.println(Refused(r)),
    }
}

// The number of a channel's sample, and its skew.
fn numbered(
    rt: &impl Print,
    b: &[u8],
    sheet: &[u8],
    scan_type: u32,
    set: u32,
    channel: u32,
    subscan: u32,
) -> io::Result<()> {
    print!(rt; "channel {scan_type} {set} {channel} {subscan}: ")?;
    match layout::sample_index(b, scan_type, set, channel, subscan) {
        Ok(k) => skewed(rt, b, sheet, scan_type, k),
        Err(r) => rt.println(Refused(r)),
    }
}

// The time of a sample in a scan with timing word t.
fn timed(
    rt: &impl Print,
    b: &[u8],
    sheet: &[u8],
    scan_type: u32,
    k: u32,
    t: u32,
) -> io::Result<()> {
    print!(rt;
        "sample {scan_type} {k} at {t}, sheet of {} bytes: ",
        sheet.len()
    )?;
    match skew::sample_time(b, sheet, scan_type, k, t) {
        Ok(x) => rt.println(x),
        Err(r) => rt.println(Refused(r)),
    }
}

fn sheet_of(rt: &impl Print, b: &[u8], sheet: &[u8]) -> io::Result<()> {
    print!(rt; "sheet of {} bytes: ", sheet.len())?;
    match skew::skew_fault(b, sheet, 1) {
        Ok(()) => rt.println("fits"),
        Err(r) => rt.println(Refused(r)),
    }
}

// E6: byte 203 is byte 11 of set 2 of scan type 2, whose upper half is the channel type.
pub(crate) fn of_e6(rt: &(impl Print + Eprint + Files)) -> io::Result<()> {
    let mut space = [0u8; 4096];
    let b = load(rt, b"e6", &mut space);
    for (scan_type, set) in [(1, 2), (2, 1), (2, 2), (2, 3), (3, 1)] {
        described(rt, b, scan_type, set)?;
    }
    Ok(())
}

// E8: bytes 367 and 415 are the skew of channel 11 of set 2 of scan type 2, in its two subscans. The base scan is 4 ms.
// The sheet is not looked at.
pub(crate) fn of_e8(rt: &(impl Print + Eprint + Files)) -> io::Result<()> {
    let mut space = [0u8; 4096];
    let b = load(rt, b"e8", &mut space);
    let sheet = [7; 3];
    for (set, channel, subscan) in [(2, 11, 0), (2, 11, 1), (2, 11, 2), (2, 49, 0), (3, 1, 0)] {
        numbered(rt, b, &sheet, 2, set, channel, subscan)?;
    }
    for k in [62, 99, 100] {
        placed(rt, b, 2, k)?;
    }
    timed(rt, b, &sheet, 2, 62, 0)
}

// 4 channels between two sets of none.
pub(crate) fn of_dummies(rt: &(impl Print + Eprint + Files)) -> io::Result<()> {
    let mut space = [0u8; 4096];
    let b = load(rt, b"dummy_sets", &mut space);
    for k in [0, 3, 4] {
        placed(rt, b, 1, k)?;
    }
    Ok(())
}

// A scan of no samples.
pub(crate) fn of_none(rt: &(impl Print + Eprint + Files)) -> io::Result<()> {
    let mut space = [0u8; 4096];
    let b = load(rt, b"no_samples", &mut space);
    placed(rt, b, 1, 0)?;
    sheet_of(rt, b, b"")?;
    sheet_of(rt, b, &[0; 2])
}

// As many scan types as there can be. The last one's 4 samples have bytes 393 to 396 of the sheet, of which the first is 1.
pub(crate) fn of_many(rt: &(impl Print + Eprint + Files)) -> io::Result<()> {
    let mut space = [0u8; 4096];
    let b = load(rt, b"types_99", &mut space);
    described(rt, b, 99, 1)?;
    described(rt, b, 100, 1)?;
    let mut sheet_space = [0u8; 4096];
    let sheet = load(rt, b"sheet_99", &mut sheet_space);
    by_sheet(rt, b, sheet, &[1; 395])
}

fn by_sheet(rt: &impl Print, b: &[u8], sheet: &[u8], short: &[u8]) -> io::Result<()> {
    numbered(rt, b, sheet, 99, 1, 1, 0)?;
    numbered(rt, b, sheet, 99, 1, 2, 0)?;
    numbered(rt, b, short, 99, 1, 1, 0)?;
    timed(rt, b, sheet, 99, 0, 512)?;
    timed(rt, b, sheet, 99, 0, 0xFFFFFF)?;
    timed(rt, b, sheet, 99, 0, 0x1000000)?;
    timed(rt, b, short, 99, 0, 0x1000000)?;
    timed(rt, b, short, 99, 0, 512)
}
