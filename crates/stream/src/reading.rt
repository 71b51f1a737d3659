// What is read on in a portion: a fit state, the bytes of a group of its words, and the table that is lent to read words of one byte.
ghost use Rattle.std.specs.Prelude.{◌≡◌, ◌<◌};
ghost use Rattle.codes.specs.Codes.{group_of};
ghost use Rattle.scan.specs.Fit.{Fit};
ghost use Rattle.stream.specs.Bulk.{Lent};

use scan::State;
use std::slice;
use words::tables;

#[derive(Clone, Copy)]
pub(crate) struct Reading<'t> {
    pub(crate) state: State,
    pub(crate) group: u32,
    pub(crate) tables: &'t [[u64; 256]],
    ghost fit: { Fit state },
    ghost grouped: { group_of state.shape.code ≡ group },
    ghost lent: { Lent state.shape.code group tables.now },
}

static NONE: [[u64; 256]; 0] = [];

// The table of a code whose words have one byte; the other codes are lent none.
fn lent(code: u16) -> &'static [[u64; 256]]
    requires { code < 0x8000 }
    ensures { Lent code (group_of code) result.now }
{
    match code {
        0x0022 | 0x0042 => slice::from_ref(tables::lent(code)),
        _ => &NONE,
    }
}

impl Reading<'static> {
    // The table is chosen here, once for a portion.
    pub(crate) fn new(state: State, group: u32) -> Self
        requires { (Fit state) × (group_of state.shape.code ≡ group) }
        ensures { result.state ≡ state }
    {
        Reading {
            state,
            group,
            tables: lent(state.shape.code),
        }
    }
}
