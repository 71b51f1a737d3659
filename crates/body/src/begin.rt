// What a header says of a body, and the state before its first byte.
ghost use Rattle.std.specs.Prelude.{◌≡◌, ◌*◌, ◌^◌, ◌<◌};
ghost use Rattle.body.specs.Open as Open;

use header::Header;
use scan::{Shape, State};

// S/B x 2^S/BX.
fn scans_of(n: u8, e: u8) -> u32
    requires { e < 16 }
    ensures { result ≡ n * 2 ^ e }
{
    u32::from(n) * (1 << e)
}

pub(crate) fn shape_of(h: Header) -> Shape
    requires { h.block_exponent < 16 }
    ensures { result ≡ Open.shape_of h }
{
    Shape {
        code: h.code,
        scan: h.bytes_per_scan,
        advance: 4096 * u32::from(h.interval),
        types: u32::from(h.scan_types),
        block: scans_of(h.block_scans, h.block_exponent),
    }
}

// All zero, and unfit.
pub(crate) fn unfit() -> State
    ensures { result ≡ Open.unfit }
{
    State::default()
}

// The state before the first byte.
pub(crate) fn fresh(h: Shape) -> State
    ensures { result ≡ Open.fresh h }
{
    State {
        shape: h,
        ..unfit()
    }
}
