// The slope of the probing cycle, on numbers.
ghost use Rattle.std.specs.Prelude.{◌≡◌, length};
ghost use Rattle.guovssalu.specs.Slope.{slope_reply, slope_out};

use guovssalu::slope;

// The next rounds and probe_up_bytes, as two words of the output: 1 for rounds over 30, 2.1 at
// place 2 for a window above 2^40, 7 for an output under 16 bytes.
#[unsafe(no_mangle)]
pub extern "C" fn guovssalu_raise_inflight_high_slope(
    rounds: u64,
    window: u64,
    out: &mut [u8],
) -> u64
    ensures value { result ≡ slope_reply rounds window (length out.old) }
    ensures out_after { out.new ≡ slope_out rounds window out.old }
{
    slope::guovssalu_raise_inflight_high_slope(rounds, window, out)
}
