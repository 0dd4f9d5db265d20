// The slope of the probing cycle, on numbers.
ghost use Rattle.std.specs.Prelude.{◌≡◌, length};
ghost use Rattle.units.specs.Reply.{number, fault};
ghost use Rattle.state.specs.Faults.{first, named};
ghost use Rattle.state.specs.Cycle.{rounds_ok};
ghost use Rattle.guovssalu.specs.Inner.{count_in};
ghost use Rattle.guovssalu.specs.Slope.{slope_row, window_faults, slope_reply, slope_words, slope_out};

use phases::slope::slope_raised;
use state::Cycle;
use state::bounds::bytes_ok;
use state::cycle::Slope;
use state::faults::Kind;
use state::refusals::{Rows, or_short, refusal};
use units::Refusal;
use words::put_words;

// The next rounds and probe_up_bytes, as two words of the output: 1 for rounds over 30, 2.1 at
// place 2 for a window above 2^40, 7 for an output under 16 bytes.
pub fn guovssalu_raise_inflight_high_slope(rounds: u64, window: u64, out: &mut [u8]) -> u64
    ensures value { result ≡ slope_reply rounds window (length out.old) }
    ensures out_after { out.new ≡ slope_out rounds window out.old }
{
    if let Err(refusal) = slope_reply(rounds, window, out.len()) {
        return refusal.word();
    }
    put_words(out, 0, &slope_words(rounds, window));
    0
}

fn slope_reply(rounds: u64, window: u64, room: usize) -> Result<(), Refusal>
    ensures reply { number result ≡ slope_row rounds window room }
    ensures fault { fault result ≡ named (slope_row rounds window room) (first (window_faults window)) }
{
    let fine = bytes_ok(window);
    let rows = Rows {
        stored: !rounds_ok(rounds),
        argument: !fine,
        ..Rows::NONE
    };
    let reply = refusal(rows, Kind::Window.unless(fine, 2));
    or_short(reply, room < 16)
}

// probe_up_rounds is at most 30.
fn rounds_ok(rounds: u64) -> bool
    ensures { result ≡ rounds_ok rounds }
{
    rounds <= Cycle::MOST_ROUNDS
}

// What the cycle's own rule makes of the rounds and the window.
fn slope_words(rounds: u64, window: u64) -> [u64; 2]
    ensures { result ≡ slope_words rounds window }
{
    let slope = Slope {
        rounds,
        bytes: None,
        acked: 0,
        applimited: false,
    };
    let raised = slope_raised(slope, window);
    [raised.rounds, count_in(raised.bytes)]
}

// A byte count; 0 where there is none.
fn count_in(bytes: Option<u64>) -> u64
    ensures { result ≡ count_in bytes }
{
    bytes.unwrap_or(0)
}
