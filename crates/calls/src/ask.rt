// The calls that only answer.
// A call is its number, a word of the C interface, and is matched once (docs/DESIGN-PASS.md).
ghost use Rattle.std.specs.Prelude.{◌≡◌};
ghost use Rattle.state.specs.Refusals.{caused, given};
ghost use Rattle.state.specs.Answers.{settled};
ghost use Rattle.calls.specs.Ask.{ask_of, read_of, read_more};
ghost use Rattle.calls.specs.Unknown.{unknown_number};

use crate::unknown::unknown;
use state::refusals::Cause;
use state::{NetworkModel, Params};
use units::Bandwidth;
use words::word::float_word;

// Calls 10 to 13 and 23 to 38; `n` is a bandwidth. Any other number is refused.
#[tactic(auto, unfolding(crate::specs::Ask::ask_of, state::specs::Answers::settled))]
pub fn ask(model: NetworkModel, params: Params, call: u64, n: u64, gain: f32) -> Result<u64, Cause>
    ensures reply { caused result ≡ (ask_of call n gain model params).number }
    ensures value { given result 0 ≡ settled (ask_of call n gain model params).number (ask_of call n gain model params).value 0 }
{
    match call {
        10 => Ok(reads::bdp(model, Bandwidth(n), gain)?),
        11 => Ok(reads::bdp1(model, Bandwidth(n))?),
        12 => Ok(reads::bdp0(model)?),
        13 => Ok(reads::inflight_hi_with_headroom(model, params)?),
        _ if call < 30 => read(model, call),
        _ => read_more(model, call),
    }
}

// Calls 23 to 29.
#[tactic(auto, unfolding(crate::specs::Ask::read_of, state::specs::Answers::settled))]
fn read(model: NetworkModel, call: u64) -> Result<u64, Cause>
    ensures reply { caused result ≡ (read_of call model).number }
    ensures value { given result 0 ≡ settled (read_of call model).number (read_of call model).value 0 }
{
    match call {
        23 => Ok(reads::bandwidth_estimate(model)?.0),
        24 => Ok(reads::min_rtt(model)?.0),
        25 => Ok(reads::min_rtt_timestamp(model)?.0),
        26 => Ok(reads::max_bandwidth(model)?.0),
        27 => Ok(reads::max_bytes_delivered_in_round(model)?),
        28 => Ok(reads::total_bytes_acked(model)?),
        29 => Ok(reads::total_bytes_lost(model)?),
        _ => refused(model),
    }
}

// Calls 30 to 38.
#[tactic(auto, unfolding(crate::specs::Ask::read_more, state::specs::Answers::settled))]
fn read_more(model: NetworkModel, call: u64) -> Result<u64, Cause>
    ensures reply { caused result ≡ (read_more call model).number }
    ensures value { given result 0 ≡ settled (read_more call model).number (read_more call model).value 0 }
{
    match call {
        30 => Ok(u64::from(reads::full_bandwidth_reached(model)?)),
        31 => Ok(float_word(reads::pacing_gain(model)?)),
        32 => Ok(float_word(reads::cwnd_gain(model)?)),
        33 => Ok(reads::inflight_hi(model)?),
        34 => Ok(reads::inflight_hi_default(model)?),
        35 => Ok(reads::inflight_lo(model)?),
        36 => Ok(reads::loss_events_in_round(model)?),
        37 => Ok(reads::rounds_with_queueing(model)?),
        38 => Ok(reads::queueing_threshold_extra_bytes(model)?),
        _ => refused(model),
    }
}

// A number that is none of these.
fn refused(model: NetworkModel) -> Result<u64, Cause>
    ensures reply { caused result ≡ unknown_number model }
    ensures value { given result 0 ≡ 0 }
{
    unknown(model)?;
    Ok(0)
}
