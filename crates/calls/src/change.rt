// The calls that change the model alone, but for a send.
// A call is its number, a word of the C interface, and is matched once (docs/DESIGN-PASS.md).
ghost use Rattle.std.specs.Prelude.{◌≡◌};
ghost use Rattle.state.specs.Refusals.{caused};
ghost use Rattle.state.specs.Answers.{settled};
ghost use Rattle.calls.specs.Change.{change_of, change_more};

use crate::unknown::unknown;
use state::NetworkModel;
use state::refusals::Cause;
use units::Duration;

// Calls 8 and 14 to 22; `gain` is n's f32. Any other number is refused.
#[tactic(auto, unfolding(crate::specs::Change::change_of, state::specs::Answers::settled))]
pub fn change(model: &mut NetworkModel, call: u64, n: u64, gain: f32) -> Result<(), Cause>
    ensures reply { caused result ≡ (change_of call n gain model.old).number }
    ensures model { model.new ≡ settled (change_of call n gain model.old).number (change_of call n gain model.old).next model.old }
{
    match call {
        8 => changes::restart_round_early(model)?,
        14 => changes::set_full_bandwidth_reached(model)?,
        15 => changes::set_pacing_gain(model, gain)?,
        16 => changes::set_cwnd_gain(model, gain)?,
        _ => change_more(model, call, n)?,
    }
    Ok(())
}

// Calls 17 to 22, which are given n or nothing.
#[tactic(auto, unfolding(crate::specs::Change::change_more, state::specs::Answers::settled))]
fn change_more(model: &mut NetworkModel, call: u64, n: u64) -> Result<(), Cause>
    ensures reply { caused result ≡ (change_more call n model.old).number }
    ensures model { model.new ≡ settled (change_more call n model.old).number (change_more call n model.old).next model.old }
{
    match call {
        17 => changes::set_inflight_hi(model, n)?,
        18 => changes::cap_inflight_lo(model, n)?,
        19 => changes::clear_inflight_lo(model)?,
        20 => changes::clear_bandwidth_lo(model)?,
        21 => changes::advance_max_bandwidth_filter(model)?,
        22 => changes::postpone_min_rtt_timestamp(model, Duration(n))?,
        _ => unknown(*model)?,
    }
    Ok(())
}
