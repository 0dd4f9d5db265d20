// The questions about an event, and the queue's.
// A call is its number, a word of the C interface, and is matched once (docs/DESIGN-PASS.md).
ghost use Rattle.std.specs.Prelude.{◌≡◌, false};
ghost use Rattle.state.specs.Refusals.{caused, given};
ghost use Rattle.state.specs.Answers.{settled};
ghost use Rattle.calls.specs.Question.{judge_of};

use crate::unknown::unknown;
use state::congestion_event::CongestionEvent;
use state::refusals::Cause;
use state::{NetworkModel, Params};

// Calls 5 to 7 and 9; `limit` is the call's number, `gain` its f32. Any other number is refused.
#[tactic(auto, unfolding(crate::specs::Question::judge_of, state::specs::Answers::settled))]
pub fn judge(
    model: &mut NetworkModel,
    params: Params,
    event: CongestionEvent,
    call: u64,
    limit: u64,
    gain: f32,
) -> Result<bool, Cause>
    ensures reply { caused result ≡ (judge_of call limit gain model.old params event).number }
    ensures model { model.new ≡ settled (judge_of call limit gain model.old params event).number (judge_of call limit gain model.old params event).next model.old }
    ensures yes { given result false ≡ settled (judge_of call limit gain model.old params event).number (judge_of call limit gain model.old params event).yes false }
{
    match call {
        5 => Ok(judge::maybe_expire_min_rtt(model, params, event)?),
        6 => Ok(judge::is_inflight_too_high(*model, params, event, limit)?),
        7 => Ok(judge::has_bandwidth_growth(model, params, event)?),
        9 => {
            judge::check_persistent_queue(model, params, gain)?;
            Ok(false)
        }
        _ => {
            unknown(*model)?;
            Ok(false)
        }
    }
}
