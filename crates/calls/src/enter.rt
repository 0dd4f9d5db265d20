// The calls on model and cycle.
// A call is its number, a word of the C interface, and is matched once (docs/DESIGN-PASS.md).
ghost use Rattle.std.specs.Prelude.{◌≡◌};
ghost use Rattle.state.specs.Refusals.{caused};
ghost use Rattle.state.specs.Answers.{settled};
ghost use Rattle.calls.specs.Enter.{down_at, enter_of};

use crate::unknown::unknown;
use phases::phases::{
    enter_probe_cruise, enter_probe_down, enter_probe_refill, enter_probe_up, exit_probe_down,
    raise_inflight_high_slope,
};
use state::refusals::Cause;
use state::{Cycle, NetworkModel, Params};
use units::Moment;
use words::word::{flag_fits, or_outside};

// Calls 40 to 45, with the numbers that they are given. Any other number is refused.
#[tactic(auto, unfolding(crate::specs::Enter::enter_of, state::specs::Answers::settled))]
pub fn enter(
    model: &mut NetworkModel,
    cycle: &mut Cycle,
    params: Params,
    call: u64,
    a: u64,
    b: u64,
    c: u64,
) -> Result<(), Cause>
    ensures reply { caused result ≡ (enter_of call a b c model.old cycle.old params).number }
    ensures model { model.new ≡ settled (enter_of call a b c model.old cycle.old params).number (enter_of call a b c model.old cycle.old params).model model.old }
    ensures cycle { cycle.new ≡ settled (enter_of call a b c model.old cycle.old params).number (enter_of call a b c model.old cycle.old params).cycle cycle.old }
{
    match call {
        40 => enter_probe_down(model, cycle, params, a == 1, b == 1, down_at(a, b, c))?,
        41 => enter_probe_cruise(model, cycle, Moment(a))?,
        42 => enter_probe_refill(model, cycle, a, Moment(b))?,
        43 => enter_probe_up(model, cycle, Moment(a), b)?,
        44 => exit_probe_down(model, cycle)?,
        45 => raise_inflight_high_slope(cycle, a)?,
        _ => unknown(*model)?,
    }
    Ok(())
}

// The moment that is given with two flags, out of bounds where these are no writer's.
fn down_at(a: u64, b: u64, c: u64) -> Moment
    ensures { result ≡ down_at a b c }
{
    Moment(or_outside(flag_fits(a) & flag_fits(b), c))
}
