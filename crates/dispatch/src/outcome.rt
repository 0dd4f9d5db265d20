// One call on a model and a cycle, from its 49 words.
// A call is its number, a word of the C interface (docs/DESIGN-PASS.md).
ghost use Rattle.std.specs.Prelude.{◌≡◌};
ghost use Rattle.units.specs.Reply.{number};
ghost use Rattle.state.specs.Answers.{settled, zero_moment};
ghost use Rattle.state.specs.Refusals.{caused, given};
ghost use Rattle.dispatch.specs.Outcome.{is_judged, is_asked, start_outcome};
ghost use Rattle.dispatch.specs.Inner.{other_outcome};

use arguments::congestion_event::event_from;
use arguments::params::params_from;
use calls::ask::ask;
use calls::change::change;
use calls::enter::enter;
use calls::question::judge;
use state::refusals::Cause;
use state::{Cycle, NetworkModel};
use units::{Duration, Moment, Refusal};
use words::word::float_of;

// All calls but 1, 3 and 4, a send and an event's two, which a run makes for itself. A number that is no call's is
// refused. What is answered is 0 where a call answers nothing.
#[tactic(auto, unfolding(crate::specs::Inner::other_outcome, crate::specs::Outcome::judge_outcome, crate::specs::Outcome::ask_outcome, crate::specs::Outcome::enter_outcome, crate::specs::Outcome::change_outcome, state::specs::Answers::settled))]
pub fn carry_out(model: &mut NetworkModel, cycle: &mut Cycle, n: &[u64; 49]) -> Result<u64, Cause>
    ensures reply { caused result ≡ (other_outcome n.now model.old cycle.old).reply }
    ensures value { given result 0 ≡ (other_outcome n.now model.old cycle.old).value }
    ensures model { model.new ≡ (other_outcome n.now model.old cycle.old).model }
    ensures cycle { cycle.new ≡ (other_outcome n.now model.old cycle.old).cycle }
{
    let call = n[0];
    if call == 0 {
        return started(model, cycle, n);
    }
    if is_judged(call) {
        let gain = float_of(n[1]);
        let yes = judge(model, params_from(n), event_from(n), call, n[1], gain)?;
        return Ok(u64::from(yes));
    }
    if is_asked(call) {
        return ask(*model, params_from(n), call, n[1], float_of(n[2]));
    }
    if 40 <= call {
        enter(model, cycle, params_from(n), call, n[1], n[2], n[3])?;
    } else {
        change(model, call, n[1], float_of(n[1]))?;
    }
    Ok(0)
}

fn is_judged(call: u64) -> bool
    ensures { result ≡ is_judged call }
{
    (5 <= call) & (call <= 7) | (call == 9)
}

fn is_asked(call: u64) -> bool
    ensures { result ≡ is_asked call }
{
    (10 <= call) & (call <= 13) | (23 <= call) & (call <= 38)
}

// Call 0. A start that is refused leaves a fresh model and a fresh cycle, too.
#[tactic(auto, unfolding(crate::specs::Outcome::start_outcome, state::specs::NetworkModel::start_model, state::specs::Cycle::fresh_cycle, state::specs::Cycle::fresh_number, state::specs::Answers::settled))]
fn started(model: &mut NetworkModel, cycle: &mut Cycle, n: &[u64; 49]) -> Result<u64, Cause>
    ensures reply { caused result ≡ (start_outcome n.now).reply }
    ensures value { given result 0 ≡ (start_outcome n.now).value }
    ensures model { model.new ≡ (start_outcome n.now).model }
    ensures cycle { cycle.new ≡ (start_outcome n.now).cycle }
{
    let now = Moment(n[1]);
    let reply = model.begin(params_from(n), Duration(n[2]), now);
    let _ = cycle.begin(moment_of(reply, now));
    reply?;
    Ok(0)
}

// The moment of a start, 0 where it is refused.
#[tactic(auto, unfolding(state::specs::Answers::settled))]
fn moment_of(reply: Result<(), Refusal>, now: Moment) -> Moment
    ensures { result ≡ settled (number reply) now zero_moment }
{
    if reply.is_ok() { now } else { Moment(0) }
}
