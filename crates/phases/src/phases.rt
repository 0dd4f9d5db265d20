// The calls on model and cycle side by side: the phase entries, the exit from Down, the slope.
// Most calls take the model alone, so model and cycle stay two parameters; the theorems pair them.
ghost use Rattle.std.specs.Prelude.{◌≡◌, true};
ghost use Rattle.units.specs.Reply.{number, fault};
ghost use Rattle.state.specs.Answers.{settled};
ghost use Rattle.state.specs.Bounds.{length_ok};
ghost use Rattle.state.specs.Faults.{first, named, down_faults, now_faults, refill_faults, up_faults, slope_faults};
ghost use Rattle.phases.specs.Phases.{entry_number, exit_number, exit_model, exit_cycle, left_model, left_cycle, slope_number, slope_cycle, restarted_at, down_number, down_cycle, cycle_in, cruise_number, cruise_model, cruise_cycle, refill_number, refill_model, refill_cycle, up_number, up_cycle};

use crate::slope::slope_raised;
use state::bounds::{bytes_ok, moment_ok};
use state::cycle::{Last, Slope, Stay, Wait};
use state::faults::{down_fault, now_fault, refill_fault, slope_fault, up_fault};
use state::refusals::{Rows, refusal};
use state::{Cycle, CyclePhase, NetworkModel, Params};
use units::{Duration, Moment, Refusal};

// ---- what the calls share

// Whether an entry is refused: by whether parameters and arguments are within their bounds, by the moment, and with the
// fault that an argument would have.
#[tactic(auto, unfolding(crate::specs::Phases::entry_number))]
fn entry(
    model: NetworkModel,
    cycle: Cycle,
    params: bool,
    argument: bool,
    now: Moment,
    blamed: u32,
) -> Result<(), Refusal>
    ensures reply { number result ≡ entry_number model cycle params argument now }
    ensures fault { fault result ≡ named (entry_number model cycle params argument now) blamed }
{
    let rows = Rows {
        stored: !(model.ok() & cycle.ok() & params),
        argument: !(moment_ok(now) & argument),
        earlier: now < model.moment,
        ..Rows::NONE
    };
    refusal(rows, blamed)
}

// The model whose round begins anew, at the moment accepted.
#[tactic(auto, unfolding(crate::specs::Phases::restarted_at, state::specs::NetworkModel::with_moment))]
fn restarted_at(model: NetworkModel, now: Moment) -> NetworkModel
    ensures { result ≡ restarted_at model now }
{
    NetworkModel {
        moment: now,
        ..model.restart_next()
    }
}

// The cycle in a phase that begins now.
#[tactic(auto, unfolding(crate::specs::Phases::cycle_in))]
fn cycle_in(cycle: Cycle, phase: CyclePhase, now: Moment, probing: bool) -> Cycle
    ensures { result ≡ cycle_in cycle phase now probing }
{
    Cycle {
        stay: Stay::from(phase, now),
        probing,
        ..cycle
    }
}

// ---- exit_probe_down

// The max filter advances once in a cycle.
#[tactic(auto, unfolding(crate::specs::Phases::exit_number, state::specs::Refusals::row_of, state::specs::Answers::settled))]
pub fn exit_probe_down(model: &mut NetworkModel, cycle: &mut Cycle) -> Result<(), Refusal>
    ensures reply { number result ≡ exit_number model.old cycle.old }
    ensures model { model.new ≡ settled (exit_number model.old cycle.old)
        (exit_model model.old cycle.old)
        model.old }
    ensures cycle { cycle.new ≡ settled (exit_number model.old cycle.old) (exit_cycle cycle.old) cycle.old }
{
    if !(model.ok() & cycle.ok()) {
        return Err(Refusal::OutOfBounds);
    }
    advance_once(model, cycle);
    Ok(())
}

#[tactic(auto, unfolding(crate::specs::Phases::exit_model, crate::specs::Phases::exit_cycle))]
fn advance_once(model: &mut NetworkModel, cycle: &mut Cycle)
    ensures model { model.new ≡ exit_model model.old cycle.old }
    ensures cycle { cycle.new ≡ exit_cycle cycle.old }
{
    if !cycle.advanced {
        *model = model.advance_next();
        cycle.advanced = true;
    }
}

// Model and cycle out of Down.
#[tactic(auto, unfolding(crate::specs::Phases::left_model, crate::specs::Phases::left_cycle))]
fn leave_down(model: &mut NetworkModel, cycle: &mut Cycle)
    ensures model { model.new ≡ left_model model.old cycle.old }
    ensures cycle { cycle.new ≡ left_cycle cycle.old }
{
    if cycle.stay.phase == CyclePhase::Down {
        advance_once(model, cycle);
    }
}

// ---- raise_inflight_high_slope

// probe_up_bytes for the next round, by the window.
#[tactic(auto, unfolding(crate::specs::Phases::slope_number, crate::specs::Phases::slope_cycle, state::specs::Refusals::row_of, state::specs::Answers::settled, state::specs::Faults::named))]
pub fn raise_inflight_high_slope(cycle: &mut Cycle, window: u64) -> Result<(), Refusal>
    ensures reply { number result ≡ slope_number cycle.old window }
    ensures cycle { cycle.new ≡ settled (slope_number cycle.old window) (slope_cycle cycle.old window) cycle.old }
    ensures fault { fault result ≡ named (slope_number cycle.old window) (first (slope_faults window)) }
{
    if !cycle.ok() {
        return Err(Refusal::OutOfBounds);
    }
    if !bytes_ok(window) {
        return Err(Refusal::BadArgument(slope_fault(window)));
    }
    cycle.slope = slope_raised(cycle.slope, window);
    Ok(())
}

// ---- enter_probe_down

// A new cycle begins: the queue drains.
#[tactic(auto, using(crate::proofs::Accepted::down_base), unfolding(state::specs::Answers::settled))]
pub fn enter_probe_down(
    model: &mut NetworkModel,
    cycle: &mut Cycle,
    params: Params,
    high: bool,
    risky: bool,
    now: Moment,
) -> Result<(), Refusal>
    ensures reply { number result ≡ down_number model.old cycle.old params now }
    ensures model { model.new ≡ settled (down_number model.old cycle.old params now)
        (restarted_at model.old now)
        model.old }
    ensures cycle { cycle.new ≡ settled (down_number model.old cycle.old params now)
        (down_cycle cycle.old params high risky now)
        cycle.old }
    ensures fault { fault result ≡ named (down_number model.old cycle.old params now)
        (first (down_faults true true now)) }
{
    entry(
        *model,
        *cycle,
        params.ok(),
        true,
        now,
        down_fault(true, true, now),
    )?;
    *model = restarted_at(*model, now);
    *cycle = down_cycle(*cycle, params, high, risky, now);
    Ok(())
}

#[tactic(auto, unfolding(crate::specs::Phases::down_cycle))]
fn down_cycle(cycle: Cycle, params: Params, high: bool, risky: bool, now: Moment) -> Cycle
    requires { length_ok params.base ≡ true }
    ensures { result ≡ down_cycle cycle params high risky now }
{
    Cycle {
        stay: Stay::from(CyclePhase::Down, now),
        wait: Wait {
            start: now,
            rounds: 0,
            length: Some(Duration(params.base.0 + Cycle::EXTRA_WAIT.0)),
        },
        slope: Slope {
            bytes: None,
            applimited: false,
            ..cycle.slope
        },
        advanced: false,
        last: Last { high, risky },
        ..cycle
    }
}

// ---- enter_probe_cruise

// The bandwidth found is used, within inflight_hi.
#[tactic(auto, unfolding(crate::specs::Phases::cruise_model, crate::specs::Phases::cruise_cycle, state::specs::NetworkModel::with_moment, state::specs::Answers::settled))]
pub fn enter_probe_cruise(
    model: &mut NetworkModel,
    cycle: &mut Cycle,
    now: Moment,
) -> Result<(), Refusal>
    ensures reply { number result ≡ cruise_number model.old cycle.old now }
    ensures model { model.new ≡ settled (cruise_number model.old cycle.old now)
        (cruise_model model.old cycle.old now)
        model.old }
    ensures cycle { cycle.new ≡ settled (cruise_number model.old cycle.old now) (cruise_cycle cycle.old now) cycle.old }
    ensures fault { fault result ≡ named (cruise_number model.old cycle.old now) (first (now_faults now)) }
{
    entry(*model, *cycle, true, true, now, now_fault(now))?;
    leave_down(model, cycle);
    *model = model.cap_next(model.high);
    model.moment = now;
    *cycle = cycle_in(*cycle, CyclePhase::Cruise, now, false);
    Ok(())
}

// ---- enter_probe_refill

// The lower bounds go, so that the pipe fills before the next probe.
#[tactic(auto, unfolding(crate::specs::Phases::refill_model, crate::specs::Phases::refill_cycle, crate::specs::Phases::refilled, state::specs::Answers::settled))]
pub fn enter_probe_refill(
    model: &mut NetworkModel,
    cycle: &mut Cycle,
    rounds: u64,
    now: Moment,
) -> Result<(), Refusal>
    ensures reply { number result ≡ refill_number model.old cycle.old rounds now }
    ensures model { model.new ≡ settled (refill_number model.old cycle.old rounds now)
        (refill_model model.old cycle.old now)
        model.old }
    ensures cycle { cycle.new ≡ settled (refill_number model.old cycle.old rounds now)
        (refill_cycle cycle.old rounds now)
        cycle.old }
    ensures fault { fault result ≡ named (refill_number model.old cycle.old rounds now)
        (first (refill_faults rounds now)) }
{
    let given = rounds <= Cycle::MOST_ROUNDS;
    entry(*model, *cycle, true, given, now, refill_fault(rounds, now))?;
    leave_down(model, cycle);
    *model = restarted_at(model.clear_bandwidth_next().clear_inflight_next(), now);
    *cycle = cycle_in(*cycle, CyclePhase::Refill, now, false);
    cycle.slope.rounds = rounds;
    cycle.slope.acked = 0;
    cycle.last.risky = false;
    Ok(())
}

// ---- enter_probe_up

// More bandwidth is probed for.
#[tactic(auto, unfolding(crate::specs::Phases::up_cycle, crate::specs::Phases::slope_cycle, state::specs::Answers::settled))]
pub fn enter_probe_up(
    model: &mut NetworkModel,
    cycle: &mut Cycle,
    now: Moment,
    window: u64,
) -> Result<(), Refusal>
    ensures reply { number result ≡ up_number model.old cycle.old now window }
    ensures model { model.new ≡ settled (up_number model.old cycle.old now window)
        (restarted_at model.old now)
        model.old }
    ensures cycle { cycle.new ≡ settled (up_number model.old cycle.old now window)
        (up_cycle cycle.old now window)
        cycle.old }
    ensures fault { fault result ≡ named (up_number model.old cycle.old now window) (first (up_faults now window)) }
{
    entry(
        *model,
        *cycle,
        true,
        bytes_ok(window),
        now,
        up_fault(now, window),
    )?;
    *model = restarted_at(*model, now);
    *cycle = cycle_in(*cycle, CyclePhase::Up, now, true);
    cycle.slope = slope_raised(cycle.slope, window);
    Ok(())
}
