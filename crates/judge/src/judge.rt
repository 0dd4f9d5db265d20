// Calls that judge the round, by an event's record or by the parameters.
ghost use Rattle.std.specs.Prelude.{◌≡◌, true, false, ◌+◌, ltb};
ghost use Rattle.units.specs.Reply.{number, fault, kept};
ghost use Rattle.filters.specs.MaxBandwidthFilter.{max_get};
ghost use Rattle.state.specs.Answers.{settled};
ghost use Rattle.state.specs.Faults.{first, named, event_faults, gain_faults, whole_record};
ghost use Rattle.judge.specs.Judge.{judged_number, is_due, is_expired, expire_next, is_too_high, has_grown, counts_flat, growth_full, growth_next, is_queueing, queue_number, queue_next};

use filters::MinRttFilter;
use state::bounds::gain_ok;
use state::congestion_event::{CongestionEvent, SendTimeState};
use state::faults::{RecordFits, gain_fault};
use state::parts::{Growth, Round};
use state::{NetworkModel, Params};
use units::{Bandwidth, Duration, Moment, Refusal};

// ---- maybe_expire_min_rtt

// Whether the minimum round trip has expired; the event's sample then takes its place.
#[tactic(auto, unfolding(crate::specs::Judge::expire_next, state::specs::NetworkModel::with_minrtt, state::specs::Answers::settled))]
pub fn maybe_expire_min_rtt(
    model: &mut NetworkModel,
    params: Params,
    event: CongestionEvent,
) -> Result<bool, Refusal>
    ensures reply { number result ≡ judged_number model.old params event false }
    ensures model { model.new ≡ settled (judged_number model.old params event false)
        (expire_next model.old params event)
        model.old }
    ensures yes { kept result false ≡ settled (judged_number model.old params event false)
        (is_expired event.rtt event.time model.old.minrtt params.period)
        false }
    ensures fault { fault result ≡ named (judged_number model.old params event false)
        (first (event_faults whole_record event)) }
{
    judged(*model, params, event)?;
    let Some(rtt) = event.rtt else {
        return Ok(false);
    };
    let expired = is_due(event.time, model.minrtt, params.period);
    if expired {
        model.minrtt = MinRttFilter::new(rtt, event.time);
    }
    Ok(expired)
}

// Whether the stored minimum is at least a period old.
#[tactic(auto, unfolding(crate::specs::Judge::is_due))]
fn is_due(now: Moment, filter: MinRttFilter, period: Duration) -> bool
    ensures { result ≡ is_due now filter period }
{
    filter.timestamp.plus(period) <= now
}

// ---- is_inflight_too_high

// Whether the round lost more than the threshold allows of what was in flight at the send.
#[tactic(auto, unfolding(state::specs::Answers::settled))]
pub fn is_inflight_too_high(
    model: NetworkModel,
    params: Params,
    event: CongestionEvent,
    limit: u64,
) -> Result<bool, Refusal>
    ensures reply { number result ≡ judged_number model params event false }
    ensures yes { kept result false ≡ settled (judged_number model params event false)
        (is_too_high model.round event.state limit params.loss)
        false }
    ensures fault { fault result ≡ named (judged_number model params event false)
        (first (event_faults whole_record event)) }
{
    judged(model, params, event)?;
    Ok(is_too_high(model.round, event.state, limit, params.loss))
}

#[tactic(auto, unfolding(crate::specs::Judge::is_too_high))]
fn is_too_high(round: Round, state: SendTimeState, limit: u64, threshold: f32) -> bool
    ensures { result ≡ is_too_high round state limit threshold }
{
    state.valid
        & (limit <= round.losses)
        & (0 < state.inflight)
        & (0 < round.lost)
        & (numbers::scale(state.inflight, threshold) < round.lost)
}

// ---- has_bandwidth_growth

// Whether the maximum bandwidth has grown past the threshold since the baseline was set.
#[tactic(auto, using(crate::proofs::Rows::full_last), unfolding(crate::specs::Judge::growth_full, crate::specs::Judge::growth_next, crate::specs::Judge::growth_after, crate::specs::Judge::growth_flat, crate::specs::Judge::flat_after, state::specs::NetworkModel::with_growth, state::specs::Answers::settled, state::specs::Faults::named))]
pub fn has_bandwidth_growth(
    model: &mut NetworkModel,
    params: Params,
    event: CongestionEvent,
) -> Result<bool, Refusal>
    ensures reply { number result ≡ judged_number model.old params event (growth_full model.old params event) }
    ensures model { model.new ≡ settled (judged_number model.old params event (growth_full model.old params event))
        (growth_next model.old params event)
        model.old }
    ensures yes { kept result false
        ≡ settled (judged_number model.old params event (growth_full model.old params event))
        (has_grown model.old.growth (max_get model.old.maxbw) params)
        false }
    ensures fault { fault result ≡ named (judged_number model.old params event (growth_full model.old params event))
        (first (event_faults whole_record event)) }
{
    judged(*model, params, event)?;
    let most = model.maxbw.get();
    if has_grown(model.growth, most, params) {
        model.growth.baseline = most;
        model.growth.flat = 0;
        return Ok(true);
    }
    if counts_flat(model.growth, event.state) {
        model.growth.flat = model
            .growth
            .flat
            .checked_add(1)
            .ok_or(Refusal::FullCounter)?;
    }
    model.growth.reached |= event.state.valid
        & (params.rounds <= model.growth.flat)
        & !event.state.applimited;
    Ok(false)
}

#[tactic(auto, unfolding(crate::specs::Judge::has_grown))]
fn has_grown(growth: Growth, most: Bandwidth, params: Params) -> bool
    ensures { result ≡ has_grown growth most params }
{
    growth.baseline.mul_f32(params.growth) <= most
}

#[tactic(auto, unfolding(crate::specs::Judge::counts_flat))]
fn counts_flat(growth: Growth, state: SendTimeState) -> bool
    ensures { result ≡ counts_flat growth state }
{
    state.valid & !(growth.ignore & state.applimited)
}

// ---- check_persistent_queue

// The round is judged for a queue that does not drain.
#[tactic(auto, unfolding(crate::specs::Judge::queue_number, crate::specs::Judge::queue_next, crate::specs::Judge::queue_after, state::specs::Refusals::row_of, state::specs::NetworkModel::with_growth, state::specs::Answers::settled, state::specs::Faults::named))]
pub fn check_persistent_queue(
    model: &mut NetworkModel,
    params: Params,
    gain: f32,
) -> Result<(), Refusal>
    ensures reply { number result ≡ queue_number model.old params gain }
    ensures model { model.new ≡ settled (queue_number model.old params gain)
        (queue_next model.old params gain)
        model.old }
    ensures fault { fault result ≡ named (queue_number model.old params gain) (first (gain_faults true gain)) }
{
    if !(model.ok() & params.ok()) {
        return Err(Refusal::OutOfBounds);
    }
    if !gain_ok(gain) {
        return Err(Refusal::BadArgument(gain_fault(true, gain)));
    }
    if !is_queueing(*model, gain) {
        model.growth.queueing = 0;
        return Ok(());
    }
    let rounds = model
        .growth
        .queueing
        .checked_add(1)
        .ok_or(Refusal::FullCounter)?;
    model.growth.queueing = rounds;
    model.growth.reached |= params.queueing <= rounds;
    Ok(())
}

// Whether the least in flight of the round is at least the target, the larger of two products.
#[tactic(auto, unfolding(crate::specs::Judge::is_queueing, crate::specs::Judge::queue_target))]
fn is_queueing(model: NetworkModel, gain: f32) -> bool
    ensures { result ≡ is_queueing model gain }
{
    let best = model.maxbw.get();
    let least = model.round.mininflight;
    let target = model.bdp_of(best, gain);
    let plain = model.bdp_of(best, 1.0);
    !(least < target) & !below_sum(least, plain, 2 * NetworkModel::DEFAULT_MSS)
}

// Whether least is below n + more.
fn below_sum(least: u64, n: u64, more: u64) -> bool
    ensures { result ≡ ltb least (n + more) }
{
    least.checked_sub(more).is_none_or(|rest| rest < n)
}

// ---- what the calls share

// Whether the model, the parameters and the event are within their bounds, or the refusal.
#[tactic(auto, unfolding(crate::specs::Judge::judged_number, state::specs::Refusals::row_of, state::specs::Faults::named))]
fn judged(model: NetworkModel, params: Params, event: CongestionEvent) -> Result<(), Refusal>
    ensures reply { number result ≡ judged_number model params event false }
    ensures fault { fault result ≡ named (judged_number model params event false)
        (first (event_faults whole_record event)) }
{
    if !(model.ok() & params.ok()) {
        return Err(Refusal::OutOfBounds);
    }
    if !event.ok() {
        return Err(Refusal::BadArgument(event.fault(1, RecordFits::WHOLE)));
    }
    Ok(())
}
