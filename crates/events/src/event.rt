// One event: its start, by steps in document 01's order, and its finish.
ghost use Rattle.std.specs.Prelude.{◌≡◌, true, false, ◌+◌, ◌-◌, ◌^◌, ◌<◌, ltb, eqb};
ghost use Rattle.units.specs.Reply.{number, fault};
ghost use Rattle.filters.specs.RoundTripCounter.{listed};
ghost use Rattle.state.specs.Answers.{settled};
ghost use Rattle.state.specs.Faults.{first, named, started_faults, event_faults, whole_record, whole_sample};
ghost use Rattle.state.specs.NetworkModel.{model_ok};
ghost use Rattle.state.specs.Refusals.{caused};
ghost use Rattle.events.specs.Event.{cwndlimited_after, state_after, is_changed, maxbw_after, bandwidth_after, minrtt_after, delivered_by, round_after, latest_raised, seed_of, start_of, newest_of, latest_after, event_after, event_next, maxbw_next, round_next, adapt_lower_bounds, model_after, model_next, is_lower, is_unsent, is_full, event_rows, event_number, finish_number, finish_next};

use filters::round_trip_counter::greatest_of;
use filters::{MaxBandwidthFilter, MinRttFilter, RoundTripCounter};
use state::bounds::UNSET;
use state::congestion_event::{CongestionEvent, CongestionEventSample, SendTimeState};
use state::faults::{RecordFits, SampleFits, started_fault};
use state::parts::{Latest, Lower, Rates, Round};
use state::refusals::{Cause, Rows};
use state::{NetworkModel, Params};
use units::{Bandwidth, Duration, Moment, Refusal};

// ---- the start: the table is asked, the round is counted, the record and the model are put anew

// An event: packets acked, the record as far as it is known, and what the sampler says.
#[tactic(auto, using(crate::proofs::OnlyGreatest::number_of, crate::proofs::OnlyGreatest::model_of, crate::proofs::OnlyGreatest::event_of), unfolding(state::specs::Faults::named))]
pub fn on_congestion_event_start(
    model: &mut NetworkModel,
    params: Params,
    event: &mut CongestionEvent,
    sample: CongestionEventSample,
    acked: &[u64],
) -> Result<(), Refusal>
    ensures reply { number result ≡ event_number model.old params event.old sample acked.now }
    ensures model { model.new ≡ settled (event_number model.old params event.old sample acked.now)
        (model_next model.old params event.old sample acked.now)
        model.old }
    ensures event { event.new ≡ settled (event_number model.old params event.old sample acked.now)
        (event_next model.old event.old sample acked.now)
        event.old }
    ensures fault { fault result ≡ named (event_number model.old params event.old sample acked.now)
        (first (started_faults true whole_record event.old whole_sample sample)) }
{
    let fine = model.ok();
    let told = *event;
    let tested = start_tested(model, fine, params, event, sample, greatest_of(acked));
    tested.map_err(|cause| {
        cause.named(started_fault(true, RecordFits::WHOLE, told, SampleFits::WHOLE, sample))
    })
}

// The same for a run, where it is known whether the model is within its bounds, and which of the acked numbers is the
// greatest. It says the row alone; the run finds the fault.
// `fine` is no invariant of a type: see `sent_tested` (changes).
#[tactic(auto, unfolding(crate::specs::Event::event_number, crate::specs::Event::event_next, crate::specs::Event::model_next, state::specs::Answers::settled))]
pub fn start_tested(
    model: &mut NetworkModel,
    fine: bool,
    params: Params,
    event: &mut CongestionEvent,
    sample: CongestionEventSample,
    most: Option<u64>,
) -> Result<(), Cause>
    requires { fine ≡ model_ok model.old }
    ensures row { caused result ≡ event_number model.old params event.old sample (listed most) }
    ensures model { model.new ≡ settled (event_number model.old params event.old sample (listed most))
        (model_next model.old params event.old sample (listed most))
        model.old }
    ensures event { event.new ≡ settled (event_number model.old params event.old sample (listed most))
        (event_next model.old event.old sample (listed most))
        event.old }
{
    event_rows(*model, fine, params, *event, sample, most).first()?;
    let mut rounds = model.rounds;
    let ended = rounds.on_greatest_acked(most).unwrap_or(false);
    *event = event_after(*model, *event, sample, ended);
    *model = model_after(*model, params, *event, sample, rounds);
    Ok(())
}

// ---- check

fn event_rows(
    model: NetworkModel,
    fine: bool,
    params: Params,
    event: CongestionEvent,
    sample: CongestionEventSample,
    most: Option<u64>,
) -> Rows
    requires { fine ≡ model_ok model }
    ensures { result ≡ event_rows model params event sample (listed most) }
{
    Rows {
        stored: !(fine & params.ok()),
        argument: !(event.ok() & sample.ok()),
        earlier: event.time < model.moment,
        lower: is_lower(model, sample),
        unsent: is_unsent(model, most),
        full: is_full(model, sample, most),
    }
}

fn is_lower(model: NetworkModel, sample: CongestionEventSample) -> bool
    ensures { result ≡ is_lower model sample }
{
    (sample.totals.acked < model.totals.acked) | (sample.totals.lost < model.totals.lost)
}

// Whether an acked number was never sent: one above the last sent, or any before the first send.
#[tactic(auto, unfolding(crate::specs::Event::is_unsent))]
fn is_unsent(model: NetworkModel, most: Option<u64>) -> bool
    ensures { result ≡ is_unsent model (listed most) }
{
    most.is_some_and(|number| !model.begun | (model.rounds.sent < number))
}

// Whether the event would raise a counter that is full.
#[tactic(auto, unfolding(crate::specs::Event::is_full, filters::specs::RoundTripCounter::rounds_number))]
fn is_full(model: NetworkModel, sample: CongestionEventSample, most: Option<u64>) -> bool
    ensures { result ≡ is_full model sample (listed most) }
{
    let mut rounds = model.rounds;
    let ended = rounds.on_greatest_acked(most);
    let lost = sample.totals.lost.saturating_sub(model.totals.lost);
    ended.is_err() | ((0 < lost) & (model.round.losses == u64::MAX))
}

// ---- the record after the event, and from it the model, by parts

// The record after the event.
#[tactic(auto, unfolding(crate::specs::Event::event_after))]
fn event_after(
    model: NetworkModel,
    event: CongestionEvent,
    sample: CongestionEventSample,
    ended: bool,
) -> CongestionEvent
    ensures { result ≡ event_after model event sample ended }
{
    let acked = sample.totals.acked.saturating_sub(model.totals.acked);
    let lost = sample.totals.lost.saturating_sub(model.totals.lost);
    CongestionEvent {
        inflight: event.prior.saturating_sub(acked).saturating_sub(lost),
        acked,
        lost,
        ended,
        bandwidth: bandwidth_after(event.bandwidth, sample.bandwidth, is_changed(model, sample)),
        rtt: sample.rtt.or(event.rtt),
        state: state_after(event.state, sample.state),
        ..event
    }
}

// The model after the event.
#[tactic(auto, unfolding(crate::specs::Event::model_after))]
fn model_after(
    model: NetworkModel,
    params: Params,
    after: CongestionEvent,
    sample: CongestionEventSample,
    counter: RoundTripCounter,
) -> NetworkModel
    requires { (model.round.lost + after.lost < 2 ^ 64)
        × (ltb 0 after.lost ≡ true → eqb model.round.losses (2 ^ 64 - 1) ≡ false) }
    ensures { result ≡ model_after model params after sample counter }
{
    let most = maxbw_next(model, sample);
    let round = round_next(model, after, sample);
    NetworkModel {
        rounds: counter,
        maxbw: most,
        minrtt: minrtt_after(model.minrtt, sample.rtt, after.time),
        round,
        latest: latest_after(latest_raised(model.latest, sample), after.ended, sample),
        lower: adapt_lower_bounds(model, params, after, sample, most, round.lost),
        cwndlimited: cwndlimited_after(model.cwndlimited, sample.extra, after.prior, after.window),
        rates: Rates {
            send: sample.send,
            ack: sample.ack,
        },
        totals: sample.totals,
        moment: after.time,
        ..model
    }
}

// ---- the sample: the maximum and the round's sums

#[tactic(auto, unfolding(crate::specs::Event::maxbw_next))]
fn maxbw_next(model: NetworkModel, sample: CongestionEventSample) -> MaxBandwidthFilter
    ensures { result ≡ maxbw_next model sample }
{
    maxbw_after(
        model.maxbw,
        sample.bandwidth,
        is_changed(model, sample),
        sample.applimited,
    )
}

#[tactic(auto, unfolding(crate::specs::Event::round_next))]
fn round_next(model: NetworkModel, after: CongestionEvent, sample: CongestionEventSample) -> Round
    requires { (model.round.lost + after.lost < 2 ^ 64)
        × (ltb 0 after.lost ≡ true → eqb model.round.losses (2 ^ 64 - 1) ≡ false) }
    ensures { result ≡ round_next model after sample }
{
    round_after(
        model.round,
        after.lost,
        delivered_by(after.state, after.acked, sample.totals.acked),
        after.inflight,
    )
}

// ---- the lower bounds

// Both are cut by 1 - beta at the end of a round with a loss, when not probing, but not below the latest.
#[tactic(auto, unfolding(crate::specs::Event::adapt_lower_bounds, crate::specs::Event::lower_after, crate::specs::Event::lower_reduced))]
fn adapt_lower_bounds(
    model: NetworkModel,
    params: Params,
    after: CongestionEvent,
    sample: CongestionEventSample,
    most: MaxBandwidthFilter,
    lost: u64,
) -> Lower
    ensures { result ≡ adapt_lower_bounds model params after sample most lost }
{
    let lower = model.lower;
    if after.ended & !after.probing & (0 < lost) {
        let b = 1.0 - params.beta;
        let latest = latest_raised(model.latest, sample);
        let seed = seed_of(lower.bandwidth, most.get());
        let start = start_of(lower.inflight, after.window);
        return Lower {
            bandwidth: Some(latest.bandwidth.max(seed.mul_f32(b))),
            inflight: latest.inflight.max(numbers::scale(start, b)),
        };
    }
    lower
}

// ---- what the steps are made of, in the same order

#[tactic(auto, unfolding(crate::specs::Event::cwndlimited_after))]
fn cwndlimited_after(was: bool, extra: u64, prior: u64, window: u64) -> bool
    ensures { result ≡ cwndlimited_after was extra prior window }
{
    if extra == 0 { window <= prior } else { was }
}

fn is_changed(model: NetworkModel, sample: CongestionEventSample) -> bool
    ensures { result ≡ is_changed model sample }
{
    model.totals.acked != sample.totals.acked
}

fn bandwidth_after(
    was: Option<Bandwidth>,
    sample: Option<Bandwidth>,
    changed: bool,
) -> Option<Bandwidth>
    ensures { result ≡ bandwidth_after was sample changed }
{
    if changed { sample.or(was) } else { was }
}

#[tactic(auto, unfolding(crate::specs::Event::state_after))]
fn state_after(was: SendTimeState, new: SendTimeState) -> SendTimeState
    ensures { result ≡ state_after was new }
{
    if new.valid { new } else { was }
}

fn maxbw_after(
    filter: MaxBandwidthFilter,
    sample: Option<Bandwidth>,
    changed: bool,
    limited: bool,
) -> MaxBandwidthFilter
    ensures { result ≡ maxbw_after filter sample changed limited }
{
    match sample {
        Some(bandwidth) if changed & (!limited | (filter.get() < bandwidth)) => {
            filter.update(bandwidth)
        }
        _ => filter,
    }
}

fn minrtt_after(filter: MinRttFilter, sample: Option<Duration>, now: Moment) -> MinRttFilter
    ensures { result ≡ minrtt_after filter sample now }
{
    sample.map_or(filter, |rtt| filter.update(rtt, now))
}

// What the event delivered since the packet was sent, or 0 where that is not known.
#[tactic(auto, unfolding(crate::specs::Event::delivered_by))]
fn delivered_by(state: SendTimeState, acked: u64, total: u64) -> u64
    ensures { result ≡ delivered_by state acked total }
{
    if (0 < acked) & state.valid {
        total.saturating_sub(state.acked)
    } else {
        0
    }
}

// The round's sums after an event that lost so many bytes and left so many in flight.
#[tactic(auto, unfolding(crate::specs::Event::round_after))]
fn round_after(mut round: Round, lost: u64, delivered: u64, inflight: u64) -> Round
    requires { (round.lost + lost < 2 ^ 64) × (ltb 0 lost ≡ true → eqb round.losses (2 ^ 64 - 1) ≡ false) }
    ensures { result ≡ round_after round lost delivered inflight }
{
    round.delivered = round.delivered.max(delivered);
    round.mininflight = round.mininflight.min(inflight);
    if 0 < lost {
        round.lost += lost;
        round.losses += 1;
    }
    round
}

#[tactic(auto, unfolding(crate::specs::Event::latest_raised))]
fn latest_raised(latest: Latest, sample: CongestionEventSample) -> Latest
    ensures { result ≡ latest_raised latest sample }
{
    Latest {
        bandwidth: sample
            .bandwidth
            .map_or(latest.bandwidth, |seen| latest.bandwidth.max(seen)),
        inflight: latest.inflight.max(sample.inflight),
    }
}

// bandwidth_lo, or the maximum where it is unset.
fn seed_of(lo: Option<Bandwidth>, most: Bandwidth) -> Bandwidth
    ensures { result ≡ seed_of lo most }
{
    let Some(bandwidth) = lo else {
        return most;
    };
    bandwidth
}

// inflight_lo, or the window where it is unset.
fn start_of(lo: u64, window: u64) -> u64
    ensures { result ≡ start_of lo window }
{
    if lo == UNSET { window } else { lo }
}

#[tactic(auto, unfolding(crate::specs::Event::latest_after))]
fn latest_after(latest: Latest, ended: bool, sample: CongestionEventSample) -> Latest
    ensures { result ≡ latest_after latest ended sample }
{
    if ended {
        Latest {
            bandwidth: sample.bandwidth.unwrap_or(latest.bandwidth),
            inflight: newest_of(latest.inflight, sample.inflight),
        }
    } else {
        latest
    }
}

// The sample, if it is above 0.
fn newest_of(was: u64, sample: u64) -> u64
    ensures { result ≡ newest_of was sample }
{
    if 0 < sample { sample } else { was }
}

// ---- the finish

// The event is over: the round's sums begin anew if it ended the round.
#[tactic(auto, unfolding(state::specs::Faults::named))]
pub fn on_congestion_event_finish(
    model: &mut NetworkModel,
    event: CongestionEvent,
) -> Result<(), Refusal>
    ensures reply { number result ≡ finish_number model.old event }
    ensures model { model.new ≡ settled (finish_number model.old event) (finish_next model.old event) model.old }
    ensures fault { fault result ≡ named (finish_number model.old event)
        (first (event_faults whole_record event)) }
{
    let fine = model.ok();
    let tested = finish_tested(model, fine, event);
    tested.map_err(|cause| cause.named(event.fault(1, RecordFits::WHOLE)))
}

// The same for a run, where it is known whether the model is within its bounds.
// `fine` is no invariant of a type: see `sent_tested` (changes).
#[tactic(auto, unfolding(crate::specs::Event::finish_number, crate::specs::Event::finish_next, state::specs::Answers::settled, state::specs::NetworkModel::with_round))]
pub fn finish_tested(
    model: &mut NetworkModel,
    fine: bool,
    event: CongestionEvent,
) -> Result<(), Cause>
    requires { fine ≡ model_ok model.old }
    ensures row { caused result ≡ finish_number model.old event }
    ensures model { model.new ≡ settled (finish_number model.old event) (finish_next model.old event) model.old }
{
    let rows = Rows {
        stored: !fine,
        argument: !event.ok(),
        ..Rows::NONE
    };
    rows.first()?;
    if event.ended {
        model.round = Round::new();
    }
    Ok(())
}
