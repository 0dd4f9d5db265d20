// A start and an event of a trace, as calls of the model.
ghost use Rattle.std.specs.Prelude.{◌≡◌, true, false};
ghost use Rattle.units.specs.Reply.{number, fault, kept};
ghost use Rattle.state.specs.Answers.{settled};
ghost use Rattle.state.specs.Faults.{first, named, started_faults, whole_record, whole_sample};
ghost use Rattle.trace.specs.Made.{params, begins, no_state, record_of, sample_of, occurs_number, occurs_next, ends_round};

use events::{on_congestion_event_finish, on_congestion_event_start};
use state::congestion_event::{CongestionEvent, CongestionEventSample, SendTimeState};
use state::parts::Totals;
use state::{NetworkModel, Params};
use text::line::Event;
use units::{Bandwidth, Duration, Moment, Refusal};

// The original's own.
pub(crate) fn original_params() -> Params
    ensures { result ≡ params }
{
    Params {
        beta: 0.3,
        loss: 0.015,
        headroom: 0.15,
        growth: 1.25,
        cwnd: 2.0,
        pacing: 2.773,
        rounds: 3,
        queueing: 0,
        period: Duration(10_000_000_000),
        base: Duration(2_000_000_000),
        ignore: true,
    }
}

// Whether a start is accepted.
#[tactic(auto, using(crate::proofs::Occur::is_ok_number), unfolding(crate::specs::Made::begins))]
pub fn is_begun(time: u64, rtt: u64) -> bool
    ensures { result ≡ begins time rtt }
{
    NetworkModel::new(original_params(), Duration(rtt), Moment(time)).is_ok()
}

fn no_state() -> SendTimeState
    ensures { result ≡ no_state }
{
    SendTimeState {
        valid: false,
        applimited: false,
        acked: 0,
        inflight: 0,
    }
}

// The event's record before the call.
#[tactic(auto, unfolding(crate::specs::Made::record_of))]
fn record_of(e: Event) -> CongestionEvent
    ensures { result ≡ record_of e }
{
    let state = no_state();
    CongestionEvent {
        time: Moment(e.time),
        window: e.cwnd,
        prior: e.inflight,
        inflight: 0,
        acked: 0,
        lost: 0,
        ended: false,
        probing: e.probing,
        bandwidth: None,
        rtt: None,
        state,
    }
}

// What the sampler would say.
#[tactic(auto, unfolding(crate::specs::Made::sample_of))]
fn sample_of(e: Event) -> CongestionEventSample
    ensures { result ≡ sample_of e }
{
    let state = no_state();
    CongestionEventSample {
        bandwidth: e.bw.map(Bandwidth),
        send: None,
        ack: None,
        applimited: false,
        rtt: e.rtt.map(Duration),
        inflight: 0,
        extra: 0,
        state,
        totals: Totals {
            acked: e.acked,
            lost: e.lost,
        },
    }
}

// An event and, if it is done, its finish: whether a round ended with it.
#[tactic(auto, using(crate::proofs::Occur::acked_slice, crate::proofs::Occur::occurs_finish, crate::proofs::Occur::settled_done), unfolding(crate::specs::Made::occurs_number, crate::specs::Made::occurs_next, crate::specs::Made::record_after, crate::specs::Made::started_model, crate::specs::Made::ends_round, state::specs::Answers::settled))]
pub(crate) fn occur(model: &mut NetworkModel, e: Event) -> Result<bool, Refusal>
    ensures reply { number result ≡ occurs_number model.old e }
    ensures model { model.new ≡ settled (occurs_number model.old e) (occurs_next model.old e) model.old }
    ensures ended { kept result false ≡ ends_round model.old e }
    ensures fault { fault result ≡ named (occurs_number model.old e)
        (first (started_faults true whole_record (record_of e) whole_sample (sample_of e))) }
{
    let mut event = record_of(e);
    let acked = e.number.as_slice();
    on_congestion_event_start(model, original_params(), &mut event, sample_of(e), acked)?;
    on_congestion_event_finish(model, event)?;
    Ok(event.ended)
}
