// An event's record and what the sampler says to it, with their bounds.
ghost use Rattle.std.specs.Prelude.{◌≡◌};
ghost use Rattle.state.specs.CongestionEvent.{maybe_length_ok, state_ok, event_ok, sample_ok};

use crate::bounds::{bytes_ok, length_ok, maybe_ok, moment_ok, total_ok};
use crate::parts::Totals;
use units::{Bandwidth, Duration, Moment};

// SendTimeState: is_valid, is_app_limited, total_bytes_acked, bytes_in_flight.
#[derive(Clone, Copy)]
pub struct SendTimeState {
    pub valid: bool,
    pub applimited: bool,
    pub acked: u64,
    pub inflight: u64,
}

// BBRv2CongestionEvent: event_time, prior_cwnd, prior_bytes_in_flight, bytes_in_flight, bytes_acked,
// bytes_lost, end_of_round_trip, is_probing_for_bandwidth, sample_max_bandwidth, sample_min_rtt,
// last_packet_send_state.
#[derive(Clone, Copy)]
pub struct CongestionEvent {
    pub time: Moment,
    pub window: u64,
    pub prior: u64,
    pub inflight: u64,
    pub acked: u64,
    pub lost: u64,
    pub ended: bool,
    pub probing: bool,
    pub bandwidth: Option<Bandwidth>,
    pub rtt: Option<Duration>,
    pub state: SendTimeState,
}

// The sampler's answer: sample_max_bandwidth, sample_max_send_rate, sample_max_ack_rate,
// sample_is_app_limited, sample_rtt, sample_max_inflight, extra_acked, last_packet_send_state, and
// the totals after the event.
#[derive(Clone, Copy)]
pub struct CongestionEventSample {
    pub bandwidth: Option<Bandwidth>,
    pub send: Option<Bandwidth>,
    pub ack: Option<Bandwidth>,
    pub applimited: bool,
    pub rtt: Option<Duration>,
    pub inflight: u64,
    pub extra: u64,
    pub state: SendTimeState,
    pub totals: Totals,
}

// A length of time that may be unset.
pub(crate) fn maybe_length_ok(length: Option<Duration>) -> bool
    ensures { result ≡ maybe_length_ok length }
{
    length.is_none_or(|held| length_ok(held))
}

impl SendTimeState {
    pub(crate) fn ok(self) -> bool
        ensures { result ≡ state_ok self }
    {
        total_ok(self.acked) & bytes_ok(self.inflight)
    }
}

impl CongestionEvent {
    // Whether every number is within its bounds.
    #[tactic(auto, unfolding(crate::specs::CongestionEvent::event_tests))]
    pub fn ok(self) -> bool
        ensures { result ≡ event_ok self }
    {
        moment_ok(self.time)
            & bytes_ok(self.window)
            & bytes_ok(self.prior)
            & bytes_ok(self.inflight)
            & total_ok(self.acked)
            & total_ok(self.lost)
            & maybe_ok(self.bandwidth)
            & maybe_length_ok(self.rtt)
            & self.state.ok()
    }
}

impl CongestionEventSample {
    // Whether every number is within its bounds.
    #[tactic(auto, unfolding(crate::specs::CongestionEvent::sample_tests))]
    pub fn ok(self) -> bool
        ensures { result ≡ sample_ok self }
    {
        maybe_ok(self.bandwidth)
            & maybe_ok(self.send)
            & maybe_ok(self.ack)
            & maybe_length_ok(self.rtt)
            & bytes_ok(self.inflight)
            & bytes_ok(self.extra)
            & self.state.ok()
            & self.totals.ok()
    }
}
