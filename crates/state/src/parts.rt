// The model's state, by concern.
ghost use Rattle.std.specs.Prelude.{◌≡◌};
ghost use Rattle.state.specs.Parts.{round_ok, latest_ok, lower_ok, gains_ok, growth_ok, rates_ok, totals_ok, round_new, round_sent, lower_capped};

use crate::bounds::{
    UNSET, bandwidth_ok, bytes_ok, bytes_or_unset_ok, gain_ok, maybe_ok, total_ok,
};
use units::Bandwidth;

// bytes_lost_in_round, loss_events_in_round, max_bytes_delivered_in_round,
// min_bytes_in_flight_in_round, inflight_hi_limited_in_round.
#[derive(Clone, Copy)]
pub struct Round {
    pub lost: u64,
    pub losses: u64,
    pub delivered: u64,
    pub mininflight: u64,
    pub hilimited: bool,
}

// bandwidth_latest, inflight_latest.
#[derive(Clone, Copy)]
pub struct Latest {
    pub bandwidth: Bandwidth,
    pub inflight: u64,
}

// bandwidth_lo, inflight_lo.
#[derive(Clone, Copy)]
pub struct Lower {
    pub bandwidth: Option<Bandwidth>,
    pub inflight: u64,
}

// cwnd_gain, pacing_gain.
#[derive(Clone, Copy)]
pub struct Gains {
    pub cwnd: f32,
    pub pacing: f32,
}

// full_bandwidth_reached, full_bandwidth_baseline, rounds_without_bandwidth_growth,
// rounds_with_queueing, ignore_app_limited_for_no_bandwidth_growth.
#[derive(Clone, Copy)]
pub struct Growth {
    pub reached: bool,
    pub baseline: Bandwidth,
    pub flat: u64,
    pub queueing: u64,
    pub ignore: bool,
}

// latest_send_rate, latest_ack_rate.
#[derive(Clone, Copy)]
pub struct Rates {
    pub send: Option<Bandwidth>,
    pub ack: Option<Bandwidth>,
}

// The port's own: the last totals acked and lost.
#[derive(Clone, Copy)]
pub struct Totals {
    pub acked: u64,
    pub lost: u64,
}

impl Round {
    // The sums of a new round.
    pub fn new() -> Round
        ensures { result ≡ round_new }
    {
        Round {
            lost: 0,
            losses: 0,
            delivered: 0,
            mininflight: UNSET,
            hilimited: false,
        }
    }

    // The sums after a send: the bytes in flight before it, and whether it reached inflight_hi.
    #[tactic(auto, unfolding(crate::specs::Parts::round_sent))]
    pub fn sent(self, inflight: u64, hit: bool) -> Round
        ensures { result ≡ round_sent self inflight hit }
    {
        Round {
            mininflight: self.mininflight.min(inflight),
            hilimited: self.hilimited | hit,
            ..self
        }
    }

    // Within the bounds, and no more than the totals.
    #[tactic(auto, unfolding(crate::specs::Parts::round_ok))]
    pub(crate) fn ok(self, totals: Totals) -> bool
        ensures { result ≡ round_ok self totals }
    {
        total_ok(self.lost)
            & total_ok(self.delivered)
            & bytes_or_unset_ok(self.mininflight)
            & (self.lost <= totals.lost)
            & (self.delivered <= totals.acked)
    }
}

impl Latest {
    pub(crate) fn ok(self) -> bool
        ensures { result ≡ latest_ok self }
    {
        bandwidth_ok(self.bandwidth) & bytes_ok(self.inflight)
    }
}

impl Lower {
    // inflight_lo at most the cap; an unset one stays so.
    #[tactic(auto, unfolding(crate::specs::Parts::lower_capped))]
    pub(crate) fn capped(self, cap: u64) -> Lower
        ensures { result ≡ lower_capped self cap }
    {
        if self.inflight == UNSET {
            return self;
        }
        Lower {
            inflight: cap.min(self.inflight),
            ..self
        }
    }

    pub(crate) fn ok(self) -> bool
        ensures { result ≡ lower_ok self }
    {
        maybe_ok(self.bandwidth) & bytes_or_unset_ok(self.inflight)
    }
}

impl Gains {
    pub(crate) fn ok(self) -> bool
        ensures { result ≡ gains_ok self }
    {
        gain_ok(self.cwnd) & gain_ok(self.pacing)
    }
}

impl Growth {
    pub(crate) fn ok(self) -> bool
        ensures { result ≡ growth_ok self }
    {
        bandwidth_ok(self.baseline)
    }
}

impl Rates {
    pub(crate) fn ok(self) -> bool
        ensures { result ≡ rates_ok self }
    {
        maybe_ok(self.send) & maybe_ok(self.ack)
    }
}

impl Totals {
    pub fn ok(self) -> bool
        ensures { result ≡ totals_ok self }
    {
        total_ok(self.acked) & total_ok(self.lost)
    }
}
