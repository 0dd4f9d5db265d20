// The network model: its state, what a fresh one is, and what several calls do to it.
ghost use Rattle.std.specs.Prelude.{◌≡◌, false};
ghost use Rattle.units.specs.Reply.{number, fault, kept};
ghost use Rattle.state.specs.Faults.{first, named, start_faults};
ghost use Rattle.state.specs.Answers.{zero_length, zero_moment};
ghost use Rattle.state.specs.NetworkModel.{maxbw_ok, minrtt_ok, model_ok, model_new, start_number, start_model, stored_number, given_number, restart_next, cap_next, clear_inflight_next, clear_bandwidth_next, advance_next, one, bdp_of, headroom_number};

use crate::Params;
use crate::bounds::{UNSET, bandwidth_ok, bytes_or_unset_ok, length_ok, moment_ok};
use crate::faults::start_fault;
use crate::parts::{Gains, Growth, Latest, Lower, Rates, Round, Totals};
use crate::refusals::{Rows, refusal};
use filters::{MaxBandwidthFilter, MinRttFilter, RoundTripCounter};
use units::{Bandwidth, Duration, Moment, Refusal};

#[derive(Clone, Copy)]
pub struct NetworkModel {
    pub rounds: RoundTripCounter,
    pub maxbw: MaxBandwidthFilter,
    pub minrtt: MinRttFilter,
    pub round: Round,
    pub latest: Latest,
    pub lower: Lower,
    // inflight_hi.
    pub high: u64,
    pub gains: Gains,
    // cwnd_limited_before_aggregation_epoch.
    pub cwndlimited: bool,
    pub growth: Growth,
    pub rates: Rates,
    pub totals: Totals,
    // The port's own: the last accepted moment.
    pub moment: Moment,
    // The port's own: whether a packet was sent since the start.
    pub begun: bool,
}

fn maxbw_ok(f: MaxBandwidthFilter) -> bool
    ensures { result ≡ maxbw_ok f }
{
    bandwidth_ok(f.slot0) & bandwidth_ok(f.slot1)
}

fn minrtt_ok(f: MinRttFilter) -> bool
    ensures { result ≡ minrtt_ok f }
{
    length_ok(f.rtt) & moment_ok(f.timestamp)
}

impl NetworkModel {
    pub const DEFAULT_MSS: u64 = 1300;

    // Whether every stored number is within its bounds.
    #[tactic(auto, unfolding(crate::specs::NetworkModel::model_tests))]
    pub fn ok(self) -> bool
        ensures { result ≡ model_ok self }
    {
        maxbw_ok(self.maxbw)
            & minrtt_ok(self.minrtt)
            & self.round.ok(self.totals)
            & self.latest.ok()
            & self.lower.ok()
            & bytes_or_unset_ok(self.high)
            & self.gains.ok()
            & self.growth.ok()
            & self.rates.ok()
            & self.totals.ok()
            & moment_ok(self.moment)
    }

    // A fresh model.
    #[tactic(auto, unfolding(crate::specs::NetworkModel::model_new, crate::specs::NetworkModel::with_maxbw, crate::specs::NetworkModel::with_minrtt, crate::specs::NetworkModel::with_round, crate::specs::NetworkModel::with_rounds))]
    fn fresh(cwnd: f32, pacing: f32, ignore: bool, rtt: Duration, now: Moment) -> NetworkModel
        ensures { result ≡ model_new cwnd pacing ignore rtt now }
    {
        NetworkModel {
            rounds: RoundTripCounter::new(),
            maxbw: MaxBandwidthFilter::new(),
            minrtt: MinRttFilter::new(rtt, now),
            round: Round::new(),
            latest: Latest {
                bandwidth: Bandwidth::ZERO,
                inflight: 0,
            },
            lower: Lower {
                bandwidth: None,
                inflight: UNSET,
            },
            high: UNSET,
            gains: Gains { cwnd, pacing },
            cwndlimited: false,
            growth: Growth {
                reached: false,
                baseline: Bandwidth::ZERO,
                flat: 0,
                queueing: 0,
                ignore,
            },
            rates: Rates {
                send: None,
                ack: None,
            },
            totals: Totals { acked: 0, lost: 0 },
            moment: now,
            begun: false,
        }
    }

    // A model at its start, with the first round trip and moment.
    #[tactic(auto, unfolding(crate::specs::NetworkModel::start_number, crate::specs::NetworkModel::start_model, crate::specs::Answers::settled))]
    pub fn new(params: Params, rtt: Duration, now: Moment) -> Result<NetworkModel, Refusal>
        ensures reply { number result ≡ start_number params rtt now }
        ensures model { kept result (model_new one one false zero_length zero_moment) ≡ start_model params rtt now }
        ensures fault { fault result ≡ named (start_number params rtt now) (first (start_faults rtt now)) }
    {
        let rows = Rows {
            stored: !params.ok(),
            argument: !(length_ok(rtt) & moment_ok(now)),
            ..Rows::NONE
        };
        refusal(rows, start_fault(rtt, now))?;
        Ok(NetworkModel::fresh(params.cwnd, params.pacing, params.ignore, rtt, now))
    }

    // The same of a model that is lent. Refused, it is left as document 01's fresh model.
    pub fn begin(&mut self, params: Params, rtt: Duration, now: Moment) -> Result<(), Refusal>
        ensures reply { number result ≡ start_number params rtt now }
        ensures model { self.new ≡ start_model params rtt now }
        ensures fault { fault result ≡ named (start_number params rtt now) (first (start_faults rtt now)) }
    {
        let fresh = NetworkModel::new(params, rtt, now);
        *self = fresh.unwrap_or_default();
        fresh.map(|_| ())
    }

    // The reply of a call that is given nothing.
    #[tactic(auto, unfolding(crate::specs::NetworkModel::stored_number))]
    pub fn stored(self) -> Result<(), Refusal>
        ensures { number result ≡ stored_number self }
    {
        let rows = Rows {
            stored: !self.ok(),
            ..Rows::NONE
        };
        refusal(rows, 0)
    }

    // The reply of a call that is given the parameters alone.
    #[tactic(auto, unfolding(crate::specs::NetworkModel::headroom_number))]
    pub fn stored_with(self, params: Params) -> Result<(), Refusal>
        ensures { number result ≡ headroom_number self params }
    {
        let rows = Rows {
            stored: !(self.ok() & params.ok()),
            ..Rows::NONE
        };
        refusal(rows, 0)
    }

    // The reply of a call that is given something, which is fine or has this fault.
    #[tactic(auto, unfolding(crate::specs::NetworkModel::given_number))]
    pub fn given(self, fine: bool, blamed: u32) -> Result<(), Refusal>
        ensures reply { number result ≡ given_number self fine }
        ensures fault { fault result ≡ named (given_number self fine) blamed }
    {
        let rows = Rows {
            stored: !self.ok(),
            argument: !fine,
            ..Rows::NONE
        };
        refusal(rows, blamed)
    }

    #[tactic(auto, unfolding(crate::specs::NetworkModel::growth_restarted, crate::specs::NetworkModel::restart_next, crate::specs::NetworkModel::with_growth, crate::specs::NetworkModel::with_round, crate::specs::NetworkModel::with_rounds))]
    pub fn restart_next(self) -> NetworkModel
        ensures { result ≡ restart_next self }
    {
        NetworkModel {
            rounds: self.rounds.restart_round(),
            round: Round::new(),
            growth: Growth {
                queueing: 0,
                ..self.growth
            },
            ..self
        }
    }

    #[tactic(auto, unfolding(crate::specs::NetworkModel::cap_next, crate::specs::NetworkModel::with_lower))]
    pub fn cap_next(self, cap: u64) -> NetworkModel
        ensures { result ≡ cap_next self cap }
    {
        NetworkModel {
            lower: self.lower.capped(cap),
            ..self
        }
    }

    #[tactic(auto, unfolding(crate::specs::NetworkModel::clear_inflight_next, crate::specs::NetworkModel::with_lower))]
    pub fn clear_inflight_next(self) -> NetworkModel
        ensures { result ≡ clear_inflight_next self }
    {
        NetworkModel {
            lower: Lower {
                inflight: UNSET,
                ..self.lower
            },
            ..self
        }
    }

    #[tactic(auto, unfolding(crate::specs::NetworkModel::clear_bandwidth_next, crate::specs::NetworkModel::with_lower))]
    pub fn clear_bandwidth_next(self) -> NetworkModel
        ensures { result ≡ clear_bandwidth_next self }
    {
        NetworkModel {
            lower: Lower {
                bandwidth: None,
                ..self.lower
            },
            ..self
        }
    }

    #[tactic(auto, unfolding(crate::specs::NetworkModel::advance_next, crate::specs::NetworkModel::with_maxbw))]
    pub fn advance_next(self) -> NetworkModel
        ensures { result ≡ advance_next self }
    {
        NetworkModel {
            maxbw: self.maxbw.advance(),
            ..self
        }
    }

    #[tactic(auto, unfolding(crate::specs::NetworkModel::bdp_of))]
    pub fn bdp_of(self, bandwidth: Bandwidth, gain: f32) -> u64
        ensures { result ≡ bdp_of self bandwidth gain }
    {
        bandwidth.mul_f32(gain).to_bytes_per_period(self.minrtt.rtt)
    }
}

// Document 01's model of a start that is refused: at moment 0 with round trip 0, both gains 1 and the app-limited option
// off.
impl Default for NetworkModel {
    ghost is_default = { λ m. m ≡ model_new one one false zero_length zero_moment };

    fn default() -> NetworkModel {
        NetworkModel::fresh(1.0, 1.0, false, Duration(0), Moment(0))
    }
}
