// The calls on the network model that send, set, cap, clear or put off.
#![tactic(auto, unfolding(crate::specs::Changes::cwnd_next, crate::specs::Changes::pacing_next, crate::specs::Changes::postpone_next, crate::specs::Changes::postpone_number, crate::specs::Changes::postponed, crate::specs::Changes::reached_next, crate::specs::Changes::sent_next, crate::specs::Changes::sent_number, state::specs::Answers::settled, state::specs::Faults::named, state::specs::NetworkModel::with_begun, state::specs::NetworkModel::with_gains, state::specs::NetworkModel::with_growth, state::specs::NetworkModel::with_high, state::specs::NetworkModel::with_minrtt, state::specs::NetworkModel::with_moment, state::specs::NetworkModel::with_round, state::specs::NetworkModel::with_rounds))]

pub mod changes;

pub use changes::{
    advance_max_bandwidth_filter, cap_inflight_lo, clear_bandwidth_lo, clear_inflight_lo,
    on_packet_sent, postpone_min_rtt_timestamp, restart_round_early, sent_tested, set_cwnd_gain,
    set_full_bandwidth_reached, set_inflight_hi, set_pacing_gain,
};
