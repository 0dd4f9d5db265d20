// The calls on the network model that only answer.
#![tactic(auto, unfolding(crate::specs::Reads::headroom_of, state::specs::Answers::settled))]

pub mod reads;

pub use reads::{
    bandwidth_estimate, bdp, bdp0, bdp1, cwnd_gain, full_bandwidth_reached, inflight_hi,
    inflight_hi_default, inflight_hi_with_headroom, inflight_lo, loss_events_in_round,
    max_bandwidth, max_bytes_delivered_in_round, min_rtt, min_rtt_timestamp, pacing_gain,
    queueing_threshold_extra_bytes, rounds_with_queueing, total_bytes_acked, total_bytes_lost,
};
