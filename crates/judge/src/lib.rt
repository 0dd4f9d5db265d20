// The questions about an event, and the queue's.
#![tactic(auto)]

pub mod judge;

pub use judge::{
    check_persistent_queue, has_bandwidth_growth, is_inflight_too_high, maybe_expire_min_rtt,
};
