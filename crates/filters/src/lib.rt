// The small filters that BBRv2's network model is made of.
#![tactic(auto)]

pub mod max_bandwidth_filter;
pub mod min_rtt_filter;
pub mod round_trip_counter;
pub mod windowed_filter;

pub use max_bandwidth_filter::MaxBandwidthFilter;
pub use min_rtt_filter::MinRttFilter;
pub use round_trip_counter::RoundTripCounter;
pub use windowed_filter::WindowedFilter;
