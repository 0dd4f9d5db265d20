// A congestion event's start and finish.
#![tactic(auto)]

pub mod event;

pub use event::{
    finish_tested, on_congestion_event_finish, on_congestion_event_start, start_tested,
};
