// The settings of the model.
ghost use Rattle.std.specs.Prelude.{◌≡◌};
ghost use Rattle.state.specs.Params.{params_ok, beta_ok, threshold_ok};

use crate::bounds::{fraction_ok, gain_ok, length_ok};
use units::Duration;

// In the Rust's words: beta, loss_threshold, inflight_hi_headroom, full_bw_threshold,
// startup_cwnd_gain, startup_pacing_gain, startup_full_bw_rounds, max_startup_queue_rounds,
// probe_rtt_period, probe_bw_probe_base_duration, ignore_app_limited_for_no_bandwidth_growth.
#[derive(Clone, Copy)]
pub struct Params {
    pub beta: f32,
    pub loss: f32,
    pub headroom: f32,
    pub growth: f32,
    pub cwnd: f32,
    pub pacing: f32,
    pub rounds: u64,
    pub queueing: u64,
    pub period: Duration,
    pub base: Duration,
    pub ignore: bool,
}

impl Params {
    // Whether every setting is within its bounds.
    #[tactic(auto, unfolding(crate::specs::Params::params_ok))]
    pub fn ok(self) -> bool
        ensures { result ≡ params_ok self }
    {
        beta_ok(self.beta)
            & fraction_ok(self.loss)
            & fraction_ok(self.headroom)
            & threshold_ok(self.growth)
            & gain_ok(self.cwnd)
            & gain_ok(self.pacing)
            & length_ok(self.period)
            & length_ok(self.base)
    }
}

// beta is from 1/1024 to 1023/1024.
#[tactic(auto, unfolding(crate::specs::Bounds::within))]
fn beta_ok(x: f32) -> bool
    ensures { result ≡ beta_ok x }
{
    (0.0009765625 <= x) & (x <= 0.9990234375)
}

// full_bw_threshold is from 1 to 8.
#[tactic(auto, unfolding(crate::specs::Bounds::within))]
fn threshold_ok(x: f32) -> bool
    ensures { result ≡ threshold_ok x }
{
    (1.0 <= x) & (x <= 8.0)
}
