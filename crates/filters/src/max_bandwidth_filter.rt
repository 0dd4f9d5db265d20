// The largest bandwidth of two spans of rounds.
ghost use Rattle.std.specs.Prelude.{◌≡◌};
ghost use Rattle.filters.specs.MaxBandwidthFilter.{max_new, max_get, max_update, max_advance};

use units::Bandwidth;

// The Rust's max_bandwidth[0] and max_bandwidth[1].
#[derive(Clone, Copy)]
pub struct MaxBandwidthFilter {
    pub slot0: Bandwidth,
    pub slot1: Bandwidth,
}

impl MaxBandwidthFilter {
    // A filter that has seen nothing.
    pub fn new() -> MaxBandwidthFilter
        ensures { result ≡ max_new }
    {
        MaxBandwidthFilter {
            slot0: Bandwidth::ZERO,
            slot1: Bandwidth::ZERO,
        }
    }

    // The larger of both slots.
    #[tactic(auto, unfolding(crate::specs::MaxBandwidthFilter::max_get))]
    pub fn get(self) -> Bandwidth
        ensures { result ≡ max_get self }
    {
        self.slot0.max(self.slot1)
    }

    // The filter whose slot 1 is raised to the sample.
    #[tactic(auto, unfolding(crate::specs::MaxBandwidthFilter::max_update))]
    pub fn update(self, sample: Bandwidth) -> MaxBandwidthFilter
        ensures { result ≡ max_update self sample }
    {
        MaxBandwidthFilter {
            slot1: self.slot1.max(sample),
            ..self
        }
    }

    // The filter whose slot 1, unless it is zero, has moved to slot 0.
    #[tactic(auto, unfolding(crate::specs::MaxBandwidthFilter::max_advance))]
    pub fn advance(self) -> MaxBandwidthFilter
        ensures { result ≡ max_advance self }
    {
        if self.slot1 == Bandwidth::ZERO {
            return self;
        }
        MaxBandwidthFilter {
            slot0: self.slot1,
            slot1: Bandwidth::ZERO,
        }
    }
}
