// The smallest round trip seen, with its moment.
ghost use Rattle.std.specs.Prelude.{◌≡◌};
ghost use Rattle.filters.specs.MinRttFilter.{min_force, min_update};

use units::{Duration, Moment};

#[derive(Clone, Copy)]
pub struct MinRttFilter {
    pub rtt: Duration,
    pub timestamp: Moment,
}

impl MinRttFilter {
    // A filter that starts at the given round trip and moment.
    pub fn new(rtt: Duration, now: Moment) -> MinRttFilter
        ensures { result ≡ min_force rtt now }
    {
        MinRttFilter {
            rtt,
            timestamp: now,
        }
    }

    // The smallest round trip.
    pub fn get(self) -> Duration
        ensures { result ≡ self.rtt }
    {
        self.rtt
    }

    // The moment of the smallest round trip.
    pub fn get_timestamps(self) -> Moment
        ensures { result ≡ self.timestamp }
    {
        self.timestamp
    }

    // The filter after a sample, which counts only if it is smaller.
    #[tactic(auto, unfolding(crate::specs::MinRttFilter::min_update))]
    pub fn update(self, sample: Duration, now: Moment) -> MinRttFilter
        ensures { result ≡ min_update self sample now }
    {
        if sample < self.rtt {
            self.force_update(sample, now)
        } else {
            self
        }
    }

    // The filter after a sample that counts whatever it is.
    pub fn force_update(self, sample: Duration, now: Moment) -> MinRttFilter
        ensures { result ≡ min_force sample now }
    {
        MinRttFilter::new(sample, now)
    }
}
