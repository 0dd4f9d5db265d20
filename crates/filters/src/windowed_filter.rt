// The largest sample of a window of time, with two estimates to follow it.
ghost use Rattle.std.specs.Prelude.{◌≡◌};
ghost use Rattle.units.specs.Reply.{number, kept};
ghost use Rattle.filters.specs.declared.windowed_filter.Reason.TheVariants.{AllReplaced, Unchanged};
ghost use Rattle.filters.specs.Reason.{reason_number, raised_reason, shifted_reason, renewed_reason, aged_reason, reason_of, windowed_reason};
ghost use Rattle.filters.specs.WindowedFilter.{all_three, is_older, lingers, is_after, is_replaced, raised, shifted, renewed, aged, updated, windowed_new, windowed_reset, best_of, second_of, third_of, windowed_number, windowed_update};

use units::Refusal;

#[derive(Clone, Copy)]
pub struct Sample {
    pub sample: u64,
    pub time: u64,
}

#[derive(Clone, Copy)]
pub struct Estimates {
    pub best: Sample,
    pub second: Sample,
    pub third: Sample,
}

#[derive(Clone, Copy)]
pub struct WindowedFilter {
    pub window: u64,
    pub held: Option<Estimates>,
}

// What an update did to the estimates: the step of document 01 that acted last, or none. The exported filter run writes its
// number.
#[derive(Clone, Copy, PartialEq, Eq)]
pub enum Reason {
    AllReplaced = 0,
    SecondRaised = 1,
    ThirdRaised = 2,
    PromotedOnce = 3,
    PromotedTwice = 4,
    QuarterRefresh = 5,
    HalfRefresh = 6,
    Unchanged = 7,
}

// The estimates that some of the steps leave, and which of them acted last.
#[derive(Clone, Copy)]
pub struct Stepped {
    pub estimates: Estimates,
    pub reason: Reason,
}

impl Reason {
    // The reason's number, as the exported filter run writes it.
    pub fn number(self) -> u64
        ensures { result ≡ reason_number self }
    {
        self as u64
    }
}

impl WindowedFilter {
    // An empty filter.
    pub fn new(window: u64) -> WindowedFilter
        ensures { result ≡ windowed_new window }
    {
        WindowedFilter { window, held: None }
    }

    // The filter whose three estimates are the sample.
    pub fn reset(self, sample: u64, time: u64) -> WindowedFilter
        ensures { result ≡ windowed_reset self sample time }
    {
        let new = Sample { sample, time };
        WindowedFilter {
            window: self.window,
            held: Some(Estimates::all(new)),
        }
    }

    // The filter, emptied.
    pub fn clear(self) -> WindowedFilter
        ensures { result ≡ windowed_new self.window }
    {
        WindowedFilter::new(self.window)
    }

    // The original has a method for each of the three.
    // The best estimate.
    pub fn get_best(self) -> Option<u64>
        ensures { result ≡ best_of self.held }
    {
        self.held.map(|e| e.best.sample)
    }

    // The second best estimate.
    pub fn get_second_best(self) -> Option<u64>
        ensures { result ≡ second_of self.held }
    {
        self.held.map(|e| e.second.sample)
    }

    // The third best estimate.
    pub fn get_third_best(self) -> Option<u64>
        ensures { result ≡ third_of self.held }
    {
        self.held.map(|e| e.third.sample)
    }

    // Takes a sample, and says which step acted last, or refuses a time before a stored one.
    #[tactic(auto, unfolding(crate::specs::WindowedFilter::windowed_number, crate::specs::WindowedFilter::windowed_update, crate::specs::Reason::windowed_reason))]
    pub fn update(&mut self, sample: u64, time: u64) -> Result<Reason, Refusal>
        ensures reply { number result ≡ windowed_number self.old time }
        ensures filter { self.new ≡ windowed_update self.old sample time }
        ensures reason { kept result Unchanged ≡ windowed_reason self.old sample time }
    {
        if is_after(self.held, time) {
            return Err(Refusal::EarlierMoment);
        }
        let stepped = step(self.held, Sample { sample, time }, self.window);
        self.held = Some(stepped.estimates);
        Ok(stepped.reason)
    }
}

// Whether one of the stored times is later than the time given.
fn is_after(held: Option<Estimates>, time: u64) -> bool
    ensures { result ≡ is_after held time }
{
    let Some(e) = held else {
        return false;
    };
    (time < e.best.time) | (time < e.second.time) | (time < e.third.time)
}

// Step 1, and where it does not apply, the steps after it.
pub fn step(held: Option<Estimates>, new: Sample, window: u64) -> Stepped
    ensures estimates { result.estimates ≡ updated held new window }
    ensures reason { result.reason ≡ reason_of held new window }
{
    let Some(e) = held else {
        return Stepped::replaced(new);
    };
    if e.is_replaced(new, window) {
        Stepped::replaced(new)
    } else {
        e.raised(new).aged(new, window)
    }
}

impl Estimates {
    // All three are the new sample.
    fn all(new: Sample) -> Estimates
        ensures { result ≡ all_three new }
    {
        Estimates {
            best: new,
            second: new,
            third: new,
        }
    }

    // Step 1: whether the new sample replaces all three.
    fn is_replaced(self, new: Sample, window: u64) -> bool
        ensures { result ≡ is_replaced self new window }
    {
        (self.best.sample < new.sample) | self.third.is_older(window, new.time)
    }

    // Step 2: the new sample takes the place of what it exceeds.
    #[tactic(auto, unfolding(crate::specs::WindowedFilter::raised, crate::specs::Reason::raised_reason))]
    fn raised(self, new: Sample) -> Stepped
        ensures estimates { result.estimates ≡ raised self new }
        ensures reason { result.reason ≡ raised_reason self new }
    {
        if self.second.sample < new.sample {
            Stepped {
                estimates: Estimates {
                    second: new,
                    third: new,
                    ..self
                },
                reason: Reason::SecondRaised,
            }
        } else if self.third.sample < new.sample {
            Stepped {
                estimates: Estimates { third: new, ..self },
                reason: Reason::ThirdRaised,
            }
        } else {
            Stepped {
                estimates: self,
                reason: Reason::Unchanged,
            }
        }
    }
}

impl Stepped {
    // Step 1 acted: all three are the new sample.
    fn replaced(new: Sample) -> Stepped
        ensures estimates { result.estimates ≡ all_three new }
        ensures reason { result.reason ≡ AllReplaced }
    {
        Stepped {
            estimates: Estimates::all(new),
            reason: Reason::AllReplaced,
        }
    }

    // Steps 3 to 5 after step 2: the first that applies is the last, and gives its name.
    #[tactic(auto, unfolding(crate::specs::WindowedFilter::aged, crate::specs::Reason::aged_reason))]
    fn aged(self, new: Sample, window: u64) -> Stepped
        ensures estimates { result.estimates ≡ aged self.estimates new window }
        ensures reason { result.reason ≡ aged_reason self.estimates new window self.reason }
    {
        if self.estimates.best.is_older(window, new.time) {
            self.shifted(new, window)
        } else {
            self.renewed(new, window)
        }
    }

    // Step 3: the estimates move up once, and the upper two again where the new best is too old.
    #[tactic(auto, unfolding(crate::specs::WindowedFilter::shifted, crate::specs::Reason::shifted_reason))]
    fn shifted(self, new: Sample, window: u64) -> Stepped
        ensures estimates { result.estimates ≡ shifted self.estimates new window }
        ensures reason { result.reason ≡ shifted_reason self.estimates new window }
    {
        let Estimates { second, third, .. } = self.estimates;
        if second.is_older(window, new.time) {
            Stepped {
                estimates: Estimates {
                    best: third,
                    ..Estimates::all(new)
                },
                reason: Reason::PromotedTwice,
            }
        } else {
            Stepped {
                estimates: Estimates {
                    best: second,
                    second: third,
                    third: new,
                },
                reason: Reason::PromotedOnce,
            }
        }
    }

    // Steps 4 and 5: an estimate that has long repeated the better one gives way to the new sample.
    #[tactic(auto, unfolding(crate::specs::WindowedFilter::renewed, crate::specs::Reason::renewed_reason))]
    fn renewed(self, new: Sample, window: u64) -> Stepped
        ensures estimates { result.estimates ≡ renewed self.estimates new window }
        ensures reason { result.reason ≡ renewed_reason self.estimates new window self.reason }
    {
        let e = self.estimates;
        if e.second.lingers(e.best, window / 4, new.time) {
            Stepped {
                estimates: Estimates {
                    second: new,
                    third: new,
                    ..e
                },
                reason: Reason::QuarterRefresh,
            }
        } else if e.third.lingers(e.second, window / 2, new.time) {
            Stepped {
                estimates: Estimates { third: new, ..e },
                reason: Reason::HalfRefresh,
            }
        } else {
            self
        }
    }
}

impl Sample {
    // Whether its age is above the limit.
    fn is_older(self, limit: u64, time: u64) -> bool
        ensures { result ≡ is_older self limit time }
    {
        if time < self.time {
            return false;
        }
        limit < time - self.time
    }

    // Whether it equals the better estimate and its age is above the limit.
    fn lingers(self, better: Sample, limit: u64, time: u64) -> bool
        ensures { result ≡ lingers self better limit time }
    {
        (self.sample == better.sample) & self.is_older(limit, time)
    }
}
