// The round-trip estimator of RFC 9002, section 5: rtt.rs, with the minimum over all samples.
ghost use Rattle.std.specs.Prelude.{true, ◌≡◌, ◌^◌, ◌≤◌, None};
ghost use Rattle.units.specs.Reply.{number, fault, kept};
ghost use Rattle.state.specs.Answers.{settled, zero_length};
ghost use Rattle.state.specs.Bounds.{length_ok};
ghost use Rattle.state.specs.Faults.{first, named};
ghost use Rattle.rtt.specs.Rtt.{stats_ok, asked_rows, given_number, stored_number, new_faults, new_number, stats_new, new_left, update_faults, update_number, first_sample, delay_taken, plausible, adjusted, smoothed_after, variation_after, later_sample, update_next, update_left, delay_faults, delay_number, delay_left, minimum_shown};

use state::bounds::length_ok;
use state::faults::{Kind, first_of};
use state::refusals::{Rows, refusal};
use units::{Duration, Refusal};

#[derive(Clone, Copy)]
pub struct RttStats {
    pub latest: Duration,
    pub minimum: Duration,
    pub smoothed: Duration,
    pub variation: Duration,
    // max_ack_delay.
    pub limit: Duration,
    // has_first_rtt_sample.
    // Beside a minimum that is there without it: the state's words hold both.
    pub sampled: bool,
}

impl RttStats {
    // Whether every stored length is within its bound.
    #[tactic(auto, unfolding(crate::specs::Rtt::stats_tests))]
    fn ok(self) -> bool
        ensures { result ≡ stats_ok self }
    {
        length_ok(self.latest)
            & length_ok(self.minimum)
            & length_ok(self.smoothed)
            & length_ok(self.variation)
            & length_ok(self.limit)
    }

    // An estimator without a sample.
    #[tactic(auto, unfolding(crate::specs::Rtt::stats_new))]
    fn fresh(initial: Duration, limit: Duration) -> RttStats
        ensures { result ≡ stats_new initial limit }
    {
        RttStats {
            latest: Duration(0),
            minimum: initial,
            smoothed: initial,
            variation: Duration(initial.0 / 2),
            limit,
            sampled: false,
        }
    }

    // An estimator without a sample, for an initial round trip and the peer's largest ack delay.
    #[tactic(auto, unfolding(crate::specs::Rtt::new_number, crate::specs::Rtt::new_left, state::specs::Answers::settled))]
    pub fn new(initial: Duration, limit: Duration) -> Result<RttStats, Refusal>
        ensures reply { number result ≡ new_number initial limit }
        ensures stats { kept result (stats_new zero_length zero_length) ≡ new_left initial limit }
        ensures fault { fault result ≡ named (new_number initial limit) (first (new_faults initial limit)) }
    {
        let rows = Rows {
            argument: !(length_ok(initial) & length_ok(limit)),
            ..Rows::NONE
        };
        refusal(rows, new_fault(initial, limit))?;
        Ok(RttStats::fresh(initial, limit))
    }

    // The same of an estimator that is lent. Refused, it is left as a fresh one of 0 and 0.
    pub fn begin(&mut self, initial: Duration, limit: Duration) -> Result<(), Refusal>
        ensures reply { number result ≡ new_number initial limit }
        ensures stats { self.new ≡ new_left initial limit }
        ensures fault { fault result ≡ named (new_number initial limit) (first (new_faults initial limit)) }
    {
        let fresh = RttStats::new(initial, limit);
        *self = fresh.unwrap_or_default();
        fresh.map(|_| ())
    }

    // A sample: a round trip just measured, the ack delay that the peer reported, and whether the handshake is
    // confirmed.
    pub fn update_rtt(
        &mut self,
        latest: Duration,
        delay: Duration,
        confirmed: bool,
    ) -> Result<(), Refusal>
        ensures reply { number result ≡ update_number self.old latest delay true }
        ensures stats { self.new ≡ update_left self.old latest delay confirmed true }
        ensures fault { fault result ≡ named (update_number self.old latest delay true)
            (first (update_faults latest delay true)) }
    {
        self.update_taken(latest, delay, confirmed, true)
    }

    // The same for a run, which is given the flag as a word that may be malformed.
    #[tactic(auto, using(crate::proofs::Exact::rows_fine), unfolding(crate::specs::Rtt::given_number, crate::specs::Rtt::update_number, crate::specs::Rtt::update_left, state::specs::Answers::settled, state::specs::Faults::named))]
    pub fn update_taken(
        &mut self,
        latest: Duration,
        delay: Duration,
        confirmed: bool,
        fits: bool,
    ) -> Result<(), Refusal>
        ensures reply { number result ≡ update_number self.old latest delay fits }
        ensures stats { self.new ≡ update_left self.old latest delay confirmed fits }
        ensures fault { fault result ≡ named (update_number self.old latest delay fits)
            (first (update_faults latest delay fits)) }
    {
        let rows = self.rows(length_ok(latest) & length_ok(delay) & fits);
        rows.first()
            .map_err(|cause| cause.named(update_fault(latest, delay, fits)))?;
        *self = self.update_next(latest, delay, confirmed);
        Ok(())
    }

    // Which rows hold for a call that is given what is within its bounds or not.
    fn rows(self, fine: bool) -> Rows
        ensures { result ≡ asked_rows self fine }
    {
        Rows {
            stored: !self.ok(),
            argument: !fine,
            ..Rows::NONE
        }
    }

    // The reply to a call that is given what `fine` says is within its bounds or not.
    #[tactic(auto, unfolding(crate::specs::Rtt::given_number))]
    pub fn given(self, fine: bool, blamed: u32) -> Result<(), Refusal>
        ensures reply { number result ≡ given_number self fine }
        ensures fault { fault result ≡ named (given_number self fine) blamed }
    {
        refusal(self.rows(fine), blamed)
    }

    // The reply to a call that is given nothing.
    #[tactic(auto, unfolding(crate::specs::Rtt::stored_number))]
    fn stored(self) -> Result<(), Refusal>
        ensures { number result ≡ stored_number self }
    {
        refusal(self.rows(true), 0)
    }

    // The estimator after a sample that is taken.
    #[tactic(auto, using(crate::proofs::Exact::lengths, crate::proofs::Exact::adjusted_most), unfolding(crate::specs::Rtt::update_next))]
    fn update_next(self, latest: Duration, delay: Duration, confirmed: bool) -> RttStats
        requires { (stats_ok self ≡ true) × (length_ok latest ≡ true) }
        ensures { result ≡ update_next self latest delay confirmed }
    {
        if self.sampled {
            self.later_sample(latest, self.adjusted(latest, delay, confirmed))
        } else {
            self.first_sample(latest)
        }
    }

    // The first sample is taken whole.
    #[tactic(auto, unfolding(crate::specs::Rtt::first_sample))]
    fn first_sample(self, latest: Duration) -> RttStats
        ensures { result ≡ first_sample self latest }
    {
        RttStats {
            latest,
            minimum: latest,
            smoothed: latest,
            variation: Duration(latest.0 / 2),
            sampled: true,
            ..self
        }
    }

    // The sample without the ack delay, where that leaves no less than the minimum.
    #[tactic(auto, unfolding(crate::specs::Rtt::adjusted))]
    fn adjusted(self, latest: Duration, delay: Duration, confirmed: bool) -> Duration
        ensures { result ≡ adjusted self latest delay confirmed }
    {
        plausible(
            self.minimum.min(latest),
            latest,
            delay_taken(self.limit, delay, confirmed),
        )
    }

    // A sample past the first. The variation is made from the smoothed value before it.
    #[tactic(auto, unfolding(crate::specs::Rtt::later_sample))]
    fn later_sample(self, latest: Duration, adjusted: Duration) -> RttStats
        requires { (self.smoothed.0 ≤ 2 ^ 36) × (self.variation.0 ≤ 2 ^ 36) × (adjusted.0 ≤ 2 ^ 36) }
        ensures { result ≡ later_sample self latest adjusted }
    {
        let smoothed = self.smoothed.0;
        let next = smoothed_after(smoothed, adjusted.0);
        RttStats {
            latest,
            minimum: self.minimum.min(latest),
            smoothed: Duration(next),
            variation: Duration(variation_after(self.variation.0, smoothed, adjusted.0)),
            sampled: true,
            ..self
        }
    }

    // The peer's largest ack delay is known, or has changed.
    #[tactic(auto, unfolding(crate::specs::Rtt::delay_number, crate::specs::Rtt::delay_next, crate::specs::Rtt::delay_left, state::specs::Answers::settled))]
    pub fn update_max_ack_delay(&mut self, limit: Duration) -> Result<(), Refusal>
        ensures reply { number result ≡ delay_number self.old limit }
        ensures stats { self.new ≡ delay_left self.old limit }
        ensures fault { fault result ≡ named (delay_number self.old limit) (first (delay_faults limit)) }
    {
        self.given(length_ok(limit), delay_fault(limit))?;
        self.limit = limit;
        Ok(())
    }

    // The last sample; 0 before the first.
    #[tactic(auto, unfolding(state::specs::Answers::settled))]
    pub fn latest_rtt(self) -> Result<Duration, Refusal>
        ensures reply { number result ≡ stored_number self }
        ensures length { kept result zero_length ≡ settled (stored_number self) self.latest zero_length }
    {
        self.stored()?;
        Ok(self.latest)
    }

    // The smoothed round trip.
    #[tactic(auto, unfolding(state::specs::Answers::settled))]
    pub fn rtt(self) -> Result<Duration, Refusal>
        ensures reply { number result ≡ stored_number self }
        ensures length { kept result zero_length ≡ settled (stored_number self) self.smoothed zero_length }
    {
        self.stored()?;
        Ok(self.smoothed)
    }

    // Its variation.
    #[tactic(auto, unfolding(state::specs::Answers::settled))]
    pub fn rttvar(self) -> Result<Duration, Refusal>
        ensures reply { number result ≡ stored_number self }
        ensures length { kept result zero_length ≡ settled (stored_number self) self.variation zero_length }
    {
        self.stored()?;
        Ok(self.variation)
    }

    // The least sample; nothing before the first.
    #[tactic(auto, unfolding(crate::specs::Rtt::minimum_shown, state::specs::Answers::settled))]
    pub fn min_rtt(self) -> Result<Option<Duration>, Refusal>
        ensures reply { number result ≡ stored_number self }
        ensures minimum { kept result None ≡ settled (stored_number self) (minimum_shown self) None }
    {
        self.stored()?;
        Ok(self.sampled.then_some(self.minimum))
    }
}

// What a refused `new` leaves: a fresh estimator of 0 and 0.
impl Default for RttStats {
    ghost is_default = { λ s. s ≡ stats_new zero_length zero_length };

    fn default() -> RttStats {
        RttStats::fresh(Duration(0), Duration(0))
    }
}

// ---- the faults of a call's arguments

#[tactic(auto, unfolding(crate::specs::Rtt::new_faults))]
pub fn new_fault(initial: Duration, limit: Duration) -> u32
    ensures { result ≡ first (new_faults initial limit) }
{
    first_of(&[
        Kind::Length.unless(length_ok(initial), 1),
        Kind::Length.unless(length_ok(limit), 2),
    ])
}

#[tactic(auto, unfolding(crate::specs::Rtt::update_faults))]
pub fn update_fault(latest: Duration, delay: Duration, fits: bool) -> u32
    ensures { result ≡ first (update_faults latest delay fits) }
{
    first_of(&[
        Kind::Length.unless(length_ok(latest), 1),
        Kind::Length.unless(length_ok(delay), 2),
        Kind::ListLength.unless(fits, 3),
    ])
}

#[tactic(auto, unfolding(crate::specs::Rtt::delay_faults))]
pub fn delay_fault(limit: Duration) -> u32
    ensures { result ≡ first (delay_faults limit) }
{
    first_of(&[Kind::Length.unless(length_ok(limit), 1)])
}

// ---- lengths

// The ack delay, limited once the handshake is confirmed.
#[tactic(auto, unfolding(crate::specs::Rtt::delay_taken))]
fn delay_taken(limit: Duration, delay: Duration, confirmed: bool) -> Duration
    ensures { result ≡ delay_taken limit delay confirmed }
{
    if confirmed { delay.min(limit) } else { delay }
}

// The sample without the delay, where no less than the minimum is left.
#[tactic(auto, unfolding(crate::specs::Rtt::plausible))]
fn plausible(minimum: Duration, latest: Duration, taken: Duration) -> Duration
    ensures { result ≡ plausible minimum latest taken }
{
    match latest.0.checked_sub(taken.0) {
        Some(left) if minimum.0 <= left => Duration(left),
        _ => latest,
    }
}

// ---- the averages

// Both parts are rounded down.
fn smoothed_after(smoothed: u64, adjusted: u64) -> u64
    requires { (smoothed ≤ 2 ^ 36) × (adjusted ≤ 2 ^ 36) }
    ensures { result ≡ smoothed_after smoothed adjusted }
{
    smoothed * 7 / 8 + adjusted / 8
}

// From the smoothed value before the sample; both parts are rounded down.
fn variation_after(variation: u64, smoothed: u64, adjusted: u64) -> u64
    requires { (variation ≤ 2 ^ 36) × (smoothed ≤ 2 ^ 36) × (adjusted ≤ 2 ^ 36) }
    ensures { result ≡ variation_after variation smoothed adjusted }
{
    variation * 3 / 4 + smoothed.abs_diff(adjusted) / 4
}
