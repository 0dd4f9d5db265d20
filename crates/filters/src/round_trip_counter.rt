// Round trips, counted by packet numbers.
ghost use Rattle.std.specs.Prelude.{◌≡◌, false};
ghost use Rattle.units.specs.Reply.{number, kept};
ghost use Rattle.filters.specs.RoundTripCounter.{rounds_new, rounds_sent, rounds_restart, most_of, greatest, listed, ends_round, rounds_number, rounds_acked, rounds_ended};

use units::Refusal;

// So many numbers are gone through one after the other, without halving them.
const AT_ONCE: usize = 64;

#[derive(Clone, Copy)]
pub struct RoundTripCounter {
    pub count: u64,
    pub sent: u64,
    pub end: Option<u64>,
}

impl RoundTripCounter {
    // A counter before any packet.
    pub fn new() -> RoundTripCounter
        ensures { result ≡ rounds_new }
    {
        RoundTripCounter {
            count: 0,
            sent: 0,
            end: None,
        }
    }

    // The counter after a packet is sent.
    pub fn on_packet_sent(self, packet: u64) -> RoundTripCounter
        ensures { result ≡ rounds_sent self packet }
    {
        RoundTripCounter {
            sent: packet,
            ..self
        }
    }

    // Whether the acked packets end a round, which is counted; a full count is refused.
    pub fn on_packets_acked(&mut self, acked: &[u64]) -> Result<bool, Refusal>
        ensures reply { number result ≡ rounds_number self.old acked.now }
        ensures counter { self.new ≡ rounds_acked self.old acked.now }
        ensures ended { kept result false ≡ rounds_ended self.old acked.now }
    {
        self.on_greatest_acked(greatest_of(acked))
    }

    // The same, where the greatest of the acked numbers is known.
    #[tactic(auto, unfolding(crate::specs::RoundTripCounter::rounds_full, crate::specs::RoundTripCounter::rounds_number, crate::specs::RoundTripCounter::rounds_acked, crate::specs::RoundTripCounter::rounds_ended, crate::specs::RoundTripCounter::rounds_restart))]
    pub fn on_greatest_acked(&mut self, most: Option<u64>) -> Result<bool, Refusal>
        ensures reply { number result ≡ rounds_number self.old (listed most) }
        ensures counter { self.new ≡ rounds_acked self.old (listed most) }
        ensures ended { kept result false ≡ rounds_ended self.old (listed most) }
    {
        if !is_passed_by(self.end, most) {
            return Ok(false);
        }
        if self.count == u64::MAX {
            return Err(Refusal::FullCounter);
        }
        self.count += 1;
        self.end = Some(self.sent);
        Ok(true)
    }

    // The counter whose round starts anew, uncounted.
    pub fn restart_round(self) -> RoundTripCounter
        ensures { result ≡ rounds_restart self }
    {
        RoundTripCounter {
            end: Some(self.sent),
            ..self
        }
    }
}

// Whether there is a number, and it lies past the end: where no end is set, every number does.
#[tactic(auto, unfolding(crate::specs::RoundTripCounter::ends_round))]
fn is_passed_by(end: Option<u64>, most: Option<u64>) -> bool
    ensures { result ≡ ends_round end (listed most) }
{
    most.is_some_and(|packet| end.is_none_or(|last| last < packet))
}

// The greatest of some numbers, if there are any.
pub fn greatest_of(numbers: &[u64]) -> Option<u64>
    ensures { result ≡ greatest numbers.now }
{
    let (&first, others) = numbers.split_first()?;
    Some(most_of(first, others))
}

// The greatest of a number and of others; many go by halves. It calls itself so that it is not compiled into the loop of
// a run of calls, which a loop inside of it would slow down (docs/DECISIONS.md, 118).
fn most_of(first: u64, numbers: &[u64]) -> u64
    ensures { result ≡ most_of first numbers.now }
{
    if numbers.len() <= AT_ONCE {
        return most_of_few(first, numbers);
    }
    let half = numbers.len() / 2;
    let most = most_of(first, &numbers[..half]);
    most_of(most, &numbers[half..])
}

// The same, one after the other.
fn most_of_few(first: u64, numbers: &[u64]) -> u64
    ensures { result ≡ most_of first numbers.now }
{
    let mut most = first;
    for &number in numbers {
        most = most.max(number);
    }
    most
}
