// The cycle of probing for bandwidth, by concern.
ghost use Rattle.std.specs.Prelude.{◌≡◌};
ghost use Rattle.units.specs.Reply.{number, fault, kept};
ghost use Rattle.state.specs.Answers.{zero_moment};
ghost use Rattle.state.specs.Faults.{first, named, now_faults};
ghost use Rattle.state.specs.Cycle.{phase_word, phase_read, wait_ok, up_bytes_ok, cycle_ok, stay_from, cycle_new, fresh_number, fresh_cycle};

use crate::bounds::{MOST_LENGTH, bytes_ok, moment_ok};
use crate::faults::now_fault;
use crate::refusals::{Rows, refusal};
use units::{Duration, Moment, Refusal};

#[derive(Clone, Copy, PartialEq, Eq)]
pub enum CyclePhase {
    NotStarted,
    Up,
    Down,
    Cruise,
    Refill,
}

// phase, rounds_in_phase, phase_start_time.
#[derive(Clone, Copy)]
pub struct Stay {
    pub phase: CyclePhase,
    pub rounds: u64,
    pub entered: Moment,
}

// start_time, rounds_since_probe, probe_wait_time.
#[derive(Clone, Copy)]
pub struct Wait {
    pub start: Moment,
    pub rounds: u64,
    pub length: Option<Duration>,
}

// probe_up_rounds, probe_up_bytes, probe_up_acked, probe_up_app_limited_since_inflight_hi_applimited.
#[derive(Clone, Copy)]
pub struct Slope {
    pub rounds: u64,
    pub bytes: Option<u64>,
    pub acked: u64,
    pub applimited: bool,
}

// last_cycle_probed_too_high, last_cycle_stopped_risky_probe.
#[derive(Clone, Copy)]
pub struct Last {
    pub high: bool,
    pub risky: bool,
}

#[derive(Clone, Copy)]
pub struct Cycle {
    pub stay: Stay,
    pub wait: Wait,
    pub slope: Slope,
    // has_advanced_max_bw.
    pub advanced: bool,
    // is_sample_from_probing.
    pub probing: bool,
    pub last: Last,
}

// The stored wait is at most the longest length of time and the extra wait.
fn wait_ok(wait: Option<Duration>) -> bool
    ensures { result ≡ wait_ok wait }
{
    wait.is_none_or(|length| length.0 <= MOST_LENGTH + Cycle::EXTRA_WAIT.0)
}

// A byte count that may be missing.
fn up_bytes_ok(bytes: Option<u64>) -> bool
    ensures { result ≡ up_bytes_ok bytes }
{
    bytes.is_none_or(|count| bytes_ok(count))
}

impl Stay {
    // A phase that begins now.
    #[tactic(auto, unfolding(crate::specs::Cycle::stay_from))]
    pub fn from(phase: CyclePhase, now: Moment) -> Stay
        ensures { result ≡ stay_from phase now }
    {
        Stay {
            phase,
            rounds: 0,
            entered: now,
        }
    }
}

impl Cycle {
    pub const MOST_ROUNDS: u64 = 30;

    pub const EXTRA_WAIT: Duration = Duration(500_000);

    // A cycle that has not started, with the start's moment.
    #[tactic(auto, unfolding(crate::specs::Cycle::fresh_number, crate::specs::Cycle::fresh_cycle, crate::specs::Answers::settled))]
    pub fn new(now: Moment) -> Result<Cycle, Refusal>
        ensures reply { number result ≡ fresh_number now }
        ensures cycle { kept result (cycle_new zero_moment) ≡ fresh_cycle now }
        ensures fault { fault result ≡ named (fresh_number now) (first (now_faults now)) }
    {
        let rows = Rows {
            argument: !moment_ok(now),
            ..Rows::NONE
        };
        refusal(rows, now_fault(now))?;
        Ok(Cycle::fresh(now))
    }

    // The same of a cycle that is lent. Refused, it is left as a fresh one at moment 0.
    pub fn begin(&mut self, now: Moment) -> Result<(), Refusal>
        ensures reply { number result ≡ fresh_number now }
        ensures cycle { self.new ≡ fresh_cycle now }
        ensures fault { fault result ≡ named (fresh_number now) (first (now_faults now)) }
    {
        let fresh = Cycle::new(now);
        *self = fresh.unwrap_or_default();
        fresh.map(|_| ())
    }

    #[tactic(auto, unfolding(crate::specs::Cycle::cycle_new))]
    fn fresh(now: Moment) -> Cycle
        ensures { result ≡ cycle_new now }
    {
        Cycle {
            stay: Stay::from(CyclePhase::NotStarted, now),
            wait: Wait {
                start: now,
                rounds: 0,
                length: None,
            },
            slope: Slope {
                rounds: 0,
                bytes: None,
                acked: 0,
                applimited: false,
            },
            advanced: false,
            probing: false,
            last: Last {
                high: false,
                risky: false,
            },
        }
    }

    // Whether every stored number is within its bounds.
    #[tactic(auto, unfolding(crate::specs::Cycle::cycle_tests))]
    pub fn ok(self) -> bool
        ensures { result ≡ cycle_ok self }
    {
        moment_ok(self.stay.entered)
            & moment_ok(self.wait.start)
            & wait_ok(self.wait.length)
            & (self.slope.rounds <= Cycle::MOST_ROUNDS)
            & up_bytes_ok(self.slope.bytes)
            & bytes_ok(self.slope.acked)
    }
}

// Document 01's cycle of a start that is refused: one at moment 0.
impl Default for Cycle {
    ghost is_default = { λ c. c ≡ cycle_new zero_moment };

    fn default() -> Cycle {
        Cycle::fresh(Moment(0))
    }
}

// The phases have the numbers 0 to 4.
impl From<CyclePhase> for u64 {
    ghost from_gives = { λ phase n. n ≡ phase_word phase };

    fn from(phase: CyclePhase) -> u64 {
        phase as u64
    }
}

// A number that no phase has.
#[derive(Clone, Copy)]
pub struct NoPhase(pub u64);

impl TryFrom<u64> for CyclePhase {
    type Error = NoPhase;

    ghost try_from_gives = { λ n r. r ≡ phase_read n };

    fn try_from(n: u64) -> Result<CyclePhase, NoPhase> {
        match n {
            0 => Ok(CyclePhase::NotStarted),
            1 => Ok(CyclePhase::Up),
            2 => Ok(CyclePhase::Down),
            3 => Ok(CyclePhase::Cruise),
            4 => Ok(CyclePhase::Refill),
            _ => Err(NoPhase(n)),
        }
    }
}
