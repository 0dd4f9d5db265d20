// The cycle: words 35 to 50 of the state.
// Words are put one by one: a literal of all of them would say less of which is which.
ghost use Rattle.std.specs.Prelude.{◌≡◌, [], ◌∷◌};
ghost use Rattle.std.proofs.lemmas.List.Edits.{sets};
ghost use Rattle.layout.specs.Cycle.{stay_of, wait_of, slope_of, cycle_from, times_words, slope_words, marks_words, cycle_words};

use state::cycle::{Last, Slope, Stay, Wait};
use state::{Cycle, CyclePhase};
use units::Moment;
use words::maybe::{maybe_of, pair_of};

// ---- from words

// The cycle in the state's words.
#[tactic(auto, unfolding(crate::specs::Cycle::cycle_from))]
pub fn cycle_from(n: &[u64; 51]) -> Cycle
    ensures { result ≡ cycle_from n.now }
{
    Cycle {
        stay: stay_of(n),
        wait: wait_of(n),
        slope: slope_of(n),
        advanced: n[47] == 1,
        probing: n[48] == 1,
        last: Last {
            high: n[49] == 1,
            risky: n[50] == 1,
        },
    }
}

// A number that no phase has is read as the last phase.
#[tactic(auto, using(crate::proofs::Laws::read_or_last))]
fn stay_of(n: &[u64; 51]) -> Stay
    ensures { result ≡ stay_of n.now }
{
    Stay {
        phase: CyclePhase::try_from(n[35]).unwrap_or(CyclePhase::Refill),
        rounds: n[38],
        entered: Moment(n[37]),
    }
}

fn wait_of(n: &[u64; 51]) -> Wait
    ensures { result ≡ wait_of n.now }
{
    Wait {
        start: Moment(n[36]),
        rounds: n[39],
        length: maybe_of(n[40], n[41]),
    }
}

fn slope_of(n: &[u64; 51]) -> Slope
    ensures { result ≡ slope_of n.now }
{
    Slope {
        rounds: n[42],
        bytes: maybe_of(n[43], n[44]),
        acked: n[45],
        applimited: n[46] == 1,
    }
}

// ---- into words

// The state's words with the cycle's put in.
#[tactic(auto, unfolding(crate::specs::Cycle::cycle_words))]
pub(crate) fn with_cycle(n: [u64; 51], cycle: Cycle) -> [u64; 51]
    ensures { result ≡ sets n 35 (cycle_words cycle) }
{
    let n = with_times(n, cycle.stay, cycle.wait);
    let n = with_slope(n, cycle.slope);
    with_marks(n, cycle.advanced, cycle.probing, cycle.last)
}

fn with_times(n: [u64; 51], stay: Stay, wait: Wait) -> [u64; 51]
    ensures { result ≡ sets n 35 (times_words stay wait) }
{
    let (set, length) = pair_of(wait.length);
    let mut next = n;
    next[35] = u64::from(stay.phase);
    next[36] = wait.start.0;
    next[37] = stay.entered.0;
    next[38] = stay.rounds;
    next[39] = wait.rounds;
    next[40] = set;
    next[41] = length;
    next
}

fn with_slope(n: [u64; 51], slope: Slope) -> [u64; 51]
    ensures { result ≡ sets n 42 (slope_words slope) }
{
    let (set, bytes) = pair_of(slope.bytes);
    let mut next = n;
    next[42] = slope.rounds;
    next[43] = set;
    next[44] = bytes;
    next[45] = slope.acked;
    next[46] = u64::from(slope.applimited);
    next
}

fn with_marks(n: [u64; 51], advanced: bool, probing: bool, last: Last) -> [u64; 51]
    ensures { result ≡ sets n 47 (marks_words advanced probing last) }
{
    let mut next = n;
    next[47] = u64::from(advanced);
    next[48] = u64::from(probing);
    next[49] = u64::from(last.high);
    next[50] = u64::from(last.risky);
    next
}
