// The slope of a probe for more bandwidth.
ghost use Rattle.std.specs.Prelude.{◌≡◌, ◌/◌, ◌^◌};
ghost use Rattle.phases.specs.Slope.{slope_raised, next_rounds};

use state::cycle::Slope;
use state::{Cycle, NetworkModel};

// The window over 2^rounds.
fn share(window: u64, rounds: u64) -> u64
    ensures { result ≡ window / 2 ^ rounds }
{
    if rounds < 64 { window >> rounds } else { 0 }
}

// One round more, up to the most.
fn next_rounds(rounds: u64) -> u64
    ensures { result ≡ next_rounds rounds }
{
    rounds.saturating_add(1).min(Cycle::MOST_ROUNDS)
}

// The next round's slope: the window is reached in fewer rounds, by no less than a segment.
#[tactic(auto, unfolding(crate::specs::Slope::slope_raised))]
pub fn slope_raised(slope: Slope, window: u64) -> Slope
    ensures { result ≡ slope_raised slope window }
{
    let bytes = share(window, slope.rounds).max(NetworkModel::DEFAULT_MSS);
    Slope {
        rounds: next_rounds(slope.rounds),
        bytes: Some(bytes),
        ..slope
    }
}
