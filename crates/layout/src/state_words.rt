// The state: the model's words, then the cycle's.
ghost use Rattle.std.specs.Prelude.{◌≡◌, ◌++◌};
ghost use Rattle.layout.specs.NetworkModel.{model_words};
ghost use Rattle.layout.specs.Cycle.{cycle_words};

use crate::cycle::with_cycle;
use crate::network_model::with_model;
use state::{Cycle, NetworkModel};

// All words of a state.
#[tactic(auto, unfolding(crate::specs::NetworkModel::model_words, crate::specs::Cycle::cycle_words))]
pub fn state_words(model: NetworkModel, cycle: Cycle) -> [u64; 51]
    ensures { result ≡ model_words model ++ cycle_words cycle }
{
    with_cycle(with_model([0; 51], model), cycle)
}
