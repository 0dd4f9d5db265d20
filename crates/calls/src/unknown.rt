// A number that is no call's.
ghost use Rattle.std.specs.Prelude.{◌≡◌};
ghost use Rattle.units.specs.Reply.{number};
ghost use Rattle.calls.specs.Unknown.{unknown_number};

use state::NetworkModel;
use state::faults::NO_CALL;
use units::Refusal;

// The reply to it.
pub(crate) fn unknown(model: NetworkModel) -> Result<(), Refusal>
    ensures { number result ≡ unknown_number model }
{
    model.given(false, NO_CALL)
}
