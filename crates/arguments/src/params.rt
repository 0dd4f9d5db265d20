// The parameters: words 38 to 48 of a call.
ghost use Rattle.std.specs.Prelude.{◌≡◌};
ghost use Rattle.arguments.specs.Params.{params_from};

use state::Params;
use units::Duration;
use words::word::{flag_fits, float_of, or_outside};

// The parameters in a call's words.
#[tactic(auto, unfolding(crate::specs::Params::params_from))]
pub fn params_from(n: &[u64; 49]) -> Params
    ensures { result ≡ params_from n.now }
{
    Params {
        beta: float_of(n[38]),
        loss: float_of(n[39]),
        headroom: float_of(n[40]),
        growth: float_of(n[41]),
        cwnd: float_of(n[42]),
        pacing: float_of(n[43]),
        rounds: n[44],
        queueing: n[45],
        period: Duration(or_outside(flag_fits(n[48]), n[46])),
        base: Duration(n[47]),
        ignore: n[48] == 1,
    }
}
