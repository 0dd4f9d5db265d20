// A line where it stands in a trace.
ghost use Rattle.std.specs.Prelude.{◌≡◌};
ghost use Rattle.trace.specs.Placed.{placed_at};

use text::line::{BadField, Line};

// A send or an event before any accepted start is refused with 6, and no field of it is at fault.
#[tactic(auto, unfolding(crate::specs::Placed::early, crate::specs::Placed::placed_at))]
pub fn placed(started: bool, l: Result<Line, BadField>) -> Result<Line, BadField>
    ensures { result ≡ placed_at started l }
{
    if started {
        return l;
    }
    match l? {
        Line::Start { .. } => l,
        Line::Sent { .. } => Err(BadField { field: 0 }),
        Line::Event(_) => Err(BadField { field: 0 }),
    }
}
