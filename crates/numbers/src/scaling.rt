// A whole number times a float, as a whole number again.
ghost use Rattle.std.specs.Prelude.{◌≡◌};
ghost use Rattle.numbers.specs.Scaling.{scaled, scaled_f64};

use crate::float_to_int::{round_to_u64, to_u64};
use crate::int_to_float::{to_f32, to_f64};

// n as an `f32`, times g, without its fraction.
#[tactic(auto, unfolding(crate::specs::Scaling::scaled))]
pub fn scale(n: u64, g: f32) -> u64
    ensures { result ≡ scaled n g }
{
    to_u64(to_f32(n) * g)
}

// n as an `f64`, times g, to the nearest whole number.
#[tactic(auto, unfolding(crate::specs::Scaling::scaled_f64))]
pub fn scale_f64(n: u64, g: f64) -> u64
    ensures { result ≡ scaled_f64 n g }
{
    round_to_u64(to_f64(n) * g)
}
