// Bandwidth, in whole bits per second.
ghost use Rattle.std.specs.Prelude.{◌≡◌, ◌*◌, ◌/◌, ◌<◌};
ghost use Rattle.units.specs.Bandwidth.{times_f32, nanos_per_byte, larger_of, smaller_of, is_less, bytes_per_period};

use crate::Duration;
use numbers::scale_f64;

// Bits in a byte times nanoseconds in a second.
const NANOS_PER_BYTE: u64 = 8_000_000_000;

#[derive(Clone, Copy, PartialEq, Eq, PartialOrd, Ord)]
pub struct Bandwidth(pub u64);

impl Bandwidth {
    pub const ZERO: Bandwidth = Bandwidth(0);

    pub const INFINITE: Bandwidth = Bandwidth(u64::MAX);

    // The larger of two bandwidths. This and the next two say of the derived order what the definitions say.
    pub fn max(self, other: Bandwidth) -> Bandwidth
        ensures { result ≡ larger_of self other }
    {
        if self < other { other } else { self }
    }

    // The smaller of two bandwidths.
    pub fn min(self, other: Bandwidth) -> Bandwidth
        ensures { result ≡ smaller_of self other }
    {
        if other < self { other } else { self }
    }

    // Whether this bandwidth is below the other.
    pub fn lt(self, other: Bandwidth) -> bool
        ensures { result ≡ is_less self other }
    {
        self < other
    }

    // This bandwidth times a factor, by way of an `f64`, to the nearest whole number.
    #[tactic(auto, unfolding(crate::specs::Bandwidth::times_f32))]
    pub fn mul_f32(self, factor: f32) -> Bandwidth
        ensures { result ≡ times_f32 self factor }
    {
        Bandwidth(scale_f64(self.0, std::num::f32_to_f64_with_nan(factor)))
    }

    // The whole bytes that this bandwidth carries in a period. Below 4 gigabits and 4 seconds the
    // product has 64 bits.
    pub fn to_bytes_per_period(self, period: Duration) -> u64
        ensures { result ≡ bytes_per_period self period }
    {
        let bits = self.0;
        let nanos = period.0;
        if (bits <= 0xffff_ffff) & (nanos <= 0xffff_ffff) {
            return bits * nanos / NANOS_PER_BYTE;
        }
        if bits == Bandwidth::INFINITE.0 {
            return if nanos == 0 { 0 } else { u64::MAX };
        }
        let rest = bits % NANOS_PER_BYTE;
        let whole = (bits / NANOS_PER_BYTE).saturating_mul(nanos);
        let part = nanos / NANOS_PER_BYTE * rest + mul_div(nanos % NANOS_PER_BYTE, rest);
        whole.saturating_add(part)
    }
}

// The product of two numbers below `NANOS_PER_BYTE`, divided by it: in two parts, since it can pass 64 bits.
fn mul_div(a: u64, b: u64) -> u64
    requires { (a < nanos_per_byte) × (b < nanos_per_byte) }
    ensures { result ≡ a * b / nanos_per_byte }
{
    let high = a / 65536 * b;
    let low = a % 65536 * b;
    high / NANOS_PER_BYTE * 65536 + (high % NANOS_PER_BYTE * 65536 + low) / NANOS_PER_BYTE
}
