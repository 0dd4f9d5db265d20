// Conversions, and products by way of a float. A float crosses as its bits.
ghost use Rattle.std.specs.Prelude.{◌≡◌};
ghost use Rattle.guovssalu.specs.Conversions.{f32_bits, f64_bits, f32_to_u64, f64_round_to_u64, scaled_by, bandwidth_by, bytes_in};

use numbers::{pattern_round_to_u64, pattern_to_u64, scale, to_f32, to_f64};
use std::num::{f32_from_bits_with_nan, f32_to_bits_with_nan, f64_to_bits_with_nan};
use units::{Bandwidth, Duration};

// n as an `f32`.
pub fn guovssalu_u64_to_f32(n: u64) -> u32
    ensures { result ≡ f32_bits n }
{
    f32_to_bits_with_nan(to_f32(n))
}

// n as an `f64`.
pub fn guovssalu_u64_to_f64(n: u64) -> u64
    ensures { result ≡ f64_bits n }
{
    f64_to_bits_with_nan(to_f64(n))
}

// An `f32` without its fraction.
pub fn guovssalu_f32_to_u64(bits: u32) -> u64
    ensures { result ≡ f32_to_u64 bits }
{
    pattern_to_u64(bits)
}

// An `f64` to the nearest whole number.
pub fn guovssalu_f64_round_to_u64(bits: u64) -> u64
    ensures { result ≡ f64_round_to_u64 bits }
{
    pattern_round_to_u64(bits)
}

// n times an `f32`, as a byte count is scaled.
pub fn guovssalu_scale(n: u64, gain: u32) -> u64
    ensures { result ≡ scaled_by n gain }
{
    scale(n, f32_from_bits_with_nan(gain))
}

// A bandwidth times an `f32`.
pub fn guovssalu_bandwidth_mul_f32(bandwidth: u64, gain: u32) -> u64
    ensures { result ≡ bandwidth_by bandwidth gain }
{
    let product = Bandwidth(bandwidth).mul_f32(f32_from_bits_with_nan(gain));
    product.0
}

// The whole bytes that a bandwidth carries in a period.
pub fn guovssalu_to_bytes_per_period(bandwidth: u64, nanos: u64) -> u64
    ensures { result ≡ bytes_in bandwidth nanos }
{
    Bandwidth(bandwidth).to_bytes_per_period(Duration(nanos))
}
