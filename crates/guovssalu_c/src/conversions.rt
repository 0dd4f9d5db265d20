// Conversions, and products by way of a float. A float crosses as its bits.
ghost use Rattle.std.specs.Prelude.{◌≡◌};
ghost use Rattle.guovssalu.specs.Conversions.{f32_bits, f64_bits, f32_to_u64, f64_round_to_u64, scaled_by, bandwidth_by, bytes_in};

use guovssalu::conversions;

// n as an `f32`.
#[unsafe(no_mangle)]
pub extern "C" fn guovssalu_u64_to_f32(n: u64) -> u32
    ensures { result ≡ f32_bits n }
{
    conversions::guovssalu_u64_to_f32(n)
}

// n as an `f64`.
#[unsafe(no_mangle)]
pub extern "C" fn guovssalu_u64_to_f64(n: u64) -> u64
    ensures { result ≡ f64_bits n }
{
    conversions::guovssalu_u64_to_f64(n)
}

// An `f32` without its fraction.
#[unsafe(no_mangle)]
pub extern "C" fn guovssalu_f32_to_u64(bits: u32) -> u64
    ensures { result ≡ f32_to_u64 bits }
{
    conversions::guovssalu_f32_to_u64(bits)
}

// An `f64` to the nearest whole number.
#[unsafe(no_mangle)]
pub extern "C" fn guovssalu_f64_round_to_u64(bits: u64) -> u64
    ensures { result ≡ f64_round_to_u64 bits }
{
    conversions::guovssalu_f64_round_to_u64(bits)
}

// n times an `f32`, as a byte count is scaled.
#[unsafe(no_mangle)]
pub extern "C" fn guovssalu_scale(n: u64, gain: u32) -> u64
    ensures { result ≡ scaled_by n gain }
{
    conversions::guovssalu_scale(n, gain)
}

// A bandwidth times an `f32`.
#[unsafe(no_mangle)]
pub extern "C" fn guovssalu_bandwidth_mul_f32(bandwidth: u64, gain: u32) -> u64
    ensures { result ≡ bandwidth_by bandwidth gain }
{
    conversions::guovssalu_bandwidth_mul_f32(bandwidth, gain)
}

// The whole bytes that a bandwidth carries in a period.
#[unsafe(no_mangle)]
pub extern "C" fn guovssalu_to_bytes_per_period(bandwidth: u64, nanos: u64) -> u64
    ensures { result ≡ bytes_in bandwidth nanos }
{
    conversions::guovssalu_to_bytes_per_period(bandwidth, nanos)
}
