// A whole number as a float: Rust's `n as f32` and `n as f64`. What the float can hold needs no cut.
ghost use Rattle.std.specs.Prelude.{◌≡◌, ◌^◌, ◌<◌};
ghost use Rattle.std.specs.Float.{binary32, binary64};
ghost use Rattle.std.specs.Float.Ieee.Nearest.{closest};
ghost use Rattle.numbers.specs.Inner.{Spare};
ghost use Rattle.numbers.specs.IntToFloat.{int_to_float};

use std::num::nearest_u64_to_f64;

// How many digits n has beyond the p that a float keeps.
fn spare_digits(n: u64, p: u64) -> u64
    requires { (0 < p) × (p < 64) }
    ensures { Spare p n result }
{
    let digits: u64 = 64 - (u64::leading_zeros(n) as u64);
    if digits > p { digits - p } else { 0 }
}

// n / 2^k to the nearest whole number, a tie to the even one.
fn round_shift(n: u64, k: u64) -> u64
    requires { k < 63 }
    ensures { result ≡ closest n (2 ^ k) }
{
    let unit: u64 = 1 << k;
    let whole: u64 = n >> k;
    let twice: u64 = (n & (unit - 1)) * 2;
    if twice + (whole & 1) > unit {
        whole + 1
    } else {
        whole
    }
}

// The `f32` nearest to n, a tie to the one whose last digit is even.
pub fn to_f32(n: u64) -> f32
    ensures { result ≡ int_to_float binary32 n }
{
    if n <= 0x100_0000 {
        return n as f32;
    }
    if n < 0x1_0000_0000_0000 {
        return of_halves(n);
    }
    let k: u64 = spare_digits(n, 24);
    let digits: u64 = round_shift(n, k);
    let place: u64 = (1 << k) >> 24;
    (digits as f32) * (place as f32) * 16777216.0
}

// The same of a number of at most 48 digits: each half of 24 is a float as it is, and only the sum
// rounds.
fn of_halves(n: u64) -> f32
    requires { n < 0x1_0000_0000_0000 }
    ensures { result ≡ int_to_float binary32 n }
{
    ((n >> 24) as f32) * 16777216.0 + ((n & 0xff_ffff) as f32)
}

// The `f64` nearest to n, a tie to the one whose last digit is even.
pub fn to_f64(n: u64) -> f64
    ensures { result ≡ int_to_float binary64 n }
{
    if n <= 0x20_0000_0000_0000 {
        return n as f64;
    }
    nearest_u64_to_f64(n)
}
