// A float as a whole number: Rust's `x as u64` for an `f32`, and `x.round() as u64` for an `f64`.
ghost use Rattle.std.specs.Prelude.{◌≡◌, from_bits};
ghost use Rattle.std.specs.Float.{binary32, binary64};
ghost use Rattle.numbers.specs.FloatToInt.{float_to_int, round_away};

// x without its fraction; 0 for a NaN or a negative, 2^64 - 1 for what is too large.
pub fn to_u64(x: f32) -> u64
    ensures { result ≡ float_to_int 64 x }
{
    if x != x {
        return 0;
    }
    pattern_to_u64(f32::to_bits(x))
}

// The same of a pattern. Below 1's it is 0, from 2^64's to an infinity's too large; those above are a
// NaN's or have the sign.
pub fn pattern_to_u64(bits: u32) -> u64
    ensures { result ≡ float_to_int 64 (from_bits binary32 bits) }
{
    if (0x3f80_0000 <= bits) & (bits < 0x5f80_0000) {
        let digits: u64 = ((bits & 0x7f_ffff) | 0x80_0000) as u64;
        return (digits << 40) >> (190 - (bits >> 23));
    }
    if (0x5f80_0000 <= bits) & (bits <= 0x7f80_0000) {
        return 0xffff_ffff_ffff_ffff;
    }
    0
}

// x to the nearest whole number, a half away from zero; 0 for a NaN or a negative, 2^64 - 1 for
// what is too large.
pub fn round_to_u64(x: f64) -> u64
    ensures { result ≡ float_to_int 64 (round_away binary64 x) }
{
    if x != x {
        return 0;
    }
    pattern_round_to_u64(f64::to_bits(x))
}

// The same of a pattern, likewise from 1/2's on.
pub fn pattern_round_to_u64(bits: u64) -> u64
    ensures { result ≡ float_to_int 64 (round_away binary64 (from_bits binary64 bits)) }
{
    if (0x3fe0_0000_0000_0000 <= bits) & (bits < 0x43f0_0000_0000_0000) {
        let exponent: u64 = bits >> 52;
        let digits: u64 = (bits & 0xf_ffff_ffff_ffff) | 0x10_0000_0000_0000;
        if exponent < 1075 {
            return (digits + (1 << (1074 - exponent))) >> (1075 - exponent);
        }
        return digits << (exponent - 1075);
    }
    if (0x43f0_0000_0000_0000 <= bits) & (bits <= 0x7ff0_0000_0000_0000) {
        return 0xffff_ffff_ffff_ffff;
    }
    0
}
