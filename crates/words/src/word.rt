// One word: a flag, an f32.
ghost use Rattle.std.specs.Prelude.{◌≡◌};
ghost use Rattle.words.specs.Word.{or_outside, flag_fits, float_word, float_of, float_fits};

use std::num::{f32_from_bits_with_nan, f32_to_bits_with_nan};

// Whether a writer writes the word for a flag.
pub fn flag_fits(word: u64) -> bool
    ensures { result ≡ flag_fits word }
{
    word <= 1
}

// The number; out of bounds where the words it is given with are no writer's.
pub fn or_outside(fits: bool, number: u64) -> u64
    ensures { result ≡ or_outside fits number }
{
    if fits { number } else { u64::MAX }
}

// The f32 of a pattern of 32 bits, the NaN for more.
pub fn float_of(word: u64) -> f32
    ensures { result ≡ float_of word }
{
    if word < 0x1_0000_0000 {
        f32_from_bits_with_nan(word as u32)
    } else {
        f32::NAN
    }
}

// Whether a writer writes the word for an f32.
pub fn float_fits(word: u64) -> bool
    ensures { result ≡ float_fits word }
{
    word < 0x1_0000_0000
}

// The pattern of x.
pub fn float_word(x: f32) -> u64
    ensures { result ≡ float_word x }
{
    u64::from(f32_to_bits_with_nan(x))
}
