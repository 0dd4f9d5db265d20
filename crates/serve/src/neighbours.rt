// Call 47: a function's answers to 64 neighbouring numbers.
// Calls and functions are numbers: the frames of the comparison write them so.
ghost use Rattle.std.specs.Prelude.{◌≡◌, length};

use guovssalu::conversions::{
    guovssalu_bandwidth_mul_f32, guovssalu_f32_to_u64, guovssalu_f64_round_to_u64, guovssalu_scale,
    guovssalu_to_bytes_per_period, guovssalu_u64_to_f32, guovssalu_u64_to_f64,
};
use words::{get_word, put_words};

// Words 1 to 3 of the call are the function, the first number and the other number. The answers are words 2 to 65.
pub fn answer(call: &[u8], out: &mut [u8])
    requires { (length call.now ≡ 392) × (length out.old ≡ 552) }
{
    let function = get_word(call, 8);
    let first = get_word(call, 16);
    let other = get_word(call, 24);
    put_words(out, 0, &answers(function, first, other));
}

fn answers(function: u64, first: u64, other: u64) -> [u64; 69] {
    let mut words = [0u64; 69];
    let mut next = first;
    for word in &mut words[2..66] {
        *word = value(function, next, other);
        next = next.wrapping_add(1);
    }
    words
}

fn value(function: u64, n: u64, other: u64) -> u64 {
    match function {
        0 => guovssalu_u64_to_f32(n) as u64,
        1 => guovssalu_u64_to_f64(n),
        2 => guovssalu_f32_to_u64(low_bits(n)),
        3 => guovssalu_f64_round_to_u64(n),
        4 => guovssalu_scale(other, low_bits(n)),
        5 => guovssalu_bandwidth_mul_f32(other, low_bits(n)),
        _ => guovssalu_to_bytes_per_period(other, n),
    }
}

// The low 32 bits, a pattern of an `f32`.
// In answers too: `as` has to be proved to lose nothing, so a number is cut first, and they share no crate for it.
fn low_bits(n: u64) -> u32 {
    (n % 0x1_0000_0000) as u32
}
