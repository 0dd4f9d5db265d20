// Calls 48 and 49: the exported calls that write into an output of any length. Their answer shows all of the memory,
// of which only the first bytes are lent, so that bytes which must be kept are seen.
ghost use Rattle.std.specs.Prelude.{◌≡◌, ◌≤◌, length};

use guovssalu::filter_run::guovssalu_filter_run;
use guovssalu::slope::guovssalu_raise_inflight_high_slope;
use words::{get_word, put_words};

// Call 48: words 1 to 3 are the window, the bytes of pairs and the bytes lent; the pairs stand from word 4 on.
pub fn filter_run(call: &[u8], answer: &mut [u8])
    requires { (length call.now ≡ 392) × (length answer.old ≡ 552) }
{
    let window = get_word(call, 8);
    let pairs_end = 32 + at_most(get_word(call, 16), 272);
    let lent_end = 16 + at_most(get_word(call, 24), 536);
    answer[16..].fill(165);
    let reply = guovssalu_filter_run(window, &call[32..pairs_end], &mut answer[16..lent_end]);
    put_words(answer, 0, &[reply, 0]);
}

// Call 49: words 1 to 3 are the rounds, the window and the bytes lent.
pub fn slope(call: &[u8], answer: &mut [u8])
    requires { (length call.now ≡ 392) × (length answer.old ≡ 552) }
{
    let rounds = get_word(call, 8);
    let window = get_word(call, 16);
    let lent_end = 16 + at_most(get_word(call, 24), 536);
    answer[16..].fill(165);
    let reply = guovssalu_raise_inflight_high_slope(rounds, window, &mut answer[16..lent_end]);
    put_words(answer, 0, &[reply, 0]);
}

// The number, or the most where it is larger.
pub fn at_most(number: u64, most: usize) -> usize
    ensures { result ≤ most }
{
    number.min(most as u64) as usize
}
