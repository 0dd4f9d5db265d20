// Call 50: the exported run of the round-trip estimator. Its answer shows all of the memory, of which only the first
// bytes are lent, so that bytes which must be kept are seen.
ghost use Rattle.std.specs.Prelude.{◌≡◌, length};

use crate::lent::at_most;
use guovssalu::rtt_run::guovssalu_rtt_run;
use words::{get_word, put_words};

// Words 1 to 3 are the bytes of state, of calls and of answers that are lent. From word 4 on stands the memory of the
// state, 56 bytes, from word 11 on that of the calls, 304. After the reply stands the state's, then the answers', 480.
pub fn rtt_run(call: &[u8], answer: &mut [u8])
    requires { (length call.now ≡ 392) × (length answer.old ≡ 552) }
{
    let mut state = [0u8; 56];
    state.copy_from_slice(&call[32..88]);
    answer[72..].fill(165);
    let state_end = at_most(get_word(call, 8), 56);
    let calls_end = 88 + at_most(get_word(call, 16), 304);
    let lent_end = 72 + at_most(get_word(call, 24), 480);
    let reply = guovssalu_rtt_run(
        &mut state[..state_end],
        &call[88..calls_end],
        &mut answer[72..lent_end],
    );
    answer[16..72].copy_from_slice(&state);
    put_words(answer, 0, &[reply, 0]);
}
