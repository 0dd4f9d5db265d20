// The round-trip estimator, run over calls on an estimator in lent bytes (docs/LAYOUT.md).
ghost use Rattle.std.specs.Prelude.{◌≡◌, length};
ghost use Rattle.guovssalu.specs.RttRun.{rtt_reply, rtt_state_out, rtt_answers_out};

use trips::trips::{run_calls, run_reply, stats_in, stats_words};
use words::put_words;

// Carries out the calls in order, answers each and leaves the new estimator: 1 for bytes that encode
// no estimator, 2.8 for a length that is none of an estimator's, at place 1, or of whole calls, at
// place 2, 7 for answers under 40 bytes a call.
pub fn guovssalu_rtt_run(state: &mut [u8], calls: &[u8], answers: &mut [u8]) -> u64
    ensures value { result ≡ rtt_reply state.old calls.now (length answers.old) }
    ensures state_after { state.new ≡ rtt_state_out state.old calls.now answers.old }
    ensures answers_after { answers.new ≡ rtt_answers_out state.old calls.now answers.old }
{
    if let Err(refusal) = run_reply(state, calls, answers.len()) {
        return refusal.word();
    }
    let left = run_calls(stats_in(state), calls, answers);
    put_words(state, 0, &stats_words(left));
    0
}
