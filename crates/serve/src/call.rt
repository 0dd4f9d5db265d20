// One call of a frame, from its bytes.
// Calls and functions are numbers: the frames of the comparison write them so.
ghost use Rattle.std.specs.Prelude.{◌≡◌, length};

use crate::put::put;
use crate::{estimator, filter, lent, neighbours};
use guovssalu::model_run::guovssalu_run;
use words::{get_word, put_words};

// Answers the call, 392 bytes, by 552: of those that show the state, the answer is 144 bytes, and after them stands
// the state that the call left.
pub fn answer_call(state: &mut [u8; 408], call: &[u8], answer: &mut [u8])
    requires { (length call.now ≡ 392) × (length answer.old ≡ 552) }
{
    match get_word(call, 0) {
        46 => filter::answer(call, answer),
        47 => return neighbours::answer(call, answer),
        48 => return lent::filter_run(call, answer),
        49 => return lent::slope(call, answer),
        50 => return estimator::rtt_run(call, answer),
        98 | 99 => {
            put(state, call);
            put_words(answer, 0, &[0u64; 18]);
        }
        _ => model_call(state, call, answer),
    }
    answer[144..].copy_from_slice(state);
}

// A call of the model, by the exported run. What the run itself refuses, a state with a malformed word, is answered by
// its reply alone.
fn model_call(state: &mut [u8], call: &[u8], answer: &mut [u8])
    requires { length answer.old ≡ 552 }
{
    let reply = guovssalu_run(state, call, answer);
    if reply != 0 {
        let mut words = [0u64; 18];
        words[0] = reply;
        put_words(answer, 0, &words);
    }
}
