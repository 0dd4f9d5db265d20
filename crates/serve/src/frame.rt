// A frame: a state of 408 bytes, and a hundred calls of 392 that are made in it one after the other. Each is answered
// by 552 bytes.
ghost use Rattle.std.specs.Prelude.{◌≡◌, length};

use crate::call::answer_call;

pub fn answer(request: &[u8], answers: &mut [u8])
    requires { (length request.now ≡ 39608) × (length answers.old ≡ 55200) }
{
    let mut state = [0u8; 408];
    let (before, calls) = request.split_at(408);
    state.copy_from_slice(before);
    for (call, answer) in calls.chunks_exact(392).zip(answers.chunks_exact_mut(552)) {
        answer_call(&mut state, call, answer);
    }
}
