// The model, run over calls on a state in lent bytes (docs/LAYOUT.md).
ghost use Rattle.std.specs.Prelude.{◌≡◌, length};
ghost use Rattle.guovssalu.specs.ModelRun.{no_lists, model_reply, state_out, answers_out};

use guovssalu::model_run;

// Carries out the calls in order, answers each and leaves the new state: 1 for bytes that encode no
// state, 2.8 for a length that is none of a state's, at place 1, or of whole calls, at place 2, 7 for
// answers under 144 bytes a call.
#[unsafe(no_mangle)]
pub extern "C" fn guovssalu_run(state: &mut [u8], calls: &[u8], answers: &mut [u8]) -> u64
    ensures value { result ≡ model_reply state.old calls.now (length answers.old) }
    ensures state_after { state.new ≡ state_out state.old calls.now no_lists answers.old }
    ensures answers_after { answers.new ≡ answers_out state.old calls.now no_lists answers.old }
{
    model_run::guovssalu_run(state, calls, answers)
}

// The same with lists of words, from which an event takes more acked numbers than a call has room for, by place and
// count.
#[unsafe(no_mangle)]
pub extern "C" fn guovssalu_run_lists(
    state: &mut [u8],
    calls: &[u8],
    lists: &[u64],
    answers: &mut [u8],
) -> u64
    ensures value { result ≡ model_reply state.old calls.now (length answers.old) }
    ensures state_after { state.new ≡ state_out state.old calls.now lists.now answers.old }
    ensures answers_after { answers.new ≡ answers_out state.old calls.now lists.now answers.old }
{
    model_run::guovssalu_run_lists(state, calls, lists, answers)
}
