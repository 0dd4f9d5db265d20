// The model, run over calls on a state in lent bytes (docs/LAYOUT.md).
ghost use Rattle.std.specs.Prelude.{◌≡◌, ◌*◌, ◌≤◌, length};
ghost use Rattle.std.proofs.lemmas.List.Edits.{sets};
ghost use Rattle.units.specs.Reply.{number, fault};
ghost use Rattle.state.specs.Faults.{first, named};
ghost use Rattle.words.specs.Words.{all_bytes};
ghost use Rattle.guovssalu.specs.ModelRun.{state_in, encodes_none, calls_in, no_lists, answers_to, left_by, model_row, length_faults, model_reply, state_out, answers_out};

use dispatch::one_call::{event_finish, event_start, other, send};
use layout::cycle::cycle_from;
use layout::form::is_state;
use layout::network_model::model_from;
use layout::state_words::state_words;
use state::faults::{Kind, first_of};
use state::refusals::{Rows, or_short, refusal};
use state::{Cycle, NetworkModel};
use units::Refusal;
use words::{get_word, get_words, put_words};

// Carries out the calls in order, answers each and leaves the new state: 1 for bytes that encode no
// state, 2.8 for a length that is none of a state's, at place 1, or of whole calls, at place 2, 7 for
// answers under 144 bytes a call.
pub fn guovssalu_run(state: &mut [u8], calls: &[u8], answers: &mut [u8]) -> u64
    ensures value { result ≡ model_reply state.old calls.now (length answers.old) }
    ensures state_after { state.new ≡ state_out state.old calls.now no_lists answers.old }
    ensures answers_after { answers.new ≡ answers_out state.old calls.now no_lists answers.old }
{
    guovssalu_run_lists(state, calls, &[], answers)
}

// The same with lists of words, from which an event takes more acked numbers than a call has room for, by place and
// count.
pub fn guovssalu_run_lists(state: &mut [u8], calls: &[u8], lists: &[u64], answers: &mut [u8]) -> u64
    ensures value { result ≡ model_reply state.old calls.now (length answers.old) }
    ensures state_after { state.new ≡ state_out state.old calls.now lists.now answers.old }
    ensures answers_after { answers.new ≡ answers_out state.old calls.now lists.now answers.old }
{
    if let Err(refusal) = model_reply(state, calls, answers.len()) {
        return refusal.word();
    }
    let words = state_in(state);
    let left = run_calls(
        model_from(&words),
        cycle_from(&words),
        calls,
        lists,
        answers,
    );
    put_words(state, 0, &left);
    0
}

// Beside the estimator's (trips): sizes, forms and definitions differ.
fn model_reply(state: &[u8], calls: &[u8], room: usize) -> Result<(), Refusal>
    ensures reply { number result ≡ model_row state.now calls.now room }
    ensures fault { fault result ≡ named (model_row state.now calls.now room)
        (first (length_faults state.now calls.now)) }
{
    let whole = state.len() == 408;
    let even = calls.len() % 392 == 0;
    let rows = Rows {
        stored: encodes_none(state),
        argument: !whole | !even,
        ..Rows::NONE
    };
    let faults = [
        Kind::ListLength.unless(whole, 1),
        Kind::ListLength.unless(even, 2),
    ];
    let reply = refusal(rows, first_of(&faults));
    or_short(reply, room < 144 * (calls.len() / 392))
}

// Whether bytes as many as a state has encode none.
#[tactic(auto, unfolding(crate::specs::ModelRun::encodes_none))]
fn encodes_none(state: &[u8]) -> bool
    ensures { result ≡ encodes_none state.now }
{
    if state.len() != 408 {
        return false;
    }
    let words = state_in(state);
    !is_state(&words)
}

// The words of a state.
fn state_in(state: &[u8]) -> [u64; 51]
    requires { length state.now ≡ 408 }
    ensures { result ≡ state_in state.now }
{
    let mut words = [0u64; 51];
    get_words(state, 0, &mut words);
    words
}

// Makes the calls in order from a model and a cycle, writes their answers, and gives the words of the state that they leave.
// By index: after an adapter of `iter_mut`, as `zip`, nothing is known of what was written.
// `inline(always)`: called, it is handed copies of the model and the cycle, which a run of one call pays for.
#[inline(always)]
fn run_calls(
    model: NetworkModel,
    cycle: Cycle,
    calls: &[u8],
    lists: &[u64],
    answers: &mut [u8],
) -> [u64; 51]
    requires { 144 * calls_in calls.now ≤ length answers.old }
    ensures value { result ≡ left_by model cycle calls.now lists.now 0 (calls_in calls.now) }
    ensures answers_after { answers.new ≡ sets answers.old 0 (all_bytes (answers_to model cycle calls.now lists.now 0 (calls_in calls.now))) }
{
    let mut m = model;
    let mut y = cycle;
    let mut fine = m.ok();
    for i in 0..calls.len() / 392 {
        let at = 392 * i;
        let to = 144 * i;
        let call = &calls[at..at + 392];
        let answer = &mut answers[to..to + 144];
        // A call is its number, a word of the C interface.
        match get_word(call, 0) {
            1 => send(&mut m, fine, call, answer),
            3 => event_start(&mut m, fine, call, lists, answer),
            4 => event_finish(&mut m, fine, call, lists, answer),
            _ => {
                let _ = other(&mut m, &mut y, call, lists, answer);
                fine = m.ok();
            }
        }
    }
    state_words(m, y)
}
