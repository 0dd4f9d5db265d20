// One call of a run: carried out, with its answer written. A send and an event's two calls have ways
// of their own, since nearly all calls are of these, and are told whether the model is within its
// bounds. Each is lent the call's bytes and the answer's: it reads 392 and writes 144.
// `fine` is no invariant of a type: see `sent_tested` (changes).
ghost use Rattle.std.specs.Prelude.{◌≡◌, ◌∷◌, ◌≤◌, length};
ghost use Rattle.std.proofs.lemmas.List.Edits.{sets};
ghost use Rattle.state.specs.NetworkModel.{model_ok};
ghost use Rattle.words.specs.Words.{all_bytes};
ghost use Rattle.units.specs.Reply.{reply_word};
ghost use Rattle.state.specs.Refusals.{caused, given};
ghost use Rattle.state.specs.Answers.{settled};
ghost use Rattle.state.specs.Faults.{first, replied, sent_faults};
ghost use Rattle.places.specs.Places.{faults_of};
ghost use Rattle.arguments.specs.CongestionEvent.{event_in, event_words};
ghost use Rattle.dispatch.specs.Outcome.{no_event, send_number, send_leaves, event_start_number, event_start_leaves, event_start_words, event_finish_number, event_finish_leaves};
ghost use Rattle.dispatch.specs.OneCall.{own_at, call_at, call_word, answer_words};
ghost use Rattle.dispatch.specs.Inner.{send_word, other_outcome};

use crate::outcome::carry_out;
use arguments::congestion_event::{event_from, event_in, event_words};
use arguments::params::params_from;
use arguments::sample::{greatest_acked, sample_from};
use events::{finish_tested, start_tested};
use places::places::fault_of;
use state::congestion_event::CongestionEvent;
use state::faults::sent_fault;
use state::refusals::Cause;
use state::{Cycle, NetworkModel};
use units::Moment;
use units::refusal::fault_word;
use words::{get_word, get_words, put_words};

// Call 1, a send, which reads four of its words.
pub fn send(model: &mut NetworkModel, fine: bool, call: &[u8], answer: &mut [u8])
    requires { (392 ≤ length call.now) × (144 ≤ length answer.old) × (fine ≡ model_ok model.old) }
    ensures value { model.new ≡ send_leaves (own_at call.now 0) model.old }
    ensures answer_after { answer.new ≡ sets answer.old 0 (all_bytes (send_word (own_at call.now 0) model.old ∷ 0 ∷ no_event)) }
{
    let time = Moment(get_word(call, 8));
    let inflight = get_word(call, 16);
    let packet = get_word(call, 24);
    let bytes = get_word(call, 32);
    let reply = changes::sent_tested(model, fine, time, inflight, packet, bytes);
    let word = sent_word(reply, time, inflight, bytes);
    put_answer(answer, word, 0, &[0; 16]);
}

// The word of a send's reply.
#[tactic(auto, unfolding(state::specs::Faults::named))]
fn sent_word(reply: Result<(), Cause>, time: Moment, inflight: u64, bytes: u64) -> u64
    ensures { result ≡ replied (caused reply) (first (sent_faults time inflight bytes)) }
{
    match reply {
        Ok(()) => 0,
        Err(Cause::Argument) => fault_word(sent_fault(time, inflight, bytes)),
        Err(cause) => cause.row(),
    }
}

// Call 3, an event's start, whose acked numbers can stand in the lists.
#[tactic(auto, unfolding(crate::specs::OneCall::call_word))]
pub fn event_start(
    model: &mut NetworkModel,
    fine: bool,
    call: &[u8],
    lists: &[u64],
    answer: &mut [u8],
)
    requires { (392 ≤ length call.now) × (144 ≤ length answer.old) × (fine ≡ model_ok model.old) }
    ensures value { model.new ≡ event_start_leaves (call_at call.now lists.now 0) model.old }
    ensures answer_after { answer.new ≡ sets answer.old 0 (all_bytes (call_word (call_at call.now lists.now 0) model.old (event_start_number (call_at call.now lists.now 0) model.old) ∷ 0 ∷ event_start_words (call_at call.now lists.now 0) model.old)) }
{
    let words = call_words(call);
    let least = model.minrtt.timestamp;
    let mut event = event_from(&words);
    let reply = start_tested(
        model,
        fine,
        params_from(&words),
        &mut event,
        sample_from(&words, lists),
        greatest_acked(&words, lists),
    );
    let word = reply_word(reply, least, call, lists);
    put_answer(answer, word, 0, &event_left(reply, event, &words));
}

// The record's words after an event; where it was refused, as they were handed in.
#[tactic(auto, unfolding(state::specs::Answers::settled))]
fn event_left(reply: Result<(), Cause>, after: CongestionEvent, words: &[u64; 49]) -> [u64; 16]
    ensures { result ≡ settled (caused reply) (event_words after) (event_in words.now) }
{
    match reply {
        Ok(()) => event_words(after),
        Err(_) => event_in(words),
    }
}

// Call 4, an event's finish.
#[tactic(auto, unfolding(crate::specs::OneCall::call_word))]
pub fn event_finish(
    model: &mut NetworkModel,
    fine: bool,
    call: &[u8],
    lists: &[u64],
    answer: &mut [u8],
)
    requires { (392 ≤ length call.now) × (144 ≤ length answer.old) × (fine ≡ model_ok model.old) }
    ensures value { model.new ≡ event_finish_leaves (own_at call.now 0) model.old }
    ensures answer_after { answer.new ≡ sets answer.old 0 (all_bytes (call_word (call_at call.now lists.now 0) model.old (event_finish_number (own_at call.now 0) model.old) ∷ 0 ∷ no_event)) }
{
    let words = call_words(call);
    let least = model.minrtt.timestamp;
    let reply = finish_tested(model, fine, event_from(&words));
    let word = reply_word(reply, least, call, lists);
    put_answer(answer, word, 0, &[0; 16]);
}

// Every other call, and what it answers.
#[tactic(auto, unfolding(crate::specs::OneCall::call_word, crate::specs::OneCall::answer_words))]
pub fn other(
    model: &mut NetworkModel,
    cycle: &mut Cycle,
    call: &[u8],
    lists: &[u64],
    answer: &mut [u8],
) -> Result<u64, Cause>
    requires { (392 ≤ length call.now) × (144 ≤ length answer.old) }
    ensures reply { caused result ≡ (other_outcome (own_at call.now 0) model.old cycle.old).reply }
    ensures value { given result 0 ≡ (other_outcome (own_at call.now 0) model.old cycle.old).value }
    ensures model { model.new ≡ (other_outcome (own_at call.now 0) model.old cycle.old).model }
    ensures cycle { cycle.new ≡ (other_outcome (own_at call.now 0) model.old cycle.old).cycle }
    ensures answer_after { answer.new ≡ sets answer.old 0 (all_bytes (answer_words (call_at call.now lists.now 0) model.old (other_outcome (own_at call.now 0) model.old cycle.old))) }
{
    let words = call_words(call);
    let least = model.minrtt.timestamp;
    let reply = carry_out(model, cycle, &words);
    let word = reply_word(reply, least, call, lists);
    put_answer(answer, word, reply.unwrap_or(0), &[0; 16]);
    reply
}

// The word of a call's reply: its row, and where that is 2 the first fault of the call's words, which is seldom needed.
#[tactic(auto, unfolding(state::specs::Faults::named))]
fn reply_word<T: Drop>(reply: Result<T, Cause>, least: Moment, call: &[u8], lists: &[u64]) -> u64
    requires { 392 ≤ length call.now }
    ensures { result ≡ replied (caused reply) (first (faults_of (call_at call.now lists.now 0) least)) }
{
    match reply {
        Ok(_) => 0,
        Err(Cause::Argument) => fault_found(least, call, lists),
        Err(cause) => cause.row(),
    }
}

// The word of a refusal 2, with the first fault of the call. `cold`: the loop of a run is built for calls that are done.
#[cold]
fn fault_found(least: Moment, call: &[u8], lists: &[u64]) -> u64
    requires { 392 ≤ length call.now }
    ensures { result ≡ reply_word 2 (first (faults_of (call_at call.now lists.now 0) least)) }
{
    let words = call_words(call);
    fault_word(fault_of(least, &words, lists))
}

// The words of a call.
fn call_words(call: &[u8]) -> [u64; 49]
    requires { 392 ≤ length call.now }
    ensures { result ≡ own_at call.now 0 }
{
    let mut words = [0u64; 49];
    get_words(call, 0, &mut words);
    words
}

// Writes an answer: the reply's word, the value and the record's words.
fn put_answer(answer: &mut [u8], reply: u64, value: u64, event: &[u64; 16])
    requires { (144 ≤ length answer.old) × (length event.now ≡ 16) }
    ensures { answer.new ≡ sets answer.old 0 (all_bytes (reply ∷ value ∷ event.now)) }
{
    put_words(answer, 0, &[reply, value]);
    put_words(answer, 16, event);
}
