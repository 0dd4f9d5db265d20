// The round-trip estimator, run over calls in bytes.
// A call is its number, a word of the C interface, and is matched once (docs/DESIGN-PASS.md).
ghost use Rattle.std.specs.Prelude.{[], ◌∷◌, ◌≡◌, ◌+◌, ◌*◌, ◌≤◌, length};
ghost use Rattle.std.proofs.lemmas.List.Edits.{sets};
ghost use Rattle.units.specs.Reply.{number, fault, reply_word};
ghost use Rattle.state.specs.Answers.{settled};
ghost use Rattle.state.specs.Faults.{first, named};
ghost use Rattle.words.specs.Words.{all_bytes};
ghost use Rattle.rtt.specs.Rtt.{minimum_shown};
ghost use Rattle.trips.specs.Trips.{stats_words, stats_in, encodes_none, call_row, call_faults, call_left, length_shown, shown, answer_at, left_at, calls_in, answers_to, left_by, rtt_row, rtt_faults};

use rtt::RttStats;
use state::bounds::UNSET;
use state::faults::{Kind, NO_CALL, first_of};
use state::refusals::{Rows, or_short, refusal};
use units::{Duration, Refusal};
use words::word::flag_fits;
use words::{get_word, put_words};

// The reply to a run: 1 for bytes that encode no estimator, 2.8 for a length that is none of an estimator's, at place 1,
// or of whole calls, at place 2, 7 for answers under 40 bytes a call.
#[tactic(auto, using(state::proofs::FirstFault::short_named), unfolding(crate::specs::Trips::rtt_row, crate::specs::Trips::rtt_faults))]
pub fn run_reply(state: &[u8], calls: &[u8], room: usize) -> Result<(), Refusal>
    ensures reply { number result ≡ rtt_row state.now calls.now room }
    ensures fault { fault result ≡ named (rtt_row state.now calls.now room)
        (first (rtt_faults state.now calls.now)) }
{
    let whole = state.len() == 48;
    let even = calls.len() % 32 == 0;
    let rows = Rows {
        stored: encodes_none(state),
        argument: !whole | !even,
        ..Rows::NONE
    };
    let faults = [
        Kind::ListLength.unless(whole, 1),
        Kind::ListLength.unless(even, 2),
    ];
    let reply = refusal(rows, first_of(&faults));
    or_short(reply, room < 40 * (calls.len() / 32))
}

// Whether bytes as many as an estimator has encode none.
#[tactic(auto, unfolding(crate::specs::Trips::encodes_none))]
fn encodes_none(state: &[u8]) -> bool
    ensures { result ≡ encodes_none state.now }
{
    state.len() == 48 && !flag_fits(get_word(state, 40))
}

// The estimator in an estimator's bytes.
#[tactic(auto, unfolding(words::specs::Words::words_at, crate::specs::Trips::stats_from))]
pub fn stats_in(state: &[u8]) -> RttStats
    requires { length state.now ≡ 48 }
    ensures { result ≡ stats_in state.now }
{
    RttStats {
        latest: Duration(get_word(state, 0)),
        minimum: Duration(get_word(state, 8)),
        smoothed: Duration(get_word(state, 16)),
        variation: Duration(get_word(state, 24)),
        limit: Duration(get_word(state, 32)),
        sampled: get_word(state, 40) == 1,
    }
}

// Its words.
#[tactic(auto, unfolding(crate::specs::Trips::stats_words))]
pub fn stats_words(stats: RttStats) -> [u64; 6]
    ensures { result ≡ stats_words stats }
{
    [
        stats.latest.0,
        stats.minimum.0,
        stats.smoothed.0,
        stats.variation.0,
        stats.limit.0,
        u64::from(stats.sampled),
    ]
}

// Makes the calls in order, writes their answers, and gives the estimator that they leave.
// By index: after an adapter of `iter_mut`, as `zip`, nothing is known of what was written.
#[tactic(auto, using(crate::proofs::Run::left_later, crate::proofs::Run::left_end, crate::proofs::Run::write_answer, crate::proofs::Run::answers_end))]
pub fn run_calls(stats: RttStats, calls: &[u8], answers: &mut [u8]) -> RttStats
    requires { 40 * calls_in calls.now ≤ length answers.old }
    ensures value { result ≡ left_by stats calls.now 0 (calls_in calls.now) }
    ensures answers_after { answers.new ≡ sets answers.old 0 (all_bytes (answers_to stats calls.now 0 (calls_in calls.now))) }
{
    let mut s = stats;
    for i in 0..calls.len() / 32 {
        let at = 32 * i;
        let to = 40 * i;
        carry_out(&mut s, &calls[at..at + 32], &mut answers[to..to + 40]);
    }
    s
}

// Makes a call, from its own bytes, and writes its answer to the answer's.
#[tactic(auto, using(crate::proofs::Run::whole), unfolding(crate::specs::Trips::answer_words, crate::specs::Trips::answer_at, crate::specs::Trips::left_at))]
fn carry_out(stats: &mut RttStats, call: &[u8], answer: &mut [u8])
    requires { (length call.now ≡ 32) × (length answer.old ≡ 40) }
    ensures stats { stats.new ≡ left_at stats.old call.now 0 }
    ensures answer_after { answer.new ≡ all_bytes (answer_at stats.old call.now 0) }
{
    let number = get_word(call, 0);
    let a = get_word(call, 8);
    let b = get_word(call, 16);
    let c = get_word(call, 24);
    let reply = call_made(stats, number, a, b, c);
    put_words(answer, 0, &answer_words(reply, *stats));
}

// Makes a call.
#[tactic(auto, unfolding(crate::specs::Trips::call_row, crate::specs::Trips::call_faults, crate::specs::Trips::call_left, state::specs::Faults::first))]
fn call_made(stats: &mut RttStats, call: u64, a: u64, b: u64, c: u64) -> Result<(), Refusal>
    ensures reply { number result ≡ call_row stats.old call a b c }
    ensures stats { stats.new ≡ call_left stats.old call a b c }
    ensures fault { fault result ≡ named (call_row stats.old call a b c)
        (first (call_faults call a b c)) }
{
    match call {
        0 => stats.begin(Duration(a), Duration(b)),
        1 => stats.update_taken(Duration(a), Duration(b), c == 1, flag_fits(c)),
        2 => stats.update_max_ack_delay(Duration(a)),
        _ => stats.given(false, NO_CALL),
    }
}

// The reply's word, and the estimator after the call, or zeros where it is refused.
#[tactic(auto, unfolding(state::specs::Answers::settled, crate::specs::Trips::shown))]
fn answer_words(reply: Result<(), Refusal>, left: RttStats) -> [u64; 5]
    ensures { result ≡ reply_word (number reply) (fault reply) ∷ settled (number reply) (shown left) (0 ∷ 0 ∷ 0 ∷ 0 ∷ []) }
{
    match reply {
        Err(refusal) => [refusal.word(), 0, 0, 0, 0],
        Ok(()) => [
            0,
            left.latest.0,
            minimum_word(left),
            left.smoothed.0,
            left.variation.0,
        ],
    }
}

// The minimum; 2^64 - 1 before the first sample.
#[tactic(auto, unfolding(rtt::specs::Rtt::minimum_shown))]
fn minimum_word(stats: RttStats) -> u64
    ensures { result ≡ length_shown (minimum_shown stats) }
{
    if stats.sampled {
        stats.minimum.0
    } else {
        UNSET
    }
}
