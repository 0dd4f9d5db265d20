// The windowed filter, run over pairs of a time and a sample in bytes.
ghost use Rattle.std.specs.Prelude.{false, ◌≡◌, ◌+◌, ◌*◌, ◌≤◌, length};
ghost use Rattle.std.proofs.lemmas.List.Edits.{sets};
ghost use Rattle.units.specs.Reply.{number, fault};
ghost use Rattle.state.specs.Faults.{first, named};
ghost use Rattle.filters.specs.WindowedFilter.{windowed_new};
ghost use Rattle.words.specs.Words.{all_bytes};
ghost use Rattle.pairs.specs.Pairs.{pairs, refuses, run_words, run_row, pairs_faults};
ghost use Rattle.pairs.specs.Inner.{times_fall, pair_at, stepped_words};

use filters::WindowedFilter;
use filters::windowed_filter::{Sample, Stepped, step};
use state::faults::Kind;
use state::refusals::{Rows, or_short, refusal};
use units::Refusal;
use words::{get_word, put_words};

// The reply to a run: 2.8 at place 2, 3 or 7.
#[tactic(auto, using(state::proofs::FirstFault::short_named, state::proofs::FirstFault::alone), unfolding(crate::specs::Pairs::run_row, crate::specs::Pairs::pairs_faults))]
pub fn run_reply(window: u64, src: &[u8], room: usize) -> Result<(), Refusal>
    ensures reply { number result ≡ run_row window src.now room }
    ensures fault { fault result ≡ named (run_row window src.now room) (first (pairs_faults src.now)) }
{
    let even = src.len() % 16 == 0;
    let rows = Rows {
        argument: !even,
        earlier: is_refused(window, src),
        ..Rows::NONE
    };
    let reply = refusal(rows, Kind::ListLength.unless(even, 2));
    or_short(reply, room < 32 * (src.len() / 16))
}

// Whether the update refuses a pair. Where no time falls, it refuses none.
#[tactic(auto, using(crate::proofs::Times::never_refused))]
fn is_refused(window: u64, src: &[u8]) -> bool
    ensures { result ≡ refuses (windowed_new window) src.now 0 (pairs src.now) }
{
    times_fall(src) && meets_refusal(window, src)
}

// Whether a time is earlier than the one before it.
#[tactic(auto, using(crate::proofs::Run::falls_now, crate::proofs::Run::falls_later, crate::proofs::Run::falls_end))]
fn times_fall(src: &[u8]) -> bool
    ensures { result ≡ times_fall 0 src.now 0 (pairs src.now) }
{
    let mut last = 0;
    for i in 0..src.len() / 16 {
        let time = get_word(src, 16 * i);
        if time < last {
            return true;
        }
        last = time;
    }
    false
}

// Whether the update refuses a pair, by updates from the first pair on.
#[tactic(auto, using(crate::proofs::Run::is_err_number, crate::proofs::Run::refused_now, crate::proofs::Run::refused_later, crate::proofs::Run::refused_end), unfolding(crate::specs::Pairs::after_pair))]
fn meets_refusal(window: u64, src: &[u8]) -> bool
    ensures { result ≡ refuses (windowed_new window) src.now 0 (pairs src.now) }
{
    let mut filter = WindowedFilter::new(window);
    for i in 0..src.len() / 16 {
        let pair = pair_at(src, 16 * i);
        if filter.update(pair.sample, pair.time).is_err() {
            return true;
        }
    }
    false
}

// Writes the samples that each pair leaves, and why they moved. Asks that no pair is refused.
// By index, as all three loops here: after an adapter of `iter_mut`, as `zip`, nothing is known of what was written.
#[tactic(auto, using(crate::proofs::Run::length_stepped, crate::proofs::Run::taken_later, crate::proofs::Run::written, crate::proofs::Run::written_end), unfolding(crate::specs::Inner::stepped_words))]
pub fn write_run(window: u64, src: &[u8], out: &mut [u8])
    requires { (refuses (windowed_new window) src.now 0 (pairs src.now) ≡ false) × (32 * pairs src.now ≤ length out.old) }
    ensures { out.new ≡ sets out.old 0 (all_bytes (run_words (windowed_new window) src.now 0 (pairs src.now))) }
{
    let mut held = None;
    for i in 0..src.len() / 16 {
        let stepped = step(held, pair_at(src, 16 * i), window);
        put_words(out, 32 * i, &words_of(stepped));
        held = Some(stepped.estimates);
    }
}

// The pair at an index: a time, then a sample.
fn pair_at(src: &[u8], at: usize) -> Sample
    requires { at + 16 ≤ length src.now }
    ensures { result ≡ pair_at src.now at }
{
    Sample {
        time: get_word(src, at),
        sample: get_word(src, at + 8),
    }
}

// The three samples, and the reason's number.
#[tactic(auto, unfolding(crate::specs::Inner::stepped_words))]
fn words_of(stepped: Stepped) -> [u64; 4]
    ensures { result ≡ stepped_words stepped }
{
    let e = stepped.estimates;
    [
        e.best.sample,
        e.second.sample,
        e.third.sample,
        stepped.reason.number(),
    ]
}
