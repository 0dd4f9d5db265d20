// Call 46: an operation on a windowed filter that is handed in.
// Calls and functions are numbers: the frames of the comparison write them so.
ghost use Rattle.std.specs.Prelude.{◌≡◌, length};

use filters::WindowedFilter;
use filters::windowed_filter::{Estimates, Reason, Sample};
use words::{get_words, put_words};

// Words 1 to 3 of the call are the operation and its two numbers, 4 to 11 the filter. The answer is the reply, the reason
// (0 where it is no update), and the filter after it.
pub fn answer(call: &[u8], out: &mut [u8])
    requires { (length call.now ≡ 392) × (length out.old ≡ 552) }
{
    let mut n = [0u64; 12];
    get_words(call, 0, &mut n);
    put_words(out, 0, &operated(filter_of(&n), n[1], n[2], n[3]));
}

fn operated(filter: WindowedFilter, op: u64, x: u64, y: u64) -> [u64; 18] {
    match op {
        0 => answer_words(0, 0, WindowedFilter::new(x)),
        1 => answer_words(0, 0, filter.reset(x, y)),
        2 => updated(filter, x, y),
        _ => answer_words(0, 0, filter.clear()),
    }
}

// The words of an update. A refused one leaves the filter unchanged, and says so.
fn updated(mut filter: WindowedFilter, sample: u64, time: u64) -> [u64; 18] {
    match filter.update(sample, time) {
        Ok(reason) => answer_words(0, reason.number(), filter),
        Err(refusal) => answer_words(refusal.row(), Reason::Unchanged.number(), filter),
    }
}

fn filter_of(n: &[u64; 12]) -> WindowedFilter {
    let held = Estimates {
        best: sample(n[6], n[7]),
        second: sample(n[8], n[9]),
        third: sample(n[10], n[11]),
    };
    WindowedFilter {
        window: n[4],
        held: (n[5] == 1).then_some(held),
    }
}

fn sample(sample: u64, time: u64) -> Sample {
    Sample { sample, time }
}

fn answer_words(reply: u64, reason: u64, filter: WindowedFilter) -> [u64; 18] {
    let mut words = [0u64; 18];
    words[0] = reply;
    words[1] = reason;
    words[2] = filter.window;
    if let Some(e) = filter.held {
        words[3] = 1;
        words[4] = e.best.sample;
        words[5] = e.best.time;
        words[6] = e.second.sample;
        words[7] = e.second.time;
        words[8] = e.third.sample;
        words[9] = e.third.time;
    }
    words
}
