// Shows the library at work: a loss episode, conversions and scaling, and a windowed filter fed with a short sample.
#![tactic(auto)]

mod episode;
mod exact;
mod table;

use episode::episode;
use filters::WindowedFilter;
use filters::windowed_filter::{Reason, Sample};
use table::{column, text};
use units::Bandwidth;

// One number as an `f32` and back, scaled by b, and as a bandwidth times b.
fn conversion(rt: &impl Print, n: u64, b: f32) {
    column(rt, n, 20);
    column(rt, numbers::to_u64(numbers::to_f32(n)), 22);
    column(rt, numbers::scale(n, b), 22);
    column(rt, Bandwidth(n).mul_f32(b).0, 22);
    text(rt, b"\n");
}

fn conversions(rt: &impl Print) {
    let beta: f32 = 0.3;
    let b = 1.0 - beta;
    text(
        rt,
        b"Conversions, with b = 1 - beta = 11744051 / 2^24, for beta 0.3\n\n",
    );
    text(
        rt,
        b"                   n      as f32, and back    scaled by b, bytes   bandwidth n times b\n",
    );
    for n in [
        0,
        1,
        10,
        1_300,
        16_777_217,
        16_777_219,
        771_751_941,
        1_099_511_627_776,
        18_446_744_073_709_551_615,
    ] {
        conversion(rt, n, b);
    }
}

fn estimate(rt: &impl Print, e: Sample) {
    column(rt, e.sample, 9);
    text(rt, b" at");
    column(rt, e.time, 3);
}

fn estimates(rt: &impl Print, filter: WindowedFilter) {
    match filter.held {
        None => text(rt, b"  empty"),
        Some(held) => {
            estimate(rt, held.best);
            estimate(rt, held.second);
            estimate(rt, held.third);
        }
    }
}

// Why the estimates moved.
fn reason(rt: &impl Print, why: Reason) {
    match why {
        Reason::AllReplaced => text(rt, b"  all replaced"),
        Reason::SecondRaised => text(rt, b"  second raised"),
        Reason::ThirdRaised => text(rt, b"  third raised"),
        Reason::PromotedOnce => text(rt, b"  promoted once"),
        Reason::PromotedTwice => text(rt, b"  promoted twice"),
        Reason::QuarterRefresh => text(rt, b"  quarter refresh"),
        Reason::HalfRefresh => text(rt, b"  half refresh"),
        Reason::Unchanged => text(rt, b"  unchanged"),
    }
}

// One update, with the reply, what the filter then holds, and why it moved.
fn update(rt: &impl Print, filter: &mut WindowedFilter, sample: u64, time: u64) {
    column(rt, time, 6);
    column(rt, sample, 9);
    let updated = filter.update(sample, time);
    match updated {
        Ok(_) => text(rt, b"  done     "),
        Err(_) => text(rt, b"  refused 3"),
    }
    estimates(rt, *filter);
    reason(rt, updated.unwrap_or(Reason::Unchanged));
    text(rt, b"\n");
}

// So many that each reason is seen.
fn windowed(rt: &impl Print) {
    text(
        rt,
        b"\nA windowed filter with a window of 8: each sample, the reply, the three estimates after it, and why\n\n",
    );
    text(
        rt,
        b"  time   sample  reply               best         second          third  reason\n",
    );
    let mut filter = WindowedFilter::new(8);
    for (sample, time) in [
        (5, 0),
        (5, 2),
        (5, 3),
        (3, 5),
        (4, 8),
        (2, 9),
        (9, 7),
        (6, 12),
        (5, 15),
        (2, 20),
        (3, 20),
        (1, 24),
        (2, 25),
    ] {
        update(rt, &mut filter, sample, time);
    }
}

// Ends where a call of the episode is refused.
fn main(rt: HostRuntime) {
    if !episode(&rt) {
        return;
    }
    conversions(&rt);
    windowed(&rt);
}
