// Compares the port with fixed lists of the original's answers, and prints what was compared.
#![tactic(auto)]

mod asked;
mod list;

use asked::Asked;
use filters::{MaxBandwidthFilter, MinRttFilter, RoundTripCounter, WindowedFilter};
use list::{change_last, read_file, read_line};
use std::rt::Files;
use units::{Duration, Moment};

#[derive(Clone, Copy, Default)]
pub struct Tally {
    pub answers: u64,
    pub differ: u64,
}

#[derive(Clone, Copy)]
pub struct Both {
    pub tally: Tally,
    pub changed: u64,
}

fn sum(a: Tally, b: Tally) -> Tally {
    Tally {
        answers: a.answers.wrapping_add(b.answers),
        differ: a.differ.wrapping_add(b.differ),
    }
}

// The lines of a list, counted, and those that the port answers otherwise.
fn compared(mut asked: Asked, text: &[u8]) -> Tally {
    let mut tally = Tally::default();
    for line in text.split_inclusive(|b| *b == b'\n') {
        let same = asked::answer(&mut asked, &read_line(line));
        let differ = u64::from(!same);
        tally = sum(tally, Tally { answers: 1, differ });
    }
    tally
}

// A list compared, and compared again with its last digit changed: how many lines differ then.
fn compared_twice(asked: Asked, text: &mut [u8]) -> Both {
    let tally = compared(asked, text);
    change_last(text);
    let changed = compared(asked, text);
    Both {
        tally,
        changed: changed.differ,
    }
}

// Compares the list in a file, then again with its last digit changed, and prints both. A list is
// shorter than the buffer, 65,536 bytes.
fn compare(rt: &(impl Files + Print + Eprint + Alloc), asked: Asked, name: &str) -> Tally {
    let mut space = [0u8; 65_536];
    let n = read_file(rt, name, &mut space);
    let both = compared_twice(asked, &mut space[..n]);
    print(rt, both, name);
    both.tally
}

// That it can't be written is passed over, here and below.
fn print_tally(rt: &impl Print, tally: Tally) {
    let answers = tally.answers;
    let differ = tally.differ;
    let _ = print!(rt; "{answers} answers, {differ} differ");
}

fn print(rt: &impl Print, both: Both, name: &str) {
    let changed = both.changed;
    let _ = print!(rt; "{name}: ");
    print_tally(rt, both.tally);
    let _ = print!(rt; "; with its last digit changed {changed}\n");
}

fn main(rt: HostRuntime) {
    let lists = [
        (Asked::ToF32, "to_f32.txt"),
        (Asked::ToF64, "to_f64.txt"),
        (Asked::ToU64, "to_u64.txt"),
        (Asked::RoundToU64, "round_to_u64.txt"),
        (Asked::Scale, "scale.txt"),
        (Asked::BandwidthMul, "bandwidth_mul.txt"),
        (Asked::BandwidthPeriod, "bandwidth_period.txt"),
        (Asked::BandwidthOrder, "bandwidth_order.txt"),
        (
            Asked::Windowed(WindowedFilter::new(0)),
            "windowed_filter.txt",
        ),
        (
            Asked::MaxBandwidth(MaxBandwidthFilter::new()),
            "max_bandwidth_filter.txt",
        ),
        (
            Asked::MinRtt(MinRttFilter::new(Duration(0), Moment(0))),
            "min_rtt_filter.txt",
        ),
        (
            Asked::Rounds(RoundTripCounter::new()),
            "round_trip_counter.txt",
        ),
    ];
    let _ = rt.println("The original's answers, compared with the port's:");
    let mut tally = Tally::default();
    for (asked, name) in lists {
        tally = sum(tally, compare(&rt, asked, name));
    }
    print_tally(&rt, tally);
    let _ = rt.println("");
}
