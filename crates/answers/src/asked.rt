// One line of a list, asked of the port.
// What a line asks is a number: the kept lists write it so.
use filters::{MaxBandwidthFilter, MinRttFilter, RoundTripCounter, WindowedFilter};
use std::num::{
    f32_from_bits_with_nan, f32_to_bits_with_nan, f64_from_bits_with_nan, f64_to_bits_with_nan,
};
use units::{Bandwidth, Duration, Moment};

// What a list asks, with the filter that it goes on with from line to line.
#[derive(Clone, Copy)]
pub enum Asked {
    ToF32,
    ToF64,
    ToU64,
    RoundToU64,
    Scale,
    BandwidthMul,
    BandwidthPeriod,
    BandwidthOrder,
    Windowed(WindowedFilter),
    MaxBandwidth(MaxBandwidthFilter),
    MinRtt(MinRttFilter),
    Rounds(RoundTripCounter),
}

// Whether the port answers as the line has it. The filter goes on to the next line.
pub fn answer(asked: &mut Asked, n: &[u64; 16]) -> bool {
    match asked {
        Asked::ToF32 => u64::from(f32_to_bits_with_nan(numbers::to_f32(n[0]))) == n[1],
        Asked::ToF64 => f64_to_bits_with_nan(numbers::to_f64(n[0])) == n[1],
        Asked::ToU64 => numbers::to_u64(f32_from_bits_with_nan(low_bits(n[0]))) == n[1],
        Asked::RoundToU64 => numbers::round_to_u64(f64_from_bits_with_nan(n[0])) == n[1],
        Asked::Scale => numbers::scale(n[0], f32_from_bits_with_nan(low_bits(n[1]))) == n[2],
        Asked::BandwidthMul => Bandwidth(n[0])
            .mul_f32(f32_from_bits_with_nan(low_bits(n[1])))
            .0
            == n[2],
        Asked::BandwidthPeriod => Bandwidth(n[0]).to_bytes_per_period(Duration(n[1])) == n[2],
        Asked::BandwidthOrder => order(Bandwidth(n[0]), Bandwidth(n[1]), n),
        Asked::Windowed(filter) => windowed(filter, n),
        Asked::MaxBandwidth(filter) => max_bandwidth(filter, n),
        Asked::MinRtt(filter) => min_rtt(filter, n),
        Asked::Rounds(counter) => rounds(counter, n),
    }
}

// The low 32 bits, a pattern of an `f32`.
// In serve too: `as` has to be proved to lose nothing, so a number is cut first, and they share no crate for it.
fn low_bits(n: u64) -> u32 {
    (n % 0x1_0000_0000) as u32
}

fn order(a: Bandwidth, b: Bandwidth, n: &[u64; 16]) -> bool {
    (a.lt(b) == (n[2] == 1)) & (a.max(b).0 == n[3]) & (a.min(b).0 == n[4])
}

fn windowed(filter: &mut WindowedFilter, n: &[u64; 16]) -> bool {
    match n[0] {
        0 => *filter = WindowedFilter::new(n[1]),
        1 => *filter = filter.reset(n[1], n[2]),
        2 => return updated(filter, n),
        _ => *filter = filter.clear(),
    }
    (n[10] == 0) & holds(*filter, n)
}

// An update, with its reason. No line expects a refusal.
fn updated(filter: &mut WindowedFilter, n: &[u64; 16]) -> bool {
    let named = filter
        .update(n[1], n[2])
        .is_ok_and(|reason| reason.number() == n[10]);
    named & holds(*filter, n)
}

// Whether the filter answers the samples of the line, and holds their times.
fn holds(filter: WindowedFilter, n: &[u64; 16]) -> bool {
    is_sample(filter.get_best(), n[3], n[4])
        & is_sample(filter.get_second_best(), n[3], n[6])
        & is_sample(filter.get_third_best(), n[3], n[8])
        & has_times(filter, n)
}

fn is_sample(answer: Option<u64>, full: u64, sample: u64) -> bool {
    (full == u64::from(answer.is_some())) & (sample == answer.unwrap_or(0))
}

fn has_times(filter: WindowedFilter, n: &[u64; 16]) -> bool {
    let held = filter.held;
    match held {
        None => (n[5] == 0) & (n[7] == 0) & (n[9] == 0),
        Some(e) => { (e.best.time == n[5]) & (e.second.time == n[7]) & (e.third.time == n[9]) }
    }
}

fn max_bandwidth(filter: &mut MaxBandwidthFilter, n: &[u64; 16]) -> bool {
    *filter = match n[0] {
        0 => MaxBandwidthFilter::new(),
        1 => filter.update(Bandwidth(n[1])),
        _ => filter.advance(),
    };
    (filter.slot0.0 == n[2]) & (filter.slot1.0 == n[3]) & (filter.get().0 == n[4])
}

fn min_rtt(filter: &mut MinRttFilter, n: &[u64; 16]) -> bool {
    let rtt = Duration(n[1]);
    let now = Moment(n[2]);
    *filter = match n[0] {
        0 => MinRttFilter::new(rtt, now),
        1 => filter.update(rtt, now),
        _ => filter.force_update(rtt, now),
    };
    (filter.get().0 == n[3]) & (filter.get_timestamps().0 == n[4])
}

fn rounds(counter: &mut RoundTripCounter, n: &[u64; 16]) -> bool {
    match n[0] {
        0 => *counter = RoundTripCounter::new(),
        1 => *counter = counter.on_packet_sent(n[2]),
        2 => return acked(counter, n),
        _ => *counter = counter.restart_round(),
    }
    (n[5] == 0) & stands(*counter, n)
}

fn acked(counter: &mut RoundTripCounter, n: &[u64; 16]) -> bool {
    let packets = [n[2], n[3], n[4]];
    let few = (n[1] % 4) as usize;
    let ended = counter.on_packets_acked(&packets[..few]).unwrap_or(false);
    (ended == (n[5] == 1)) & stands(*counter, n)
}

fn stands(counter: RoundTripCounter, n: &[u64; 16]) -> bool {
    (counter.count == n[6]) & (counter.sent == n[7]) & is_sample(counter.end, n[8], n[9])
}
