// Which number was out of range: for each call that can give 2, the first of its arguments that is at fault, in the
// order of their places. A fault is the kind of the bound that was passed, and 256 times the place; 0 is none.
ghost use Rattle.std.specs.Prelude.{◌≡◌};
ghost use Rattle.state.specs.Faults.{kind_number, unless, first, record_faults, sample_faults, start_faults, sent_faults, started_faults, gain_faults, bdp_faults, bdp1_faults, limit_faults, postpone_faults, down_faults, now_faults, refill_faults, up_faults, slope_faults};

use crate::bounds::{
    bandwidth_ok, bytes_ok, bytes_or_unset_ok, gain_ok, length_ok, maybe_ok, moment_ok, total_ok,
};
use crate::congestion_event::{CongestionEvent, CongestionEventSample, maybe_length_ok};
use crate::cycle::Cycle;
use units::{Bandwidth, Duration, Moment};

// The kinds of bounds, from 2.1 to 2.9.
#[derive(Clone, Copy, PartialEq, Eq)]
pub enum Kind {
    Window = 1,
    ByteCount = 2,
    Bandwidth = 3,
    Length = 4,
    Total = 5,
    ProbeRounds = 6,
    Gain = 7,
    ListLength = 8,
    Moment = 9,
}

// A number that is no call's: a list length, at place 0.
pub const NO_CALL: u32 = Kind::ListLength as u32;

// Which words of a record in a call are a writer's.
#[derive(Clone, Copy)]
pub struct RecordFits {
    pub ended: bool,
    pub probing: bool,
    pub bandwidth: bool,
    pub rtt: bool,
    pub valid: bool,
    pub applimited: bool,
}

// Which words of a sampler's answer in a call are a writer's; `limited` is the send state's.
#[derive(Clone, Copy)]
pub struct SampleFits {
    pub bandwidth: bool,
    pub send: bool,
    pub ack: bool,
    pub applimited: bool,
    pub rtt: bool,
    pub valid: bool,
    pub limited: bool,
}

impl RecordFits {
    // A record that was given as a value.
    pub const WHOLE: RecordFits = RecordFits {
        ended: true,
        probing: true,
        bandwidth: true,
        rtt: true,
        valid: true,
        applimited: true,
    };
}

impl SampleFits {
    // A sampler's answer that was given as a value.
    pub const WHOLE: SampleFits = SampleFits {
        bandwidth: true,
        send: true,
        ack: true,
        applimited: true,
        rtt: true,
        valid: true,
        limited: true,
    };
}

// No fault where the test holds; this kind at this place where it fails. A fault is a number as it crosses to C.
pub fn unless(test: bool, place: u8, kind: u8) -> u32
    ensures { result ≡ unless test place kind }
{
    if test {
        0
    } else {
        u32::from(kind) + 256 * u32::from(place)
    }
}

impl Kind {
    // The same, by the kind's name.
    pub fn unless(self, test: bool, place: u8) -> u32
        ensures { result ≡ unless test place (kind_number self) }
    {
        unless(test, place, self as u8)
    }
}

// The first of faults, 0 where there is none.
#[tactic(auto, unfolding(crate::specs::Faults::first))]
pub fn first_of(faults: &[u32]) -> u32
    ensures { result ≡ first faults.now }
{
    for &fault in faults {
        if fault != 0 {
            return fault;
        }
    }
    0
}

// ---- arguments that are records

impl CongestionEvent {
    // The record at a place.
    #[tactic(auto, unfolding(crate::specs::Faults::record_faults))]
    pub fn fault(self, place: u8, fits: RecordFits) -> u32
        ensures { result ≡ first (record_faults place fits self) }
    {
        first_of(&[
            Kind::Moment.unless(moment_ok(self.time), place),
            Kind::Window.unless(bytes_ok(self.window), place),
            Kind::ByteCount.unless(bytes_ok(self.prior), place),
            Kind::ByteCount.unless(bytes_ok(self.inflight), place),
            Kind::Total.unless(total_ok(self.acked), place),
            Kind::Total.unless(total_ok(self.lost), place),
            Kind::ListLength.unless(fits.ended, place),
            Kind::ListLength.unless(fits.probing, place),
            Kind::ListLength.unless(fits.bandwidth, place),
            Kind::Bandwidth.unless(maybe_ok(self.bandwidth), place),
            Kind::ListLength.unless(fits.rtt, place),
            Kind::Length.unless(maybe_length_ok(self.rtt), place),
            Kind::ListLength.unless(fits.valid, place),
            Kind::ListLength.unless(fits.applimited, place),
            Kind::Total.unless(total_ok(self.state.acked), place),
            Kind::ByteCount.unless(bytes_ok(self.state.inflight), place),
        ])
    }
}

impl CongestionEventSample {
    // The sampler's answer, at its place.
    pub fn fault(self, fits: SampleFits) -> u32
        ensures { result ≡ first (sample_faults fits self) }
    {
        first_of(&[
            Kind::ListLength.unless(fits.bandwidth, 3),
            Kind::Bandwidth.unless(maybe_ok(self.bandwidth), 3),
            Kind::ListLength.unless(fits.send, 3),
            Kind::Bandwidth.unless(maybe_ok(self.send), 3),
            Kind::ListLength.unless(fits.ack, 3),
            Kind::Bandwidth.unless(maybe_ok(self.ack), 3),
            Kind::ListLength.unless(fits.applimited, 3),
            Kind::ListLength.unless(fits.rtt, 3),
            Kind::Length.unless(maybe_length_ok(self.rtt), 3),
            Kind::ByteCount.unless(bytes_ok(self.inflight), 3),
            Kind::ByteCount.unless(bytes_ok(self.extra), 3),
            Kind::ListLength.unless(fits.valid, 3),
            Kind::ListLength.unless(fits.limited, 3),
            Kind::Total.unless(total_ok(self.state.acked), 3),
            Kind::ByteCount.unless(bytes_ok(self.state.inflight), 3),
            Kind::Total.unless(total_ok(self.totals.acked), 3),
            Kind::Total.unless(total_ok(self.totals.lost), 3),
        ])
    }
}

// ---- the calls

#[tactic(auto, unfolding(crate::specs::Faults::start_faults))]
pub fn start_fault(rtt: Duration, now: Moment) -> u32
    ensures { result ≡ first (start_faults rtt now) }
{
    first_of(&[
        Kind::Length.unless(length_ok(rtt), 1),
        Kind::Moment.unless(moment_ok(now), 2),
    ])
}

#[tactic(auto, unfolding(crate::specs::Faults::sent_faults))]
pub fn sent_fault(now: Moment, inflight: u64, bytes: u64) -> u32
    ensures { result ≡ first (sent_faults now inflight bytes) }
{
    first_of(&[
        Kind::Moment.unless(moment_ok(now), 1),
        Kind::ByteCount.unless(bytes_ok(inflight), 2),
        Kind::ByteCount.unless(bytes_ok(bytes), 4),
    ])
}

// An event's start, whose acked numbers are there or not.
#[tactic(auto, unfolding(crate::specs::Faults::started_faults))]
pub fn started_fault(
    acked: bool,
    whole: RecordFits,
    event: CongestionEvent,
    complete: SampleFits,
    sample: CongestionEventSample,
) -> u32
    ensures { result ≡ first (started_faults acked whole event complete sample) }
{
    first_of(&[
        Kind::ListLength.unless(acked, 1),
        event.fault(2, whole),
        sample.fault(complete),
    ])
}

#[tactic(auto, unfolding(crate::specs::Faults::gain_faults))]
pub fn gain_fault(fits: bool, gain: f32) -> u32
    ensures { result ≡ first (gain_faults fits gain) }
{
    first_of(&[
        Kind::ListLength.unless(fits, 1),
        Kind::Gain.unless(gain_ok(gain), 1),
    ])
}

#[tactic(auto, unfolding(crate::specs::Faults::bdp_faults))]
pub fn bdp_fault(bandwidth: Bandwidth, fits: bool, gain: f32) -> u32
    ensures { result ≡ first (bdp_faults bandwidth fits gain) }
{
    first_of(&[
        Kind::Bandwidth.unless(bandwidth_ok(bandwidth), 1),
        Kind::ListLength.unless(fits, 2),
        Kind::Gain.unless(gain_ok(gain), 2),
    ])
}

#[tactic(auto, unfolding(crate::specs::Faults::bdp1_faults))]
pub fn bdp1_fault(bandwidth: Bandwidth) -> u32
    ensures { result ≡ first (bdp1_faults bandwidth) }
{
    first_of(&[Kind::Bandwidth.unless(bandwidth_ok(bandwidth), 1)])
}

// inflight_hi, or a cap.
#[tactic(auto, unfolding(crate::specs::Faults::limit_faults))]
pub fn limit_fault(bytes: u64) -> u32
    ensures { result ≡ first (limit_faults bytes) }
{
    first_of(&[Kind::ByteCount.unless(bytes_or_unset_ok(bytes), 1)])
}

#[tactic(auto, unfolding(crate::specs::Faults::postpone_faults))]
pub fn postpone_fault(length: Duration, postponed: Moment) -> u32
    ensures { result ≡ first (postpone_faults length postponed) }
{
    first_of(&[
        Kind::Length.unless(length_ok(length), 1),
        Kind::Moment.unless(moment_ok(postponed), 1),
    ])
}

#[tactic(auto, unfolding(crate::specs::Faults::down_faults))]
pub fn down_fault(high: bool, risky: bool, now: Moment) -> u32
    ensures { result ≡ first (down_faults high risky now) }
{
    first_of(&[
        Kind::ListLength.unless(high, 1),
        Kind::ListLength.unless(risky, 2),
        Kind::Moment.unless(moment_ok(now), 3),
    ])
}

// A call that is given a moment alone.
#[tactic(auto, unfolding(crate::specs::Faults::now_faults))]
pub fn now_fault(now: Moment) -> u32
    ensures { result ≡ first (now_faults now) }
{
    first_of(&[Kind::Moment.unless(moment_ok(now), 1)])
}

#[tactic(auto, unfolding(crate::specs::Faults::refill_faults))]
pub fn refill_fault(rounds: u64, now: Moment) -> u32
    ensures { result ≡ first (refill_faults rounds now) }
{
    first_of(&[
        Kind::ProbeRounds.unless(rounds <= Cycle::MOST_ROUNDS, 1),
        Kind::Moment.unless(moment_ok(now), 2),
    ])
}

#[tactic(auto, unfolding(crate::specs::Faults::up_faults))]
pub fn up_fault(now: Moment, window: u64) -> u32
    ensures { result ≡ first (up_faults now window) }
{
    first_of(&[
        Kind::Moment.unless(moment_ok(now), 1),
        Kind::Window.unless(bytes_ok(window), 2),
    ])
}

#[tactic(auto, unfolding(crate::specs::Faults::slope_faults))]
pub fn slope_fault(window: u64) -> u32
    ensures { result ≡ first (slope_faults window) }
{
    first_of(&[Kind::Window.unless(bytes_ok(window), 1)])
}
