// What an event's call is given: the sampler's answer, words 1 to 17, and the acked packets' numbers, by words 18 to 21.
ghost use Rattle.std.specs.Prelude.{◌≡◌, [], ◌∷◌, ◌++◌, length, take};
ghost use Rattle.filters.specs.RoundTripCounter.{greatest};
ghost use Rattle.arguments.specs.Sample.{acked_fits, sample_fits, sample_from, acked_of};

use crate::congestion_event::send_time_state_of;
use filters::round_trip_counter::greatest_of;
use state::congestion_event::CongestionEventSample;
use state::parts::Totals;
use words::maybe::maybe_of;
use words::word::{flag_fits, or_outside};

// The sampler's answer in a call's words, with the lists that they can name a place of.
#[tactic(auto, using(crate::proofs::Alike::own), unfolding(crate::specs::Sample::sample_from))]
pub fn sample_from(n: &[u64; 49], lists: &[u64]) -> CongestionEventSample
    requires { length n.now ≡ 49 }
    ensures { result ≡ sample_from (n.now ++ lists.now) }
{
    CongestionEventSample {
        bandwidth: maybe_of(n[1], n[2]),
        send: maybe_of(n[3], n[4]),
        ack: maybe_of(n[5], n[6]),
        applimited: n[7] == 1,
        rtt: maybe_of(n[8], n[9]),
        inflight: n[10],
        extra: or_outside(sample_fits(n, lists), n[11]),
        state: send_time_state_of(n[12], n[13], n[14], n[15]),
        totals: Totals {
            acked: n[16],
            lost: n[17],
        },
    }
}

// Whether a writer writes the sample's three flags, and the acked numbers are there.
#[tactic(auto, using(crate::proofs::Alike::own), unfolding(crate::specs::Sample::sample_fits))]
fn sample_fits(n: &[u64; 49], lists: &[u64]) -> bool
    requires { length n.now ≡ 49 }
    ensures { result ≡ sample_fits (n.now ++ lists.now) }
{
    flag_fits(n[7]) & flag_fits(n[12]) & flag_fits(n[13]) & acked_fits(n, lists)
}

// Whether there are as many acked numbers as the count says: up to three in the call, more in the lists.
#[tactic(auto, using(crate::proofs::Acked::fits_few, crate::proofs::Acked::fits_many))]
pub fn acked_fits(n: &[u64; 49], lists: &[u64]) -> bool
    requires { length n.now ≡ 49 }
    ensures { result ≡ acked_fits (n.now ++ lists.now) }
{
    let count = n[18];
    if count <= 3 {
        return true;
    }
    let room = lists.len() as u64;
    (count <= room) & (n[19] <= room.saturating_sub(count))
}

// The greatest of the acked numbers, if there are any.
#[tactic(auto, using(crate::proofs::Acked::acked_few, crate::proofs::Acked::acked_outside, crate::proofs::Acked::acked_listed, crate::proofs::Acked::place_fits))]
pub fn greatest_acked(n: &[u64; 49], lists: &[u64]) -> Option<u64>
    requires { length n.now ≡ 49 }
    ensures { result ≡ greatest (acked_of (n.now ++ lists.now)) }
{
    let count = n[18];
    if count <= 3 {
        return greatest_of_three(count, n[19], n[20], n[21]);
    }
    if !acked_fits(n, lists) {
        return None;
    }
    let start = n[19] as usize;
    let end = start + count as usize;
    greatest_of(&lists[start..end])
}

// The greatest of the first numbers of three, as many as the count says. Those of a slice (`greatest_of`) would cost a
// call in the loop of a run (docs/DECISIONS.md, 118).
fn greatest_of_three(count: u64, first: u64, second: u64, third: u64) -> Option<u64>
    ensures { result ≡ greatest (take count (first ∷ second ∷ third ∷ [])) }
{
    match count {
        0 => None,
        1 => Some(first),
        2 => Some(first.max(second)),
        _ => Some(first.max(second).max(third)),
    }
}
