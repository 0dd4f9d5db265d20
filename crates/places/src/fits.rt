// Which words of a call's records are a writer's, and the records as they stand.
ghost use Rattle.std.specs.Prelude.{◌≡◌, ◌++◌, length};
ghost use Rattle.places.specs.Places.{record_fits, record_in, sample_fits_in, sample_in};

use arguments::congestion_event::event_from;
use arguments::sample::sample_from;
use state::congestion_event::{CongestionEvent, CongestionEventSample};
use state::faults::{RecordFits, SampleFits};
use units::Moment;
use words::maybe::maybe_fits;
use words::word::flag_fits;

#[tactic(auto, unfolding(crate::specs::Places::record_fits))]
pub(crate) fn record_fits(n: &[u64; 49]) -> RecordFits
    ensures { result ≡ record_fits n.now }
{
    RecordFits {
        ended: flag_fits(n[28]),
        probing: flag_fits(n[29]),
        bandwidth: maybe_fits(n[30], n[31]),
        rtt: maybe_fits(n[32], n[33]),
        valid: flag_fits(n[34]),
        applimited: flag_fits(n[35]),
    }
}

// The record, with its moment as it stands.
#[tactic(auto, unfolding(crate::specs::Places::record_in))]
pub(crate) fn record_in(n: &[u64; 49]) -> CongestionEvent
    ensures { result ≡ record_in n.now }
{
    CongestionEvent {
        time: Moment(n[22]),
        ..event_from(n)
    }
}

#[tactic(auto, unfolding(crate::specs::Places::sample_fits_in))]
pub(crate) fn sample_fits(n: &[u64; 49]) -> SampleFits
    ensures { result ≡ sample_fits_in n.now }
{
    SampleFits {
        bandwidth: maybe_fits(n[1], n[2]),
        send: maybe_fits(n[3], n[4]),
        ack: maybe_fits(n[5], n[6]),
        applimited: flag_fits(n[7]),
        rtt: maybe_fits(n[8], n[9]),
        valid: flag_fits(n[12]),
        limited: flag_fits(n[13]),
    }
}

// The sampler's answer, with the extra acked bytes as they stand.
#[tactic(auto, using(arguments::proofs::Alike::own), unfolding(crate::specs::Places::sample_in))]
pub(crate) fn sample_in(n: &[u64; 49], lists: &[u64]) -> CongestionEventSample
    requires { length n.now ≡ 49 }
    ensures { result ≡ sample_in (n.now ++ lists.now) }
{
    CongestionEventSample {
        extra: n[11],
        ..sample_from(n, lists)
    }
}
