// An event's record: words 22 to 37 of a call, and 16 words of an answer.
ghost use Rattle.std.specs.Prelude.{◌≡◌};
ghost use Rattle.arguments.specs.CongestionEvent.{send_time_state_of, event_fits, event_from, event_in, event_words};

use state::congestion_event::{CongestionEvent, SendTimeState};
use units::Moment;
use words::maybe::{maybe_of, pair_of};
use words::word::{flag_fits, or_outside};

// ---- from words

// The record in a call's words.
#[tactic(auto, unfolding(crate::specs::CongestionEvent::event_from_word))]
pub fn event_from(n: &[u64; 49]) -> CongestionEvent
    ensures { result ≡ event_from n.now }
{
    CongestionEvent {
        time: Moment(or_outside(event_fits(n), n[22])),
        window: n[23],
        prior: n[24],
        inflight: n[25],
        acked: n[26],
        lost: n[27],
        ended: n[28] == 1,
        probing: n[29] == 1,
        bandwidth: maybe_of(n[30], n[31]),
        rtt: maybe_of(n[32], n[33]),
        state: send_time_state_of(n[34], n[35], n[36], n[37]),
    }
}

// Whether a writer writes the record's four flags.
#[tactic(auto, unfolding(crate::specs::CongestionEvent::event_fits))]
fn event_fits(n: &[u64; 49]) -> bool
    ensures { result ≡ event_fits n.now 22 }
{
    flag_fits(n[28]) & flag_fits(n[29]) & flag_fits(n[34]) & flag_fits(n[35])
}

// The record's words as they are.
#[tactic(auto, unfolding(crate::specs::CongestionEvent::words_from))]
pub fn event_in(n: &[u64; 49]) -> [u64; 16]
    ensures { result ≡ event_in n.now }
{
    [
        n[22], n[23], n[24], n[25], n[26], n[27], n[28], n[29], n[30], n[31], n[32], n[33], n[34],
        n[35], n[36], n[37],
    ]
}

// The send state in four words.
pub(crate) fn send_time_state_of(
    valid: u64,
    limited: u64,
    acked: u64,
    inflight: u64,
) -> SendTimeState
    ensures { result ≡ send_time_state_of valid limited acked inflight }
{
    SendTimeState {
        valid: valid == 1,
        applimited: limited == 1,
        acked,
        inflight,
    }
}

// ---- into words

// All words of a record.
#[tactic(auto, using(words::proofs::Back::flag_number), unfolding(crate::specs::CongestionEvent::event_words))]
pub fn event_words(event: CongestionEvent) -> [u64; 16]
    ensures { result ≡ event_words event }
{
    let (bandwidth_set, bandwidth) = pair_of(event.bandwidth);
    let (rtt_set, rtt) = pair_of(event.rtt);
    [
        event.time.0,
        event.window,
        event.prior,
        event.inflight,
        event.acked,
        event.lost,
        u64::from(event.ended),
        u64::from(event.probing),
        bandwidth_set,
        bandwidth,
        rtt_set,
        rtt,
        u64::from(event.state.valid),
        u64::from(event.state.applimited),
        event.state.acked,
        event.state.inflight,
    ]
}
