// Which argument of a call of a run is at fault, by the call's number. Asked only of calls that were refused with 2.
// A call is its number, a word of the C interface, and is matched once (docs/DESIGN-PASS.md).
ghost use Rattle.std.specs.Prelude.{◌≡◌, cond, [], ◌++◌, length};
ghost use Rattle.state.specs.Faults.{first, started_faults, postpone_faults};
ghost use Rattle.units.specs.Time.{plus};
ghost use Rattle.arguments.specs.Sample.{acked_fits};
ghost use Rattle.places.specs.Places.{record_fits, record_in, sample_fits_in, sample_in, no_call, is_about_event, is_given_nothing, entry_faults, number_faults, other_faults, faults_of};

use crate::fits::{record_fits, record_in, sample_fits, sample_in};
use arguments::sample::acked_fits;
use state::faults::{
    NO_CALL, bdp_fault, bdp1_fault, down_fault, gain_fault, limit_fault, now_fault, postpone_fault,
    refill_fault, sent_fault, slope_fault, start_fault, started_fault, up_fault,
};
use units::{Bandwidth, Duration, Moment};
use words::word::{flag_fits, float_fits, float_of};

// The first fault of a call with these words and lists, 0 where it has none. `least` is the moment of the minimum round
// trip, which call 22 postpones.
#[tactic(auto, using(crate::proofs::Alike::starts, crate::proofs::Alike::others))]
pub fn fault_of(least: Moment, n: &[u64; 49], lists: &[u64]) -> u32
    requires { length n.now ≡ 49 }
    ensures { result ≡ first (faults_of (n.now ++ lists.now) least) }
{
    if n[0] == 3 {
        return started(n, lists);
    }
    other_fault(least, n)
}

// Call 3, an event's start.
fn started(n: &[u64; 49], lists: &[u64]) -> u32
    requires { length n.now ≡ 49 }
    ensures { result ≡ first (started_faults (acked_fits (n.now ++ lists.now))
        (record_fits n.now)
        (record_in n.now)
        (sample_fits_in n.now)
        (sample_in (n.now ++ lists.now))) }
{
    let event = record_in(n);
    let whole = record_fits(n);
    let sample = sample_in(n, lists);
    let complete = sample_fits(n);
    started_fault(acked_fits(n, lists), whole, event, complete, sample)
}

// Every other call.
#[tactic(auto, unfolding(crate::specs::Places::other_faults))]
fn other_fault(least: Moment, n: &[u64; 49]) -> u32
    ensures { result ≡ first (other_faults n.now least) }
{
    let call = n[0];
    if is_about_event(call) {
        let event = record_in(n);
        return event.fault(1, record_fits(n));
    }
    if 40 <= call {
        return entry_fault(call, n[1], n[2], n[3]);
    }
    number_fault(least, call, n[1], n[2], n[4])
}

fn is_about_event(call: u64) -> bool
    ensures { result ≡ is_about_event call }
{
    matches!(call, 4..=7)
}

// Calls 40 to 45, with the numbers that they are given.
#[tactic(auto, unfolding(crate::specs::Places::entry_faults, state::specs::Faults::first))]
fn entry_fault(call: u64, a: u64, b: u64, c: u64) -> u32
    ensures { result ≡ first (entry_faults call a b c) }
{
    match call {
        40 => down_fault(flag_fits(a), flag_fits(b), Moment(c)),
        41 => now_fault(Moment(a)),
        42 => refill_fault(a, Moment(b)),
        43 => up_fault(Moment(a), b),
        44 => 0,
        45 => slope_fault(a),
        _ => NO_CALL,
    }
}

// Calls below 40 that carry no record, with the first, the second and the fourth number that they are given.
#[tactic(auto, unfolding(crate::specs::Places::number_faults))]
fn number_fault(least: Moment, call: u64, a: u64, b: u64, d: u64) -> u32
    ensures { result ≡ first (number_faults call a b d least) }
{
    match call {
        0 => start_fault(Duration(b), Moment(a)),
        1 => sent_fault(Moment(a), b, d),
        9 | 15 | 16 => gain_fault(float_fits(a), float_of(a)),
        10 => bdp_fault(Bandwidth(a), float_fits(b), float_of(b)),
        11 => bdp1_fault(Bandwidth(a)),
        17 | 18 => limit_fault(a),
        22 => postponed_fault(least, Duration(a)),
        _ => nothing_fault(call),
    }
}

fn postponed_fault(least: Moment, length: Duration) -> u32
    ensures { result ≡ first (postpone_faults length (plus least length)) }
{
    postpone_fault(length, least.plus(length))
}

// A call that is given nothing, or a number that is no call's.
#[tactic(auto, unfolding(state::specs::Faults::first))]
fn nothing_fault(call: u64) -> u32
    ensures { result ≡ first (cond (is_given_nothing call) [] no_call) }
{
    if is_given_nothing(call) { 0 } else { NO_CALL }
}

fn is_given_nothing(call: u64) -> bool
    ensures { result ≡ is_given_nothing call }
{
    matches!(call, 8 | 12..=14 | 19..=21 | 23..=38)
}
