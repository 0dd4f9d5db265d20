// The calls that change the model and carry no event.
// Document 01 names each call, the two gains and the plain ones too: each is two or three lines.
ghost use Rattle.std.specs.Prelude.{◌≡◌, true, ◌+◌, leb};
ghost use Rattle.units.specs.Reply.{number, fault};
ghost use Rattle.state.specs.Answers.{settled};
ghost use Rattle.state.specs.NetworkModel.{model_ok, stored_number, given_number, restart_next, with_high, cap_next, clear_inflight_next, clear_bandwidth_next, advance_next};
ghost use Rattle.state.specs.Faults.{first, named, sent_faults, gain_faults, limit_faults, postpone_faults};
ghost use Rattle.state.specs.Bounds.{bytes_or_unset_ok, gain_ok};
ghost use Rattle.state.specs.Refusals.{caused};
ghost use Rattle.changes.specs.Changes.{sent_number, sent_next, reached_next, pacing_next, cwnd_next, postponed, postpone_number, postpone_next};

use state::NetworkModel;
use state::bounds::{bytes_ok, bytes_or_unset_ok, gain_ok, length_ok, moment_ok};
use state::faults::{gain_fault, limit_fault, postpone_fault, sent_fault};
use state::refusals::{Cause, Rows};
use units::{Duration, Moment, Refusal};

// A packet is sent, of so many bytes, while so many were in flight.
pub fn on_packet_sent(
    model: &mut NetworkModel,
    now: Moment,
    inflight: u64,
    packet: u64,
    bytes: u64,
) -> Result<(), Refusal>
    ensures reply { number result ≡ sent_number model.old now inflight bytes }
    ensures model { model.new ≡ settled (sent_number model.old now inflight bytes)
        (sent_next model.old now inflight packet bytes)
        model.old }
    ensures fault { fault result ≡ named (sent_number model.old now inflight bytes)
        (first (sent_faults now inflight bytes)) }
{
    let fine = model.ok();
    let refused = |cause: Cause| cause.named(sent_fault(now, inflight, bytes));
    sent_tested(model, fine, now, inflight, packet, bytes).map_err(refused)
}

// The same for a run, where it is known whether the model is within its bounds. `fine` is no invariant of a type: that calls
// keep it is proved of their contracts, in crates/laws.
pub fn sent_tested(
    model: &mut NetworkModel,
    fine: bool,
    now: Moment,
    inflight: u64,
    packet: u64,
    bytes: u64,
) -> Result<(), Cause>
    requires { fine ≡ model_ok model.now }
    ensures row { caused result ≡ sent_number model.old now inflight bytes }
    ensures model { model.new ≡ settled (sent_number model.old now inflight bytes)
        (sent_next model.old now inflight packet bytes)
        model.old }
{
    let given = moment_ok(now) & bytes_ok(inflight) & bytes_ok(bytes);
    let rows = Rows {
        stored: !fine,
        argument: !given,
        earlier: now < model.moment,
        ..Rows::NONE
    };
    rows.first()?;
    let hit = reaches(model.high, inflight, bytes);
    model.round = model.round.sent(inflight, hit);
    model.rounds = model.rounds.on_packet_sent(packet);
    model.moment = now;
    model.begun = true;
    Ok(())
}

// Whether inflight and bytes together reach the bound.
fn reaches(high: u64, inflight: u64, bytes: u64) -> bool
    ensures { result ≡ leb high (inflight + bytes) }
{
    high.saturating_sub(inflight) <= bytes
}

// The round begins anew before its end, uncounted.
pub fn restart_round_early(model: &mut NetworkModel) -> Result<(), Refusal>
    ensures reply { number result ≡ stored_number model.old }
    ensures model { model.new ≡ settled (stored_number model.old) (restart_next model.old) model.old }
{
    model.stored()?;
    *model = model.restart_next();
    Ok(())
}

// The bottleneck's bandwidth has been found.
pub fn set_full_bandwidth_reached(model: &mut NetworkModel) -> Result<(), Refusal>
    ensures reply { number result ≡ stored_number model.old }
    ensures model { model.new ≡ settled (stored_number model.old) (reached_next model.old) model.old }
{
    model.stored()?;
    model.growth.reached = true;
    Ok(())
}

pub fn set_pacing_gain(model: &mut NetworkModel, gain: f32) -> Result<(), Refusal>
    ensures reply { number result ≡ given_number model.old (gain_ok gain) }
    ensures model { model.new ≡ settled (given_number model.old (gain_ok gain))
        (pacing_next model.old gain)
        model.old }
    ensures fault { fault result ≡ named (given_number model.old (gain_ok gain)) (first (gain_faults true gain)) }
{
    model.given(gain_ok(gain), gain_fault(true, gain))?;
    model.gains.pacing = gain;
    Ok(())
}

pub fn set_cwnd_gain(model: &mut NetworkModel, gain: f32) -> Result<(), Refusal>
    ensures reply { number result ≡ given_number model.old (gain_ok gain) }
    ensures model { model.new ≡ settled (given_number model.old (gain_ok gain))
        (cwnd_next model.old gain)
        model.old }
    ensures fault { fault result ≡ named (given_number model.old (gain_ok gain)) (first (gain_faults true gain)) }
{
    model.given(gain_ok(gain), gain_fault(true, gain))?;
    model.gains.cwnd = gain;
    Ok(())
}

pub fn set_inflight_hi(model: &mut NetworkModel, bytes: u64) -> Result<(), Refusal>
    ensures reply { number result ≡ given_number model.old (bytes_or_unset_ok bytes) }
    ensures model { model.new ≡ settled (given_number model.old (bytes_or_unset_ok bytes))
        (with_high model.old bytes)
        model.old }
    ensures fault { fault result ≡ named (given_number model.old (bytes_or_unset_ok bytes))
        (first (limit_faults bytes)) }
{
    model.given(bytes_or_unset_ok(bytes), limit_fault(bytes))?;
    model.high = bytes;
    Ok(())
}

// inflight_lo becomes at most the cap; an unset one stays so.
pub fn cap_inflight_lo(model: &mut NetworkModel, cap: u64) -> Result<(), Refusal>
    ensures reply { number result ≡ given_number model.old (bytes_or_unset_ok cap) }
    ensures model { model.new ≡ settled (given_number model.old (bytes_or_unset_ok cap))
        (cap_next model.old cap)
        model.old }
    ensures fault { fault result ≡ named (given_number model.old (bytes_or_unset_ok cap)) (first (limit_faults cap)) }
{
    model.given(bytes_or_unset_ok(cap), limit_fault(cap))?;
    *model = model.cap_next(cap);
    Ok(())
}

pub fn clear_inflight_lo(model: &mut NetworkModel) -> Result<(), Refusal>
    ensures reply { number result ≡ stored_number model.old }
    ensures model { model.new ≡ settled (stored_number model.old) (clear_inflight_next model.old) model.old }
{
    model.stored()?;
    *model = model.clear_inflight_next();
    Ok(())
}

pub fn clear_bandwidth_lo(model: &mut NetworkModel) -> Result<(), Refusal>
    ensures reply { number result ≡ stored_number model.old }
    ensures model { model.new ≡ settled (stored_number model.old) (clear_bandwidth_next model.old) model.old }
{
    model.stored()?;
    *model = model.clear_bandwidth_next();
    Ok(())
}

pub fn advance_max_bandwidth_filter(model: &mut NetworkModel) -> Result<(), Refusal>
    ensures reply { number result ≡ stored_number model.old }
    ensures model { model.new ≡ settled (stored_number model.old) (advance_next model.old) model.old }
{
    model.stored()?;
    *model = model.advance_next();
    Ok(())
}

// The moment of the minimum round trip is put off.
pub fn postpone_min_rtt_timestamp(model: &mut NetworkModel, length: Duration) -> Result<(), Refusal>
    ensures reply { number result ≡ postpone_number model.old length }
    ensures model { model.new ≡ settled (postpone_number model.old length)
        (postpone_next model.old length)
        model.old }
    ensures fault { fault result ≡ named (postpone_number model.old length)
        (first (postpone_faults length (postponed model.old length))) }
{
    let least = model.minrtt;
    let moment = least.timestamp.plus(length);
    model.given(
        length_ok(length) & moment_ok(moment),
        postpone_fault(length, moment),
    )?;
    model.minrtt = least.force_update(least.rtt, moment);
    Ok(())
}
