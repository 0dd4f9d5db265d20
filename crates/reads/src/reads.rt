// The calls that only answer.
// Document 01 names each call: one that reads a number is two lines.
ghost use Rattle.std.specs.Prelude.{◌≡◌, ◌&&◌, true, false, ◌*◌, ◌-◌, ◌^◌};
ghost use Rattle.units.specs.Reply.{number, fault, kept};
ghost use Rattle.filters.specs.MaxBandwidthFilter.{max_get};
ghost use Rattle.state.specs.Answers.{settled, zero_bandwidth, zero_length, zero_moment, zero_gain};
ghost use Rattle.state.specs.Bounds.{bandwidth_ok, gain_ok};
ghost use Rattle.state.specs.Faults.{first, named, bdp_faults, bdp1_faults};
ghost use Rattle.state.specs.NetworkModel.{one, stored_number, given_number, bdp_of, headroom_number};
ghost use Rattle.reads.specs.Reads.{estimate_of, headroom_of};

use state::bounds::{UNSET, bandwidth_ok, gain_ok};
use state::faults::{bdp_fault, bdp1_fault};
use state::{NetworkModel, Params};
use units::{Bandwidth, Duration, Moment, Refusal};

// The bytes that a bandwidth times a gain carries in the minimum round trip.
pub fn bdp(model: NetworkModel, bandwidth: Bandwidth, gain: f32) -> Result<u64, Refusal>
    ensures reply { number result ≡ given_number model (bandwidth_ok bandwidth && gain_ok gain) }
    ensures value { kept result 0 ≡ settled (given_number model (bandwidth_ok bandwidth && gain_ok gain))
        (bdp_of model bandwidth gain)
        0 }
    ensures fault { fault result ≡ named (given_number model (bandwidth_ok bandwidth && gain_ok gain))
        (first (bdp_faults bandwidth true gain)) }
{
    let fine = bandwidth_ok(bandwidth) & gain_ok(gain);
    model.given(fine, bdp_fault(bandwidth, true, gain))?;
    Ok(model.bdp_of(bandwidth, gain))
}

// The same with a gain of 1.
pub fn bdp1(model: NetworkModel, bandwidth: Bandwidth) -> Result<u64, Refusal>
    ensures reply { number result ≡ given_number model (bandwidth_ok bandwidth) }
    ensures value { kept result 0 ≡ settled (given_number model (bandwidth_ok bandwidth))
        (bdp_of model bandwidth one)
        0 }
    ensures fault { fault result ≡ named (given_number model (bandwidth_ok bandwidth))
        (first (bdp1_faults bandwidth)) }
{
    model.given(bandwidth_ok(bandwidth), bdp1_fault(bandwidth))?;
    Ok(model.bdp_of(bandwidth, 1.0))
}

// The same of the maximum bandwidth.
pub fn bdp0(model: NetworkModel) -> Result<u64, Refusal>
    ensures reply { number result ≡ stored_number model }
    ensures value { kept result 0 ≡ settled (stored_number model) (bdp_of model (max_get model.maxbw) one) 0 }
{
    model.stored()?;
    Ok(model.bdp_of(model.maxbw.get(), 1.0))
}

// inflight_hi less the headroom that the parameters ask for.
pub fn inflight_hi_with_headroom(model: NetworkModel, params: Params) -> Result<u64, Refusal>
    ensures reply { number result ≡ headroom_number model params }
    ensures value { kept result 0 ≡ settled (headroom_number model params)
        (headroom_of model.high params.headroom)
        0 }
{
    model.stored_with(params)?;
    Ok(
        model
            .high
            .saturating_sub(numbers::scale(model.high, params.headroom)),
    )
}

// The smaller of bandwidth_lo, if it is set, and the maximum.
pub fn bandwidth_estimate(model: NetworkModel) -> Result<Bandwidth, Refusal>
    ensures reply { number result ≡ stored_number model }
    ensures bandwidth { kept result zero_bandwidth ≡ settled (stored_number model)
        (estimate_of model.lower.bandwidth (max_get model.maxbw))
        zero_bandwidth }
{
    model.stored()?;
    let most = model.maxbw.get();
    Ok(model.lower.bandwidth.map_or(most, |lo| lo.min(most)))
}

pub fn max_bandwidth(model: NetworkModel) -> Result<Bandwidth, Refusal>
    ensures reply { number result ≡ stored_number model }
    ensures bandwidth { kept result zero_bandwidth ≡ settled (stored_number model) (max_get model.maxbw) zero_bandwidth }
{
    model.stored()?;
    Ok(model.maxbw.get())
}

pub fn min_rtt(model: NetworkModel) -> Result<Duration, Refusal>
    ensures reply { number result ≡ stored_number model }
    ensures length { kept result zero_length ≡ settled (stored_number model) model.minrtt.rtt zero_length }
{
    model.stored()?;
    Ok(model.minrtt.get())
}

pub fn min_rtt_timestamp(model: NetworkModel) -> Result<Moment, Refusal>
    ensures reply { number result ≡ stored_number model }
    ensures moment { kept result zero_moment ≡ settled (stored_number model) model.minrtt.timestamp zero_moment }
{
    model.stored()?;
    Ok(model.minrtt.get_timestamps())
}

pub fn full_bandwidth_reached(model: NetworkModel) -> Result<bool, Refusal>
    ensures reply { number result ≡ stored_number model }
    ensures yes { kept result false ≡ settled (stored_number model) model.growth.reached false }
{
    model.stored()?;
    Ok(model.growth.reached)
}

pub fn pacing_gain(model: NetworkModel) -> Result<f32, Refusal>
    ensures reply { number result ≡ stored_number model }
    ensures gain { kept result zero_gain ≡ settled (stored_number model) model.gains.pacing zero_gain }
{
    model.stored()?;
    Ok(model.gains.pacing)
}

pub fn cwnd_gain(model: NetworkModel) -> Result<f32, Refusal>
    ensures reply { number result ≡ stored_number model }
    ensures gain { kept result zero_gain ≡ settled (stored_number model) model.gains.cwnd zero_gain }
{
    model.stored()?;
    Ok(model.gains.cwnd)
}

pub fn max_bytes_delivered_in_round(model: NetworkModel) -> Result<u64, Refusal>
    ensures reply { number result ≡ stored_number model }
    ensures value { kept result 0 ≡ settled (stored_number model) model.round.delivered 0 }
{
    model.stored()?;
    Ok(model.round.delivered)
}

pub fn total_bytes_acked(model: NetworkModel) -> Result<u64, Refusal>
    ensures reply { number result ≡ stored_number model }
    ensures value { kept result 0 ≡ settled (stored_number model) model.totals.acked 0 }
{
    model.stored()?;
    Ok(model.totals.acked)
}

pub fn total_bytes_lost(model: NetworkModel) -> Result<u64, Refusal>
    ensures reply { number result ≡ stored_number model }
    ensures value { kept result 0 ≡ settled (stored_number model) model.totals.lost 0 }
{
    model.stored()?;
    Ok(model.totals.lost)
}

pub fn inflight_hi(model: NetworkModel) -> Result<u64, Refusal>
    ensures reply { number result ≡ stored_number model }
    ensures value { kept result 0 ≡ settled (stored_number model) model.high 0 }
{
    model.stored()?;
    Ok(model.high)
}

pub fn inflight_lo(model: NetworkModel) -> Result<u64, Refusal>
    ensures reply { number result ≡ stored_number model }
    ensures value { kept result 0 ≡ settled (stored_number model) model.lower.inflight 0 }
{
    model.stored()?;
    Ok(model.lower.inflight)
}

pub fn loss_events_in_round(model: NetworkModel) -> Result<u64, Refusal>
    ensures reply { number result ≡ stored_number model }
    ensures value { kept result 0 ≡ settled (stored_number model) model.round.losses 0 }
{
    model.stored()?;
    Ok(model.round.losses)
}

pub fn rounds_with_queueing(model: NetworkModel) -> Result<u64, Refusal>
    ensures reply { number result ≡ stored_number model }
    ensures value { kept result 0 ≡ settled (stored_number model) model.growth.queueing 0 }
{
    model.stored()?;
    Ok(model.growth.queueing)
}

// What stands for an unset inflight_hi.
pub fn inflight_hi_default(model: NetworkModel) -> Result<u64, Refusal>
    ensures reply { number result ≡ stored_number model }
    ensures value { kept result 0 ≡ settled (stored_number model) (2 ^ 64 - 1) 0 }
{
    model.stored()?;
    Ok(UNSET)
}

// Two segments.
pub fn queueing_threshold_extra_bytes(model: NetworkModel) -> Result<u64, Refusal>
    ensures reply { number result ≡ stored_number model }
    ensures value { kept result 0 ≡ settled (stored_number model) (2 * 1300) 0 }
{
    model.stored()?;
    Ok(2 * NetworkModel::DEFAULT_MSS)
}
