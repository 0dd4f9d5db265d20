// The model: words 0 to 34 of the state.
// Words are put one by one: a literal of all of them would say less of which is which.
ghost use Rattle.std.specs.Prelude.{◌≡◌, [], ◌∷◌, ◌++◌};
ghost use Rattle.std.proofs.lemmas.List.Edits.{sets};
ghost use Rattle.words.specs.Word.{flag_word};
ghost use Rattle.layout.specs.NetworkModel.{rounds_of, round_of, lower_of, gains_of, growth_of, rates_of, model_from, rounds_words, maxbw_words, minrtt_words, round_words, latest_words, lower_words, gains_words, growth_words, rates_words, totals_words, model_words};

use filters::{MaxBandwidthFilter, MinRttFilter, RoundTripCounter};
use state::NetworkModel;
use state::parts::{Gains, Growth, Latest, Lower, Rates, Round, Totals};
use units::{Bandwidth, Duration, Moment};
use words::maybe::{maybe_of, pair_of};
use words::word::{float_of, float_word};

// ---- from words

// The model in the state's words.
#[tactic(auto, unfolding(crate::specs::NetworkModel::model_from))]
pub fn model_from(n: &[u64; 51]) -> NetworkModel
    ensures { result ≡ model_from n.now }
{
    NetworkModel {
        rounds: rounds_of(n),
        maxbw: MaxBandwidthFilter {
            slot0: Bandwidth(n[4]),
            slot1: Bandwidth(n[5]),
        },
        minrtt: MinRttFilter {
            rtt: Duration(n[6]),
            timestamp: Moment(n[7]),
        },
        round: round_of(n),
        latest: Latest {
            bandwidth: Bandwidth(n[13]),
            inflight: n[14],
        },
        lower: lower_of(n),
        high: n[18],
        gains: gains_of(n),
        cwndlimited: n[21] == 1,
        growth: growth_of(n),
        rates: rates_of(n),
        totals: Totals {
            acked: n[31],
            lost: n[32],
        },
        moment: Moment(n[33]),
        begun: n[34] == 1,
    }
}

fn rounds_of(n: &[u64; 51]) -> RoundTripCounter
    ensures { result ≡ rounds_of n.now }
{
    RoundTripCounter {
        count: n[0],
        sent: n[1],
        end: maybe_of(n[2], n[3]),
    }
}

fn round_of(n: &[u64; 51]) -> Round
    ensures { result ≡ round_of n.now }
{
    Round {
        lost: n[8],
        losses: n[9],
        delivered: n[10],
        mininflight: n[11],
        hilimited: n[12] == 1,
    }
}

fn lower_of(n: &[u64; 51]) -> Lower
    ensures { result ≡ lower_of n.now }
{
    Lower {
        bandwidth: maybe_of(n[15], n[16]),
        inflight: n[17],
    }
}

fn gains_of(n: &[u64; 51]) -> Gains
    ensures { result ≡ gains_of n.now }
{
    Gains {
        cwnd: float_of(n[19]),
        pacing: float_of(n[20]),
    }
}

fn growth_of(n: &[u64; 51]) -> Growth
    ensures { result ≡ growth_of n.now }
{
    Growth {
        reached: n[22] == 1,
        baseline: Bandwidth(n[23]),
        flat: n[24],
        queueing: n[25],
        ignore: n[26] == 1,
    }
}

fn rates_of(n: &[u64; 51]) -> Rates
    ensures { result ≡ rates_of n.now }
{
    Rates {
        send: maybe_of(n[27], n[28]),
        ack: maybe_of(n[29], n[30]),
    }
}

// ---- into words

// The state's words with the model's put in.
#[tactic(auto, unfolding(crate::specs::NetworkModel::model_words))]
pub(crate) fn with_model(n: [u64; 51], model: NetworkModel) -> [u64; 51]
    ensures { result ≡ sets n 0 (model_words model) }
{
    let n = with_rounds(n, model.rounds);
    let n = with_filters(n, model.maxbw, model.minrtt);
    let n = with_round(n, model.round);
    let n = with_bounds(n, model.latest, model.lower, model.high);
    let n = with_gains(n, model.gains, model.cwndlimited);
    let n = with_growth(n, model.growth);
    let n = with_rates(n, model.rates);
    with_totals(n, model.totals, model.moment, model.begun)
}

fn with_rounds(n: [u64; 51], rounds: RoundTripCounter) -> [u64; 51]
    ensures { result ≡ sets n 0 (rounds_words rounds) }
{
    let (set, end) = pair_of(rounds.end);
    let mut next = n;
    next[0] = rounds.count;
    next[1] = rounds.sent;
    next[2] = set;
    next[3] = end;
    next
}

fn with_filters(n: [u64; 51], most: MaxBandwidthFilter, least: MinRttFilter) -> [u64; 51]
    ensures { result ≡ sets n 4 (maxbw_words most ++ minrtt_words least) }
{
    let mut next = n;
    next[4] = most.slot0.0;
    next[5] = most.slot1.0;
    next[6] = least.rtt.0;
    next[7] = least.timestamp.0;
    next
}

fn with_round(n: [u64; 51], round: Round) -> [u64; 51]
    ensures { result ≡ sets n 8 (round_words round) }
{
    let mut next = n;
    next[8] = round.lost;
    next[9] = round.losses;
    next[10] = round.delivered;
    next[11] = round.mininflight;
    next[12] = u64::from(round.hilimited);
    next
}

fn with_bounds(n: [u64; 51], latest: Latest, lower: Lower, high: u64) -> [u64; 51]
    ensures { result ≡ sets n 13 (latest_words latest ++ lower_words lower ++ high ∷ []) }
{
    let (set, bandwidth) = pair_of(lower.bandwidth);
    let mut next = n;
    next[13] = latest.bandwidth.0;
    next[14] = latest.inflight;
    next[15] = set;
    next[16] = bandwidth;
    next[17] = lower.inflight;
    next[18] = high;
    next
}

fn with_gains(n: [u64; 51], gains: Gains, limited: bool) -> [u64; 51]
    ensures { result ≡ sets n 19 (gains_words gains ++ flag_word limited ∷ []) }
{
    let mut next = n;
    next[19] = float_word(gains.cwnd);
    next[20] = float_word(gains.pacing);
    next[21] = u64::from(limited);
    next
}

fn with_growth(n: [u64; 51], growth: Growth) -> [u64; 51]
    ensures { result ≡ sets n 22 (growth_words growth) }
{
    let mut next = n;
    next[22] = u64::from(growth.reached);
    next[23] = growth.baseline.0;
    next[24] = growth.flat;
    next[25] = growth.queueing;
    next[26] = u64::from(growth.ignore);
    next
}

fn with_rates(n: [u64; 51], rates: Rates) -> [u64; 51]
    ensures { result ≡ sets n 27 (rates_words rates) }
{
    let (send_set, send) = pair_of(rates.send);
    let (ack_set, ack) = pair_of(rates.ack);
    let mut next = n;
    next[27] = send_set;
    next[28] = send;
    next[29] = ack_set;
    next[30] = ack;
    next
}

fn with_totals(n: [u64; 51], totals: Totals, moment: Moment, begun: bool) -> [u64; 51]
    ensures { result ≡ sets n 31 (totals_words totals ++ moment.0 ∷ flag_word begun ∷ []) }
{
    let mut next = n;
    next[31] = totals.acked;
    next[32] = totals.lost;
    next[33] = moment.0;
    next[34] = u64::from(begun);
    next
}
