// Three rounds with a loss at beta 0.3: inflight_lo as the port has it, beside its exact value.
use crate::exact::{Exact, reduced};
use crate::table::{column, decimals, text};
use changes::on_packet_sent;
use events::{on_congestion_event_finish, on_congestion_event_start};
use reads::inflight_lo;
use state::congestion_event::{CongestionEvent, CongestionEventSample, SendTimeState};
use state::parts::Totals;
use state::{NetworkModel, Params};
use units::{Duration, Moment, Refusal};

const WINDOW: u64 = 1_300;

// The original's own. In trace too, which keeps them to itself: what a reader copies from stands by itself.
fn params() -> Params {
    Params {
        beta: 0.3,
        loss: 0.015,
        headroom: 0.15,
        growth: 1.25,
        cwnd: 2.0,
        pacing: 2.773,
        rounds: 3,
        queueing: 0,
        period: Duration(10_000_000_000),
        base: Duration(2_000_000_000),
        ignore: true,
    }
}

fn no_state() -> SendTimeState {
    SendTimeState {
        valid: false,
        applimited: false,
        acked: 0,
        inflight: 0,
    }
}

// What is known of an event before it is told to the model: its moment and the window.
fn event_at(time: Moment) -> CongestionEvent {
    CongestionEvent {
        time,
        window: WINDOW,
        prior: WINDOW,
        inflight: 0,
        acked: 0,
        lost: 0,
        ended: false,
        probing: false,
        bandwidth: None,
        rtt: None,
        state: no_state(),
    }
}

// A sampler's answer that knows no more than what was lost.
fn lost_by(lost: u64) -> CongestionEventSample {
    CongestionEventSample {
        bandwidth: None,
        send: None,
        ack: None,
        applimited: false,
        rtt: None,
        inflight: 0,
        extra: 0,
        state: no_state(),
        totals: Totals { acked: 0, lost },
    }
}

// The event of a round: it acks the packet, which ends the round, and tells what was lost so far.
fn lossy_event(
    model: &mut NetworkModel,
    time: Moment,
    packet: u64,
    lost: u64,
) -> Result<(), Refusal> {
    let mut event = event_at(time);
    on_congestion_event_start(model, params(), &mut event, lost_by(lost), &[packet])?;
    on_congestion_event_finish(model, event)
}

// A round: a packet is sent, another is lost, and the ack of the first ends the round.
fn lossy_round(
    model: &mut NetworkModel,
    time: Moment,
    packet: u64,
    lost: u64,
) -> Result<(), Refusal> {
    on_packet_sent(model, time, 0, packet, WINDOW)?;
    lossy_event(model, time, packet, lost)
}

// A round's line. After k reductions the two are less than k bytes apart.
fn line(rt: &impl Print, round: u64, bytes: u64, exact: Exact) {
    column(rt, round, 9);
    column(rt, bytes, 14);
    decimals(rt, exact.thousandths, 25);
    column(rt, round, 21);
    text(rt, b"\n");
}

// Makes a round and shows its line, unless a call in it is refused.
fn shown(
    rt: &impl Print,
    model: &mut NetworkModel,
    time: Moment,
    round: u64,
    lost: u64,
    exact: Exact,
) -> Result<(), Refusal> {
    lossy_round(model, time, round, lost)?;
    line(rt, round, inflight_lo(*model)?, exact);
    Ok(())
}

// The three rounds, as far as no call is refused.
fn rounds(rt: &impl Print) -> Result<(), Refusal> {
    let start = Exact {
        thousandths: 1_300_000,
        first: 0,
        second: 0,
        third: 0,
    };
    let first = reduced(start);
    let second = reduced(first);
    let third = reduced(second);
    let mut model = NetworkModel::new(params(), Duration(100_000_000), Moment(0))?;
    shown(rt, &mut model, Moment(100_000_000), 1, 1_300, first)?;
    shown(rt, &mut model, Moment(200_000_000), 2, 2_600, second)?;
    shown(rt, &mut model, Moment(300_000_000), 3, 3_900, third)
}

// Whether every call was done. If not, the number of the refusal is shown.
pub fn episode(rt: &impl Print) -> bool {
    text(
        rt,
        b"Three rounds with a loss at beta 0.3, in a window of 1300 bytes. b = 1 - beta = 11744051 / 2^24\n\n",
    );
    text(
        rt,
        b"  round k   inflight_lo   1300 b^k, rounded down   bytes apart, under\n",
    );
    if let Err(refusal) = rounds(rt) {
        text(rt, b"refused");
        column(rt, refusal.row(), 2);
        text(rt, b"\n");
        return false;
    }
    text(
        rt,
        b"\nAfter any number of rounds: under 3.34 bytes apart (crates/drift/specs/Drift.antt)\n\n",
    );
    true
}
