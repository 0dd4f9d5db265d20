// A replay: the state after a line, and the row that shows it.
ghost use Rattle.std.specs.Prelude.{◌≡◌, false};
ghost use Rattle.units.specs.Reply.{row_of, fault_of, number, fault, kept, reply_word, kind_in};
ghost use Rattle.trace.specs.Replay.{begin, bound, state_of, part_of, answered, counted, start_read, sent_read, event_read, read_line, stepped};

use crate::made::{occur, original_params};
use crate::tally::Tally;
use changes::on_packet_sent;
use rows::row::{Row, State};
use state::NetworkModel;
use state::bounds::UNSET;
use text::line::{BadField, Event, Line, parse};
use units::{Duration, Moment, Refusal};

// How many lines were answered, whether a start was accepted, the model, and what a summary counts.
#[derive(Clone, Copy)]
pub struct Replay {
    pub line: u64,
    // Beside the model, which the definitions read before a start too.
    pub started: bool,
    pub model: NetworkModel,
    pub tally: Tally,
}

// The replay after a line, and the row that answers it.
#[derive(Clone, Copy)]
pub struct Stepped {
    pub replay: Replay,
    pub row: Row,
}

// A bound as it is shown.
#[tactic(auto, unfolding(crate::specs::Replay::bound))]
fn bound_of(n: u64) -> Option<u64>
    ensures { result ≡ bound n }
{
    if n == UNSET { None } else { Some(n) }
}

// What a row shows of a model.
#[tactic(auto, unfolding(crate::specs::Replay::state_of))]
fn state_of(model: NetworkModel) -> State
    ensures { result ≡ state_of model }
{
    State {
        round: model.rounds.count,
        maxbw: model.maxbw.get().0,
        lo: bound_of(model.lower.inflight),
        hi: bound_of(model.high),
    }
}

// The part of a refusal: the kind of the bound.
fn part_of(refusal: Refusal) -> Option<u64>
    ensures { result ≡ part_of (kind_in (reply_word (row_of refusal) (fault_of refusal))) }
{
    let kind = refusal.word() / 256 % 256;
    if kind == 0 { None } else { Some(kind) }
}

impl Replay {
    // Before the first line.
    #[tactic(auto, unfolding(crate::specs::Replay::begin, state::specs::NetworkModel::start_model))]
    pub fn new() -> Replay
        ensures { result ≡ begin }
    {
        Replay {
            line: 0,
            started: false,
            model: NetworkModel::new(original_params(), Duration(0), Moment(0)).unwrap_or_default(),
            tally: Tally::NONE,
        }
    }

    // The next line is counted.
    #[tactic(auto, unfolding(crate::specs::Replay::counted, crate::specs::Tally::one_more))]
    fn count(self) -> Replay
        ensures { result ≡ counted self }
    {
        Replay {
            line: self.line.saturating_add(1),
            ..self
        }
    }

    // A line's row, and the tally with it; a line that is done says whether a round ended with it.
    #[tactic(auto, unfolding(crate::specs::Replay::answered, crate::specs::Replay::row_of))]
    fn answer(self, reply: Result<bool, Refusal>) -> Stepped
        ensures { result ≡ answered (number reply) (part_of (kind_in (reply_word (number reply) (fault reply)))) (kept reply false) self }
    {
        let (refusal, part) = match reply {
            Ok(_) => (0, None),
            Err(refusal) => (refusal.row(), part_of(refusal)),
        };
        let row = Row {
            line: self.line,
            refusal,
            part,
            state: self.started.then_some(state_of(self.model)),
        };
        let ended = reply.unwrap_or(false);
        let tally = self.tally.count(ended, self.model.lower.inflight, row);
        let replay = Replay { tally, ..self };
        Stepped { replay, row }
    }

    // A start that is done begins afresh.
    #[tactic(auto, unfolding(crate::specs::Replay::start_read, crate::specs::Replay::answered_by, state::specs::Answers::settled, state::specs::Faults::named, state::specs::NetworkModel::start_model))]
    fn start(self, time: u64, rtt: u64) -> Stepped
        ensures { result ≡ start_read self time rtt }
    {
        match NetworkModel::new(original_params(), Duration(rtt), Moment(time)) {
            Ok(model) => {
                let next = Replay {
                    started: true,
                    model,
                    ..self
                };
                next.answer(Ok(false))
            }
            Err(refusal) => self.answer(Err(refusal)),
        }
    }

    #[tactic(auto, unfolding(crate::specs::Replay::sent_read, crate::specs::Replay::answered_by, state::specs::Answers::settled, state::specs::Faults::named))]
    fn sent(mut self, time: u64, inflight: u64, packet: u64, bytes: u64) -> Stepped
        ensures { result ≡ sent_read self time inflight packet bytes }
    {
        if !self.started {
            return self.answer(Err(Refusal::BadText));
        }
        let sent = on_packet_sent(&mut self.model, Moment(time), inflight, packet, bytes);
        self.answer(sent.and(Ok(false)))
    }

    #[tactic(auto, unfolding(crate::specs::Replay::event_read, crate::specs::Replay::answered_by))]
    fn event(mut self, e: Event) -> Stepped
        ensures { result ≡ event_read self e }
    {
        if !self.started {
            return self.answer(Err(Refusal::BadText));
        }
        let occurred = occur(&mut self.model, e);
        self.answer(occurred)
    }

    // A line, as it is read.
    #[tactic(auto, unfolding(crate::specs::Replay::read_line))]
    fn read(self, l: Result<Line, BadField>) -> Stepped
        ensures { result ≡ read_line self l }
    {
        let next = self.count();
        match l {
            Err(_) => next.answer(Err(Refusal::BadText)),
            Ok(Line::Start { time, rtt }) => next.start(time, rtt),
            Ok(
                Line::Sent {
                    time,
                    inflight,
                    number,
                    bytes,
                },
            ) => next.sent(time, inflight, number, bytes),
            Ok(Line::Event(e)) => next.event(e),
        }
    }

    // A line, by its bytes.
    #[tactic(auto, unfolding(crate::specs::Replay::stepped))]
    pub fn step(self, s: &[u8]) -> Stepped
        ensures { result ≡ stepped self s.now }
    {
        self.read(parse(s))
    }
}
