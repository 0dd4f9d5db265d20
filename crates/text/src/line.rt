// A line of a trace: what it asks, or the field at fault.
ghost use Rattle.std.specs.Prelude.{◌≡◌};
ghost use Rattle.text.specs.Line.{line_of, body_of, made_of, given};

use crate::fields::{cells, fault};
use crate::find::end_of;
use crate::number::Cell;
use crate::word::Kind;

// time, cwnd, inflight, number, acked, lost, bw, rtt, probing.
#[derive(Clone, Copy)]
pub struct Event {
    pub time: u64,
    pub cwnd: u64,
    pub inflight: u64,
    pub number: Option<u64>,
    pub acked: u64,
    pub lost: u64,
    pub bw: Option<u64>,
    pub rtt: Option<u64>,
    pub probing: bool,
}

#[derive(Clone, Copy)]
pub enum Line {
    Start {
        time: u64,
        rtt: u64,
    },
    Sent {
        time: u64,
        inflight: u64,
        number: u64,
        bytes: u64,
    },
    Event(Event),
}

// A line that is refused with 6: the first field at fault, or 0.
// It is a number, 0 where no field is at fault: the list of a mended trace writes it.
#[derive(Clone, Copy, Debug, PartialEq, Eq)]
pub struct BadField {
    pub field: u64,
}

// The number of a field that may be empty.
fn give(cell: Cell) -> Option<u64>
    ensures { result ≡ given cell }
{
    match cell {
        Cell::Empty => None,
        filled => Some(filled.number()),
    }
}

fn made(kind: Kind, cells: &[Cell; 10]) -> Line
    ensures { result ≡ made_of kind cells.now }
{
    let [
        time,
        cwnd,
        inflight,
        number,
        bytes,
        acked,
        lost,
        bw,
        rtt,
        probing,
    ] = *cells;
    match kind {
        Kind::Start => Line::Start {
            time: time.number(),
            rtt: rtt.number(),
        },
        Kind::Sent => Line::Sent {
            time: time.number(),
            inflight: inflight.number(),
            number: number.number(),
            bytes: bytes.number(),
        },
        Kind::Event => Line::Event(Event {
            time: time.number(),
            cwnd: cwnd.number(),
            inflight: inflight.number(),
            number: give(number),
            acked: acked.number(),
            lost: lost.number(),
            bw: give(bw),
            rtt: give(rtt),
            probing: probing.number() == 1,
        }),
    }
}

// A line without its CR LF.
fn body(s: &[u8]) -> Result<Line, BadField>
    ensures { result ≡ body_of s.now }
{
    let end = end_of(s, 0, b',');
    if end == s.len() {
        return Err(BadField { field: 0 });
    }
    let cells = cells(&s[end + 1..]).ok_or(BadField { field: 0 })?;
    let kind = Kind::named(&s[..end]).ok_or(BadField { field: 1 })?;
    match fault(&kind.rules(), &cells) {
        Some(field) => Err(BadField { field }),
        None => Ok(made(kind, &cells)),
    }
}

// A line with its end.
pub fn parse(s: &[u8]) -> Result<Line, BadField>
    ensures { result ≡ line_of s.now }
{
    if 4096 < s.len() {
        return Err(BadField { field: 0 });
    }
    body(s.strip_suffix(b"\r\n").ok_or(BadField { field: 0 })?)
}
