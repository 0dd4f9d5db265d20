// A row: line, refusal, round, max_bw, lo, hi.
ghost use Rattle.std.specs.Prelude.{◌≡◌, ◌+◌, ◌≤◌, length};
ghost use Rattle.rows.specs.Digits.{Put, Puts};
ghost use Rattle.rows.specs.Row.{given_text, refusal_text, state_text, row_text};

use crate::digits::Writer;

// What is shown of a state: its round count, the largest bandwidth, inflight_lo and inflight_hi.
#[derive(Clone, Copy)]
pub struct State {
    pub round: u64,
    pub maxbw: u64,
    pub lo: Option<u64>,
    pub hi: Option<u64>,
}

// The line's number, its refusal with the part of a 2, and the state, if it is shown.
#[derive(Clone, Copy)]
pub struct Row {
    pub line: u64,
    // A number, 0 where the line is done: the row writes it, and the theorems of a trace compare it.
    pub refusal: u64,
    pub part: Option<u64>,
    pub state: Option<State>,
}

impl Writer<'_> {
    // Unset, or a number.
    fn given(&mut self, g: Option<u64>)
        requires { self.old.at + 20 ≤ length self.old.out.now }
        ensures { Puts self.old self.new (given_text g) 20 }
    {
        if let Some(n) = g {
            self.decimal(n);
        }
    }

    // A refusal, with its part if it has one: 2.3.
    fn refusal(&mut self, refusal: u64, part: Option<u64>)
        requires { self.old.at + 41 ≤ length self.old.out.now }
        ensures { Puts self.old self.new (refusal_text refusal part) 41 }
    {
        self.decimal(refusal);
        if let Some(part) = part {
            self.byte(b'.');
            self.decimal(part);
        }
    }

    // The state's columns, empty where it is not shown.
    fn state(&mut self, shown: Option<State>)
        requires { self.old.at + 83 ≤ length self.old.out.now }
        ensures { Puts self.old self.new (state_text shown) 83 }
    {
        match shown {
            None => {
                self.byte(b',');
                self.byte(b',');
                self.byte(b',');
            }
            Some(s) => {
                self.decimal(s.round);
                self.byte(b',');
                self.decimal(s.maxbw);
                self.byte(b',');
                self.given(s.lo);
                self.byte(b',');
                self.given(s.hi);
            }
        }
    }
}

// Writes a row at an index, and answers the index after it.
pub fn put_row(out: &mut [u8], at: usize, r: Row) -> usize
    requires { at + 148 ≤ length out.old }
    ensures { Put out.old out.new at (row_text r) result }
{
    let mut w = Writer { out, at };
    w.decimal(r.line);
    w.byte(b',');
    w.refusal(r.refusal, r.part);
    w.byte(b',');
    w.state(r.state);
    w.byte(b'\r');
    w.byte(b'\n');
    w.at
}
