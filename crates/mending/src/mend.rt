// One line of a trace that is mended: it is kept, or listed.
ghost use Rattle.std.specs.Prelude.{◌≡◌, true, false, ◌||◌};
ghost use Rattle.mending.specs.Sorted.{unread, keeps, lists, sorted_as, sorted};

use text::line::{BadField, Line, parse};
use trace::made::is_begun;
use trace::placed::placed;

// How many lines were read, how many of them kept and how many listed, and whether a start was accepted.
#[derive(Clone, Copy)]
pub struct Mend {
    pub line: u64,
    pub kept: u64,
    pub listed: u64,
    pub started: bool,
}

// What is known after a line, and whether it is kept, or else the first field at fault.
#[derive(Clone, Copy)]
pub struct Sorted {
    pub mend: Mend,
    pub reply: Result<(), BadField>,
}

impl Mend {
    // Before the first line.
    pub fn new() -> Mend
        ensures { result ≡ unread }
    {
        Mend {
            line: 0,
            kept: 0,
            listed: 0,
            started: false,
        }
    }

    // A line that is kept; it may be a start that is accepted.
    #[tactic(auto, unfolding(crate::specs::Sorted::keeps, trace::specs::Tally::one_more))]
    fn keep(self, begun: bool) -> Sorted
        ensures { result ≡ keeps self begun }
    {
        Sorted {
            mend: Mend {
                line: self.line.saturating_add(1),
                kept: self.kept.saturating_add(1),
                started: self.started | begun,
                ..self
            },
            reply: Ok(()),
        }
    }

    // A line that gives 6.
    #[tactic(auto, unfolding(crate::specs::Sorted::lists, trace::specs::Tally::one_more))]
    fn list(self, bad: BadField) -> Sorted
        ensures { result ≡ lists self bad.field }
    {
        Sorted {
            mend: Mend {
                line: self.line.saturating_add(1),
                listed: self.listed.saturating_add(1),
                ..self
            },
            reply: Err(bad),
        }
    }

    // A line, as it is read.
    #[tactic(auto, unfolding(crate::specs::Sorted::sorted_as, crate::specs::Sorted::sorted_here))]
    fn sort(self, l: Result<Line, BadField>) -> Sorted
        ensures { result ≡ sorted_as self l }
    {
        match placed(self.started, l) {
            Err(bad) => self.list(bad),
            Ok(Line::Start { time, rtt }) => self.keep(is_begun(time, rtt)),
            Ok(Line::Sent { .. } | Line::Event(_)) => self.keep(false),
        }
    }

    // A line, by its bytes.
    #[tactic(auto, unfolding(crate::specs::Sorted::sorted))]
    pub fn take(self, s: &[u8]) -> Sorted
        ensures { result ≡ sorted self s.now }
    {
        self.sort(parse(s))
    }
}
